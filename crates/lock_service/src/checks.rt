//! What a call is refused for before the rules of its procedure: its file handle, its range, the phase.
ghost use Rattle.std.specs.Prelude.{◌≡◌, ◌≤◌, ◌<◌, ◌^◌, true, false, Some, None, IfSome, IfNone, IfOk, IfErr};
ghost use Rattle.definitions.specs.Ranges.{is_stale, is_too_far, last_of as last_byte, range_refusal, file_refusal};
ghost use Rattle.grace.specs.Meanings.{view_of_kind};
ghost use Rattle.nlm4_types.specs.Lock.{view_of_lock};
ghost use Rattle.nlm4_types.specs.Stat.{view_of_stat};
ghost use Rattle.definitions.specs.Nlm.{is_denial};
ghost use Rattle.lock_service.specs.Places.{IsPlaceOf};

use grace::{CallKind, admits};
use hosts_db::HostStore;
use lock_state::World;
use nlm4_types::{Lock, Stat, TOP, WIDE};
use range_table::{ByteRange, FileId, RangeTable};

/// The bytes that a call names.
#[derive(Clone, Copy)]
pub(crate) struct CallRange {
    pub file: FileId,
    pub range: ByteRange,
}

/// The bytes that a lock call names, or what it is refused for.
pub(crate) fn place_of<R: RangeTable, S: HostStore>(
    world: &World<R, S>,
    kind: CallKind,
    alock: &Lock<'_, WIDE>,
) -> Result<CallRange, Stat>
    ensures ok { IfOk result (λ p. IsPlaceOf world.now.world (view_of_kind kind) (view_of_lock alock.now) p.file p.range.first p.range.last) }
    ensures err { IfErr result (λ stat. range_refusal world.now.world (view_of_kind kind) (view_of_lock alock.now) ≡ Some (view_of_stat stat)) }
    ensures other { IfErr result (λ stat. is_denial (view_of_stat stat) ≡ false) }
{
    let Some(file) = file_of(alock.fh.bytes) else {
        return Err(Stat::StaleFh);
    };
    let Some(range) = range_of(alock.l_offset, alock.l_len) else {
        return Err(Stat::Fbig);
    };
    if !admits(world.phase(), &kind) {
        return Err(Stat::DeniedGracePeriod);
    }
    Ok(CallRange { file, range })
}

/// What a call about a whole file is refused for.
pub(crate) fn check_file<R: RangeTable, S: HostStore>(
    world: &World<R, S>,
    kind: CallKind,
    fh: &[u8],
) -> Result<(), Stat>
    ensures ok { IfOk result (λ checked. file_refusal world.now.world (view_of_kind kind) fh.now ≡ None) }
    ensures err { IfErr result (λ stat. file_refusal world.now.world (view_of_kind kind) fh.now ≡ Some (view_of_stat stat)) }
{
    if file_of(fh).is_none() {
        return Err(Stat::StaleFh);
    }
    if !admits(world.phase(), &kind) {
        return Err(Stat::DeniedGracePeriod);
    }
    Ok(())
}

// The file of a handle, which has 1 to 64 bytes.
fn file_of(fh: &[u8]) -> Option<FileId>
    ensures some { IfSome result (λ file. (is_stale fh.now ≡ false) × (file ≡ fh.now)) }
    ensures none { IfNone result (is_stale fh.now ≡ true) }
{
    if fh.is_empty() || fh.len() > 64 {
        return None;
    }
    Some(FileId::new(fh))
}

// The bytes from this offset on that a file can have, where it can have so many. The length 0 is to the last byte.
pub(crate) fn range_of(offset: u64, len: u64) -> Option<ByteRange>
    ensures some { IfSome result (λ range. (is_too_far offset len ≡ false) × (range.first ≡ offset) × (range.last ≡ last_byte offset len)) }
    ensures none { IfNone result (is_too_far offset len ≡ true) }
{
    if offset > TOP {
        return None;
    }
    if len == 0 {
        return Some(ByteRange {
            first: offset,
            last: TOP,
        });
    }
    if len - 1 > TOP - offset {
        return None;
    }
    Some(ByteRange {
        first: offset,
        last: offset + (len - 1),
    })
}
