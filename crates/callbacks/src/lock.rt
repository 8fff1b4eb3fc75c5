//! Locks as they were asked for.
ghost use Rattle.std.specs.Prelude.{◌≡◌, ◌≤◌, ◌<◌, ◌^◌, true, false, length};
ghost use Rattle.definitions.specs.Ranges.{is_stale, is_too_far, last_of};
ghost use Rattle.callbacks.specs.Locals.{is_local};
ghost use Rattle.owner_ids.specs.Views.{view_of_owner};

use crate::caller::Caller;
use crate::short::ShortBytes;
use nlm4_types::TOP;
use owner_ids::Owner;
use range_table::{ByteRange, FileId};

/// A lock that a call asked for and that can be set (RFC 1813, appendix II, nlm4_lock; XNFS, nlm_lock): its file handle
/// has 1 to 64 bytes, and its range ends at the last byte of a file at most, which is 2^63 - 1. The length 0 is to there.
#[derive(Drop)]
pub struct OwnedLock {
    pub caller: Caller,
    pub fh: ShortBytes,
    pub l_offset: u64,
    pub l_len: u64,
    pub ghost handle: { is_stale fh ≡ false },
    pub ghost inside: { is_too_far l_offset l_len ≡ false },
}

impl OwnedLock {
    /// The file of its handle.
    #[tactic(auto, using(crate::proofs::Ranges::handle_some, crate::proofs::Ranges::handle_few))]
    pub fn file(&self) -> FileId
        ensures { result ≡ self.now.fh }
    {
        FileId::new(self.fh.as_slice())
    }

    /// Its bytes.
    #[tactic(auto, using(crate::proofs::Ranges::begins_inside, crate::proofs::Ranges::ends_inside))]
    pub fn range(&self) -> ByteRange
        ensures first { result.first ≡ self.now.l_offset }
        ensures last { result.last ≡ last_of self.now.l_offset self.now.l_len }
    {
        let last = if self.l_len == 0 {
            TOP
        } else {
            self.l_offset + (self.l_len - 1)
        };
        ByteRange {
            first: self.l_offset,
            last,
        }
    }
}

/// A lock as a local line asked for it. The length 0 is to the last byte. A line names a process, whose pid is below 2^31,
/// or an open file description, and never a client's owner.
#[derive(Drop)]
pub struct LocalLock {
    pub owner: Owner,
    pub file: FileId,
    pub offset: u64,
    pub len: u64,
    pub ghost local: { is_local (view_of_owner owner) ≡ true },
    pub ghost short: { length file ≤ 64 },
}
