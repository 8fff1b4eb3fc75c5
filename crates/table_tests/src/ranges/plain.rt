//! Settings in a plain list, searched byte by byte.
use owner_ids::OwnerId;
use range_table::{FileId, Mode, Setting};

/// No byte from here on is set.
pub const BYTES: u64 = 20;

pub fn mode_at(settings: &[Setting], file: &FileId, owner: OwnerId, byte: u64) -> Option<Mode> {
    let mut mode = None;
    for s in settings {
        if s.owner == owner && s.file.is_same(file) && s.first <= byte && byte <= s.last {
            mode = s.mode;
        }
    }
    mode
}

fn is_start(settings: &[Setting], file: &FileId, owner: OwnerId, byte: u64) -> bool {
    let here = mode_at(settings, file, owner, byte);
    here.is_some() && (byte == 0 || mode_at(settings, file, owner, byte - 1) != here)
}

// The last byte of the run that starts there.
fn last_from(settings: &[Setting], file: &FileId, owner: OwnerId, first: u64) -> u64 {
    let mode = mode_at(settings, file, owner, first);
    for byte in first..BYTES {
        if mode_at(settings, file, owner, byte) != mode {
            return byte.saturating_sub(1);
        }
    }
    BYTES
}

/// How many runs these owners have on a file.
pub fn starts_on(settings: &[Setting], file: &FileId, owners: &[OwnerId]) -> u32 {
    let mut count = 0u32;
    for byte in 0..BYTES {
        for owner in owners {
            if is_start(settings, file, *owner, byte) {
                count = count.saturating_add(1);
            }
        }
    }
    count
}

/// The n-th run of a file, by its owner, its first byte and its last, where owners are given in their order.
pub fn nth_on(
    settings: &[Setting],
    file: &FileId,
    owners: &[OwnerId],
    n: u32,
) -> Option<(OwnerId, u64, u64)> {
    let mut left = n;
    for byte in 0..BYTES {
        for owner in owners {
            if is_start(settings, file, *owner, byte) {
                if left == 0 {
                    return Some((*owner, byte, last_from(settings, file, *owner, byte)));
                }
                left -= 1;
            }
        }
    }
    None
}

// Whether the owner's mode at some byte of the range excludes the wanted one.
fn is_against(
    settings: &[Setting],
    wanted: &Setting,
    owner: OwnerId,
    first: u64,
    last: u64,
) -> bool {
    let Some(mode) = mode_at(settings, &wanted.file, owner, first) else {
        return false;
    };
    owner != wanted.owner
        && first <= wanted.last
        && wanted.first <= last
        && (mode == Mode::Exclusive || wanted.mode == Some(Mode::Exclusive))
}

/// The first run in the way, by its owner and its first byte.
pub fn first_against(
    settings: &[Setting],
    wanted: &Setting,
    owners: &[OwnerId],
) -> Option<(OwnerId, u64)> {
    for n in 0..1_000 {
        let (owner, first, last) = nth_on(settings, &wanted.file, owners, n)?;
        if is_against(settings, wanted, owner, first, last) {
            return Some((owner, first));
        }
    }
    None
}
