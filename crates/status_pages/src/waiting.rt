//! Who waits, since when, and for whom.

ghost use Rattle.std.specs.Prelude.{◌≡◌, true, map, IfOk, IfSome};
ghost use Rattle.status_pages.specs.Waits.{Overlap, lock_of};

use crate::rows::{LockRow, Waiting};
use crate::starved::Starved;
use std::alloc::Global;

impl LockRow {
    // Whether this lock keeps the other one out: another owner's, of bytes of the same file, and not both for reading.
    fn is_in_way(&self, wanted: &LockRow) -> bool
        ensures { result ≡ true → Overlap self.now wanted.now }
    {
        self.first <= wanted.last
            && wanted.first <= self.last
            && (self.is_exclusive || wanted.is_exclusive)
            && self.file == wanted.file
            && self.owner != wanted.owner
    }
}

// The locks of a file, out of all in order of file.
fn locks_on<'a>(locks: &'a [LockRow], file: &[u8]) -> &'a [LockRow] {
    let start = locks.partition_point(|lock| lock.file.as_slice() < file);
    let rest = locks.get(start..).unwrap_or_default();
    let end = rest.partition_point(|lock| lock.file.as_slice() <= file);
    rest.get(..end).unwrap_or_default()
}

/// The first of the locks, which stand in order of file, that keeps this one out. `None`: none does, so a quota or a limit may, or
/// the state has changed.
pub fn first_in_way<'a>(locks: &'a [LockRow], wanted: &LockRow) -> Option<&'a LockRow>
    ensures { IfSome result (λ lock. Overlap lock.now wanted.now) }
{
    locks_on(locks, wanted.file.as_slice())
        .iter()
        .find(|lock| lock.is_in_way(wanted))
}

/// Those who wait now, each with the second since when it is known to: that of the last look where it waited then, else `now`.
/// Both lists are in the order of waiting, so from the first that is new on all are. One that went and came again between two
/// looks is taken for the same.
pub fn known_since(
    alloc: Global,
    known: &[Waiting],
    waiters: Vec<LockRow>,
    now: u64,
) -> Result<Vec<Waiting>, Starved>
    ensures { IfOk result (λ all. map lock_of all.items ≡ waiters.items) }
{
    let mut all = Vec::with_capacity(alloc, waiters.len())?;
    let mut rest = known;
    for lock in waiters {
        let since = match rest.iter().position(|old| old.lock == lock) {
            Some(place) => {
                let since = rest[place].since;
                rest = &rest[place + 1..];
                since
            }
            None => {
                rest = &[];
                now
            }
        };
        all.push(Waiting { lock, since })?;
    }
    Ok(all)
}
