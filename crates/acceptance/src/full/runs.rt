//! As many runs as the table has places, all of one file.
use super::records::{
    A, Asking, B, Span, Status, Testing, done, free_all, held_by, lock, says, test,
};
use super::steps::{Slate, Wrong, asks, begins, goes};
use daemon_core::Daemon;
use hosts_db::HostStore;
use range_table::RangeTable;

/// As many single bytes as are held at most: a lock is refused where fewer than two of 65,536 runs are free.
const RUNS: u32 = 65_535;

/// The last of them.
const LAST: u32 = 131_068;

// An even byte, under an xid of its own from this one on.
fn a_asks<T: RangeTable, S: HostStore>(
    daemon: &mut Daemon<T, S>,
    slate: &mut Slate,
    (first_xid, place): (u32, u32),
    status: Status,
) -> bool {
    let xid = first_xid | place;
    let call = lock(Asking::Lock, xid, A, Span::byte(place.wrapping_mul(2)));
    asks(daemon, slate, &call, &says(xid, status))
}

// `a` holds each second byte of the file, and no other can be held.
fn all_are_set<T: RangeTable, S: HostStore>(
    daemon: &mut Daemon<T, S>,
    slate: &mut Slate,
    first_xid: u32,
) -> Result<(), Wrong> {
    for place in 0..RUNS {
        let is_right = a_asks(daemon, slate, (first_xid, place), Status::Granted);
        goes(is_right, "a holds the byte", place)?;
    }
    goes(daemon.locks().used() == RUNS, "all runs are used", RUNS)?;
    let is_right = a_asks(daemon, slate, (first_xid, RUNS), Status::NoLocks);
    goes(is_right, "one more is refused", RUNS)
}

// Nobody has been set beside them, and the last is held.
fn is_last_held<T: RangeTable, S: HostStore>(
    daemon: &mut Daemon<T, S>,
    slate: &mut Slate,
) -> Result<(), Wrong> {
    let last = Span::byte(LAST);
    let behind = Span {
        first: LAST + 1,
        len: 0,
    };
    let of_last = test(Testing::Test, 1, B, last);
    let of_behind = test(Testing::Test, 2, B, behind);
    let is_right = asks(daemon, slate, &of_last, &held_by(1, A, last))
        && asks(daemon, slate, &of_behind, &says(2, Status::Granted));
    goes(is_right, "the last is held", 0)
}

// Its host's runs go, all at once.
fn all_are_dropped<T: RangeTable, S: HostStore>(
    daemon: &mut Daemon<T, S>,
    slate: &mut Slate,
) -> Result<(), Wrong> {
    let whole = test(Testing::Test, 4, B, Span::WHOLE);
    let is_right = asks(daemon, slate, &free_all(3, A), &done(3))
        && daemon.locks().used() == 0
        && asks(daemon, slate, &whole, &says(4, Status::Granted));
    goes(is_right, "all are dropped", 0)
}

/// They are dropped, and set again.
pub(super) fn runs<T: RangeTable, S: HostStore>(
    daemon: &mut Daemon<T, S>,
    slate: &mut Slate,
) -> Result<(), Wrong> {
    begins(daemon, slate)?;
    all_are_set(daemon, slate, 0x10000)?;
    is_last_held(daemon, slate)?;
    all_are_dropped(daemon, slate)?;
    all_are_set(daemon, slate, 0x20000)?;
    is_last_held(daemon, slate)
}
