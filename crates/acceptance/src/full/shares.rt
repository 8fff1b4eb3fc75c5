//! As many shares as there are places.
use super::records::{A, B, Status, says_of_share, share, unshare};
use super::steps::{Slate, Wrong, asks, begins, goes};
use daemon_core::Daemon;
use hosts_db::HostStore;
use range_table::RangeTable;

/// As many as are held at most.
const SHARES: u32 = 16_384;

// `a` has a share of each file.
fn all_are_shared<T: RangeTable, S: HostStore>(
    daemon: &mut Daemon<T, S>,
    slate: &mut Slate,
) -> Result<(), Wrong> {
    for file in 0..SHARES {
        let reply = says_of_share(file, Status::Granted);
        let is_right = asks(daemon, slate, &share(file, A, file, false), &reply);
        goes(is_right, "a shares the file", file)?;
    }
    Ok(())
}

/// One more is refused, though not who clashes, nor who has one of the file; a share that goes leaves a place.
pub(super) fn shares<T: RangeTable, S: HostStore>(
    daemon: &mut Daemon<T, S>,
    slate: &mut Slate,
) -> Result<(), Wrong> {
    begins(daemon, slate)?;
    all_are_shared(daemon, slate)?;
    let steps = [
        (share(20_000, A, SHARES, false), Status::NoLocks),
        (share(20_001, B, 7, false), Status::NoLocks),
        (share(20_002, B, 7, true), Status::Denied),
        (share(20_003, A, 7, true), Status::Granted),
        (unshare(20_004, A, 9), Status::Granted),
        (share(20_005, B, SHARES, true), Status::Granted),
        (share(20_006, A, 9, false), Status::NoLocks),
    ];
    for (call, status) in steps {
        let [_, xid, ..] = call;
        let is_right = asks(daemon, slate, &call, &says_of_share(xid, status));
        goes(is_right, "at the limit", xid)?;
    }
    Ok(())
}
