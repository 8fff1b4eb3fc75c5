//! Each growth refused in turn, by whoever runs these tests so. Where none is refused they show that each call succeeds.
use daemon_scripts::{Misplayed, play_in_want};

const A_WAITS: &str = "101 test a 0 0 = in-grace";

const B_WAITS: &str = "102 test b 0 0 = in-grace";

const A_COULD: &str = "101 test a 0 0 = granted";

const B_COULD: &str = "102 test b 0 0 = granted";

const A_MEETS_B: &str = "101 test a 0 0 = held b 20 5";

const B_MEETS_A: &str = "102 test b 0 0 = held a 0 10";

const B_MEETS_FRONT: &str = "102 test b 0 0 = held a 0 3";

/// All calls that are served, a repeat while its lock is held and one when it is not, the end of grace and a restart; and
/// behind each what tests are told.
const GROWTHS_REFUSED: &[&str] = &[
    "connect pipe",
    A_WAITS,
    B_WAITS,
    "1 null = done",
    A_WAITS,
    B_WAITS,
    "2 lock a 0 10 = in-grace",
    A_WAITS,
    B_WAITS,
    "3 reclaim b 20 5 = granted",
    A_WAITS,
    B_WAITS,
    "grace-over",
    A_MEETS_B,
    B_COULD,
    "4 lock a 0 10 = granted",
    A_MEETS_B,
    B_MEETS_A,
    "5 nm-lock b 30 5 = granted",
    A_MEETS_B,
    B_MEETS_A,
    "6 lock b 0 1 = denied",
    A_MEETS_B,
    B_MEETS_A,
    "7 share a 1 1 = shared",
    A_MEETS_B,
    B_MEETS_A,
    "8 share b 0 1 = not-shared",
    A_MEETS_B,
    B_MEETS_A,
    "4 lock a 0 10 = granted",
    A_MEETS_B,
    B_MEETS_A,
    "9 unlock a 3 3 = granted",
    A_MEETS_B,
    B_MEETS_FRONT,
    "10 unlock a 0 0 = granted",
    A_MEETS_B,
    B_COULD,
    "4 lock a 0 10 = granted",
    A_MEETS_B,
    B_COULD,
    "11 unshare a = shared",
    A_MEETS_B,
    B_COULD,
    "12 share b 0 1 = shared",
    A_MEETS_B,
    B_COULD,
    "13 free-all b = done",
    A_COULD,
    B_COULD,
    "14 share a 3 3 = shared",
    A_COULD,
    B_COULD,
    "restart",
    "connect pipe",
    A_WAITS,
    B_WAITS,
    "grace-over",
    A_COULD,
    B_COULD,
    "4 lock a 0 10 = granted",
    A_COULD,
    B_MEETS_A,
    "15 share b 3 3 = shared",
    A_COULD,
    B_MEETS_A,
    "16 free-all a = done",
    A_COULD,
    B_COULD,
];

/// One waits, one shares, a local program locks, one locks by message, and all is told that is due.
const GROWTHS_REFUSED_WHILE_ONE_WAITS: &[&str] = &[
    "restart",
    "grace-over",
    "connect pipe",
    A_COULD,
    B_COULD,
    "59 lock a 0 10 = granted",
    A_COULD,
    B_MEETS_A,
    "60 block b 0 10 = blocked",
    A_COULD,
    B_MEETS_A,
    "61 share c 1 1 = shared",
    A_COULD,
    B_MEETS_A,
    "local |setlk p42 0a w 0 1| ok",
    A_COULD,
    B_MEETS_A,
    "62 lock-msg d 50 1 = done",
    "101 test a 0 0 = held d 50 1",
    B_MEETS_A,
    "63 unlock a 0 10 = granted",
    "101 test a 0 0 = held b 0 10",
    "102 test b 0 0 = held d 50 1",
    "sends d 1 lock-res 62 0",
    "sends b 2 grant b 1 0 10",
    "quiet",
    "known 3",
];

#[test]
fn growths_refused(rt: HostRuntime) -> Result<(), Misplayed> {
    play_in_want(rt.alloc(), GROWTHS_REFUSED)
}

#[test]
fn growths_refused_while_one_waits(rt: HostRuntime) -> Result<(), Misplayed> {
    play_in_want(rt.alloc(), GROWTHS_REFUSED_WHILE_ONE_WAITS)
}

/// Whoever waits, cancels, and says something of a grant.
const STARVED_CHANGES_NOTHING: &[&str] = &[
    "connect pipe",
    "1 null = done",
    "2 reclaim b 20 5 = granted",
    "grace-over",
    "3 lock a 0 10 = granted",
    "4 nm-lock b 30 5 = granted",
    "5 lock b 0 1 = denied",
    "6 share a 1 1 = shared",
    "7 share b 0 1 = not-shared",
    "8 test b 0 0 = held a 0 10",
    "9 block b 0 1 = blocked",
    "10 nm-block d 0 2 = blocked",
    "11 cancel d 0 2 = granted",
    "12 cancel d 0 2 = denied",
    "13 granted-res 1 1 0 = done",
    "14 unlock a 3 3 = granted",
    "15 test d 0 0 = held a 0 3",
    "16 unlock a 0 0 = granted",
    "17 unshare a = shared",
    "18 free-all b = done",
    "19 test a 0 0 = granted",
    "known 0",
];

#[test]
fn starved_changes_nothing(rt: HostRuntime) -> Result<(), Misplayed> {
    play_in_want(rt.alloc(), STARVED_CHANGES_NOTHING)
}

/// The same of the status monitor.
const STARVED_MONITOR: &[&str] = &[
    "restart",
    "connect pipe",
    "1 sm-null = done",
    "2 stat a = monitored 1",
    "3 mon a 1 = monitored 1",
    "4 mon a 2 = monitored 1",
    "5 unmon a 2 = state 1",
    "6 notify a 5 = done",
    "sends server 1 status a 1 5",
    "7 unmon-all 1 = state 1",
    "8 crash = done",
    "sends a 1 notice 3",
    "9 stat a = monitored 3",
];

#[test]
fn starved_monitor_changes_nothing(rt: HostRuntime) -> Result<(), Misplayed> {
    play_in_want(rt.alloc(), STARVED_MONITOR)
}
