//! Quotas of runs, from bytes to bytes: what a host is refused, and who is granted once its quota is raised.
use daemon_scripts::{Misplayed, play};

/// One run of `a`, which may not become two. Who waits for `b`'s quota alone is granted once it is raised.
const QUOTA_OF_RUNS: &[&str] = &[
    "begins",
    "180 lock a 0 10 = granted",
    "local |quota 61 1| ok",
    "181 lock a 20 1 = no-locks",
    "182 lock a 10 5 = granted",
    "183 unlock a 5 1 = no-locks",
    "184 unlock a 0 5 = granted",
    "quota a 1",
    "local |quota 62 5| absent",
    "local |quota 61 65537| bad",
    "185 test b 0 0 = held a 5 10",
    "186 block b 5 1 = blocked",
    "local |quota 62 0| ok",
    "187 unlock a 0 0 = granted",
    "quiet",
    "local |quota 62 1| ok",
    "sends b 1 grant b 1 5 1",
    "quiet",
];

#[test]
fn quota_of_runs(rt: HostRuntime) -> Result<(), Misplayed> {
    play(rt.alloc(), QUOTA_OF_RUNS)
}

/// Who waits for its host's quota alone is granted once the host has given up other bytes.
const QUOTA_AND_OTHER_BYTES: &[&str] = &[
    "begins",
    "180 lock a 0 10 = granted",
    "181 lock b 50 1 = granted",
    "182 block b 5 1 = blocked",
    "local |quota 62 1| ok",
    "183 unlock a 0 0 = granted",
    "quiet",
    "184 unlock b 50 1 = granted",
    "sends b 1 grant b 1 5 1",
    "quiet",
];

#[test]
fn quota_and_other_bytes(rt: HostRuntime) -> Result<(), Misplayed> {
    play(rt.alloc(), QUOTA_AND_OTHER_BYTES)
}
