//! `lockd`: the lock manager and status monitor of an NFS server. What its words ask, and how it ends.
#![tactic(auto)]

mod program;

use program::run_lockd;
use std::process::ExitCode;

fn main(rt: HostRuntime) -> ExitCode {
    run_lockd(&rt, &rt)
}
