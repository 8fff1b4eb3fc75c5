//! A server at each of its limits, from bytes to bytes.
mod records;
mod runs;
mod shares;
mod slots;
mod steps;

use self::steps::{Slate, Wrong};
use daemon_core::Daemon;
use daemon_scripts::{DaemonTask, Misplayed, memory, play, with_daemon};
use hosts_db::HostStore;
use range_table::RangeTable;
use std::alloc::Global;
use std::test::*;

/// A host more has no row, so it is not monitored: its LOCK is refused, and its NM_LOCK is not.
const HOSTS_FULL: &[&str] = &[
    "begins",
    "counts 1 4097 1 lock-by % 0 1 = granted",
    "5000 lock-by 4097 0 1 = no-locks",
    "stored refused",
    "5001 nm-lock-by 4097 0 1 = granted",
    "5002 mon c 1 = not-monitored 1",
    "5003 notify-by 4096 5 = done",
    "stored yes",
];

#[test]
fn hosts_full(rt: HostRuntime) -> Result<(), Misplayed> {
    play(rt.alloc(), HOSTS_FULL)
}

/// What is as full as it may be.
#[derive(Clone, Copy)]
enum Limit {
    Waiters,
    Silences,
    Shares,
    Runs,
}

/// A daemon reaches a limit: whether that goes as it should.
#[derive(Drop)]
struct Filling {
    alloc: Global,
    limit: Limit,
    went: Result<(), Wrong>,
}

impl DaemonTask for Filling {
    fn act<T: RangeTable, S: HostStore>(&mut self, daemon: &mut Daemon<T, S>) {
        let mut slate = Slate::new(self.alloc);
        self.went = match self.limit {
            Limit::Waiters => slots::waiters(daemon, &mut slate),
            Limit::Silences => slots::silences(daemon, &mut slate),
            Limit::Shares => shares::shares(daemon, &mut slate),
            Limit::Runs => runs::runs(daemon, &mut slate),
        };
        drop(slate);
    }
}

/// The error is what goes otherwise.
fn filled(alloc: Global, limit: Limit) -> Result<(), Wrong> {
    let mut filling = Filling {
        alloc,
        limit,
        went: Err(("no server", 0)),
    };
    if let Some(mut store) = memory(alloc, 0, Vec::new(alloc)) {
        with_daemon(alloc, &mut store, &mut filling);
    }
    filling.went
}

#[test]
fn slots_full_of_waiters(rt: HostRuntime) -> Result<(), Wrong> {
    filled(rt.alloc(), Limit::Waiters)
}

#[test]
fn slots_full_of_silent_calls(rt: HostRuntime) -> Result<(), Wrong> {
    filled(rt.alloc(), Limit::Silences)
}

#[test]
fn shares_full(rt: HostRuntime) -> Result<(), Wrong> {
    filled(rt.alloc(), Limit::Shares)
}

#[test]
fn runs_full_of_one_file(rt: HostRuntime) -> Result<(), Wrong> {
    filled(rt.alloc(), Limit::Runs)
}
