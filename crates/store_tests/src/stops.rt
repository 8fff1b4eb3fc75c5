//! A stop of the disk at each of its calls, while each writing call runs, and while a file of schema 1 is upgraded.
use crate::tables::FIRST;
use crate::visits::{Trials, Work, fresh, visit_files};
use hosts_db::HostStore;
use sqlite::Files;
use sqlite_disk::{Crash, Disk, Fuse, Memory};
use std::alloc::Global;
use std::test::*;
use test_kit::{run, shown, shown_after};

// More than a file has in any run.
const MOST_CALLS: u64 = 500;

/// Which file stops.
#[derive(Clone, Copy)]
pub(crate) enum Stop {
    Log,
    Database,
}

/// What is stopped: so many steps, of which the last is to be met by stops.
pub(crate) trait Trial {
    fn count(&self) -> usize;

    /// A number of calls below which no stop is tried.
    fn first(&self, alloc: Global, stop: Stop) -> u64;

    /// Makes the steps up to the stop, which comes after so many calls of the file. How many went well; none, where a crash leaves
    /// what it may not.
    fn run(&self, alloc: Global, stop: Stop, calls: u64) -> Option<usize>;
}

/// Calls of a store: what the files hold, in SQL, the calls after which a store in memory holds the same, and the calls that
/// are made then.
#[derive(Clone, Copy)]
struct Script<'a> {
    sql: [&'a str; 2],
    past: &'a str,
    script: &'a str,
}

/// Makes the calls up to the first that isn't answered by Ok.
#[derive(Clone, Copy)]
pub(crate) struct Calls<'a> {
    pub(crate) script: &'a str,
    pub(crate) done: usize,
}

impl Work for Calls<'_> {
    fn work<S: HostStore>(&mut self, store: &mut S) {
        self.done = run(store, self.script, usize::MAX);
    }
}

/// Notes what a store shows.
#[derive(Drop)]
struct Look {
    alloc: Global,
    text: Option<String>,
}

impl Work for Look {
    fn work<S: HostStore>(&mut self, store: &mut S) {
        self.text = shown(self.alloc, store);
    }
}

// A copy of a file that answers so many calls.
fn copied(alloc: Global, file: &Fuse<Memory>, calls: u64) -> Option<Fuse<Memory>> {
    let mut copy = Memory::new(alloc);
    copy.write_at(0, file.inner().bytes()).ok()?;
    copy.sync().ok()?;
    Some(Fuse::new(copy, calls))
}

fn both_copied(alloc: Global, Trials { disks }: &Trials, [log, db]: [u64; 2]) -> Option<Trials> {
    match (copied(alloc, &disks.log, log), copied(alloc, &disks.db, db)) {
        (Some(log), Some(db)) => Some(Trials {
            disks: Files { log, db },
        }),
        _ => None,
    }
}

/// Files that hold these tables and rows, of which one answers so many calls more.
pub(crate) fn stopping(alloc: Global, sql: [&str; 2], stop: Stop, calls: u64) -> Option<Trials> {
    let mut files = fresh(alloc);
    if !sql[0].is_empty() {
        let mut look = Look { alloc, text: None };
        files = visit_files(alloc, files, sql, &mut look).1;
    }
    let calls = match stop {
        Stop::Log => [calls, u64::MAX],
        Stop::Database => [u64::MAX, calls],
    };
    both_copied(alloc, &files, calls)
}

/// A crash takes what no sync has kept.
pub(crate) fn crash(files: &mut Trials) {
    files.disks.log.crash();
    files.disks.db.crash();
}

/// Has a store over these files do the work after a crash.
pub(crate) fn after_crash<W: Work>(alloc: Global, mut files: Trials, work: &mut W) {
    crash(&mut files);
    visit_files(alloc, files, ["", ""], work);
}

impl Script<'_> {
    // Whether a store shows what so many calls leave.
    fn is_left(&self, alloc: Global, shown: &str, calls: usize) -> bool {
        match shown_after(alloc, self.past, self.script, calls) {
            Some(text) => text.as_str() == shown,
            None => false,
        }
    }
}

impl Trial for Script<'_> {
    fn count(&self) -> usize {
        self.script.lines().count()
    }

    fn first(&self, _alloc: Global, _stop: Stop) -> u64 {
        0
    }

    // What is found after a crash is what the calls that were answered by Ok left, or the next one too.
    fn run(&self, alloc: Global, stop: Stop, calls: u64) -> Option<usize> {
        let mut made = Calls {
            script: self.script,
            done: 0,
        };
        let files = stopping(alloc, self.sql, stop, calls)?;
        let (_, left) = visit_files(alloc, files, ["", ""], &mut made);
        let mut look = Look { alloc, text: None };
        after_crash(alloc, left, &mut look);
        let next = made.done.saturating_add(1);
        let is_either = match &look.text {
            Some(text) => {
                self.is_left(alloc, text, made.done) || self.is_left(alloc, text, next)
            }
            None => false,
        };
        is_either.then_some(made.done)
    }
}

// Stops a file after each number of calls from the first on, until all steps go well. How many stops met the last one.
fn stops<T: Trial>(alloc: Global, trial: &T, stop: Stop) -> Option<u64> {
    let count = trial.count();
    let mut met = 0u64;
    for calls in trial.first(alloc, stop)..MOST_CALLS {
        let done = trial.run(alloc, stop, calls)?;
        if done >= count {
            return Some(met);
        }
        if done.saturating_add(1) >= count {
            met = met.saturating_add(1);
        }
    }
    None
}

/// Whether stops of either file have met the last step.
pub(crate) fn are_met<T: Trial>(alloc: Global, trial: &T) -> bool {
    let log = stops(alloc, trial, Stop::Log).unwrap_or(0);
    let database = stops(alloc, trial, Stop::Database).unwrap_or(0);
    log > 1 && database > 1
}

// The same of calls from fresh files on.
fn are_met_by(alloc: Global, script: &str) -> bool {
    let trial = Script {
        sql: ["", ""],
        past: "",
        script,
    };
    are_met(alloc, &trial)
}

/// Of one host, and of all.
const UNWATCHED: &str = "\
start
watch b f 7
watch c f 8
watch d f 9
unwatch b f
unwatch * f
";

/// Each call that writes, as the last one. A watch is of a new host, the same with other bytes, and of a stored host.
const SCRIPTS: &[&str] = &[
    "start\nstart",
    "start\nmonitor b -5",
    "start\nmonitor b -5\nseen b 8",
    "start\nmonitor b -5\nstart\nacked b 3",
    "start\nmonitor b -5\nquota b 5",
    "start\nwatch b f 7\nwatch b f 9\nwatch b e 8",
    UNWATCHED,
];

/// The own state 3, and two hosts of schema 1.
const ROWS: &str =
    "INSERT INTO own VALUES (1, 1, 3); INSERT INTO hosts VALUES (x'62', 3, 0), (x'61', 1, 3)";

/// The start that upgrades them.
const UPGRADE: &Script<'static> = &Script {
    sql: [FIRST, ROWS],
    past: "start\nmonitor a 3\nstart\nmonitor b 0",
    script: "start",
};

/// The same over tables that were made the other way round, behind SQLite's own sqlite_sequence.
const TURNED: &str = "\
CREATE TABLE counted (id INTEGER PRIMARY KEY AUTOINCREMENT)
CREATE TABLE watches (mon BLOB NOT NULL, my BLOB NOT NULL, prog INTEGER NOT NULL, vers INTEGER NOT NULL, proc INTEGER NOT NULL, priv BLOB NOT NULL, PRIMARY KEY (mon, my, prog, vers, proc)) STRICT
DROP TABLE counted
CREATE TABLE hosts (name BLOB NOT NULL PRIMARY KEY, epoch INTEGER NOT NULL, seen INTEGER NOT NULL) STRICT
CREATE TABLE own (id INTEGER PRIMARY KEY CHECK (id = 1), version INTEGER NOT NULL, state INTEGER NOT NULL) STRICT
";

const TURNED_UPGRADE: &Script<'static> = &Script {
    sql: [TURNED, ROWS],
    past: "start\nmonitor a 3\nstart\nmonitor b 0",
    script: "start",
};

#[test]
fn stop_at_each_write(rt: HostRuntime) -> Result<(), &'static str> {
    for script in SCRIPTS {
        if !are_met_by(rt.alloc(), script) {
            return Err(*script);
        }
    }
    if !are_met(rt.alloc(), UPGRADE) {
        return Err("the upgrade");
    }
    if are_met(rt.alloc(), TURNED_UPGRADE) {
        Ok(())
    } else {
        Err("the upgrade of tables in another order")
    }
}
