//! A stop of the disk at each of its calls while a daemon plays a script from bytes to bytes: what the files hold then, and a daemon
//! that begins anew over them.
use crate::stops::{Stop, Trial, after_crash, are_met, stopping};
use crate::visits::{Trials, Work, visit_files};
use daemon_core::Daemon;
use daemon_scripts::{
    DaemonTask, Line, are_rows_after, goes_well, lines_done, notifies, parted, with_daemon,
};
use hosts_db::HostStore;
use range_table::RangeTable;
use std::alloc::Global;
use std::test::*;
use test_kit::shown;

/// Plays the script up to the first line that the store refuses.
#[derive(Clone, Copy)]
struct Play<'a> {
    alloc: Global,
    script: &'a str,
    // How many lines went well; none, where one went otherwise than it says.
    done: Option<usize>,
}

impl DaemonTask for Play<'_> {
    fn act<T: RangeTable, S: HostStore>(&mut self, daemon: &mut Daemon<T, S>) {
        self.done = lines_done(self.alloc, daemon, self.script);
    }
}

impl Work for Play<'_> {
    fn work<S: HostStore>(&mut self, store: &mut S) {
        self.done = None;
        with_daemon(self.alloc, store, self);
    }
}

/// A daemon over what is found after a crash, behind so many lines that went well.
#[derive(Clone, Copy)]
struct Anew<'a> {
    alloc: Global,
    script: &'a str,
    done: usize,
    is_so: bool,
}

impl Anew<'_> {
    // Whether the rows are those of the lines that went well, or of the next one too.
    fn has_rows<S: HostStore>(&self, store: &S) -> bool {
        let Some(text) = shown(self.alloc, store) else {
            return false;
        };
        let rows = text.trim();
        are_rows_after("0;", self.script, self.done, rows)
            || are_rows_after("0;", self.script, self.done.saturating_add(1), rows)
    }

    // Whether a host whose lock was granted, or waited, has a row, and who had one granted is granted it again.
    fn stands<T: RangeTable, S: HostStore>(&self, daemon: &mut Daemon<T, S>, line: &str) -> bool {
        let Line { event, .. } = parted(line);
        let is_granted = event.ends_with(" = granted");
        if !is_granted && !event.ends_with(" = blocked") {
            return true;
        }
        let name = event.split_whitespace().nth(2).unwrap_or("");
        daemon.store().host(name.as_bytes()).is_some()
            && (!is_granted
                || goes_well(self.alloc, daemon, "9 reclaim a 0 10 = granted") == Some(true))
    }

    // Whether the daemon begins anew, tells just the stored hosts of it, and leaves whoever had a lock its row and its lock.
    fn begins<T: RangeTable, S: HostStore>(&self, daemon: &mut Daemon<T, S>) -> bool {
        if lines_done(self.alloc, daemon, "restart\nconnect pipe") != Some(2)
            || !notifies(self.alloc, daemon)
        {
            return false;
        }
        for line in self.script.lines().take(self.done) {
            if !self.stands(daemon, line) {
                return false;
            }
        }
        true
    }
}

impl DaemonTask for Anew<'_> {
    fn act<T: RangeTable, S: HostStore>(&mut self, daemon: &mut Daemon<T, S>) {
        self.is_so = self.begins(daemon);
    }
}

impl Work for Anew<'_> {
    fn work<S: HostStore>(&mut self, store: &mut S) {
        if self.has_rows(store) {
            with_daemon(self.alloc, store, self);
        }
    }
}

/// A script of a daemon over fresh files.
#[derive(Clone, Copy)]
struct Script<'a>(&'a str);

impl Script<'_> {
    // How many lines go well up to a stop, and the files then.
    fn stopped(&self, alloc: Global, stop: Stop, calls: u64) -> Option<(usize, Trials)> {
        let mut play = Play {
            alloc,
            script: self.0,
            done: Some(0),
        };
        let files = stopping(alloc, ["", ""], stop, calls)?;
        let (_, left) = visit_files(alloc, files, ["", ""], &mut play);
        Some((play.done?, left))
    }

    fn is_before_last(&self, alloc: Global, stop: Stop, calls: u64) -> bool {
        match self.stopped(alloc, stop, calls) {
            Some((done, _)) => done.saturating_add(1) < self.count(),
            None => false,
        }
    }
}

impl Trial for Script<'_> {
    fn count(&self) -> usize {
        self.0.lines().count()
    }

    // Each line that writes is the last one of some script, so the stops of those before it are left out.
    fn first(&self, alloc: Global, stop: Stop) -> u64 {
        let mut first = 0u64;
        for step in [256, 128, 64, 32, 16, 8, 4, 2, 1] {
            let next = first.saturating_add(step);
            if self.is_before_last(alloc, stop, next.saturating_sub(1)) {
                first = next;
            }
        }
        first
    }

    fn run(&self, alloc: Global, stop: Stop, calls: u64) -> Option<usize> {
        let (done, left) = self.stopped(alloc, stop, calls)?;
        let mut anew = Anew {
            alloc,
            script: self.0,
            done,
            is_so: false,
        };
        after_crash(alloc, left, &mut anew);
        anew.is_so.then_some(anew.done)
    }
}

const FIRST_RESTART: &str = "restart -> 1;";

const RESTART: &str = "restart -> 1;\nrestart -> 3;";

const LOCK: &str = "\
restart -> 1;
grace-over
connect pipe
2 lock a 0 10 = granted or no-locks -> 1; a 1 3 65536;
";

const BLOCKED_LOCK: &str = "\
restart -> 1;
grace-over
connect pipe
2 lock a 0 10 = granted or no-locks -> 1; a 1 3 65536;
3 block b 0 10 = blocked or no-locks -> 1; a 1 3 65536; b 1 3 65536;
";

const NOTIFY: &str = "\
restart -> 1;
grace-over
connect pipe
2 lock a 0 10 = granted or no-locks -> 1; a 1 3 65536;
3 notify a 5 = done or system-err -> 1; a 1 5 65536;
";

/// The host has its lock again when it answers.
const NOTICE_ANSWERED: &str = "\
restart -> 1;
grace-over
connect pipe
2 lock a 0 10 = granted or no-locks -> 1; a 1 3 65536;
restart -> 3; a 1 3 65536;
connect pipe
3 reclaim a 0 10 = granted
sends a 1 notice 3
answer 1 done -> 3; a 3 3 65536;
";

const MON: &str = "\
restart -> 1;
connect pipe
2 mon a 1 = monitored 1 or not-monitored 1 -> 1; a 1 0 65536; a server 200000 1 1 000102030405060708090a0b0c0d0e0f;
";

/// Of a host that has a row.
const MON_OF_STORED: &str = "\
restart -> 1;
grace-over
connect pipe
2 lock a 0 10 = granted or no-locks -> 1; a 1 3 65536;
3 mon a 1 = monitored 1 or not-monitored 1 -> 1; a 1 3 65536; a server 200000 1 1 000102030405060708090a0b0c0d0e0f;
";

const UNMON: &str = "\
restart -> 1;
connect pipe
2 mon a 1 = monitored 1 or not-monitored 1 -> 1; a 1 0 65536; a server 200000 1 1 000102030405060708090a0b0c0d0e0f;
3 unmon a 1 = state 1 or system-err -> 1; a 1 0 65536;
";

const UNMON_ALL: &str = "\
restart -> 1;
connect pipe
2 mon a 1 = monitored 1 or not-monitored 1 -> 1; a 1 0 65536; a server 200000 1 1 000102030405060708090a0b0c0d0e0f;
3 mon b 1 = monitored 1 or not-monitored 1 -> 1; a 1 0 65536; b 1 0 65536; a server 200000 1 1 000102030405060708090a0b0c0d0e0f; b server 200000 1 1 000102030405060708090a0b0c0d0e0f;
4 unmon-all 1 = state 1 or system-err -> 1; a 1 0 65536; b 1 0 65536;
";

const QUOTA: &str = "\
restart -> 1;
grace-over
connect pipe
2 lock a 0 10 = granted or no-locks -> 1; a 1 3 65536;
local |quota 61 5| ok or refused -> 1; a 1 3 5;
";

const CRASH: &str = "\
restart -> 1;
grace-over
connect pipe
2 lock a 0 10 = granted or no-locks -> 1; a 1 3 65536;
3 crash = done or system-err -> 3; a 1 3 65536;
";

const SCRIPTS: &[&str] = &[
    FIRST_RESTART,
    RESTART,
    LOCK,
    BLOCKED_LOCK,
    NOTIFY,
    NOTICE_ANSWERED,
    MON,
    MON_OF_STORED,
    UNMON,
    UNMON_ALL,
    QUOTA,
    CRASH,
];

// The last line of each script is met by stops of either file, and none leaves what it may not.
#[test]
fn stop_at_each_write(rt: HostRuntime) -> Result<(), &'static str> {
    for script in SCRIPTS {
        if !are_met(rt.alloc(), &Script(script)) {
            return Err(*script);
        }
    }
    Ok(())
}
