//! Where hosts were: what a store keeps of that, in one transaction with the row of the host, and what it leaves where it keeps none.
use crate::adopting::Bytes;
use crate::stops::{Stop, Trial, after_crash, are_met, stopping};
use crate::tables::{FIRST, SECOND};
use crate::visits::{Came, Trials, Work, fresh, visit_files};
use hosts_db::{HostStore, StoreError};
use hosts_sql::{HostAddress, SqlHosts};
use sqlite::Alter;
use std::alloc::{AllocError, Global};
use std::fmt::Write;
use std::test::*;
use test_kit::{answers, shown};

// The addresses as a text.
fn told(alloc: Global, addresses: &[HostAddress]) -> Option<String> {
    let mut text = String::new(alloc);
    for row in addresses {
        let name = std::str::from_utf8(row.name()).ok()?;
        let address = row.address();
        write!(text, "{name} {address}; ").ok()?;
    }
    Some(text)
}

fn is_text(found: &Option<String>, want: &str) -> bool {
    match found {
        Some(text) => text.trim() == want.trim(),
        None => false,
    }
}

fn locate<S: HostStore>(store: &mut S, made: &str) -> &'static str {
    let (name, address) = made.split_once(' ').unwrap_or((made, ""));
    match store.locate(name.as_bytes(), address.as_bytes()) {
        Ok(()) => "ok",
        Err(StoreError::StoreRefused) => "refused",
        Err(StoreError::Starved) => "starved",
    }
}

// Makes the call of this line, which may be `locate NAME ADDRESS`, too: whether the answer is the one behind it.
fn is_answered<S: HostStore>(store: &mut S, line: &str) -> bool {
    let Some(made) = line.strip_prefix("locate ") else {
        return answers(store, line);
    };
    match made.split_once(" -> ") {
        Some((made, want)) => locate(store, made) == want,
        None => locate(store, made) == "ok",
    }
}

/// Notes what a store shows, and makes at most so many calls of a script, up to the first that is answered otherwise.
#[derive(Drop)]
struct Locating<'a> {
    alloc: Global,
    keeps: bool,
    script: &'a str,
    most: usize,
    done: usize,
    addresses: Option<String>,
    rows: Option<String>,
}

impl<'a> Locating<'a> {
    fn new(alloc: Global, keeps: bool, script: &'a str) -> Locating<'a> {
        Locating {
            alloc,
            keeps,
            script,
            most: usize::MAX,
            done: 0,
            addresses: None,
            rows: None,
        }
    }

    fn shows(&self, rows: &str, addresses: &str) -> bool {
        is_text(&self.rows, rows) && is_text(&self.addresses, addresses)
    }

    // Both as one text.
    fn text(&self) -> Option<String> {
        match (&self.rows, &self.addresses) {
            (Some(rows), Some(addresses)) => {
                let rows = rows.as_str();
                let addresses = addresses.as_str();
                format!(in self.alloc; "{rows}|{addresses}").ok()
            }
            _ => None,
        }
    }
}

impl Work for Locating<'_> {
    fn prepare<S: Alter>(&mut self, store: &mut SqlHosts<S>) {
        self.addresses = told(self.alloc, store.addresses());
        if self.keeps {
            store.keep_addresses();
        }
    }

    fn work<S: HostStore>(&mut self, store: &mut S) {
        self.rows = shown(self.alloc, store);
        self.done = 0;
        for line in self.script.lines().take(self.most) {
            if !is_answered(store, line) {
                return;
            }
            self.done = self.done.saturating_add(1);
        }
    }
}

/// A visit: what holds before it, whether addresses are kept, what the store shows of its rows and of the addresses, and the calls.
#[derive(Clone, Copy)]
struct Visit {
    sql: [&'static str; 2],
    keeps: bool,
    rows: &'static str,
    addresses: &'static str,
    script: &'static str,
}

fn visited(alloc: Global, files: Trials, visit: &Visit) -> (bool, Trials) {
    let mut work = Locating::new(alloc, visit.keeps, visit.script);
    let (came, files) = visit_files(alloc, files, visit.sql, &mut work);
    let is_done = came == Came::Worked && work.done == visit.script.lines().count();
    (is_done && work.shows(visit.rows, visit.addresses), files)
}

// The number of the first visit that goes otherwise.
fn wrong_of(alloc: Global, visits: &[Visit]) -> Option<usize> {
    let mut files = fresh(alloc);
    let mut wrong = None;
    for (at, visit) in visits.iter().enumerate() {
        let (is_so, left) = visited(alloc, files, visit);
        files = left;
        if !is_so && wrong.is_none() {
            wrong = Some(at);
        }
    }
    wrong
}

/// The address of a new host comes with its row, the last one told is the one that is kept, and a host's new address replaces the old.
const FRESH: &[Visit] = &[
    Visit {
        sql: ["", ""],
        keeps: true,
        rows: "0;",
        addresses: "",
        script: "locate a 192.0.2.9 -> refused\nstart\nlocate a 192.0.2.1\nlocate c 192.0.2.3\nlocate a 2001:db8::1\nmonitor a 3\nlocate b 192.0.2.2\nwatch b f 7\nlocate a nowhere -> refused\nlocate b 192.0.2.256 -> refused\nlocate d  -> refused\nmonitor d 1",
    },
    Visit {
        sql: [
            "SELECT count(*) FROM addresses -> 2\nSELECT count(*) FROM addresses WHERE name = x'61' AND address = '2001:db8::1' -> 1",
            "SELECT count(*) FROM sqlite_schema WHERE name = 'addresses' AND sql = 'CREATE TABLE addresses (name BLOB NOT NULL PRIMARY KEY, address TEXT NOT NULL) STRICT' -> 1\nSELECT version FROM own -> 2",
        ],
        keeps: true,
        rows: "1; a 1 3 65536; b 1 0 65536; d 1 1 65536; b f 4 2 -3 07070707070707070707070707070707;",
        addresses: "a 2001:db8::1; b 192.0.2.2;",
        script: "start\nlocate a 192.0.2.7\nwatch b f 9\nlocate e ::1",
    },
    Visit {
        sql: ["SELECT count(*) FROM addresses -> 2", ""],
        keeps: false,
        rows: "3; a 1 3 65536; b 1 0 65536; d 1 1 65536; b f 4 2 -3 09090909090909090909090909090909;",
        addresses: "b 192.0.2.2; a 192.0.2.7;",
        script: "locate a 192.0.2.8\nstart\nlocate a 192.0.2.8\nlocate e ::1\nmonitor e 1\nlocate e nowhere",
    },
    Visit {
        sql: ["SELECT count(*) FROM addresses -> 2", ""],
        keeps: true,
        rows: "5; a 1 3 65536; b 1 0 65536; d 1 1 65536; e 5 1 65536; b f 4 2 -3 09090909090909090909090909090909;",
        addresses: "b 192.0.2.2; a 192.0.2.7;",
        script: "monitor f 1 -> refused",
    },
];

const ROWS: &str =
    "INSERT INTO own VALUES (1, 1, 3); INSERT INTO hosts VALUES (x'62', 3, 0), (x'61', 1, 3)";

/// A file of schema 1 gets the table with its upgrade.
const OF_FIRST: &[Visit] = &[
    Visit {
        sql: [FIRST, ROWS],
        keeps: true,
        rows: "3; a 1 3 65536; b 3 0 65536;",
        addresses: "",
        script: "start\nlocate b 192.0.2.2",
    },
    Visit {
        sql: [
            "SELECT version FROM own -> 2\nSELECT count(*) FROM hosts -> 0",
            "",
        ],
        keeps: false,
        rows: "5; a 1 3 65536; b 3 0 65536;",
        addresses: "b 192.0.2.2;",
        script: "",
    },
];

/// One of schema 2 gets it with the first start.
const OF_SECOND: &[Visit] = &[
    Visit {
        sql: [SECOND, ""],
        keeps: true,
        rows: "5;",
        addresses: "",
        script: "locate b 192.0.2.2 -> refused",
    },
    Visit {
        sql: ["SELECT count(*) FROM addresses -> none", ""],
        keeps: true,
        rows: "5;",
        addresses: "",
        script: "start\nlocate b 192.0.2.2\nmonitor b 1",
    },
    Visit {
        sql: ["", ""],
        keeps: false,
        rows: "7; b 7 1 65536;",
        addresses: "b 192.0.2.2;",
        script: "start",
    },
];

/// Where none are kept there is no table of them.
const UNKEPT: &[Visit] = &[
    Visit {
        sql: ["", ""],
        keeps: false,
        rows: "0;",
        addresses: "",
        script: "locate a 192.0.2.1\nstart\nlocate a 192.0.2.1\nmonitor a 3\nlocate a nowhere",
    },
    Visit {
        sql: [
            "SELECT count(*) FROM sqlite_schema WHERE type = 'table' -> 3",
            "",
        ],
        keeps: false,
        rows: "1; a 1 3 65536;",
        addresses: "",
        script: "start",
    },
];

#[test]
fn addresses_are_kept(rt: HostRuntime) -> Result<(), (&'static str, usize)> {
    let alloc = rt.alloc();
    for (name, visits) in [
        ("fresh", FRESH),
        ("first", OF_FIRST),
        ("second", OF_SECOND),
        ("unkept", UNKEPT),
    ] {
        if let Some(at) = wrong_of(alloc, visits) {
            return Err((name, at));
        }
    }
    Ok(())
}

// What files hold after a script where addresses aren't kept.
fn unkept(alloc: Global, script: &str) -> Trials {
    let mut work = Locating::new(alloc, false, script);
    let (_, files) = visit_files(alloc, fresh(alloc), ["", ""], &mut work);
    files
}

#[test]
fn none_are_kept_unasked(rt: HostRuntime) -> Result<(), &'static str> {
    let alloc = rt.alloc();
    let plain = unkept(alloc, "start\nmonitor a 3\nwatch b f 7");
    let told = unkept(
        alloc,
        "start\nlocate a 192.0.2.1\nmonitor a 3\nlocate a 192.0.2.2\nwatch b f 7",
    );
    let mut bytes = Bytes::new(alloc);
    if bytes.note(&plain) && bytes.are_of(&told) {
        Ok(())
    } else {
        Err("other bytes")
    }
}

// ---- limits

// A line for each number below this.
fn push_numbered(
    text: &mut String,
    before: &str,
    count: u32,
    after: &str,
) -> Result<(), AllocError> {
    for number in 0..count {
        write!(text, "{before}{number:04}{after}\n")?;
    }
    Ok(())
}

// Whether the oldest of 4,097 addresses is forgotten, and the next one isn't.
fn is_oldest_forgotten(alloc: Global) -> bool {
    let mut script = String::new(alloc);
    if script.push_str("start\n").is_err()
        || push_numbered(&mut script, "locate ", 4_097, " ::1").is_err()
        || script.push_str("monitor 0000 1\nmonitor 0001 1").is_err()
    {
        return false;
    }
    let mut work = Locating::new(alloc, true, &script);
    let (_, files) = visit_files(alloc, fresh(alloc), ["", ""], &mut work);
    let mut look = Locating::new(alloc, false, "");
    visit_files(alloc, files, ["", ""], &mut look);
    look.shows("1; 0000 1 1 65536; 0001 1 1 65536;", "0001 ::1;")
}

// Whether a file with so many addresses is taken.
fn is_taken_of(alloc: Global, count: u32) -> bool {
    let mut sql = String::new(alloc);
    let table =
        "CREATE TABLE addresses (name BLOB NOT NULL PRIMARY KEY, address TEXT NOT NULL) STRICT\nBEGIN\n";
    if sql.push_str(table).is_err()
        || push_numbered(
            &mut sql,
            "INSERT INTO addresses VALUES (x'",
            count,
            "', '::1')",
        )
        .is_err()
        || sql.push_str("COMMIT").is_err()
    {
        return false;
    }
    let mut look = Locating::new(alloc, false, "");
    let (came, _files) = visit_files(alloc, fresh(alloc), [SECOND, &sql], &mut look);
    came == Came::Worked
}

#[test]
fn most_addresses(rt: HostRuntime) -> Result<(), &'static str> {
    let alloc = rt.alloc();
    if !is_oldest_forgotten(alloc) {
        return Err("the oldest");
    }
    if is_taken_of(alloc, 4_096) && !is_taken_of(alloc, 4_097) {
        Ok(())
    } else {
        Err("a file of 4,096")
    }
}

// ---- stops

// What so many calls of a script leave.
fn left_after(alloc: Global, script: &str, most: usize) -> Option<String> {
    let mut work = Locating::new(alloc, true, script);
    work.most = most;
    let (_, files) = visit_files(alloc, fresh(alloc), ["", ""], &mut work);
    let mut look = Locating::new(alloc, false, "");
    visit_files(alloc, files, ["", ""], &mut look);
    look.text()
}

/// A script, and what each number of its calls leaves.
#[derive(Drop)]
struct Stopped<'a> {
    script: &'a str,
    left: Vec<String>,
}

impl Stopped<'_> {
    // Whether so many calls leave this.
    fn is_left(&self, text: &str, calls: usize) -> bool {
        match self.left.get(calls) {
            Some(left) => left.as_str() == text,
            None => false,
        }
    }
}

impl Trial for Stopped<'_> {
    fn count(&self) -> usize {
        self.script.lines().count()
    }

    fn first(&self, _alloc: Global, _stop: Stop) -> u64 {
        0
    }

    // What is found after a crash is what the calls that were answered by Ok left, or the next one too.
    fn run(&self, alloc: Global, stop: Stop, calls: u64) -> Option<usize> {
        let mut made = Locating::new(alloc, true, self.script);
        let files = stopping(alloc, ["", ""], stop, calls)?;
        let (_, left) = visit_files(alloc, files, ["", ""], &mut made);
        let mut look = Locating::new(alloc, false, "");
        after_crash(alloc, left, &mut look);
        let text = look.text()?;
        let next = made.done.saturating_add(1);
        let is_either = self.is_left(&text, made.done) || self.is_left(&text, next);
        is_either.then_some(made.done)
    }
}

fn are_met_by(alloc: Global, script: &str) -> Option<bool> {
    let mut left = Vec::new(alloc);
    for most in 0..script.lines().count().saturating_add(1) {
        left.push(left_after(alloc, script, most)?).ok()?;
    }
    Some(are_met(alloc, &Stopped { script, left }))
}

/// The table made by a start, the row of a new host with its address, a watch of one, and the address of a host that has a row.
const SCRIPTS: &[&str] = &[
    "start",
    "start\nlocate b 192.0.2.2\nmonitor b -5",
    "start\nlocate b 192.0.2.2\nwatch b f 7",
    "start\nlocate b 192.0.2.2\nmonitor b -5\nlocate b 192.0.2.7",
];

#[test]
fn stop_at_each_write_of_addresses(rt: HostRuntime) -> Result<(), &'static str> {
    for script in SCRIPTS {
        if are_met_by(rt.alloc(), script) != Some(true) {
            return Err(*script);
        }
    }
    Ok(())
}
