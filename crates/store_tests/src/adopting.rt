//! Files that the store refuses, beside the nearest ones that it takes.
use crate::stops::Calls;
use crate::tables::{FIRST, SECOND};
use crate::visits::{Came, Trials, Work, fresh, visit_files};
use hosts_db::HostStore;
use std::alloc::{AllocError, Global};
use std::test::*;

/// What a store shows: the own state, how many hosts, and how many watches.
type Shown = (u32, usize, usize);

/// What the tables hold, and what a store over them shows. None: it refuses them. `<5>` stands for five zero bytes.
type Row = (&'static str, Option<Shown>);

/// Notes what a store shows.
#[derive(Clone, Copy)]
struct Look(Shown);

impl Work for Look {
    fn work<S: HostStore>(&mut self, store: &mut S) {
        self.0 = (store.own(), store.hosts().len(), store.watches().len());
    }
}

// Files with these tables and rows, where the SQL ran. They are opened once more, since that begins the log anew.
fn made(alloc: Global, sql: [&str; 2]) -> Option<Trials> {
    let mut look = Look((0, 0, 0));
    let (came, files) = visit_files(alloc, fresh(alloc), sql, &mut look);
    let (_, files) = visit_files(alloc, files, ["", ""], &mut look);
    match came {
        Came::Worked | Came::Refused => Some(files),
        _ => None,
    }
}

// Makes a store, and then starts one: whether the files are refused, or show this and start.
fn shows(alloc: Global, files: Trials, want: Option<Shown>) -> (bool, Trials) {
    let mut look = Look((0, 0, 0));
    let (came, files) = visit_files(alloc, files, ["", ""], &mut look);
    let is_so = match want {
        Some(shown) => came == Came::Worked && look.0 == shown,
        None => came == Came::Refused,
    };
    (is_so, files)
}

fn starts(alloc: Global, files: Trials) -> bool {
    let mut start = Calls {
        script: "start",
        done: 0,
    };
    visit_files(alloc, files, ["", ""], &mut start);
    start.done == 1
}

/// What both files hold.
#[derive(Drop)]
pub(crate) struct Bytes {
    log: Vec<u8>,
    db: Vec<u8>,
}

impl Bytes {
    pub(crate) fn new(alloc: Global) -> Bytes {
        Bytes {
            log: Vec::new(alloc),
            db: Vec::new(alloc),
        }
    }

    /// Whether there is memory for them.
    pub(crate) fn note(&mut self, Trials { disks }: &Trials) -> bool {
        self.log
            .extend_from_slice(disks.log.inner().bytes())
            .is_ok()
            && self.db.extend_from_slice(disks.db.inner().bytes()).is_ok()
    }

    pub(crate) fn are_of(&self, Trials { disks }: &Trials) -> bool {
        disks.log.inner().bytes() == self.log.as_slice()
            && disks.db.inner().bytes() == self.db.as_slice()
    }
}

// Whether the store takes these tables and rows as is wanted, and leaves each byte of the files.
fn adopts(alloc: Global, sql: [&str; 2], want: Option<Shown>) -> bool {
    let Some(files) = made(alloc, sql) else {
        return false;
    };
    let mut before = Bytes::new(alloc);
    let is_noted = before.note(&files);
    let (is_so, files) = shows(alloc, files, want);
    let is_left = is_noted && before.are_of(&files);
    is_so && is_left && starts(alloc, files) == want.is_some()
}

// A literal of so many zero bytes.
fn push_zeros(to: &mut String, count: usize) -> Result<(), AllocError> {
    to.push_str("x'")?;
    for _ in 0..count {
        to.push_str("00")?;
    }
    to.push_str("'")
}

// The text, with the literals that it stands for.
fn push_spelled(to: &mut String, text: &str) -> Result<(), AllocError> {
    for part in text.split('<') {
        match part.split_once('>') {
            Some((count, rest)) => {
                push_zeros(to, count.parse().unwrap_or(0))?;
                to.push_str(rest)?;
            }
            None => to.push_str(part)?,
        }
    }
    Ok(())
}

fn is_so(alloc: Global, tables: &str, row: Row) -> bool {
    let mut sql = String::new(alloc);
    push_spelled(&mut sql, row.0).is_ok() && adopts(alloc, [tables, &sql], row.1)
}

// The first row that isn't so is an error.
fn are_so(alloc: Global, tables: &str, rows: &[Row]) -> Result<(), &'static str> {
    for row in rows {
        if !is_so(alloc, tables, *row) {
            return Err(row.0);
        }
    }
    Ok(())
}

/// All tables or none, and no other.
const TABLES: &[Row] = &[
    ("", Some((5, 0, 0))),
    ("DROP TABLE own", None),
    ("DROP TABLE hosts2", None),
    ("DROP TABLE watches", None),
    ("DROP TABLE own; DROP TABLE hosts2", None),
    ("DROP TABLE own; DROP TABLE watches", None),
    ("DROP TABLE hosts2; DROP TABLE watches", None),
    (
        "DROP TABLE own; DROP TABLE hosts2; DROP TABLE watches",
        Some((0, 0, 0)),
    ),
    ("CREATE TABLE more (id INTEGER)", None),
    ("CREATE INDEX of_epoch ON hosts2 (epoch)", None),
    (
        "DROP TABLE hosts2; CREATE TABLE hosts2 (name BLOB NOT NULL PRIMARY KEY, epoch INTEGER NOT NULL, seen INTEGER NOT NULL) STRICT",
        None,
    ),
];

/// No row of its own, another version, and numbers that are no state.
const OWN: &[Row] = &[
    ("DELETE FROM own", None),
    ("UPDATE own SET version = 0", None),
    ("UPDATE own SET version = 3", None),
    ("UPDATE own SET version = 4294967298", None),
    ("UPDATE own SET state = -1", None),
    ("UPDATE own SET state = 0", Some((0, 0, 0))),
    (
        "UPDATE own SET state = 2147483647",
        Some((2_147_483_647, 0, 0)),
    ),
    ("UPDATE own SET state = 2147483648", None),
    ("UPDATE own SET state = 4294967301", None),
];

/// A name, and the epoch, the state seen and the quota.
const HOSTS: &[Row] = &[
    (
        "INSERT INTO hosts2 VALUES (<0>, 0, -2147483648, 0)",
        Some((5, 1, 0)),
    ),
    (
        "INSERT INTO hosts2 VALUES (<1024>, 2147483647, 2147483647, 65536)",
        Some((5, 1, 0)),
    ),
    ("INSERT INTO hosts2 VALUES (<1025>, 0, 0, 0)", None),
    ("INSERT INTO hosts2 VALUES (<1>, -1, 0, 0)", None),
    ("INSERT INTO hosts2 VALUES (<1>, 2147483648, 0, 0)", None),
    ("INSERT INTO hosts2 VALUES (<1>, 4294967297, 0, 0)", None),
    ("INSERT INTO hosts2 VALUES (<1>, 0, -2147483649, 0)", None),
    ("INSERT INTO hosts2 VALUES (<1>, 0, 2147483648, 0)", None),
    ("INSERT INTO hosts2 VALUES (<1>, 0, 4294967296, 0)", None),
    ("INSERT INTO hosts2 VALUES (<1>, 0, 0, -1)", None),
    ("INSERT INTO hosts2 VALUES (<1>, 0, 0, 65537)", None),
    ("INSERT INTO hosts2 VALUES (<1>, 0, 0, 4294967296)", None),
];

/// Two names, the program, version and procedure, and the private bytes.
const WATCHES: &[Row] = &[
    (
        "INSERT INTO watches VALUES (<0>, <0>, -2147483648, 2147483647, 0, <16>)",
        Some((5, 0, 1)),
    ),
    (
        "INSERT INTO watches VALUES (<1024>, <1024>, 0, 0, 0, <16>)",
        Some((5, 0, 1)),
    ),
    (
        "INSERT INTO watches VALUES (<1025>, <1>, 0, 0, 0, <16>)",
        None,
    ),
    (
        "INSERT INTO watches VALUES (<1>, <1025>, 0, 0, 0, <16>)",
        None,
    ),
    (
        "INSERT INTO watches VALUES (<1>, <1>, 2147483648, 0, 0, <16>)",
        None,
    ),
    (
        "INSERT INTO watches VALUES (<1>, <1>, 0, -2147483649, 0, <16>)",
        None,
    ),
    (
        "INSERT INTO watches VALUES (<1>, <1>, 0, 0, 4294967296, <16>)",
        None,
    ),
    ("INSERT INTO watches VALUES (<1>, <1>, 0, 0, 0, <15>)", None),
    ("INSERT INTO watches VALUES (<1>, <1>, 0, 0, 0, <17>)", None),
];

/// Rows that fit, and the nearest ones that don't.
const ROWS: &[Row] = &[
    ("", Some((5, 0, 0))),
    (
        "INSERT INTO hosts2 VALUES (x'62', 3, -7, 65536), (x'61', 5, 9, 0)",
        Some((5, 2, 0)),
    ),
    (
        "INSERT INTO watches VALUES (x'62', x'6d', 1, 2, -3, x'000102030405060708090a0b0c0d0e0f')",
        Some((5, 0, 1)),
    ),
    ("INSERT INTO hosts2 VALUES (x'61', 5, 2147483648, 0)", None),
    ("INSERT INTO hosts2 VALUES (x'61', 5, 0, 65537)", None),
    ("INSERT INTO hosts2 VALUES (x'61', -1, 0, 0)", None),
    (
        "INSERT INTO watches VALUES (x'62', x'6d', 1, 2, 3, x'000102030405060708090a0b0c0d0e')",
        None,
    ),
    ("UPDATE own SET version = 3", None),
    ("DELETE FROM own", None),
    ("CREATE TABLE more (id INTEGER)", None),
    ("DROP TABLE watches", None),
];

/// Files of schema 1.
const FIRST_ROWS: &[Row] = &[
    ("INSERT INTO own VALUES (1, 1, 3)", Some((3, 0, 0))),
    ("INSERT INTO own VALUES (1, 2, 3)", None),
    ("INSERT INTO own VALUES (1, 3, 3)", None),
    ("", None),
    (
        "INSERT INTO own VALUES (1, 1, 3); INSERT INTO hosts VALUES (x'61', 2147483648, 0)",
        None,
    ),
    (
        "INSERT INTO own VALUES (1, 1, 3); CREATE TABLE hosts2 (name BLOB)",
        None,
    ),
    ("INSERT INTO own VALUES (1, 1, 3); DROP TABLE hosts", None),
    (
        "INSERT INTO own VALUES (1, 1, 3); CREATE TABLE addresses (name BLOB NOT NULL PRIMARY KEY, address TEXT NOT NULL) STRICT; INSERT INTO addresses VALUES (<1>, '::1')",
        Some((3, 0, 0)),
    ),
    (
        "INSERT INTO own VALUES (1, 1, 3); CREATE TABLE addresses (name BLOB NOT NULL PRIMARY KEY, address TEXT NOT NULL) STRICT; INSERT INTO addresses VALUES (<1>, ':1')",
        None,
    ),
];

/// A table of addresses, and the nearest ones that aren't taken.
const ADDRESSES: &[Row] = &[
    (
        "CREATE TABLE addresses (name BLOB NOT NULL PRIMARY KEY, address TEXT NOT NULL) STRICT",
        Some((5, 0, 0)),
    ),
    (
        "CREATE TABLE addresses (name BLOB NOT NULL PRIMARY KEY, address TEXT NOT NULL)",
        None,
    ),
    (
        "CREATE TABLE addresses (name BLOB NOT NULL PRIMARY KEY, address TEXT) STRICT",
        None,
    ),
    (
        "CREATE TABLE addresses (address TEXT NOT NULL, name BLOB NOT NULL PRIMARY KEY) STRICT",
        None,
    ),
    (
        "CREATE TABLE addresses (name BLOB NOT NULL, address TEXT NOT NULL UNIQUE) STRICT",
        None,
    ),
    (
        "CREATE TABLE addresses (name BLOB NOT NULL PRIMARY KEY, address TEXT NOT NULL, port INTEGER) STRICT",
        None,
    ),
    (
        "CREATE TABLE Addresses (name BLOB NOT NULL PRIMARY KEY, address TEXT NOT NULL) STRICT",
        None,
    ),
    ("CREATE VIEW addresses AS SELECT name FROM hosts2", None),
    ("CREATE INDEX addresses ON hosts2 (epoch)", None),
    (
        "CREATE TABLE addresses (name BLOB NOT NULL PRIMARY KEY, address TEXT NOT NULL) STRICT; INSERT INTO addresses VALUES (<0>, '::1'), (<1024>, '192.0.2.1')",
        Some((5, 0, 0)),
    ),
    (
        "CREATE TABLE addresses (name BLOB NOT NULL PRIMARY KEY, address TEXT NOT NULL) STRICT; INSERT INTO addresses VALUES (<1025>, '::1')",
        None,
    ),
    (
        "CREATE TABLE addresses (name BLOB NOT NULL PRIMARY KEY, address TEXT NOT NULL) STRICT; INSERT INTO addresses VALUES (<1>, '')",
        None,
    ),
    (
        "CREATE TABLE addresses (name BLOB NOT NULL PRIMARY KEY, address TEXT NOT NULL) STRICT; INSERT INTO addresses VALUES (<1>, '192.0.2.1 ')",
        None,
    ),
];

/// Files of schema 2.
const SECOND_ROWS: &[&[Row]] = &[TABLES, OWN, HOSTS, WATCHES, ROWS, ADDRESSES];

#[test]
fn adopts_just_what_fits(rt: HostRuntime) -> Result<(), &'static str> {
    for rows in SECOND_ROWS {
        are_so(rt.alloc(), SECOND, rows)?;
    }
    are_so(rt.alloc(), FIRST, FIRST_ROWS)
}
