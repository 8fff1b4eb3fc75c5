//! Files whose tables stand in any order, with and without tables of SQLite's own; and why others are refused.
use crate::pairs::{PAST, ROWS, Story, wrong};
use crate::tables::SECOND;
use crate::visits::{Came, Trials, Work, fresh, visit_files};
use hosts_db::{HostStore, StoreError};
use hosts_sql::{AdoptError, SqlHosts};
use sqlite::{Connection, Error, ErrorCode, Files, MemStore};
use sqlite_disk::{Disk, Fuse, Memory};
use std::alloc::{AllocError, Global};
use std::test::*;
use test_kit::{answers, does_show};

/// What makes a table by its name. The table `counted` makes SQLite's own sqlite_sequence, which stays.
const MAKING: &[(&str, &str)] = &[
    (
        "own",
        "CREATE TABLE own (id INTEGER PRIMARY KEY CHECK (id = 1), version INTEGER NOT NULL, state INTEGER NOT NULL) STRICT",
    ),
    (
        "hosts2",
        "CREATE TABLE hosts2 (name BLOB NOT NULL PRIMARY KEY, epoch INTEGER NOT NULL, seen INTEGER NOT NULL, quota INTEGER NOT NULL) STRICT",
    ),
    (
        "hosts",
        "CREATE TABLE hosts (name BLOB NOT NULL PRIMARY KEY, epoch INTEGER NOT NULL, seen INTEGER NOT NULL) STRICT",
    ),
    (
        "watches",
        "CREATE TABLE watches (mon BLOB NOT NULL, my BLOB NOT NULL, prog INTEGER NOT NULL, vers INTEGER NOT NULL, proc INTEGER NOT NULL, priv BLOB NOT NULL, PRIMARY KEY (mon, my, prog, vers, proc)) STRICT",
    ),
    (
        "addresses",
        "CREATE TABLE addresses (name BLOB NOT NULL PRIMARY KEY, address TEXT NOT NULL) STRICT",
    ),
    (
        "counted",
        "CREATE TABLE counted (id INTEGER PRIMARY KEY AUTOINCREMENT)",
    ),
    ("uncounted", "DROP TABLE counted"),
];

// The tables with these names, in this order, a line each.
fn push_tables(to: &mut String, order: &str) -> Result<(), AllocError> {
    for name in order.split(' ') {
        for (table, sql) in MAKING {
            if *table == name {
                to.push_str(sql)?;
                to.push_str("\n")?;
            }
        }
    }
    Ok(())
}

/// What schema 1 has in `ROWS`, in schema 2.
const SECOND_ROWS: &str =
    "INSERT INTO own VALUES (1, 2, 3); INSERT INTO hosts2 VALUES (x'62', 3, 0, 65536), (x'61', 1, 3, 65536); INSERT INTO watches VALUES (x'62', x'6d', 4, 2, -3, x'07070707070707070707070707070707')";

/// Each call that writes, behind a start.
const SCRIPT: &str = "\
unready seen a 1
unready monitor d 1
unready unwatch * m
start
monitor c 4
seen c 9
acked a 5
quota b 7
watch d f 7
watch b m 9
watch b n 9
unwatch b m
unwatch * f
";

/// Schema 1 in each order.
const FIRST_ORDERS: &[&str] = &[
    "own hosts watches",
    "own watches hosts",
    "hosts own watches",
    "hosts watches own",
    "watches own hosts",
    "watches hosts own",
    "counted watches uncounted hosts own",
    "addresses watches hosts own",
    "own hosts addresses watches",
];

/// Schema 2 in each order, and with the table of schema 1 that an upgrade leaves.
const SECOND_ORDERS: &[&str] = &[
    "own hosts2 watches",
    "own watches hosts2",
    "hosts2 own watches",
    "hosts2 watches own",
    "watches own hosts2",
    "watches hosts2 own",
    "own hosts watches hosts2",
    "hosts2 watches hosts own",
    "watches hosts2 own hosts",
    "counted own watches uncounted hosts2",
    "own hosts counted uncounted watches hosts2",
    "addresses own hosts2 watches",
    "own hosts hosts2 addresses watches",
];

// Whether a file with its tables in this order is taken, works, and is taken again.
fn is_taken(alloc: Global, order: &str, rows: &str) -> bool {
    let mut tables = String::new(alloc);
    if push_tables(&mut tables, order).is_err() {
        return false;
    }
    let story = Story {
        sql: [&tables, rows],
        past: PAST,
        first: "",
        script: SCRIPT,
        found: "SELECT version FROM own -> 2",
        again: "start\nmonitor e 1",
        more: "DELETE FROM own",
    };
    wrong(alloc, story).is_none()
}

#[test]
fn any_order_is_taken(rt: HostRuntime) -> Result<(), &'static str> {
    for order in FIRST_ORDERS {
        if !is_taken(rt.alloc(), order, ROWS) {
            return Err(*order);
        }
    }
    for order in SECOND_ORDERS {
        if !is_taken(rt.alloc(), order, SECOND_ROWS) {
            return Err(*order);
        }
    }
    Ok(())
}

/// A file that sqlite3 3.40.1 made: the tables watches, own and hosts2, a row in each, and sqlite_stat1, which ANALYZE has
/// made. The places of its bytes that aren't 0, and those bytes. Made anew by
/// `PRAGMA page_size = 512`, the three CREATEs and INSERTs, and `ANALYZE`.
const ANALYZED: &str = "\
0 53514c69746520666f726d617420330002000101004020200000000700000009
43 0400000004
59 01
95 07002e6301050000000101fb000000000801fb
510 05030d0000000101e30001e3
995 1b01070e0e0901012c626d02fd000102030405060708090a0b0c0d0e0f0a0000000101f40001f4
1524 0b070e0e09010109626d02fd0d0000000101f80001f8
2040 06010400010102050d01f8000300610000e801c9006100340034
2100 01f8002d
2145 8104030717131301816f7461626c656f776e6f776e04435245415445205441424c45206f776e2028696420494e5445474552205052494d415259204b45592043
2209 4845434b20286964203d2031292c2076657273696f6e20494e5445474552204e4f54204e554c4c2c20737461746520494e5445474552204e4f54204e554c4c29
2273 20535452494354815e0107171b1b0183137461626c65776174636865737761746368657302435245415445205441424c45207761746368657320286d6f6e2042
2337 4c4f42204e4f54204e554c4c2c206d7920424c4f42204e4f54204e554c4c2c2070726f6720494e5445474552204e4f54204e554c4c2c207665727320494e5445
2401 474552204e4f54204e554c4c2c2070726f6320494e5445474552204e4f54204e554c4c2c207072697620424c4f42204e4f54204e554c4c2c205052494d415259
2465 204b455920286d6f6e2c206d792c2070726f672c20766572732c2070726f632929205354524943542d020617411b0100696e64657873716c6974655f6175746f
2529 696e6465785f776174636865735f31776174636865730300000008000000000d0000000101f30001f3
3059 0b01050e0101036203f90100000a0000000101fb0001fb
3579 04030e09620d0000000300e8000162013500e8
3816 4b0606172525015b7461626c6573716c6974655f737461743173716c6974655f737461743109435245415445205441424c452073716c6974655f737461743128
3880 74626c2c6964782c73746174292b0506173f190100696e64657873716c6974655f6175746f696e6465785f686f737473325f31686f7374733207811b04071719
3944 190182117461626c65686f73747332686f7374733206435245415445205441424c4520686f7374733220286e616d6520424c4f42204e4f54204e554c4c205052
4008 494d415259204b45592c2065706f636820494e5445474552204e4f54204e554c4c2c207365656e20494e5445474552204e4f54204e554c4c2c2071756f746120
4072 494e5445474552204e4f54204e554c4c29205354524943540d00000003019c0001d801ce019c
4508 3003041b41237761746368657373716c6974655f6175746f696e6465785f776174636865735f31312031203120312031203108020413000f6f776e3126010419
4572 3f13686f7374733273716c6974655f6175746f696e6465785f686f737473325f31312031
";

const ANALYZED_LENGTH: usize = 4608;

// The number that two digits spell.
fn byte_of(pair: &[u8]) -> Option<u8> {
    u8::from_str_radix(std::str::from_utf8(pair).ok()?, 16).ok()
}

// Puts what this line spells into its place.
fn put_line(bytes: &mut [u8], line: &str) -> Option<()> {
    let (place, digits) = line.split_once(' ')?;
    let mut at = place.parse::<usize>().ok()?;
    for pair in digits.as_bytes().chunks(2) {
        *bytes.get_mut(at)? = byte_of(pair)?;
        at = at.checked_add(1)?;
    }
    Some(())
}

fn analyzed(alloc: Global) -> Option<Trials> {
    let mut bytes = Vec::new(alloc);
    bytes.resize(ANALYZED_LENGTH, 0u8).ok()?;
    for line in ANALYZED.lines() {
        put_line(&mut bytes, line)?;
    }
    let mut db = Memory::new(alloc);
    db.write_at(0, &bytes).ok()?;
    db.sync().ok()?;
    Some(Trials {
        disks: Files {
            log: Fuse::new(Memory::new(alloc), u64::MAX),
            db: Fuse::new(db, u64::MAX),
        },
    })
}

/// What the analyzed file shows, and each call that writes.
const ANALYZED_SCRIPT: &str = "\
shows 5; b 3 -7 65536; b m 1 2 -3 000102030405060708090a0b0c0d0e0f;
start
shows 7; b 3 -7 65536; b m 1 2 -3 000102030405060708090a0b0c0d0e0f;
monitor c 4
seen c 9
acked b 7
quota b 7
watch d f 7
unwatch * f
shows 7; b 7 -7 7; c 7 9 65536; d 7 0 65536; b m 1 2 -3 000102030405060708090a0b0c0d0e0f;
";

/// Makes the calls of a script on a store, up to the first that goes otherwise than it says.
#[derive(Clone, Copy)]
struct Plays {
    alloc: Global,
    script: &'static str,
    wrong: Option<&'static str>,
}

impl Work for Plays {
    fn work<S: HostStore>(&mut self, store: &mut S) {
        self.wrong = None;
        for line in self.script.lines() {
            if !goes(self.alloc, store, line) {
                self.wrong = Some(line);
                return;
            }
        }
    }
}

// Whether a store answers a line as it says.
fn goes<S: HostStore>(alloc: Global, store: &mut S, line: &str) -> bool {
    match line.strip_prefix("shows ") {
        Some(text) => does_show(alloc, store, text),
        None => answers(store, line),
    }
}

#[test]
fn analyzed_is_taken(rt: HostRuntime) -> Result<(), &'static str> {
    let alloc = rt.alloc();
    let Some(files) = analyzed(alloc) else {
        return Err("no file");
    };
    let mut plays = Plays {
        alloc,
        script: ANALYZED_SCRIPT,
        wrong: Some("not taken"),
    };
    let (_, files) = visit_files(alloc, files, ["", ""], &mut plays);
    if let Some(line) = plays.wrong {
        return Err(line);
    }
    plays.script =
        "shows 7; b 7 -7 7; c 7 9 65536; d 7 0 65536; b m 1 2 -3 000102030405060708090a0b0c0d0e0f;\nstart";
    plays.wrong = Some("not taken again");
    let found = ["SELECT count(*) FROM sqlite_stat1 -> 3", ""];
    let (_, _files) = visit_files(alloc, files, found, &mut plays);
    match plays.wrong {
        Some(line) => Err(line),
        None => Ok(()),
    }
}

/// What is said of a database that isn't taken.
#[derive(Drop)]
struct Why {
    alloc: Global,
    text: Option<String>,
}

impl Work for Why {
    fn work<S: HostStore>(&mut self, _store: &mut S) {
        self.text = None;
    }

    fn untaken(&mut self, why: &AdoptError) {
        self.text = format!(in self.alloc; "{why}").ok();
    }
}

/// What is done to a file of schema 2 with the own state 5, and why it isn't taken then.
const REASONS: &[(&str, &str)] = &[
    ("DROP TABLE own", "table own is missing"),
    ("DROP TABLE hosts2", "table hosts2 is missing"),
    ("DROP TABLE watches", "table watches is missing"),
    (
        "CREATE TABLE more (id INTEGER)",
        "there is a further object: more",
    ),
    (
        "CREATE INDEX of_epoch ON hosts2 (epoch)",
        "there is a further object: of_epoch",
    ),
    (
        "CREATE VIEW names AS SELECT name FROM hosts2",
        "there is a further object: names",
    ),
    (
        "DROP TABLE hosts2; CREATE TABLE hosts2 (name BLOB NOT NULL PRIMARY KEY, epoch INTEGER NOT NULL, seen INTEGER NOT NULL) STRICT",
        "table hosts2 has 3 columns, and 4 are wanted",
    ),
    (
        "DROP TABLE hosts2; CREATE TABLE hosts2 (name BLOB NOT NULL PRIMARY KEY, epoch INTEGER NOT NULL, seen INTEGER NOT NULL, quota INTEGER) STRICT",
        "table hosts2 differs from what it should be in column quota",
    ),
    (
        "DROP TABLE hosts2; CREATE TABLE hosts2 (name BLOB NOT NULL PRIMARY KEY, epoch INTEGER NOT NULL, seen TEXT NOT NULL, quota INTEGER NOT NULL) STRICT",
        "table hosts2 differs from what it should be in column seen",
    ),
    (
        "DROP TABLE hosts2; CREATE TABLE hosts2 (name BLOB NOT NULL, epoch INTEGER NOT NULL, seen INTEGER NOT NULL, quota INTEGER NOT NULL) STRICT",
        "table hosts2 differs from what it should be in its keys or options",
    ),
    (
        "DROP TABLE watches; CREATE TABLE watches (mon BLOB NOT NULL, my BLOB NOT NULL, program INTEGER NOT NULL, vers INTEGER NOT NULL, proc INTEGER NOT NULL, priv BLOB NOT NULL, PRIMARY KEY (mon, my, program, vers, proc)) STRICT",
        "table watches differs from what it should be in column prog",
    ),
    (
        "DROP TABLE own; CREATE TABLE own (id INTEGER PRIMARY KEY CHECK (id = 1), version INTEGER NOT NULL, state INTEGER NOT NULL)",
        "table own differs from what it should be in column id",
    ),
    (
        "DROP TABLE hosts2; CREATE TABLE hosts (name BLOB NOT NULL PRIMARY KEY, epoch INTEGER NOT NULL, seen INTEGER NOT NULL) STRICT",
        "table own is of version 2, and the tables are of version 1",
    ),
    (
        "CREATE TABLE hosts (name BLOB NOT NULL PRIMARY KEY) STRICT",
        "table hosts has 1 columns, and 3 are wanted",
    ),
    ("DELETE FROM own", "table own has 0 rows, and one is wanted"),
    (
        "UPDATE own SET version = 3",
        "table own is of version 3, and the tables are of version 2",
    ),
    (
        "UPDATE own SET version = -1",
        "in table own column version is out of range in the row with rowid 1",
    ),
    (
        "UPDATE own SET state = 2147483648",
        "in table own column state is out of range in the row with rowid 1",
    ),
    (
        "INSERT INTO hosts2 VALUES (x'61', 1, 0, 1), (x'62', 2147483648, 0, 0)",
        "in table hosts2 column epoch is out of range in the row with rowid 2",
    ),
    (
        "INSERT INTO hosts2 VALUES (x'61', 1, 2147483648, 1)",
        "in table hosts2 column seen is out of range in the row with rowid 1",
    ),
    (
        "INSERT INTO hosts2 VALUES (x'61', 1, 0, 65537)",
        "in table hosts2 column quota is out of range in the row with rowid 1",
    ),
    (
        "INSERT INTO watches VALUES (x'61', x'62', 1, 2147483648, 3, x'000102030405060708090a0b0c0d0e0f')",
        "in table watches column vers is out of range in the row with rowid 1",
    ),
    (
        "INSERT INTO watches VALUES (x'61', x'62', 1, 2, 3, x'00')",
        "in table watches column priv is out of range in the row with rowid 1",
    ),
    (
        "CREATE TABLE addresses (name BLOB NOT NULL PRIMARY KEY) STRICT",
        "table addresses has 1 columns, and 2 are wanted",
    ),
    (
        "CREATE TABLE addresses (name BLOB NOT NULL PRIMARY KEY, address BLOB NOT NULL) STRICT",
        "table addresses differs from what it should be in column address",
    ),
    (
        "CREATE TABLE addresses (host BLOB NOT NULL PRIMARY KEY, address TEXT NOT NULL) STRICT",
        "table addresses differs from what it should be in column name",
    ),
    (
        "CREATE TABLE addresses (name BLOB NOT NULL, address TEXT NOT NULL) STRICT",
        "table addresses differs from what it should be in its keys or options",
    ),
    (
        "CREATE TABLE addresses (name BLOB NOT NULL PRIMARY KEY, address TEXT NOT NULL) STRICT; INSERT INTO addresses VALUES (x'61', '192.0.2.1'), (x'62', '192.0.2.256')",
        "in table addresses column address is out of range in the row with rowid 2",
    ),
    ("BEGIN", "a transaction is open"),
];

// Whether a file is refused with this reason.
fn is_said(alloc: Global, sql: &str, want: &str) -> bool {
    let mut why = Why { alloc, text: None };
    let (came, _files) = visit_files(alloc, fresh(alloc), [SECOND, sql], &mut why);
    let is_wanted = match &why.text {
        Some(text) => text.as_str() == want,
        None => false,
    };
    came == Came::Refused && is_wanted
}

#[test]
fn refusals_say_why(rt: HostRuntime) -> Result<(), &'static str> {
    for (sql, want) in REASONS {
        if !is_said(rt.alloc(), sql, want) {
            return Err(*want);
        }
    }
    Ok(())
}

// What is said of a database in memory that could not be opened.
fn unopened(alloc: Global, code: ErrorCode) -> Option<String> {
    let opened: Result<Connection<MemStore>, Error> = Err(Error::SqliteFailure(code));
    match SqlHosts::adopt_opened(alloc, opened) {
        Ok(_store) => None,
        Err(why) if why.refusal() == StoreError::StoreRefused => { format!(in alloc; "{why}").ok() }
        Err(_why) => None,
    }
}

#[test]
fn unopened_says_why(rt: HostRuntime) -> Result<(), &'static str> {
    let said = unopened(rt.alloc(), ErrorCode::CannotOpen);
    match said {
        Some(text) if text.as_str() == "it can't be opened: unable to open database file" => Ok(()),
        _ => Err("unable to open database file"),
    }
}
