//! A store over a database and one in memory, which get the same calls: one script of all calls, files of schema 1, and
//! full stores.
use crate::tables::FIRST;
use crate::visits::{Came, Work, fresh, visit_files};
use hosts_db::{HostStore, MemHosts};
use std::alloc::{AllocError, Global};
use std::fmt::Write;
use std::test::*;
use test_kit::{answers, are_same, call, does_show, model, run};

/// What both stores are asked: first some calls, and then a script, a line at a time, with the same rows behind each.
///
/// `unready CALL` is refused by the store over the database, and not asked of the other. `shows TEXT` is what both show.
#[derive(Drop)]
struct Both<'a> {
    alloc: Global,
    model: MemHosts,
    first: &'a str,
    script: &'a str,
    wrong: Option<&'a str>,
}

// Whether the calls are all answered as they say.
fn are_made<S: HostStore>(store: &mut S, calls: &str) -> bool {
    run(store, calls, usize::MAX) == calls.lines().count()
}

fn step<S: HostStore>(alloc: Global, store: &mut S, model: &mut MemHosts, line: &str) -> bool {
    if let Some(made) = line.strip_prefix("unready ") {
        return call(store, made) == "refused";
    }
    if let Some(text) = line.strip_prefix("shows ") {
        return does_show(alloc, store, text);
    }
    answers(store, line) && answers(model, line)
}

impl Work for Both<'_> {
    fn work<S: HostStore>(&mut self, store: &mut S) {
        if self.wrong.is_some() {
            return;
        }
        if !are_made(store, self.first) || !are_made(&mut self.model, self.first) {
            self.wrong = Some("the first calls");
            return;
        }
        for line in self.script.lines() {
            let is_so = step(self.alloc, store, &mut self.model, line);
            if !is_so || !are_same(self.alloc, store, &self.model) {
                self.wrong = Some(line);
                return;
            }
        }
    }
}

/// Visits of one database.
#[derive(Clone, Copy)]
pub(crate) struct Story<'a> {
    // What it holds, and the calls after which a store in memory holds the same.
    pub(crate) sql: [&'a str; 2],
    pub(crate) past: &'a str,
    // The calls, and the script behind them.
    pub(crate) first: &'a str,
    pub(crate) script: &'a str,
    // What it is found to hold then, and the script of a store that is made again.
    pub(crate) found: &'a str,
    pub(crate) again: &'a str,
    // A change with which it is refused.
    pub(crate) more: &'a str,
}

/// What goes wrong.
pub(crate) fn wrong<'a>(alloc: Global, story: Story<'a>) -> Option<&'a str> {
    match model(alloc) {
        Some(model) => wrong_from(alloc, model, story),
        None => Some("no memory"),
    }
}

fn wrong_from<'a>(alloc: Global, model: MemHosts, story: Story<'a>) -> Option<&'a str> {
    let mut both = Both {
        alloc,
        model,
        first: story.first,
        script: story.script,
        wrong: None,
    };
    run(&mut both.model, story.past, usize::MAX);
    let unlike = unlike(alloc, &mut both, story);
    both.wrong.or(unlike)
}

// The first visit that comes out otherwise than it should. All are made, so that the files are let go of in one place.
fn unlike<'a>(alloc: Global, both: &mut Both<'a>, story: Story<'a>) -> Option<&'static str> {
    let (first, files) = visit_files(alloc, fresh(alloc), story.sql, both);
    both.first = "";
    both.script = story.again;
    let (second, files) = visit_files(alloc, files, ["", story.found], both);
    let (third, _files) = visit_files(alloc, files, ["", story.more], both);
    match (first, second, third) {
        (Came::Worked, Came::Worked, Came::Refused) => None,
        (Came::Worked, Came::Worked, _) => Some("one row more"),
        (Came::Worked, _, _) => Some("the second visit"),
        _ => Some("the first visit"),
    }
}

/// One call of each kind at least, and what there is behind each.
const SCRIPT: &str = "\
unready seen a 1
start
shows 1;
monitor b -5
shows 1; b 1 -5 65536;
start
shows 3; b 1 -5 65536;
monitor a 7
shows 3; a 3 7 65536; b 1 -5 65536;
seen b 8
shows 3; a 3 7 65536; b 1 8 65536;
seen i 8
shows 3; a 3 7 65536; b 1 8 65536;
acked b 3
shows 3; a 3 7 65536; b 3 8 65536;
acked i 3
shows 3; a 3 7 65536; b 3 8 65536;
quota a 5
shows 3; a 3 7 5; b 3 8 65536;
watch b f 7
shows 3; a 3 7 5; b 3 8 65536; b f 4 2 -3 07070707070707070707070707070707;
watch c f 7
shows 3; a 3 7 5; b 3 8 65536; c 3 0 65536; b f 4 2 -3 07070707070707070707070707070707; c f 4 2 -3 07070707070707070707070707070707;
watch b f 9
shows 3; a 3 7 5; b 3 8 65536; c 3 0 65536; b f 4 2 -3 09090909090909090909090909090909; c f 4 2 -3 07070707070707070707070707070707;
watch b e 8
shows 3; a 3 7 5; b 3 8 65536; c 3 0 65536; b e 4 2 -3 08080808080808080808080808080808; b f 4 2 -3 09090909090909090909090909090909; c f 4 2 -3 07070707070707070707070707070707;
unwatch c e
shows 3; a 3 7 5; b 3 8 65536; c 3 0 65536; b e 4 2 -3 08080808080808080808080808080808; b f 4 2 -3 09090909090909090909090909090909; c f 4 2 -3 07070707070707070707070707070707;
unwatch c f
shows 3; a 3 7 5; b 3 8 65536; c 3 0 65536; b e 4 2 -3 08080808080808080808080808080808; b f 4 2 -3 09090909090909090909090909090909;
unwatch * f
shows 3; a 3 7 5; b 3 8 65536; c 3 0 65536; b e 4 2 -3 08080808080808080808080808080808;
";

const AGAIN: &str = "\
shows 3; a 3 7 5; b 3 8 65536; c 3 0 65536; b e 4 2 -3 08080808080808080808080808080808; 
start
";

/// A database without its own row is refused.
const NO_OWN: &str = "DELETE FROM own";

/// The own state 3, two hosts, and a watch of one of them.
pub(crate) const ROWS: &str =
    "INSERT INTO own VALUES (1, 1, 3); INSERT INTO hosts VALUES (x'62', 3, 0), (x'61', 1, 3); INSERT INTO watches VALUES (x'62', x'6d', 4, 2, -3, x'07070707070707070707070707070707')";

/// The calls after which a store in memory holds the same.
pub(crate) const PAST: &str = "\
start
monitor a 3
start
monitor b 0
watch b m 7
";

const UPGRADED: &str = "\
unready seen a 1
start
shows 5; a 1 3 65536; b 3 0 65536; b m 4 2 -3 07070707070707070707070707070707; 
";

/// What the own row and the tables of the hosts of either schema hold.
const AS_FIRST: &str = "\
SELECT version FROM own -> 1
SELECT count(*) FROM hosts -> 2
SELECT count(*) FROM hosts2 -> none
";

const AS_SECOND: &str = "\
SELECT version FROM own -> 2
SELECT count(*) FROM hosts -> 0
SELECT count(*) FROM hosts2 -> 2
";

/// Before the first start all quotas are full.
const UNSTARTED: &str =
    "shows 3; a 1 3 65536; b 3 0 65536; b m 4 2 -3 07070707070707070707070707070707; ";

const FRESH: &Story<'static> = &Story {
    sql: ["", ""],
    past: "",
    first: "",
    script: SCRIPT,
    found: "SELECT version FROM own -> 2",
    again: AGAIN,
    more: NO_OWN,
};

const OF_FIRST: &Story<'static> = &Story {
    sql: [FIRST, "INSERT INTO own VALUES (1, 1, 0)"],
    past: "",
    first: "",
    script: SCRIPT,
    found: "SELECT version FROM own -> 2",
    again: AGAIN,
    more: NO_OWN,
};

const FULL_QUOTAS: &Story<'static> = &Story {
    sql: [FIRST, ROWS],
    past: PAST,
    first: "",
    script: UNSTARTED,
    found: AS_FIRST,
    again: UNSTARTED,
    more: NO_OWN,
};

const UPGRADE: &Story<'static> = &Story {
    sql: [FIRST, ROWS],
    past: PAST,
    first: "",
    script: UPGRADED,
    found: AS_SECOND,
    again: "shows 5; a 1 3 65536; b 3 0 65536; b m 4 2 -3 07070707070707070707070707070707; ",
    more: NO_OWN,
};

// What goes wrong is the error, behind the name of the story.
fn is_told(
    alloc: Global,
    name: &'static str,
    story: &Story<'static>,
) -> Result<(), (&'static str, &'static str)> {
    match wrong(alloc, *story) {
        Some(line) => Err((name, line)),
        None => Ok(()),
    }
}

#[test]
fn stories_over_both(rt: HostRuntime) -> Result<(), (&'static str, &'static str)> {
    let alloc = rt.alloc();
    is_told(alloc, "fresh files", FRESH)?;
    is_told(alloc, "files of schema 1", OF_FIRST)?;
    is_told(alloc, "full quotas", FULL_QUOTAS)?;
    is_told(alloc, "upgrade", UPGRADE)
}

// A start, and a call for each number below this.
fn push_numbered(
    calls: &mut String,
    before: &str,
    count: u32,
    after: &str,
) -> Result<(), AllocError> {
    calls.push_str("start\n")?;
    for number in 0..count {
        write!(calls, "{before}{number}{after}\n")?;
    }
    Ok(())
}

// Whether a store is as this script says once it has got these calls, and keeps that, but takes no more rows.
fn is_full<'a>(alloc: Global, first: &'a str, script: &'a str, more: &'a str) -> bool {
    let story = Story {
        sql: ["", ""],
        past: "",
        first,
        script,
        found: "",
        again: "unready seen 1 1",
        more,
    };
    wrong(alloc, story).is_none()
}

// The same after a call for each number.
fn is_full_of(
    alloc: Global,
    (before, count, after): (&str, u32, &str),
    script: &str,
    more: &str,
) -> bool {
    let mut calls = String::new(alloc);
    push_numbered(&mut calls, before, count, after).is_ok() && is_full(alloc, &calls, script, more)
}

/// A host more is refused and changes nothing, and a stored one is no new row.
const HOSTS_FULL: &str = "\
monitor 4096 0 -> refused
watch 4096 f 7 -> refused
watch 4095 f 7
seen 4095 5
start
";

const HOST_MORE: &str = "INSERT INTO hosts2 VALUES (x'616161', 1, 0, 65536)";

/// A watch more is refused and changes nothing, and a stored one with other bytes is no new watch.
const WATCHES_FULL: &str = "\
watch 1 1024 7 -> refused
watch 2 0 7 -> refused
watch 1 0 9
monitor 2 0
unwatch 1 5
watch 2 1024 7
";

const WATCH_MORE: &str =
    "INSERT INTO watches VALUES (x'61', x'6d', 1, 2, 3, x'000102030405060708090a0b0c0d0e0f')";

#[test]
fn full_stores(rt: HostRuntime) -> Result<(), &'static str> {
    let alloc = rt.alloc();
    if !is_full_of(alloc, ("monitor ", 4096, " 0"), HOSTS_FULL, HOST_MORE) {
        return Err("hosts_full");
    }
    if !is_full_of(alloc, ("watch 1 ", 1024, " 7"), WATCHES_FULL, WATCH_MORE) {
        return Err("watches_full");
    }
    Ok(())
}
