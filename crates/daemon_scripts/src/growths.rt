//! Scripts whose lines may starve, each once: what starves leaves all as it was but, perhaps, a host's row, and goes right when it is
//! made again; all else goes as with ample memory.
use crate::page::{Page, read_xid};
use crate::script::{goes, is_answered};
use crate::servers::{Misplayed, PIECE, memory, play_over, told};
use crate::state::known;
use daemon_core::Daemon;
use hosts_db::{HostStore, MemHosts};
use range_table::RangeTable;
use std::alloc::{AllocError, Global};
use test_kit::{Lent, put_message};

/// As many bytes as any line needs, which are got before the script begins.
const ROOM: usize = 1_024;

/// What a call that starved leaves as it was.
#[derive(Clone, Copy, Debug, PartialEq, Eq)]
struct Left {
    runs: u32,
    known: u32,
    own: u32,
    hosts: usize,
    watches: usize,
}

impl Left {
    // Whether this is what a call that starved may leave: all as it was but, perhaps, the row of one more host, which was stored
    // before the growth was refused.
    fn is_left_of(self, before: Left) -> bool {
        let Left { hosts, .. } = before;
        let row = hosts.saturating_add(1);
        self == before
            || self
                == (Left {
                    hosts: row,
                    ..before
                })
    }
}

fn kept_by<T: RangeTable, S: HostStore>(daemon: &Daemon<T, S>) -> Left {
    Left {
        runs: daemon.locks().used(),
        known: known(daemon),
        own: daemon.store().own(),
        hosts: daemon.store().hosts().len(),
        watches: daemon.store().watches().len(),
    }
}

fn is_right<'a, T: RangeTable, S: HostStore>(
    daemon: &mut Daemon<T, S>,
    page: &mut Page<'a>,
    line: &'a str,
) -> bool {
    page.clear();
    page.is_starved = false;
    goes(daemon, page, line) && is_answered(daemon, page)
}

// A call that starved is answered SYSTEM_ERR, where it came to the server; whatever else starved gets nothing.
fn is_told_so(page: &mut Page<'_>, line: &str) -> bool {
    let (verb, _) = line.split_once(" ").unwrap_or((line, ""));
    if page.was_sent.is_empty() {
        return true;
    }
    let Some(xid) = read_xid(verb) else {
        return false;
    };
    page.told.clear();
    put_message(&mut page.told, xid, "system-err").is_some()
        && page.was_sent.as_slice() == page.told.as_slice()
}

// It starved: all is as it was, tests are told what they were told before, and a new connection brings it again. The one
// before receives no more where it was its bytes that starved.
fn goes_again<'a, T: RangeTable, S: HostStore>(
    daemon: &mut Daemon<T, S>,
    page: &mut Page<'a>,
    [of_a, of_b, line]: [&'a str; 3],
) -> bool {
    is_told_so(page, line)
        && is_right(daemon, page, "disconnect")
        && is_right(daemon, page, "connect pipe")
        && (of_a.is_empty() || is_right(daemon, page, of_a))
        && (of_b.is_empty() || is_right(daemon, page, of_b))
        && is_right(daemon, page, line)
}

fn goes_at_last<'a, T: RangeTable, S: HostStore>(
    daemon: &mut Daemon<T, S>,
    page: &mut Page<'a>,
    lines: [&'a str; 3],
) -> bool {
    let before = kept_by(daemon);
    let [_, _, line] = lines;
    if is_right(daemon, page, line) {
        return true;
    }
    page.is_starved && kept_by(daemon).is_left_of(before) && goes_again(daemon, page, lines)
}

// The tests that stand behind the last event.
fn tests_behind<'a>([of_a, of_b]: [&'a str; 2], line: &'a str) -> [&'a str; 2] {
    if line.starts_with("101 ") {
        [line, of_b]
    } else if line.starts_with("102 ") {
        [of_a, line]
    } else {
        ["", ""]
    }
}

fn wrong_at_last<'a, T: RangeTable, S: HostStore>(
    daemon: &mut Daemon<T, S>,
    page: &mut Page<'a>,
    lines: &[&'a str],
) -> Option<usize> {
    let mut tests = ["", ""];
    for (place, line) in lines.iter().enumerate() {
        let [of_a, of_b] = tests;
        if !goes_at_last(daemon, page, [of_a, of_b, line]) {
            return Some(place);
        }
        tests = tests_behind(tests, line);
    }
    None
}

fn store_at_last(alloc: Global) -> Option<MemHosts> {
    match memory(alloc, 0, Vec::new(alloc)) {
        Some(store) => Some(store),
        None => memory(alloc, 0, Vec::new(alloc)),
    }
}

fn reserve_at_last(bytes: &mut Vec<u8>) -> bool {
    match bytes.reserve(ROOM) {
        Ok(()) => true,
        Err(AllocError) => bytes.reserve(ROOM).is_ok(),
    }
}

/// Plays the lines, of which each may starve once.
pub(crate) fn play_in_room<'a, T: RangeTable, S: HostStore>(
    daemon: &mut Daemon<T, S>,
    page: &mut Page<'a>,
    lines: &[&'a str],
) -> Result<(), Misplayed> {
    let has_room = reserve_at_last(&mut page.come)
        && reserve_at_last(&mut page.told)
        && reserve_at_last(&mut page.sent)
        && reserve_at_last(&mut page.was_sent);
    let wrong = wrong_at_last(daemon, page, lines);
    if has_room {
        told(wrong)
    } else {
        Err(Misplayed::NoServer)
    }
}

fn played(alloc: Global, store: &mut MemHosts, lines: &[&str]) -> Option<Result<(), Misplayed>> {
    let mut writes = 0;
    play_over(alloc, Lent::new(store, &mut writes), PIECE, lines, true)
}

/// Plays the lines, of which each may starve once, with a server of no hosts, in memory. A server that can't begin changes nothing
/// of its store, and is made again.
pub fn play_in_want(alloc: Global, lines: &[&str]) -> Result<(), Misplayed> {
    let Some(mut store) = store_at_last(alloc) else {
        return Err(Misplayed::NoServer);
    };
    match played(alloc, &mut store, lines) {
        Some(outcome) => outcome,
        None => played(alloc, &mut store, lines).unwrap_or(Err(Misplayed::NoServer)),
    }
}
