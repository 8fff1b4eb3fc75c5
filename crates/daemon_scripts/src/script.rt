//! Plays a script, one line after another. A script is text:
//!
//! - `2 lock a 0 10 = granted`: this call comes under the xid 2, and gets this reply (`messages`).
//! - `in 80000028 ..`, `out 80000018 ..`: these bytes come, or are sent. `too-long`: the stream's last piece is refused.
//! - `times 9 2 null = done`: nine calls, under the xids from 2 on. `counts 1 9 2 block b 0 % = blocked`: a call for each number from
//!   1 to before 9, which stands for the `%`, under the xids from 2 on.
//! - `locks FH 2 64`: each second byte of a file is locked, from
//!   the second such byte to the 64th. `watches 9`: nine watchers watch the host `w`.
//! - `begins`, `restarts`: the server begins anew, with its grace period over, or in it; and the pipe's connection begins.
//!   `restart`, `grace-over`, `connect pipe`, `connect afar`, `disconnect`: each alone.
//! - `local |getlk d1 aa w 5 1| free`: a local program's line, and its answer. `sends-line ..`: a Send gives it a line.
//! - `sends a 1 notice 3`: a Send gives `a` this call under the xid 1. `quiet`: a Send gives nothing.
//! - `answer 1 said 0`, `answer-cut 1 done`: the answer to that call, or its first three bytes. `silent 1 2`: nobody answers
//!   the second call in the own state 1.
//! - `rows a 1 3 b 1 5`: the stored hosts, each with its epoch and its state. `own 1`, `quota a 5`, `known 2`: the own state, a
//!   host's quota, how many owners have a number. `stored yes`: what the store said to what came last.
//! - `fills 9`: each second of 128 bytes of nine files is locked.
//!
//! Lines of a stream that stand one behind the other come as one stream, cut in pieces, and are answered when all is there.
use crate::page::{CONNECTION, Page, read_xid};
use crate::state::is_so;
use daemon_core::{Daemon, Event, StoreAnswer};
use hosts_db::HostStore;
use range_table::RangeTable;
use test_kit::Terms;

/// Everything that happens to a daemon happens here. None where there is no memory.
pub fn happens<T: RangeTable, S: HostStore>(
    daemon: &mut Daemon<T, S>,
    page: &mut Page<'_>,
    events: Vec<Event>,
) -> Option<()> {
    let outputs = daemon.run(events).ok()?;
    for output in &outputs {
        page.hear(output)?;
    }
    Some(())
}

// The pieces of the stream are silent, but for the refusal of the last.
fn comes<T: RangeTable, S: HostStore>(
    daemon: &mut Daemon<T, S>,
    page: &mut Page<'_>,
) -> Option<bool> {
    page.whom = "client";
    page.store = StoreAnswer::NotAsked;
    page.refusal = None;
    let pieces = page.pieces()?;
    happens(daemon, page, pieces)?;
    Some(page.sent.is_empty() && page.refusal == page.fault)
}

/// The stream comes, and all its records are taken, and so many more, which aren't there. Whether the pieces were as they should.
pub(crate) fn taken<T: RangeTable, S: HostStore>(
    daemon: &mut Daemon<T, S>,
    page: &mut Page<'_>,
    more: usize,
) -> Option<bool> {
    let came = comes(daemon, page)?;
    let takes = page.takes(daemon.waiting(CONNECTION).saturating_add(more))?;
    happens(daemon, page, takes)?;
    Some(came)
}

/// The same with one more.
pub fn streams<T: RangeTable, S: HostStore>(
    daemon: &mut Daemon<T, S>,
    page: &mut Page<'_>,
) -> Option<bool> {
    taken(daemon, page, 1)
}

/// Whether the stream of the last lines is answered as it should, if there is one.
pub(crate) fn is_answered<T: RangeTable, S: HostStore>(
    daemon: &mut Daemon<T, S>,
    page: &mut Page<'_>,
) -> bool {
    if !page.is_streaming {
        return true;
    }
    let streamed = streams(daemon, page);
    page.is_starved = page.is_starved || streamed.is_none();
    let is_right = streamed == Some(true) && page.is_right();
    page.clear();
    is_right
}

fn is_done<'a, T: RangeTable, S: HostStore>(
    daemon: &mut Daemon<T, S>,
    page: &mut Page<'a>,
    verb: &str,
    rest: &'a str,
) -> Option<bool> {
    page.store = StoreAnswer::NotAsked;
    let events = page.events(verb, rest)?;
    happens(daemon, page, events)?;
    let is_right = page.is_right();
    page.clear();
    Some(is_right)
}

fn fills<T: RangeTable, S: HostStore>(
    daemon: &mut Daemon<T, S>,
    page: &mut Page<'_>,
    files: u32,
) -> bool {
    for fh in 0..files {
        let mut range = Terms::new(0, b'a');
        range.set(0, fh as u64);
        range.set(2, 64);
        if page.lock_bytes(&range).is_none() || !is_answered(daemon, page) {
            return false;
        }
    }
    true
}

/// Whether it goes as the line says, as far as that shows before the stream is answered.
pub(crate) fn goes<'a, T: RangeTable, S: HostStore>(
    daemon: &mut Daemon<T, S>,
    page: &mut Page<'a>,
    line: &'a str,
) -> bool {
    let (verb, rest) = line.split_once(" ").unwrap_or((line, ""));
    if let Some(is_read) = page.read(verb, rest) {
        return is_read;
    }
    if !is_answered(daemon, page) {
        return false;
    }
    if verb == "fills" {
        return fills(daemon, page, read_xid(rest).unwrap_or(0));
    }
    match is_so(daemon, page.store, verb, rest) {
        Some(is_so) => is_so,
        None => is_done(daemon, page, verb, rest).unwrap_or_else(|| {
            page.is_starved = true;
            false
        }),
    }
}

/// The place of the first line that does not go as it says; of a stream, that of the first line behind it.
pub(crate) fn wrong_line<'a, T: RangeTable, S: HostStore>(
    daemon: &mut Daemon<T, S>,
    page: &mut Page<'a>,
    lines: &[&'a str],
) -> Option<usize> {
    for (place, line) in lines.iter().enumerate() {
        if !goes(daemon, page, line) {
            return Some(place);
        }
    }
    if is_answered(daemon, page) {
        None
    } else {
        Some(lines.len())
    }
}
