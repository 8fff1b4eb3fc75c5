//! Servers over a table of ranges and a store of hosts, and the scripts that they are to play. The functions are generic, and
//! so cheap to prove.
ghost use Rattle.std.specs.Prelude.{◌≡◌, ◌<◌, []};

use crate::growths::play_in_room;
use crate::page::Page;
use crate::script::wrong_line;
use callbacks::ShortBytes;
use daemon_core::{Daemon, Rules};
use hosts_db::{FULL_QUOTA, HostRow, HostStore, MemHosts};
use range_arena::ArenaTable;
use range_table::RangeTable;
use std::alloc::Global;
use test_kit::Lent;

/// Why a script is not played as it says.
#[derive(Clone, Copy, Debug, PartialEq, Eq)]
pub enum Misplayed {
    /// The server can't begin at all.
    NoServer,
    /// The first line that goes otherwise; of a stream, the first line behind it.
    Line(usize),
    /// The first of some streams that goes otherwise.
    Stream(usize),
}

/// A worked row: its name, and its script.
pub type Row = (&'static str, &'static [&'static str]);

/// A row of some streams, each of which is a script.
pub type Streams = (&'static str, &'static [&'static [&'static str]]);

/// How the rows of a table are played.
#[derive(Clone, Copy)]
pub enum Way {
    /// A stream comes by 64 bytes.
    Pieces,
    /// It comes whole, and once more by five bytes.
    Cut,
    /// It comes by 64 bytes, to a server that knows as many hosts as a store has.
    Full,
    /// It comes by 64 bytes, to a server where polls end grants.
    Polling,
}

/// The bytes of a stream that come at once, where the test doesn't care.
pub const PIECE: usize = 64;

/// The daemon of a server named `server`, over a table without runs.
pub fn opened<T: RangeTable + Drop, S: HostStore + Drop>(
    alloc: Global,
    table: T,
    store: S,
) -> Option<Daemon<T, S>>
    requires { T.settings table ≡ [] }
{
    let name = ShortBytes::copy_of(alloc, b"server").ok()?;
    Daemon::new(alloc, table, store, name).ok()
}

// The same where polls end grants.
fn opened_polling<T: RangeTable + Drop, S: HostStore + Drop>(
    alloc: Global,
    table: T,
    store: S,
) -> Option<Daemon<T, S>>
    requires { T.settings table ≡ [] }
{
    let name = ShortBytes::copy_of(alloc, b"server").ok()?;
    let rules = Rules {
        polls_end_grants: true,
    };
    Daemon::new_with(alloc, table, store, name, rules).ok()
}

/// What is told of the line that goes otherwise than it says, if one does.
pub(crate) fn told(wrong: Option<usize>) -> Result<(), Misplayed> {
    match wrong {
        None => Ok(()),
        Some(line) => Err(Misplayed::Line(line)),
    }
}

/// Plays the lines with a server over this store. Where a growth may be refused, it is as `growths` says. None where the server
/// can't begin.
pub(crate) fn play_over<'a, S: HostStore + Drop>(
    alloc: Global,
    store: S,
    most: usize,
    lines: &[&'a str],
    is_in_want: bool,
) -> Option<Result<(), Misplayed>> {
    let Ok(table) = ArenaTable::new(alloc) else {
        return None;
    };
    let Some(mut daemon) = opened(alloc, table, store) else {
        return None;
    };
    let mut page = Page::new(alloc, most);
    let played = if is_in_want {
        play_in_room(&mut daemon, &mut page, lines)
    } else {
        told(wrong_line(&mut daemon, &mut page, lines))
    };
    drop(page);
    drop(daemon);
    Some(played)
}

/// Whether a server over the store that is lent to it plays the lines, and how often it asks the store. All servers have such a
/// store, since the compiler builds a daemon of its own for each kind.
pub fn played<S: HostStore>(
    alloc: Global,
    store: &mut S,
    most: usize,
    lines: &[&str],
) -> (Result<(), Misplayed>, usize) {
    let mut writes = 0;
    let played = play_over(alloc, Lent::new(store, &mut writes), most, lines, false);
    (played.unwrap_or(Err(Misplayed::NoServer)), writes)
}

/// A store in memory whose own state is this, with these rows.
pub fn memory(alloc: Global, own: u32, hosts: Vec<HostRow>) -> Option<MemHosts>
    requires { own < 2147483648 }
{
    MemHosts::new(alloc, own, hosts, Vec::new(alloc)).ok()
}

fn play_in_memory(
    alloc: Global,
    own: u32,
    hosts: Option<Vec<HostRow>>,
    most: usize,
    lines: &[&str],
) -> Result<(), Misplayed>
    requires { own < 2147483648 }
{
    let Some(hosts) = hosts else {
        return Err(Misplayed::NoServer);
    };
    match memory(alloc, own, hosts) {
        Some(mut store) => played(alloc, &mut store, most, lines).0,
        None => Err(Misplayed::NoServer),
    }
}

/// Of a server of no hosts, in memory.
pub fn play(alloc: Global, lines: &[&str]) -> Result<(), Misplayed> {
    play_by(alloc, PIECE, lines)
}

/// The same where the stream comes by so many bytes.
pub fn play_by(alloc: Global, most: usize, lines: &[&str]) -> Result<(), Misplayed> {
    play_in_memory(alloc, 0, Some(Vec::new(alloc)), most, lines)
}

// The same where polls end grants.
fn play_polling(alloc: Global, lines: &[&str]) -> Result<(), Misplayed> {
    let Some(mut store) = memory(alloc, 0, Vec::new(alloc)) else {
        return Err(Misplayed::NoServer);
    };
    let Ok(table) = ArenaTable::new(alloc) else {
        return Err(Misplayed::NoServer);
    };
    let mut writes = 0;
    let Some(mut daemon) = opened_polling(alloc, table, Lent::new(&mut store, &mut writes)) else {
        return Err(Misplayed::NoServer);
    };
    let mut page = Page::new(alloc, PIECE);
    let played = told(wrong_line(&mut daemon, &mut page, lines));
    drop(page);
    drop(daemon);
    played
}

// The same of a stream that comes whole, and of one that comes by five bytes.
fn play_cut(alloc: Global, lines: &[&str]) -> Result<(), Misplayed> {
    play_by(alloc, 8_192, lines)?;
    play_by(alloc, 5, lines)
}

// The same of each stream, after the grace period: whole, and byte by byte.
fn play_each(alloc: Global, streams: &[&[&str]]) -> Result<(), Misplayed> {
    for (place, lines) in streams.iter().enumerate() {
        if play_by(alloc, 8_192, lines).is_err() || play_by(alloc, 1, lines).is_err() {
            return Err(Misplayed::Stream(place));
        }
    }
    Ok(())
}

/// Of a server in this own state that knows these hosts, each of one byte of name, with the epoch 1 and the state 3.
pub fn play_with_hosts(
    alloc: Global,
    own: u32,
    names: &[u8],
    lines: &[&str],
) -> Result<(), Misplayed>
    requires { own < 2147483648 }
{
    play_in_memory(alloc, own, hosts_of(alloc, names), PIECE, lines)
}

fn hosts_of(alloc: Global, names: &[u8]) -> Option<Vec<HostRow>> {
    let mut hosts = Vec::new(alloc);
    if put_hosts(alloc, &mut hosts, names).is_none() {
        return None;
    }
    Some(hosts)
}

fn put_hosts(alloc: Global, hosts: &mut Vec<HostRow>, names: &[u8]) -> Option<()> {
    for letter in names {
        let name = Vec::from_slice(alloc, [*letter].as_slice()).ok()?;
        hosts.push(HostRow::new(name, 1, 3, FULL_QUOTA)).ok()?;
    }
    Some(())
}

/// Of a server that knows as many hosts as a store has.
pub fn play_with_all_hosts(alloc: Global, lines: &[&str]) -> Result<(), Misplayed> {
    play_in_memory(alloc, 0, all_hosts(alloc), PIECE, lines)
}

/// As many hosts as a store has.
pub fn all_hosts(alloc: Global) -> Option<Vec<HostRow>> {
    let mut hosts = Vec::new(alloc);
    if put_all_hosts(alloc, &mut hosts).is_none() {
        return None;
    }
    Some(hosts)
}

fn put_all_hosts(alloc: Global, hosts: &mut Vec<HostRow>) -> Option<()> {
    for number in 0..4_096u32 {
        let name = Vec::from_slice(alloc, number.to_be_bytes().as_slice()).ok()?;
        hosts.push(HostRow::new(name, 1, 0, FULL_QUOTA)).ok()?;
    }
    Some(())
}

fn play_row(alloc: Global, way: Way, lines: &[&str]) -> Result<(), Misplayed> {
    match way {
        Way::Pieces => play(alloc, lines),
        Way::Cut => play_cut(alloc, lines),
        Way::Full => play_with_all_hosts(alloc, lines),
        Way::Polling => play_polling(alloc, lines),
    }
}

/// Plays each row with a server of its own. The error is the first that goes otherwise than it says.
pub fn play_rows(alloc: Global, way: Way, rows: &[Row]) -> Result<(), (&'static str, Misplayed)> {
    for (name, lines) in rows {
        if let Err(why) = play_row(alloc, way, lines) {
            return Err((*name, why));
        }
    }
    Ok(())
}

/// Plays the streams of each row, whole and byte by byte, each with a server of its own. The error is the first row of which
/// one goes otherwise.
pub fn play_streams(alloc: Global, rows: &[Streams]) -> Result<(), (&'static str, Misplayed)> {
    for (name, streams) in rows {
        if let Err(why) = play_each(alloc, streams) {
            return Err((*name, why));
        }
    }
    Ok(())
}
