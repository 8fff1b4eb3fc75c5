//! Scripts of a daemon over a store that may refuse, with the rows behind each line. A line is one of `script` that is an event or
//! a call, and more: `3 notify a 5 = done or system-err -> 1; a 1 5 65536;`. Behind ` or ` stands the reply to a call, or the
//! answer to a local program, where the store refuses; and behind ` -> ` what the store shows then. Where nothing does, the store
//! isn't asked; where `refused` does, it is, and refuses. Each line is one step: a call's record comes whole, and is taken at once.
use crate::page::Page;
use crate::script::{happens, taken};
use crate::servers::opened;
use daemon_core::{Daemon, StoreAnswer};
use hosts_db::HostStore;
use range_arena::ArenaTable;
use range_table::RangeTable;
use std::alloc::Global;
use std::fmt::Write;
use test_kit::{Lent, shown};

/// A line of a script.
#[derive(Clone, Copy)]
pub struct Line<'a> {
    /// What happens, and what is sent for it.
    pub event: &'a str,
    /// What is sent for it where the store refuses, if that is another.
    pub refusal: Option<&'a str>,
    /// What the store holds then. Nothing: it isn't asked.
    pub rows: &'a str,
}

/// The parts of a line. Rows that aren't there are empty.
pub fn parted(line: &str) -> Line<'_> {
    let (told, rows) = line.split_once(" -> ").unwrap_or((line, ""));
    match told.split_once(" or ") {
        Some((event, refusal)) => Line {
            event,
            refusal: Some(refusal),
            rows,
        },
        None => Line {
            event: told,
            refusal: None,
            rows,
        },
    }
}

// What the store is to say.
fn wanted(rows: &str) -> StoreAnswer {
    match rows {
        "" => StoreAnswer::NotAsked,
        "refused" => StoreAnswer::Refused,
        _ => StoreAnswer::Yes,
    }
}

/// Whether a store that held those found holds these rows after so many lines that went as they say.
pub fn are_rows_after(found: &str, script: &str, most: usize, rows: &str) -> bool {
    let mut is_so = rows == found;
    for line in script.lines().take(most) {
        let Line { rows: told, .. } = parted(line);
        if wanted(told) == StoreAnswer::Yes {
            is_so = rows == told;
        }
    }
    is_so
}

/// What is done with a daemon.
pub trait DaemonTask {
    /// Has the daemon do it.
    fn act<T: RangeTable, S: HostStore>(&mut self, daemon: &mut Daemon<T, S>);
}

// Lends a daemon, if there is one. It is generic, so that what has to drop it sees no more of its parts than their traits.
fn lend<T: RangeTable + Drop, S: HostStore + Drop, D: DaemonTask>(
    daemon: Option<Daemon<T, S>>,
    deed: &mut D,
) {
    let Some(mut daemon) = daemon else {
        return;
    };
    deed.act(&mut daemon);
}

/// Does it with a daemon over this store. How often that asks the store to write.
pub fn with_daemon<S: HostStore, D: DaemonTask>(
    alloc: Global,
    store: &mut S,
    deed: &mut D,
) -> usize {
    let mut writes = 0;
    let Ok(table) = ArenaTable::new(alloc) else {
        return writes;
    };
    lend(opened(alloc, table, Lent::new(store, &mut writes)), deed);
    writes
}

// It happens. None where it can't be read, or a record comes otherwise than whole.
fn steps<'a, T: RangeTable, S: HostStore>(
    daemon: &mut Daemon<T, S>,
    page: &mut Page<'a>,
    verb: &str,
    rest: &'a str,
) -> Option<()> {
    match page.read(verb, rest) {
        Some(true) => taken(daemon, page, 0)?.then_some(()),
        Some(false) => None,
        None => {
            let events = page.events(verb, rest)?;
            happens(daemon, page, events)
        }
    }
}

// What the store said, if it goes as the line says.
fn said<'a, T: RangeTable, S: HostStore>(
    daemon: &mut Daemon<T, S>,
    page: &mut Page<'a>,
    line: Line<'a>,
) -> Option<StoreAnswer> {
    let (verb, rest) = line.event.split_once(" ").unwrap_or((line.event, ""));
    if let Some(refusal) = line.refusal {
        page.tell_refusal(verb, refusal)?;
    }
    steps(daemon, page, verb, rest)?;
    page.is_right_by_store().then_some(page.store)
}

// The same of a page of its own.
fn told<T: RangeTable, S: HostStore>(
    alloc: Global,
    daemon: &mut Daemon<T, S>,
    line: Line<'_>,
) -> Option<StoreAnswer> {
    let mut page = Page::new(alloc, usize::MAX);
    let told = said(daemon, &mut page, line);
    drop(page);
    told
}

/// Whether a line goes well, or the store has refused. None where it goes otherwise than the line says.
pub fn goes_well<T: RangeTable, S: HostStore>(
    alloc: Global,
    daemon: &mut Daemon<T, S>,
    line: &str,
) -> Option<bool> {
    Some(told(alloc, daemon, parted(line))? != StoreAnswer::Refused)
}

/// How many lines go well, up to the first that the store refuses. None where one goes otherwise than it says.
pub fn lines_done<T: RangeTable, S: HostStore>(
    alloc: Global,
    daemon: &mut Daemon<T, S>,
    script: &str,
) -> Option<usize> {
    for (at, line) in script.lines().enumerate() {
        if !goes_well(alloc, daemon, line)? {
            return Some(at);
        }
    }
    Some(script.lines().count())
}

// Whether the store shows what so many lines leave.
fn does_show_after<S: HostStore>(
    alloc: Global,
    store: &S,
    found: &str,
    script: &str,
    most: usize,
) -> bool {
    match shown(alloc, store) {
        Some(text) => are_rows_after(found, script, most, text.trim()),
        None => false,
    }
}

/// What the store holds when a server begins, and its script.
pub type Server = (&'static str, &'static str);

/// The first line that goes otherwise than it says, or behind which the store holds other rows than were told last.
pub fn first_wrong<T: RangeTable, S: HostStore>(
    alloc: Global,
    daemon: &mut Daemon<T, S>,
    (found, script): Server,
) -> Option<&'static str> {
    for (at, line) in script.lines().enumerate() {
        let parts = parted(line);
        let most = at.saturating_add(1);
        if told(alloc, daemon, parts) != Some(wanted(parts.rows))
            || !does_show_after(alloc, daemon.store(), found, script, most)
        {
            return Some(line);
        }
    }
    None
}

// The line that sends its notice to the host at this place.
fn notice<S: HostStore>(alloc: Global, store: &S, at: usize) -> Option<String> {
    let row = store.hosts().get(at)?;
    let name = str::from_utf8(row.name()).ok()?;
    let number = at.saturating_add(1);
    let mut line = String::new(alloc);
    match write!(line, "sends {name} {number} notice {}", store.own()) {
        Ok(()) => Some(line),
        Err(_) => None,
    }
}

fn notifies_one<T: RangeTable, S: HostStore>(
    alloc: Global,
    daemon: &mut Daemon<T, S>,
    at: usize,
) -> bool {
    match notice(alloc, daemon.store(), at) {
        Some(line) => goes_well(alloc, daemon, &line) == Some(true),
        None => false,
    }
}

/// Whether the calls that are due are just a notice to each stored host, in order of name.
pub fn notifies<T: RangeTable, S: HostStore>(alloc: Global, daemon: &mut Daemon<T, S>) -> bool {
    for at in 0..daemon.store().hosts().len() {
        if !notifies_one(alloc, daemon, at) {
            return false;
        }
    }
    goes_well(alloc, daemon, "quiet") == Some(true)
}
