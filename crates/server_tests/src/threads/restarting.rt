//! A restart that acts within a turn of the sender, between what it sends: what was sent before it is awaited no more, and what is
//! sent behind it falls silent at its time.
ghost use Rattle.std.specs.Prelude.{◌≡◌, IfSome};
ghost use Rattle.workers.specs.Holds.{IsNew};

use super::parts::{Kept, begun_over};
use super::rounds::{enters, opens};
use super::stop_signals::StopSignals;
use book::{Book, BookEvent};
use callback_sender::{CallSettings, Locals, Sender};
use hosts_db::{HostStore, MemHosts};
use line_loop::{Signals, serve_lines};
use log::Log;
use peers::Peers;
use range_arena::ArenaTable;
use std::alloc::Global;
use std::marker::Brand;
use std::net::Net;
use std::sync::atomic::{AtomicBool, AtomicU64, Ordering};
use std::sync::ledger::{Blank, Ledger};
use std::sync::{Mutex, Wait};
use std::test::*;
use std::time::{Clock, Duration};
use test_kit::{AT_ONCE, Sink, Source, put_plain};
use workers::Shared;

/// Stops the sender behind so many turns.
#[derive(Drop)]
struct Turns {
    most: u64,
    done: AtomicU64,
}

impl Signals for Turns {
    fn is_stopping(&self) -> bool {
        self.done.fetch_add(1, Ordering::SeqCst) >= self.most
    }

    fn call_is_due(&self) {}

    fn stop(&self) {}
}

/// A local program at whose first line the server restarts.
#[derive(Drop)]
struct Restarter<'a, L: Ledger, R> {
    rt: &'a R,
    shared: &'a Mutex<Kept<L>>,
    is_done: AtomicBool,
}

impl<'a, L: Ledger, R: Wait> Locals for Restarter<'a, L, R> {
    fn tell(&self, _connection: u64, _line: &[u8]) -> bool {
        self.is_done.swap(true, Ordering::SeqCst)
            || enters(&mut self.shared.lock(self.rt), BookEvent::Restart)
    }
}

// No peer is called, so that the ports say nothing, and no time is up.
fn settings() -> CallSettings {
    let long = Duration::from_secs(1_000);
    CallSettings {
        nlm_port: 1,
        nsm_port: 1,
        watch_port: 1,
        port_mapper: None,
        registration: None,
        grace: long,
        silence: long,
    }
}

/// Three sendings and their silences, with some turns to spare.
const TURNS: u64 = 20;

/// A line that becomes due behind the notice of the start.
const LINES: &str = "setlk p1 aa w 0 1\nsetlkw d1 aa w 0 1\nclose p1 aa\n";

// What the lines are answered. None where there is no memory for it.
fn answers<L: Ledger, R: Wait>(
    rt: &R,
    alloc: Global,
    shared: &Mutex<Kept<L>>,
    lines: &str,
) -> Vec<u8> {
    let mut input = Source::new(lines.as_bytes(), AT_ONCE);
    let mut output = Sink {
        held: Vec::new(alloc),
        room: usize::MAX,
    };
    let stop_signals = StopSignals::new();
    let served = serve_lines(
        alloc,
        rt,
        shared,
        &stop_signals,
        7,
        &mut input,
        &mut output,
        u64::MAX,
    );
    drop(served);
    output.held
}

// Some turns of a sender that knows no peer's address, so that each call to one is silent at once. Whether there was memory.
fn sends<L: Ledger, R: Net + Wait + Clock + Log>(
    rt: &R,
    alloc: Global,
    shared: &Mutex<Kept<L>>,
) -> bool {
    let Ok(peers) = Peers::read(alloc, b"") else {
        return false;
    };
    let locals = Restarter {
        rt,
        shared,
        is_done: AtomicBool::new(false),
    };
    let turns = Turns {
        most: TURNS,
        done: AtomicU64::new(0),
    };
    match Sender::new(alloc, rt, settings(), peers, &locals) {
        Ok(mut sender) => {
            drop(sender.run(shared, &turns, &mut ()));
            true
        }
        Err(_) => false,
    }
}

// An acknowledgement of the notice under the own state 5, whose xid is 1.
fn acknowledges<L: Ledger>(alloc: Global, shared: &mut Kept<L>) -> bool {
    let mut bytes = Vec::new(alloc);
    put_plain(&mut bytes, "1 1 0 0 0 0") && enters(shared, BookEvent::Answer { bytes })
}

// Whether the notice was sent three times and forgotten, so that its acknowledgement comes too late: the host's epoch stays.
fn is_forgotten<L: Ledger, R: Net + Wait + Clock + Log>(
    rt: &R,
    alloc: Global,
    mut shared: Kept<L>,
) -> bool {
    let is_open = opens(&mut shared);
    let shared = Mutex::new(shared);
    let told = answers(rt, alloc, &shared, LINES);
    let is_sent = sends(rt, alloc, &shared);
    let is_late = acknowledges(alloc, &mut shared.lock(rt));
    let hosts = answers(rt, alloc, &shared, "hosts\n");
    is_open
        && told.as_slice() == b"ok\nwait\nok\n".as_slice()
        && is_sent
        && is_late
        && hosts.as_slice() == b"61 1 3 65536\nend\n".as_slice()
}

fn plays<L: Ledger, R: Net + Wait + Clock + Log>(
    rt: &R,
    alloc: Global,
    book: Book<ArenaTable, MemHosts>,
    blank: Blank,
) -> bool
    requires name { blank.name ≡ L.name }
    requires parts { blank.parts ≡ L.parts }
    requires new { IsNew book.journal }
{
    let (total, share) = blank.open::<L>();
    drop(share);
    match Shared::new(alloc, book, total, false) {
        Ok(shared) => is_forgotten(rt, alloc, shared),
        Err(_) => false,
    }
}

// The book of a server that has started once, and has a host since then.
fn begun_with_a_host(alloc: Global) -> Option<Book<ArenaTable, MemHosts>>
    ensures { IfSome result (λ book. IsNew book.journal) }
{
    let mut store = MemHosts::new(alloc, 0, Vec::new(alloc), Vec::new(alloc)).ok()?;
    store.start().ok()?;
    store.monitor(b"a", 3).ok()?;
    begun_over(alloc, store)
}

fn played<R: Net + Wait + Clock + Log>(rt: &R, alloc: Global) -> Option<bool> {
    let book = begun_with_a_host(alloc)?;
    let blank = Blank::new(1);
    let goes = plays::<Brand, _>(rt, alloc, book, blank);
    Some(goes)
}

#[test]
fn sent_behind_a_restart_falls_silent(rt: HostRuntime) {
    assert!(rt; played(&rt, rt.alloc()) == Some(true));
}
