//! The turns of the sender.
ghost use Rattle.std.specs.Prelude.{◌≡◌, false, []};
ghost use Rattle.book.specs.Notes.{is_take, view_of_event};
ghost use Rattle.callback_sender.specs.Handing.{HandsOn};
ghost use Rattle.callback_sender.specs.Waits.{is_under};

use crate::datagrams::Datagrams;
use crate::locals::Locals;
use crate::pending_calls::{PendingCall, ReceivedAnswer, is_under};
use crate::run::Sender;
use crate::watch::GraceWatch;
use crate::{Due, MOST_CALLS, send_due};
use book::BookEvent;
use hosts_db::HostStore;
use line_loop::Signals;
use log::Log;
use peers_file::Addresses;
use range_table::RangeTable;
use std::net::Net;
use std::sync::ledger::Ledger;
use std::sync::{Mutex, Wait};
use std::thread;
use std::time::{Clock, Duration, Instant};
use workers::{GhostTrace, Shared};

/// How long it waits where there was no memory, or nothing can be waited for, in milliseconds.
const PAUSE_MILLIS: u64 = 10;

/// How long it waits at most, since the server's own state is looked at now and then, in milliseconds.
const LONGEST_MILLIS: u64 = 100;

/// How many turns it goes on at the end until the server is registered no more.
const LEAVING_TURNS: u32 = 100;

/// What is to be told of a call of the server's own: its answer, or that none came. It takes no record.
#[derive(Drop)]
pub(crate) struct NonRecordEvent {
    // The call's number.
    number: u64,
    event: BookEvent,
    ghost untaken: { is_take (view_of_event event) ≡ false },
}

impl NonRecordEvent {
    fn of_answer(heard: ReceivedAnswer) -> NonRecordEvent {
        let number = heard.number();
        let bytes = heard.into_bytes();
        NonRecordEvent {
            number,
            event: BookEvent::Answer { bytes },
        }
    }

    fn of_silence(call: PendingCall) -> NonRecordEvent {
        let number = call.number();
        NonRecordEvent {
            number,
            event: BookEvent::Silent { number },
        }
    }

    fn is_under(&self, own_state: u32) -> bool
        ensures { result ≡ is_under own_state self.now.number }
    {
        is_under(own_state, self.number)
    }
}

// One hold that tells it, where its call became due under the own state as it is now: a restart that acted since has ended the call,
// and may have given its xid to another. It comes back where there was no room for its entry.
fn tell_held<T: RangeTable, S: HostStore, L: Ledger>(
    held: &mut Shared<T, S, L>,
    told: NonRecordEvent,
) -> Result<(), NonRecordEvent>
    ensures stale { is_under held.old.book.journal.end.world.hosts.own told.number ≡ false → held.new ≡ held.old }
{
    if !told.is_under(held.own_state()) {
        return Ok(());
    }
    let number = told.number;
    // It sends no call, so its entry is let go.
    let mut ghost_trace = GhostTrace::new();
    match held.apply(told.event, &mut ghost_trace) {
        Ok(step_result) => {
            drop(step_result);
            Ok(())
        }
        Err(event) => Err(NonRecordEvent { number, event }),
    }
}

// What became of an end of grace.
enum Ended {
    Response,
    NoRoom,
    /// The server's own state is another one by now.
    Anew,
}

// One hold that ends the grace period of this own state.
fn end_grace<T: RangeTable, S: HostStore, L: Ledger>(
    held: &mut Shared<T, S, L>,
    own_state: u32,
) -> Ended {
    if held.own_state() != own_state {
        return Ended::Anew;
    }
    let mut ghost_trace = GhostTrace::new();
    match held.apply(BookEvent::GraceOver, &mut ghost_trace) {
        Ok(_) => Ended::Response,
        Err(_) => Ended::NoRoom,
    }
}

impl<'a, R: Net + Clock + Wait + Log, D: Locals, A: Addresses + Drop> Sender<'a, R, D, A> {
    fn tick(&mut self)
        ensures { self.new ≡ self.old }
    {
        // Where the clock fails, time stands still.
        if let Ok(now) = Instant::now(self.rt) {
            self.now = now;
        }
    }

    // What is to be told next.
    fn next_event(&mut self) -> Option<NonRecordEvent>
        ensures { self.new ≡ self.old }
    {
        if let Some(event) = self.kept.take() {
            return Some(event);
        }
        if let Some(heard) = self.pending_calls.take_heard() {
            return Some(NonRecordEvent::of_answer(heard));
        }
        let call = self.pending_calls.take_silent(self.now)?;
        if let Some((place, sent)) = call.mute_peer() {
            self.peer_pool.give_up(place, sent);
        }
        Some(NonRecordEvent::of_silence(call))
    }

    // Tells an event in one hold. Where there is no room for its entry it is kept.
    fn tell<T: RangeTable, S: HostStore, L: Ledger>(
        &mut self,
        shared: &Mutex<Shared<T, S, L>>,
        event: NonRecordEvent,
    ) -> bool
        ensures { self.new ≡ self.old }
    {
        let told = tell_held(&mut shared.lock(self.rt), event);
        match told {
            Ok(()) => true,
            Err(event) => {
                self.kept = Some(event);
                false
            }
        }
    }

    // Tells the answers that came and the calls that fell silent. Whether there was room.
    fn tell_events<T: RangeTable, S: HostStore, L: Ledger>(
        &mut self,
        shared: &Mutex<Shared<T, S, L>>,
    ) -> bool
        ensures { self.new ≡ self.old }
    {
        for _ in 0..MOST_CALLS {
            let Some(event) = self.next_event() else {
                return true;
            };
            if !self.tell(shared, event) {
                return false;
            }
        }
        true
    }

    // A restart has acted: what was sent under another own state is awaited no more. Calls that were sent under this one are: the
    // restart may have acted within a turn, before its sendings.
    fn keep_under(&mut self, own_state: u32)
        ensures { self.new ≡ self.old }
    {
        self.pending_calls.keep_under(own_state);
        if self
            .kept
            .as_ref()
            .is_some_and(|event| !event.is_under(own_state))
        {
            self.kept = None;
        }
    }

    // Looks at the server's own state and at the grace period. Whether there was room.
    fn tell_time<T: RangeTable, S: HostStore, L: Ledger>(
        &mut self,
        shared: &Mutex<Shared<T, S, L>>,
        watch: &mut GraceWatch,
    ) -> bool
        ensures { self.new ≡ self.old }
    {
        let own_state = shared.lock(self.rt).own_state();
        if watch.look(own_state, self.now) {
            self.keep_under(own_state);
        }
        if !watch.is_over(self.now) {
            return true;
        }
        let ended = end_grace(&mut shared.lock(self.rt), own_state);
        match ended {
            Ended::Response => {
                watch.end();
                true
            }
            Ended::NoRoom => false,
            Ended::Anew => true,
        }
    }

    // Sends what is due.
    fn send<T: RangeTable, S: HostStore, L: Ledger>(
        &mut self,
        shared: &Mutex<Shared<T, S, L>>,
        ghost_trace: &mut GhostTrace,
    ) -> Due
        ensures { HandsOn self.old self.new ghost_trace.old ghost_trace.new }
    {
        send_due(self.rt, shared, self, ghost_trace)
    }

    // The same, where there was room and there are connections for it.
    fn send_if<T: RangeTable, S: HostStore, L: Ledger>(
        &mut self,
        shared: &Mutex<Shared<T, S, L>>,
        is_room: bool,
        ghost_trace: &mut GhostTrace,
    ) -> Due
        ensures { HandsOn self.old self.new ghost_trace.old ghost_trace.new }
    {
        if is_room && !self.peer_pool.is_busy(self.now) {
            self.send(shared, ghost_trace)
        } else {
            Due::NoRoom
        }
    }

    // How long nothing happens by itself.
    fn rest(&self, due: Due, watch: &GraceWatch) -> Duration {
        if due == Due::NoRoom {
            return Duration::from_millis(PAUSE_MILLIS);
        }
        if due == Due::More || self.peer_pool.is_ready() {
            return Duration::from_millis(0);
        }
        let longest = Duration::from_millis(LONGEST_MILLIS);
        let calls = self.pending_calls.next(self.now);
        let questions = self.peer_pool.next();
        let next = [calls, questions, watch.next()].into_iter().flatten().min();
        match next {
            Some(at) => at.duration_since(self.now).min(longest),
            None => longest,
        }
    }

    // Tells what happened meanwhile. Whether there was room.
    fn tell_all<T: RangeTable, S: HostStore, L: Ledger>(
        &mut self,
        shared: &Mutex<Shared<T, S, L>>,
        watch: &mut GraceWatch,
    ) -> bool
        ensures { self.new ≡ self.old }
    {
        self.tick();
        self.tell_time(shared, watch) && self.tell_events(shared)
    }

    // Looks at where hosts are, writes and reads what goes, and waits until something may go on.
    fn exchange(&mut self, due: Due, watch: &GraceWatch)
        ensures { self.new ≡ self.old }
    {
        self.addresses.look(self.now);
        self.peer_pool.serve_registrar(self.rt, self.now);
        self.peer_pool.pass(self.rt, self.now);
        self.peer_pool.serve(self.rt, &mut self.pending_calls);
        let rest = self.rest(due, watch);
        if self.peer_pool.wait(rest).is_err() {
            thread::sleep(self.rt, Duration::from_millis(PAUSE_MILLIS));
        }
    }

    fn turn<T: RangeTable, S: HostStore, L: Ledger, N: Datagrams>(
        &mut self,
        shared: &Mutex<Shared<T, S, L>>,
        watch: &mut GraceWatch,
        datagrams: &mut N,
        ghost_trace: &mut GhostTrace,
    )
        ensures { HandsOn self.old self.new ghost_trace.old ghost_trace.new }
    {
        let is_room = self.tell_all(shared, watch);
        let are_left = datagrams.answer();
        let due = self.send_if(shared, is_room, ghost_trace);
        self.exchange(due.or_more(are_left), watch);
    }

    /// The server stops: what was registered is taken back, for which it waits a second or two at most.
    pub fn leave(&mut self)
        ensures { self.new ≡ self.old }
    {
        self.tick();
        self.peer_pool.unregister(self.rt, self.now);
        for _ in 0..LEAVING_TURNS {
            if self.peer_pool.is_unregistered() {
                break;
            }
            let _ = self.peer_pool.wait(Duration::from_millis(PAUSE_MILLIS));
            self.tick();
            self.peer_pool.serve_registrar(self.rt, self.now);
        }
    }

    /// Makes the server's own calls until the server stops: those that holds of the book's lock gave, in order, and no others. It
    /// gives the entries of these holds. Between its turns the datagrams that came are answered.
    pub fn run<T: RangeTable, S: HostStore, L: Ledger, G: Signals, N: Datagrams>(
        &mut self,
        shared: &Mutex<Shared<T, S, L>>,
        signals: &G,
        datagrams: &mut N,
    ) -> GhostTrace
        ensures { HandsOn self.old self.new [] result }
    {
        let mut ghost_trace = GhostTrace::new();
        self.tick();
        let own_state = shared.lock(self.rt).own_state();
        let mut watch = GraceWatch::new(self.settings.grace, own_state, self.now);
        for _ in self.rt.forever() {
            if signals.is_stopping() {
                break;
            }
            self.turn(shared, &mut watch, datagrams, &mut ghost_trace);
        }
        ghost_trace
    }
}
