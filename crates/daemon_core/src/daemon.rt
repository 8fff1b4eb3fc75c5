//! The connections of a daemon, the state that they share, and what they are answered.

ghost use Rattle.std.specs.Prelude.{◌≡◌, [], IfOk, OnErr};
ghost use Rattle.book.specs.Notes.{HearsAnswer, AsksLine, FallsSilent, GraceEnds, BeginsAnew};
ghost use Rattle.daemon_core.specs.Outputs.{outputs_of, told_line, told_posted};
ghost use Rattle.definitions.specs.Options.{view_of_rules};
ghost use Rattle.daemon_core.specs.DaemonState.{DaemonState, opening, opening_with, place_of, Connects, Disconnects, Pieces, TakesAt, Happens, Waits, SendStep, DaemonStep, Run};

use crate::connection::StreamConnection;
use crate::event::Event;
use crate::noted::{note, send_next};
use crate::outputs::{Outputs, make_quiet, make_starved, tell, tell_line, tell_posted, tell_to};
use crate::posted::Posted;
use crate::send_buffer::SendBuffer;
use book::{Book, BookEvent, Rules, StoreAnswer};
use callbacks::ShortBytes;
use held_locks::Locks;
use hosts_db::HostStore;
use kept_replies::Peer;
use owner_ids::Starved;
use range_table::RangeTable;
use std::alloc::Global;
use std::marker::Model;

/// Contracts see the shared state, how often the store has refused, the room of the journal, and of each connection all that
/// came on it, and which of its records were taken.
pub struct Daemon<R: RangeTable, S: HostStore> {
    alloc: Global,
    book: Book<R, S>,
    connections: Vec<StreamConnection>,
}

impl<R: RangeTable, S: HostStore> Model for Daemon<R, S> {
    ghost use Rattle.daemon_core.specs.DaemonState.{DaemonState};

    ghost Value = { DaemonState };

    ghost use Rattle.daemon_core.specs.Rooms.{room_of_journal};

    ghost view = { λ d. record { state = d.book.journal.end; refusals = d.book.refusals; room = room_of_journal d.book.journal; links = d.connections.items } };
}

// It is written out, so that no crate above proves again how each part of a daemon is dropped.
impl<R: RangeTable + Drop, S: HostStore + Drop> Drop for Daemon<R, S> {
    fn drop(self) {
        let Daemon {
            alloc: _,
            book: _,
            connections: _,
        } = self;
    }
}

/// Where the connection stands.
fn find(connections: &[StreamConnection], number: u64) -> Option<usize>
    ensures { result ≡ place_of number connections.now }
{
    connections.iter().position(|c| c.number() == number)
}

impl<R: RangeTable + Drop, S: HostStore + Drop> Daemon<R, S> {
    /// With no connection, and the store's rows alone, in grace. The table has no runs, and the name is the server's own.
    /// Starved: there is no memory for it, and table, store and name are dropped.
    pub fn new(
        alloc: Global,
        table: R,
        store: S,
        own_name: ShortBytes,
    ) -> Result<Daemon<R, S>, Starved>
        requires { R.settings table ≡ [] }
        ensures { IfOk result (λ daemon. daemon ≡ opening own_name (S.rows store) (S.refusals store)) }
    {
        Daemon::new_with(alloc, table, store, own_name, Rules::standard())
    }

    /// The same under these rules, which no event changes.
    pub fn new_with(
        alloc: Global,
        table: R,
        store: S,
        own_name: ShortBytes,
        rules: Rules,
    ) -> Result<Daemon<R, S>, Starved>
        requires { R.settings table ≡ [] }
        ensures { IfOk result (λ daemon. daemon ≡ opening_with own_name (view_of_rules rules) (S.rows store) (S.refusals store)) }
    {
        Ok(Daemon {
            alloc,
            book: Book::new_with(alloc, table, store, own_name, rules)?,
            connections: Vec::new(alloc),
        })
    }
}

impl<R: RangeTable, S: HostStore> Daemon<R, S> {
    fn connect(&mut self, number: u64, peer: Peer) -> Outputs
        ensures { Connects (place_of number self.old.links) result.outcome number peer self.old result self.new }
    {
        if find(&self.connections, number).is_some() {
            return make_quiet();
        }
        match self
            .connections
            .push(StreamConnection::new(self.alloc, number, peer))
        {
            Ok(()) => make_quiet(),
            Err(refused) => {
                drop(refused.value);
                make_starved()
            }
        }
    }

    fn disconnect(&mut self, number: u64) -> Outputs
        ensures { Disconnects (place_of number self.old.links) self.old result self.new }
    {
        if let Some(place) = find(&self.connections, number) {
            drop(self.connections.remove(place));
        }
        make_quiet()
    }

    fn take(&mut self, number: u64, index: usize) -> Outputs
        ensures { TakesAt (place_of number self.old.links) index self.old result self.new }
    {
        let Some(place) = find(&self.connections, number) else {
            return make_quiet();
        };
        let connection = &mut self.connections[place];
        let number = connection.number();
        let peer = connection.peer();
        let Some(record) = connection.take(index) else {
            return make_quiet();
        };
        let event = BookEvent::Take { peer, record };
        let (outcome, step_result) = note(self.alloc, &mut self.book, event);
        tell_to(number, outcome, step_result)
    }

    fn answer(&mut self, bytes: Vec<u8>) -> Outputs
        ensures { Happens outputs_of (HearsAnswer bytes.items) self.old result self.new }
    {
        let (outcome, step_result) = note(self.alloc, &mut self.book, BookEvent::Answer { bytes });
        tell(outcome, step_result)
    }

    fn local(&mut self, connection: u64, line: Vec<u8>) -> Outputs
        ensures { Happens (told_line connection) (AsksLine connection line.items) self.old result self.new }
    {
        let event = BookEvent::Local { connection, line };
        let (outcome, step_result) = note(self.alloc, &mut self.book, event);
        tell_line(connection, outcome, step_result)
    }

    fn silent(&mut self, number: u64) -> Outputs
        ensures { Happens outputs_of (FallsSilent number) self.old result self.new }
    {
        let (outcome, step_result) = note(self.alloc, &mut self.book, BookEvent::Silent { number });
        tell(outcome, step_result)
    }

    fn grace_over(&mut self) -> Outputs
        ensures { Happens outputs_of GraceEnds self.old result self.new }
    {
        let (outcome, step_result) = note(self.alloc, &mut self.book, BookEvent::GraceOver);
        tell(outcome, step_result)
    }

    fn restart(&mut self) -> Outputs
        ensures { Happens outputs_of BeginsAnew self.old result self.new }
    {
        let (outcome, step_result) = note(self.alloc, &mut self.book, BookEvent::Restart);
        let outputs = tell(outcome, step_result);
        if let StoreAnswer::Yes = outputs.store {
            self.connections.clear();
        }
        outputs
    }

    /// How many whole records of the connection there are that were not taken; none, if it isn't there.
    pub fn waiting(&self, number: u64) -> usize
        ensures { Waits (place_of number self.now.links) self.now result }
    {
        match find(&self.connections, number) {
            None => 0,
            Some(place) => self.connections[place].waiting(),
        }
    }

    /// The store of hosts, to be read: its rows are the hosts of the state.
    pub fn store(&self) -> &S
        ensures rows { S.rows result.now ≡ self.now.state.world.hosts }
        ensures refusals { S.refusals result.now ≡ self.now.refusals }
    {
        self.book.store()
    }

    /// The locks of all owners, to be read: they are those of the state.
    pub fn locks(&self) -> &Locks<R>
        ensures { result.now.settings ≡ self.now.state.world.settings }
    {
        self.book.locks()
    }

    /// The step of a `Piece` of these bytes. They stay the caller's.
    pub fn receive(&mut self, number: u64, bytes: &[u8]) -> Outputs
        ensures { Pieces (place_of number self.old.links) bytes.now self.old result self.new }
    {
        match find(&self.connections, number) {
            None => make_quiet(),
            Some(place) => {
                let connection = &mut self.connections[place];
                connection.receive(bytes)
            }
        }
    }

    /// The step of a `Send` to this place, which stays the caller's. It takes no memory but for a fresh segment of the journal.
    #[inline(never)]
    pub fn send(&mut self, send_buffer: &mut SendBuffer) -> Posted
        ensures { SendStep self.old (told_posted result send_buffer.new) self.new }
    {
        send_next(self.alloc, &mut self.book, send_buffer)
    }

    /// One event, and what comes of it.
    pub fn step(&mut self, event: Event) -> Outputs
        ensures { DaemonStep self.old event result self.new }
    {
        match event {
            Event::Connect { connection, peer } => self.connect(connection, peer),
            Event::Piece { connection, bytes } => self.receive(connection, &bytes),
            Event::Disconnect { connection } => self.disconnect(connection),
            Event::Take { connection, index } => self.take(connection, index),
            Event::Send { mut send_buffer } => {
                let posted = self.send(&mut send_buffer);
                tell_posted(posted, send_buffer)
            }
            Event::Answer { bytes } => self.answer(bytes),
            Event::Local { connection, line } => self.local(connection, line),
            Event::Silent { number } => self.silent(number),
            Event::GraceOver => self.grace_over(),
            Event::Restart => self.restart(),
        }
    }

    /// All events, one after another. All places are got first. Starved: no event is done.
    pub fn run(&mut self, events: Vec<Event>) -> Result<Vec<Outputs>, Starved>
        ensures run { IfOk result (λ outs. Run self.old events.items outs.items self.new) }
        ensures err { OnErr result (self.new ≡ self.old) }
    {
        let mut outs = Vec::with_capacity(self.alloc, events.len())?;
        for event in events {
            outs.push_reserved(self.step(event));
        }
        Ok(outs)
    }
}
