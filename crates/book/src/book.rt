//! The shared state and the segment of the journal that leads to it.
ghost use Rattle.std.specs.Prelude.{◌≡◌, ◌⊎◌, ◌<◌, ◌+◌, ◌^◌, [], length, Some, IfOk, IfErr, IsErr, is_some};
ghost use Rattle.kept_replies.specs.Pairs.{view_of_peer};
ghost use Rattle.definitions.specs.Outgoing.{next_due};
ghost use Rattle.definitions.specs.Options.{view_of_rules};
ghost use Rattle.definitions.specs.Step.{opening_state, opening_state_with};
ghost use Rattle.book.specs.Notes.{view_of_event, Takes};
ghost use Rattle.book.specs.Given.{view_of_reply};
ghost use Rattle.book.specs.Receipts.{newest_event, newest_given, newest_receipt, is_noted};
ghost use Rattle.book.specs.Journal.{empty_journal, next_of, room_of, rotated_book, Enters, IsLegal, IsNext, MakesRoom};

use crate::entries::{Entries, NewEntry};
use crate::entry::{Operation, SEGMENT};
use crate::event::BookEvent;
use crate::receipt::{Receipt, Taken};
use crate::reply::Reply;
use crate::segment::{ClosedSegment, NoRoom, Segment};
use crate::snapshot::Snapshot;
use crate::state::BookState;
use crate::step_result::{Completion, EventStatus, StepResult};
use call_codec::Dest;
use callbacks::ShortBytes;
use definitions::rules::Rules;
use held_locks::Locks;
use hosts_db::{HostStore, StoreError};
use lock_service::{StoreAnswer, World};
use owner_ids::Starved;
use range_table::RangeTable;
use std::alloc::Global;
use std::marker::Model;
use std::mem;
use step_order::{Noting, change_noted};
use xdr_core::Frame;

/// The world, the kept replies, and the journal of this segment. Contracts see the journal, whose end is the state, and how
/// often the store has refused.
pub struct Book<R: RangeTable, S: HostStore> {
    shared: BookState<R, S>,
    base: Snapshot<BookState<R, S>>,
    entries: Entries,
}

impl<R: RangeTable, S: HostStore> Model for Book<R, S> {
    ghost use Rattle.book.specs.Journal.{Book};
    ghost use Rattle.book.specs.Kept.{journal_of, IsKept};

    ghost Value = { Book };

    ghost view = { λ b. record { journal = journal_of b.entries.newest b.base.value.state b.entries.list b.shared.state; refusals = b.shared.refusals } };

    ghost invariant = { λ b. IsKept b.entries.newest b.base.value.state b.entries.list b.shared.state };
}

// It is written out, so that no crate above proves again how each part of a book is dropped.
impl<R: RangeTable + Drop, S: HostStore + Drop> Drop for Book<R, S> {
    fn drop(self) {
        let Book {
            shared: _,
            base: _,
            entries: _,
        } = self;
    }
}

impl<R: RangeTable + Drop, S: HostStore + Drop> Book<R, S> {
    /// The store's rows and nothing else, in grace, and an empty segment whose first number is 1. The table has no runs, and
    /// the name is the server's own. Starved: there is no memory for it, and table, store and name are dropped.
    pub fn new(
        alloc: Global,
        table: R,
        store: S,
        own_name: ShortBytes,
    ) -> Result<Book<R, S>, Starved>
        requires { R.settings table ≡ [] }
        ensures begins { IfOk result (λ book. book ≡ record { journal = empty_journal 1 (opening_state own_name (S.rows store)); refusals = S.refusals store }) }
    {
        Book::new_with(alloc, table, store, own_name, Rules::standard())
    }

    /// The same under these rules, which no event changes.
    pub fn new_with(
        alloc: Global,
        table: R,
        store: S,
        own_name: ShortBytes,
        rules: Rules,
    ) -> Result<Book<R, S>, Starved>
        requires { R.settings table ≡ [] }
        ensures begins { IfOk result (λ book. book ≡ record { journal = empty_journal 1 (opening_state_with own_name (view_of_rules rules) (S.rows store)); refusals = S.refusals store }) }
    {
        let segment = Segment::new(alloc)?;
        let shared = BookState::new(alloc, table, store, own_name, rules)?;
        let base = Snapshot::of(&shared);
        Ok(Book {
            shared,
            base,
            entries: Entries {
                list: segment.entries,
                newest: 0,
            },
        })
    }

    /// Closes the last segment.
    pub fn close(self) -> ClosedSegment<R, S>
        ensures closed { result ≡ self.journal }
        ensures legal { IsLegal result }
    {
        let Book {
            shared,
            base,
            entries,
        } = self;
        let end = Snapshot::of(&shared);
        ClosedSegment {
            newest: entries.newest,
            base,
            entries: entries.list,
            end,
        }
    }
}

impl<R: RangeTable, S: HostStore> Book<R, S> {
    /// For how many more entries this segment has room. There are 2^64 - 1 numbers.
    pub fn room(&self) -> u64
        ensures room { result ≡ room_of self.now.journal }
        ensures legal { IsLegal self.now.journal }
    {
        let newest = self.entries.newest;
        let left = SEGMENT - self.entries.list.len();
        (u64::MAX - newest).min(left as u64)
    }

    /// The store of hosts, to be read: its rows are the hosts of the state.
    pub fn store(&self) -> &S
        ensures rows { S.rows result.now ≡ self.now.journal.end.world.hosts }
        ensures refusals { S.refusals result.now ≡ self.now.refusals }
    {
        self.shared.world.store()
    }

    /// The state without its kept replies, to be read.
    pub fn world(&self) -> &World<R, S>
        ensures { result.now.world ≡ self.now.journal.end.world }
    {
        &self.shared.world
    }

    /// How many replies are kept.
    pub fn kept_replies(&self) -> usize
        ensures { result ≡ length self.now.journal.end.kept }
    {
        self.shared.kept.len()
    }

    /// How many entries all segments have, this one with those before it: the number of the newest entry.
    pub fn entries(&self) -> u64
        ensures { result + 1 ≡ next_of self.now.journal }
    {
        self.entries.newest
    }

    /// The locks of all owners, to be read: they are those of the state.
    pub fn locks(&self) -> &Locks<R>
        ensures { result.now.settings ≡ self.now.journal.end.world.settings }
    {
        self.shared.world.locks()
    }

    /// One event: one step of the shared state, and one entry of the journal, which notes what it came to. An answer, a silence
    /// and the end of grace take no memory.
    pub fn apply(&mut self, event: BookEvent) -> StepResult
        requires { 0 < room_of self.old.journal }
        ensures enters { Enters self.old (view_of_event event) result self.new }
        ensures legal { IsLegal self.new.journal }
    {
        change_noted(&mut self.shared, &mut self.entries, event)
    }

    /// Has the store hear where a host is (`HostStore::locate`). Nothing of the state changes, so nothing is noted.
    pub fn locate(&mut self, name: &[u8], address: &[u8]) -> Result<(), StoreError>
        ensures { self.new ≡ self.old }
    {
        self.shared.locate(name, address)
    }

    /// Whether a call of the server's own is due.
    pub fn has_due(&self) -> bool
        ensures { result ≡ is_some (next_due self.now.journal.end.world.calls) }
    {
        self.shared.world.next_call().is_some()
    }

    /// Sends the call of the server's own that is due first: one step of the shared state, and one entry of the journal. It
    /// gives the call's number, whom it is for, and its record. Where none is due nothing changes, and nothing is noted. It
    /// takes no memory.
    pub fn next_call(&mut self) -> Option<(u64, Dest, Frame)>
        requires { 0 < room_of self.old.journal }
        ensures sends { IsNext self.old result self.new }
        ensures legal { IsLegal self.new.journal }
    {
        let sending = self.shared.send()?;
        self.entries.note(NewEntry {
            operation: Operation::Sent {
                number: sending.number,
                callback: sending.callback,
            },
            status: EventStatus {
                completion: Completion::Applied,
                store: StoreAnswer::NotAsked,
            },
        });
        Some((sending.number, sending.to, sending.frame))
    }

    /// Makes room for an entry where there is none: the segment, which is full, is closed, and a fresh one begins where it ends. It
    /// is got here, once in `SEGMENT` entries, and none is kept in reserve. `NoRoom`: nothing has changed. It comes only where the
    /// segment is full, and then where there is no memory for a fresh one, or no number for another entry.
    pub fn make_room(&mut self, alloc: Global) -> Result<Option<ClosedSegment<R, S>>, NoRoom>
        ensures room { IfOk result (λ _. 0 < room_of self.new.journal) }
        ensures made { IfOk result (λ closed. MakesRoom self.old closed self.new) }
        ensures legal { IfOk result (λ _. IsLegal self.new.journal) }
        ensures full { IfErr result (λ _. room_of self.old.journal ≡ 0) }
        ensures stays { IfErr result (λ _. self.new ≡ self.old) }
    {
        if self.room() > 0 {
            return Ok(None);
        }
        let fresh = Segment::new(alloc);
        Ok(Some(self.go_on_in(fresh)?))
    }

    // The segment, which is full, is closed, and the fresh one begins, where there is one and a number is left.
    fn go_on_in(&mut self, fresh: Result<Segment, Starved>) -> Result<ClosedSegment<R, S>, NoRoom>
        requires { room_of self.old.journal ≡ 0 }
        ensures closed { IfOk result (λ closed. closed ≡ self.old.journal) }
        ensures next { IfOk result (λ _. self.new ≡ rotated_book self.old) }
        ensures room { IfOk result (λ _. 0 < room_of self.new.journal) }
        ensures legal { IfOk result (λ _. IsLegal self.new.journal) }
        ensures none { IfErr result (λ _. IsErr fresh ⊎ (next_of self.old.journal ≡ 2 ^ 64)) }
        ensures stays { IfErr result (λ _. self.new ≡ self.old) }
    {
        if self.entries.newest == u64::MAX {
            drop(fresh);
            return Err(NoRoom);
        }
        match fresh {
            Ok(fresh) => Ok(self.rotate(fresh)),
            Err(Starved) => Err(NoRoom),
        }
    }

    /// Closes the segment, and begins the next one where it ends.
    pub fn rotate(&mut self, fresh: Segment) -> ClosedSegment<R, S>
        ensures closed { result ≡ self.old.journal }
        ensures legal { IsLegal result }
        ensures next { self.new ≡ rotated_book self.old }
        ensures begun { IsLegal self.new.journal }
    {
        let end = Snapshot::of(&self.shared);
        let base = mem::replace(&mut self.base, Snapshot::of(&self.shared));
        let entries = mem::replace(&mut self.entries.list, fresh.entries);
        ClosedSegment {
            newest: self.entries.newest,
            base,
            entries,
            end,
        }
    }

    /// The receipt of this segment's newest entry, which took this call and gave this reply.
    pub fn receipt(&self, taken: Taken, reply: Reply) -> Receipt
        requires call { newest_event self.now.journal.notes ≡ Some (Takes (view_of_peer taken.peer) taken.record) }
        requires reply { newest_given self.now.journal.notes ≡ Some (view_of_reply reply) }
        ensures { Some result ≡ newest_receipt self.now.journal.notes }
    {
        let newest = self.entries.list.len() - 1;
        Receipt::of(self.entries.list[newest].number, taken, reply)
    }

    /// Whether the receipt's number stands in this segment, with its call and its reply.
    pub fn check(&self, receipt: &Receipt) -> bool
        ensures { result ≡ is_noted receipt.now self.now.journal.notes }
    {
        self.entries.list.iter().any(|entry| receipt.is_of(entry))
    }
}
