//! What the lock keeps: the book, its closed segments, the number of calls taken, and how many entries there were of each kind.
ghost use Rattle.std.specs.Prelude.{◌≡◌, ℕ, ◌+◌, ◌<◌, false, is_some, Some, IfOk, IfErr, IfSome};
ghost use Rattle.definitions.specs.Outgoing.{next_due};
ghost use Rattle.book.specs.Given.{StepResult as Became};
ghost use Rattle.book.specs.Journal.{room_of};
ghost use Rattle.book.specs.Notes.{is_take, view_of_event};
ghost use Rattle.book.specs.Receipts.{newest_receipt};
ghost use Rattle.workers.specs.Holds.{takes_of, entry_of, IsOneHistory, IsServed, IsNew, Begins, BeginsNot, Rests, Notes, Adds, history_of};
ghost use Rattle.entry_counts.specs.Counted.{AreCountsOf};
ghost use Rattle.workers.specs.Sending.{IsNextOf};
ghost use Rattle.workers.specs.Answers.{view_of_taken};

use crate::archive::Archive;
use crate::beginning::{NotBegun, why_not};
use crate::ghost_trace::GhostTrace;
use book::{
    Book, BookEvent, ClosedSegment, NoRoom, Receipt, Starved, StepResult, Taken, newest_entered,
    segments_are_one_history,
};
use bytes::Bytes;
use call_codec::Dest;
use entry_counts::{Counts, count_call, count_event, count_sent, counts_of_restart, happening_of};
use hosts_db::{HostStore, StoreError};
use range_table::RangeTable;
use std::alloc::Global;
use std::marker::Model;
use std::sync::ledger::{Book as Total, Ledger, Share};
use xdr_core::Frame;

/// The book, its closed segments, and beside them how many calls were taken. Contracts see the journals, and whether closed ones
/// are kept. The journals are one legal history from the opening state of the store's rows and the own name, and its first entry is
/// the restart. The total is that of their entries that took a record, and each counter has the number of the entries that it counts.
pub struct Shared<R: RangeTable, S: HostStore, L: Ledger> {
    alloc: Global,
    book: Book<R, S>,
    archive: Archive<ClosedSegment<R, S>>,
    total: Total<L>,
    counts: Counts,
    // A segment that is over and isn't kept, until whoever takes the next call takes it along.
    over: Option<ClosedSegment<R, S>>,
}

impl<R: RangeTable, S: HostStore, L: Ledger> Model for Shared<R, S, L> {
    ghost use Rattle.std.specs.Prelude.{is_some};
    ghost use Rattle.std.specs.Prelude.{◌++◌};
    ghost use Rattle.book.specs.Histories.{notes_of};
    ghost use Rattle.entry_counts.specs.Counted.{AreCountsOf};
    ghost use Rattle.workers.specs.Holds.{Held, IsInStep};

    ghost Value = { Held };

    ghost view = { λ s. record { closed = s.archive.all.items; book = s.book; keeps = is_some s.archive.kept } };

    ghost invariant = { λ s. IsInStep s.total.total s.archive.all.items s.book.journal × AreCountsOf (notes_of s.archive.all.items ++ s.book.journal.notes) s.counts };
}

// It is written out, so that no crate above proves again how each part is dropped.
impl<R: RangeTable + Drop, S: HostStore + Drop, L: Ledger> Drop for Shared<R, S, L> {
    fn drop(self) {
        let Shared {
            alloc: _,
            book: _,
            archive: _,
            total: _,
            counts: _,
            over: _,
        } = self;
    }
}

/// What a shared book leaves behind.
#[derive(Drop)]
pub struct Ends<R: RangeTable, S: HostStore> {
    /// The segments in order, where they were kept.
    pub segments: Option<Vec<ClosedSegment<R, S>>>,
}

/// What a hold gives that took a call.
#[derive(Drop)]
pub struct Entered<R: RangeTable, S: HostStore> {
    /// The receipt of its entry.
    pub receipt: Receipt,
    /// Whether a call of the server's own is due behind it.
    pub is_due: bool,
    /// A segment that is over and isn't kept, to be dropped behind the hold: that takes longer than many holds.
    pub over: Option<ClosedSegment<R, S>>,
}

/// What is sent next.
#[derive(Drop)]
pub enum Next {
    /// The call of the server's own of this number, whom it is for, and its record. It has its entry.
    Call { number: u64, to: Dest, frame: Frame },
    /// No call is due.
    NothingDue,
    /// A call is due, and there was no room for its entry. It is due still.
    NoRoom,
}

impl<R: RangeTable, S: HostStore, L: Ledger> Shared<R, S, L> {
    // Makes room for one entry more. A segment that is full is closed, and kept where closed ones are. A place for it is got first.
    fn make_room(&mut self) -> Result<(), NoRoom>
        ensures room { IfOk result (λ _. 0 < room_of self.new.book.journal) }
        ensures full { IfErr result (λ _. room_of self.old.book.journal ≡ 0) }
        ensures rests { Rests self.old self.new }
    {
        if self.book.room() > 0 {
            return Ok(());
        }
        self.archive.reserve()?;
        if let Some(closed) = self.book.make_room(self.alloc)? {
            self.over = self.archive.add(closed);
        }
        Ok(())
    }

    /// All that the book went through, from the opening on, is one legal history, whose first entry is the restart. So what `book`
    /// says of histories stands over each state that a hold of the lock sees.
    pub fn history(&self)
        ensures { IsServed self.now }
    {
        segments_are_one_history();
        let _all = &self.archive.all;
    }

    /// One hold that takes a record: one entry, with its receipt. The call comes back where there was no room for its entry, and
    /// then none was made.
    pub fn take(
        &mut self,
        taken: Taken,
        same: Bytes,
        share: &mut Share<L>,
    ) -> Result<Entered<R, S>, Taken>
        requires same { same ≡ taken.«record» }
        requires part { 0 < share.old.parts }
        ensures noted { IfOk result (λ entered. (step_result : Became) × Notes self.old (view_of_taken taken) step_result self.new × (newest_receipt self.new.book.journal.notes ≡ Some entered.receipt)) }
        ensures told { IfOk result (λ entered. (entered.receipt.event ≡ view_of_taken taken) × (share.new.amount ≡ share.old.amount + 1)) }
        ensures due { IfOk result (λ entered. entered.is_due ≡ is_some (next_due self.new.book.journal.end.world.calls)) }
        ensures none { IfErr result (λ back. (back ≡ taken) × Rests self.old self.new × (share.new.amount ≡ share.old.amount)) }
        ensures full { IfErr result (λ _. room_of self.old.book.journal ≡ 0) }
        ensures parts { share.new.parts ≡ share.old.parts }
    {
        let Ok(()) = self.make_room() else {
            return Err(taken);
        };
        let peer = taken.peer;
        let record = same;
        let step_result = self.book.apply(BookEvent::Take { peer, record });
        newest_entered();
        count_call(&mut self.counts, &taken.record, &step_result);
        let receipt = self.book.receipt(taken, step_result.reply);
        self.total.add(share, 1);
        let is_due = self.book.has_due();
        let over = self.over.take();
        Ok(Entered {
            receipt,
            is_due,
            over,
        })
    }

    /// One hold of an event that is no record: a line, an answer, a silence, the end of grace, or a restart. It is one entry, which
    /// the trace has then, too. The event comes back where there was no room for its entry, and then none was made.
    pub fn apply(
        &mut self,
        event: BookEvent,
        ghost_trace: &mut GhostTrace,
    ) -> Result<StepResult, BookEvent>
        requires untaken { is_take (view_of_event event) ≡ false }
        ensures noted { IfOk result (λ step_result. Notes self.old (view_of_event event) step_result self.new) }
        ensures told { IfOk result (λ step_result. (number : ℕ) × Adds self.new (entry_of number (view_of_event event) step_result) ghost_trace.old ghost_trace.new) }
        ensures none { IfErr result (λ back. (back ≡ event) × Rests self.old self.new × (ghost_trace.new ≡ ghost_trace.old)) }
        ensures full { IfErr result (λ _. room_of self.old.book.journal ≡ 0) }
    {
        let Ok(()) = self.make_room() else {
            return Err(event);
        };
        let what = happening_of(&event);
        let step_result = self.book.apply(event);
        newest_entered();
        count_event(&mut self.counts, what, step_result.status);
        ghost_trace.add(&self.book);
        Ok(step_result)
    }

    /// One hold that sends the call of the server's own that is due first, which is one entry. The trace has it then, too.
    pub fn next_call(&mut self, ghost_trace: &mut GhostTrace) -> Next
        ensures { IsNextOf self.old ghost_trace.old result self.new ghost_trace.new }
    {
        if !self.book.has_due() {
            return Next::NothingDue;
        }
        let Ok(()) = self.make_room() else {
            return Next::NoRoom;
        };
        let sent = self.book.next_call();
        count_sent(&mut self.counts, sent.is_some());
        match sent {
            Some((number, to, frame)) => {
                newest_entered();
                ghost_trace.add(&self.book);
                Next::Call { number, to, frame }
            }
            None => Next::NothingDue,
        }
    }

    /// One hold in which the store hears where a host is (`HostStore::locate`). Nothing of the state changes, so there is no entry.
    pub fn locate(&mut self, name: &[u8], address: &[u8]) -> Result<(), StoreError>
        ensures { self.new ≡ self.old }
    {
        self.book.locate(name, address)
    }

    /// Whether a call of the server's own is due.
    pub fn has_due(&self) -> bool
        ensures { result ≡ is_some (next_due self.now.book.journal.end.world.calls) }
    {
        self.book.has_due()
    }

    /// The book, to be read.
    pub fn book(&self) -> &Book<R, S>
        ensures { result.now ≡ self.now.book }
    {
        &self.book
    }

    /// How many entries there were of each kind, from the first on: of all closed segments and of the open one.
    pub fn counts(&self) -> &Counts
        ensures { AreCountsOf (history_of self.now).notes result.now }
    {
        &self.counts
    }

    /// The store of hosts, to be read: its rows are the hosts of the state.
    pub fn store(&self) -> &S
        ensures rows { S.rows result.now ≡ self.now.book.journal.end.world.hosts }
        ensures refusals { S.refusals result.now ≡ self.now.book.refusals }
    {
        self.book.store()
    }

    /// The own state's number, which each restart changes.
    pub fn own_state(&self) -> u32
        ensures { result ≡ self.now.book.journal.end.world.hosts.own }
    {
        self.book.store().own()
    }
}

impl<R: RangeTable + Drop, S: HostStore + Drop, L: Ledger> Shared<R, S, L> {
    /// Over a new book, whose server it begins anew: that is the first entry. `is_kept` keeps closed segments for an audit.
    /// `NotBegun`: the restart was not made, for want of memory or since the store refused it, and the book is dropped.
    pub fn new(
        alloc: Global,
        book: Book<R, S>,
        total: Total<L>,
        is_kept: bool,
    ) -> Result<Shared<R, S, L>, NotBegun>
        requires new { IsNew book.journal }
        requires total { total.total ≡ 0 }
        ensures begins { IfOk result (λ shared. Begins book is_kept shared) }
        ensures refused { IfErr result (λ why. BeginsNot book why) }
    {
        let mut book = book;
        let step_result = book.apply(BookEvent::Restart);
        match why_not(&step_result) {
            None => Ok(Shared {
                alloc,
                book,
                archive: Archive::new(alloc, is_kept),
                total,
                counts: counts_of_restart(step_result.status),
                over: None,
            }),
            Some(why) => Err(why),
        }
    }

    /// Ends it. The gathered shares sum to the number of the calls that its segments took, which are given where they were kept.
    pub fn finish(self, all: &mut Share<L>) -> Result<Ends<R, S>, Starved>
        requires whole { all.old.parts ≡ L.parts }
        ensures counted { IfOk result (λ ends. IfSome ends.segments (λ segments. all.old.amount ≡ takes_of segments.items)) }
        ensures joined { IfOk result (λ ends. IfSome ends.segments (λ segments. IsOneHistory segments.items)) }
        ensures kept { IfOk result (λ ends. is_some ends.segments ≡ self.keeps) }
    {
        let Shared {
            book,
            archive,
            mut total,
            alloc: _,
            counts: _,
            over: _,
        } = self;
        total.audit(all);
        let segments = archive.into_kept_with(book.close())?;
        Ok(Ends { segments })
    }
}
