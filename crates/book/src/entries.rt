//! Entries are made.
use crate::entry::{Entry, Operation};
use crate::event::BookEvent;
use crate::state::BookState;
use crate::step_result::{EventStatus, StepResult};
use hosts_db::HostStore;
use range_table::RangeTable;
use step_order::{Changing, Noting};

/// What an entry tells beside its number.
#[derive(Drop)]
pub(crate) struct NewEntry {
    pub(crate) operation: Operation,
    pub(crate) status: EventStatus,
}

/// The entries of a segment, the oldest first, and the number of the newest, over all segments.
#[derive(Drop)]
pub(crate) struct Entries {
    pub(crate) list: Vec<Entry>,
    pub(crate) newest: u64,
}

impl Noting<NewEntry> for Entries {
    ghost use Rattle.book.specs.NewEntries.{HasPlace, HasMore};

    ghost HasRoom = { HasPlace };

    ghost Notes = { HasMore };

    fn note(&mut self, new_entry: NewEntry) {
        self.newest += 1;
        self.list.push_reserved(Entry {
            number: self.newest,
            operation: new_entry.operation,
            status: new_entry.status,
        });
    }
}

impl<R: RangeTable, S: HostStore> Changing<BookEvent, StepResult, NewEntry> for BookState<R, S> {
    ghost use Rattle.book.specs.NewEntries.{IsDone};
    ghost use Rattle.book.specs.Notes.{view_of_event};

    ghost Changes = { λ old event step_result new_entry new. IsDone old (view_of_event event) step_result new_entry new };

    fn change(&mut self, event: BookEvent) -> (StepResult, NewEntry) {
        self.apply(event)
    }
}
