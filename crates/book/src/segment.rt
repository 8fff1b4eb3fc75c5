//! Segments of the journal.
ghost use Rattle.std.specs.Prelude.{◌≡◌, ◌≤◌, ◌↔◌, [], map, vec_capacity, IfSome, IsNone};
ghost use Rattle.book.specs.Notes.{view_of_entry};
ghost use Rattle.book.specs.declared.entry.TheConstants.{SEGMENT};

use crate::entry::{Entry, SEGMENT};
use crate::snapshot::Snapshot;
use crate::state::BookState;
use hosts_db::HostStore;
use owner_ids::Starved;
use range_table::RangeTable;
use std::alloc::Global;
use std::marker::Model;
use thiserror::Error;

/// Room for the entries of one segment.
#[derive(Drop)]
pub struct Segment {
    pub(crate) entries: Vec<Entry>,
    ghost empty: { entries.items ≡ [] },
    ghost room: { SEGMENT ≤ vec_capacity entries },
}

impl Segment {
    /// Starved: there is no memory for `SEGMENT` entries.
    pub fn new(alloc: Global) -> Result<Segment, Starved> {
        Ok(Segment {
            entries: Vec::with_capacity(alloc, SEGMENT)?,
        })
    }
}

/// There is no room in the journal for an entry: its segment is full, and there is no memory for a fresh one, or for what is kept
/// of the one that ends; or all numbers are given.
#[derive(Clone, Copy, Debug, PartialEq, Eq, Error)]
#[error("1 Starved")]
pub struct NoRoom;

impl From<Starved> for NoRoom {
    fn from(_refused: Starved) -> NoRoom {
        NoRoom
    }
}

/// A segment that is over. Contracts see the states before and after it, too.
pub struct ClosedSegment<R: RangeTable, S: HostStore> {
    pub(crate) newest: u64,
    pub(crate) base: Snapshot<BookState<R, S>>,
    pub(crate) entries: Vec<Entry>,
    pub(crate) end: Snapshot<BookState<R, S>>,
}

impl<R: RangeTable, S: HostStore> Model for ClosedSegment<R, S> {
    ghost use Rattle.std.specs.Prelude.{◌≤◌, vec_len};
    ghost use Rattle.book.specs.Journal.{Journal, IsLegal};
    ghost use Rattle.book.specs.Kept.{journal_of};

    ghost Value = { Journal };

    ghost view = { λ c. journal_of c.newest c.base.value.state c.entries c.end.value.state };

    ghost invariant = { λ c. IsLegal (journal_of c.newest c.base.value.state c.entries c.end.value.state) × (vec_len c.entries ≤ c.newest) };
}

// It is written out, as that of a book is.
impl<R: RangeTable, S: HostStore> Drop for ClosedSegment<R, S> {
    fn drop(self) {
        let ClosedSegment {
            newest: _,
            base: _,
            entries: _,
            end: _,
        } = self;
    }
}

impl<R: RangeTable, S: HostStore> ClosedSegment<R, S> {
    /// The number of the first entry, if there is one.
    pub fn first(&self) -> Option<u64>
        ensures some { IfSome result (λ first. first ≡ self.now.first) }
        ensures none { IsNone result ↔ (self.now.notes ≡ []) }
    {
        if self.entries.is_empty() {
            return None;
        }
        Some(self.newest - (self.entries.len() as u64 - 1))
    }

    /// The entries, the oldest first.
    pub fn entries(&self) -> &[Entry]
        ensures { map view_of_entry result.now ≡ self.now.notes }
    {
        &self.entries
    }
}
