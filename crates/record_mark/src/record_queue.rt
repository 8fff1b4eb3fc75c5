//! The records of a stream that wait.

ghost use Rattle.std.specs.Prelude.{◌≡◌, ℕ, ◌≤◌, List, length, slice_get, IfSome, IfNone, Some};
ghost use Rattle.record_mark.specs.Received.{nothing, Hears, with_taken};
ghost use Rattle.record_mark.specs.Untaken.{AreRecords, untaken_records};

use crate::assembler::{Assembler, MarkError};
use bytes::Bytes;
use ghost_list::History;
use std::alloc::Global;
use std::marker::Model;

/// What bytes came to.
#[derive(Clone, Copy)]
pub enum Received {
    /// They were received.
    Taken {
        /// The stream has a record that would be longer than `MOST_RECORD_BYTES`. It gives no more records.
        is_too_long: bool,
    },
    /// A growth was refused. They were not received, and nothing is from now on.
    Starved,
    /// They were not received, since earlier ones starved.
    Closed,
}

/// Takes a stream in pieces, and gives its records in any order. Contracts see all bytes that were received, and which of their
/// records were taken.
#[derive(Drop)]
pub struct RecordQueue {
    assembler: Assembler,
    queue: Vec<Bytes>,
    receives: bool,
    received: History<u8>,
    given: History<Bytes>,
    takes: History<usize>,
}

impl Model for RecordQueue {
    ghost use Rattle.record_mark.specs.Received.{ReceivedBytes};

    ghost Value = { ReceivedBytes };

    ghost use Rattle.record_mark.specs.Queue.{view_of_record_queue, IsQueue};

    ghost view = { view_of_record_queue };

    ghost invariant = { IsQueue };
}

impl RecordQueue {
    /// With no bytes. It takes no memory.
    pub fn new(alloc: Global) -> RecordQueue
        ensures { result ≡ nothing }
    {
        RecordQueue {
            assembler: Assembler::new(alloc),
            queue: Vec::new(alloc),
            receives: true,
            received: History::new(),
            given: History::new(),
            takes: History::new(),
        }
    }

    /// Takes bytes that came. If they starve they are not received, and nothing is from then on.
    pub fn receive(&mut self, piece: &[u8]) -> Received
        ensures { Hears result self.old piece.now self.new }
    {
        if !self.receives {
            return Received::Closed;
        }
        let (mut records, is_too_long) = match self.assembler.feed(piece) {
            Ok(records) => (records, false),
            Err(MarkError::RecordTooLong(records)) => (records, true),
            Err(MarkError::Starved) => {
                self.receives = false;
                return Received::Starved;
            }
        };
        let given = self.given.and_all(&records);
        if self.queue.append(&mut records).is_err() {
            self.receives = false;
            return Received::Starved;
        }
        self.given = given;
        self.received = self.received.and_all(piece);
        Received::Taken { is_too_long }
    }

    /// How many whole records there are that were not taken.
    pub fn waiting(&self) -> usize
        ensures { (records : List (List ℕ)) × AreRecords self.now.received records × (result ≡ length (untaken_records records self.now.taken)) }
    {
        self.queue.len()
    }

    /// Takes the record of this place among those that were not taken.
    pub fn take(&mut self, index: usize) -> Option<Bytes>
        ensures some { IfSome result (λ r. (records : List (List ℕ)) × AreRecords self.old.received records
            × (slice_get (untaken_records records self.old.taken) index ≡ Some r) × (self.new ≡ with_taken self.old index)) }
        ensures none { IfNone result ((self.new ≡ self.old) × ((records : List (List ℕ)) × AreRecords self.old.received records × (length (untaken_records records self.old.taken) ≤ index))) }
    {
        if index >= self.queue.len() {
            return None;
        }
        let record = self.queue.remove(index);
        self.takes = self.takes.and(&index);
        Some(record)
    }
}
