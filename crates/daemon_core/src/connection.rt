//! One connection.

ghost use Rattle.std.specs.Prelude.{◌≡◌, ℕ, ◌≤◌, List, length, slice_get, IfSome, IfNone, Some};
ghost use Rattle.daemon_core.specs.Link.{fresh, Receives, with_taken};
ghost use Rattle.record_mark.specs.Untaken.{AreRecords, untaken_records};

use crate::event::EventRefusal;
use crate::outputs::{Outputs, make_heard, make_quiet, make_starved};
use bytes::Bytes;
use kept_replies::Peer;
use record_mark::{Received, RecordQueue};
use std::alloc::Global;
use std::marker::Model;

/// Contracts see all bytes that came on it, and which of their records were taken.
#[derive(Drop)]
pub struct StreamConnection {
    number: u64,
    peer: Peer,
    record_queue: RecordQueue,
}

impl Model for StreamConnection {
    ghost use Rattle.daemon_core.specs.Link.{Link};

    ghost Value = { Link };

    ghost view = { λ c. record { number = c.number; peer = c.peer; received = c.record_queue.received; taken = c.record_queue.taken; receives = c.record_queue.receives } };
}

impl StreamConnection {
    pub fn new(alloc: Global, number: u64, peer: Peer) -> StreamConnection
        ensures { result ≡ fresh number peer }
    {
        StreamConnection {
            number,
            peer,
            record_queue: RecordQueue::new(alloc),
        }
    }

    pub fn number(&self) -> u64
        ensures { result ≡ self.now.number }
    {
        self.number
    }

    pub fn peer(&self) -> Peer
        ensures { result ≡ self.now.peer }
    {
        self.peer
    }

    /// Takes bytes that came. If they starve they are not received, and nothing is from then on.
    pub fn receive(&mut self, piece: &[u8]) -> Outputs
        ensures { Receives self.old.receives self.old piece.now result self.new }
    {
        match self.record_queue.receive(piece) {
            Received::Taken { is_too_long: false } => make_heard(None),
            Received::Taken { is_too_long: true } => make_heard(Some(EventRefusal::RecordTooLong)),
            Received::Starved => make_starved(),
            Received::Closed => make_quiet(),
        }
    }

    /// How many whole records there are that were not taken.
    pub fn waiting(&self) -> usize
        ensures { (records : List (List ℕ)) × AreRecords self.now.received records × (result ≡ length (untaken_records records self.now.taken)) }
    {
        self.record_queue.waiting()
    }

    /// Takes the record of this place among those that were not taken.
    pub fn take(&mut self, index: usize) -> Option<Bytes>
        ensures some { IfSome result (λ r. (records : List (List ℕ)) × AreRecords self.old.received records
            × (slice_get (untaken_records records self.old.taken) index ≡ Some r) × (self.new ≡ with_taken self.old index)) }
        ensures none { IfNone result ((self.new ≡ self.old) × ((records : List (List ℕ)) × AreRecords self.old.received records × (length (untaken_records records self.old.taken) ≤ index))) }
    {
        self.record_queue.take(index)
    }
}
