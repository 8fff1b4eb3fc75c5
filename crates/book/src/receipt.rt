//! Receipts: what whoever sends a reply holds of its entry.
ghost use Rattle.std.specs.Prelude.{◌≡◌};
ghost use Rattle.kept_replies.specs.Pairs.{view_of_peer};
ghost use Rattle.book.specs.Given.{view_of_reply, record_of};
ghost use Rattle.book.specs.Notes.{Takes, view_of_entry};
ghost use Rattle.book.specs.Receipts.{receipt_of, same_receipt};

use crate::entry::{Entry, Operation};
use crate::event::BookEvent;
use crate::reply::Reply;
use bytes::Bytes;
use kept_replies::Peer;
use std::marker::Model;
use xdr_core::Frame;

/// A call: its peer, and its whole record, which shares the bytes that were received.
#[derive(Drop)]
pub struct Taken {
    pub peer: Peer,
    pub record: Bytes,
}

/// The number of a call's entry, the call, and its reply, which the journal shares. `Book::receipt` alone makes one.
pub struct Receipt {
    number: u64,
    taken: Taken,
    reply: Reply,
}

// It is written out, as that of a book is.
impl Drop for Receipt {
    fn drop(self) {
        let Receipt {
            number: _,
            taken: _,
            reply: _,
        } = self;
    }
}

impl Model for Receipt {
    ghost use Rattle.kept_replies.specs.Pairs.{view_of_peer};
    ghost use Rattle.book.specs.Given.{view_of_reply, record_of};
    ghost use Rattle.book.specs.Notes.{Takes};
    ghost use Rattle.book.specs.Receipts.{Receipt};

    ghost Value = { Receipt };

    ghost view = { λ r. record { number = r.number; event = Takes (view_of_peer r.taken.peer) r.taken.record; reply = record_of (view_of_reply r.reply) } };
}

impl Receipt {
    // Of the entry of this number, which took this call and gave this reply.
    pub(crate) fn of(number: u64, taken: Taken, reply: Reply) -> Receipt
        ensures { result ≡ record { number = number; event = Takes (view_of_peer taken.peer) taken.record; reply = record_of (view_of_reply reply) } }
    {
        Receipt {
            number,
            taken,
            reply,
        }
    }

    /// The number of the entry, over all segments.
    pub fn number(&self) -> u64
        ensures { result ≡ self.now.number }
    {
        self.number
    }

    /// The call that was taken.
    pub fn taken(&self) -> &Taken
        ensures { Takes (view_of_peer result.now.peer) result.now.record ≡ self.now.event }
    {
        &self.taken
    }

    /// What the call got.
    pub fn reply(&self) -> &Reply
        ensures { record_of (view_of_reply result.now) ≡ self.now.reply }
    {
        &self.reply
    }

    /// Whether it is this entry's.
    pub fn is_of(&self, entry: &Entry) -> bool
        ensures { result ≡ same_receipt (receipt_of (view_of_entry entry.now)) self.now }
    {
        if entry.number != self.number {
            return false;
        }
        let Operation::Event { event, reply } = &entry.operation else {
            return false;
        };
        let BookEvent::Take { peer, record } = event else {
            return false;
        };
        if *peer != self.taken.peer || *record != self.taken.record {
            return false;
        }
        record_of(reply).as_slice() == record_of(&self.reply).as_slice()
    }
}

// The record that a client got.
fn record_of(reply: &Reply) -> Frame
    ensures { result ≡ record_of (view_of_reply reply.now) }
{
    let mut record = Frame::new();
    // An empty frame has room for each record.
    let _ = reply.put(&mut record);
    record
}
