//! Entries of the journal.
use crate::event::BookEvent;
use crate::reply::Reply;
use crate::snapshot::Snapshot;
use crate::step_result::EventStatus;
use callbacks::Callback;
use local_ops::LocalAnswer;

/// The most entries of a segment.
pub const SEGMENT: usize = 1_024;

/// What an entry notes.
#[derive(Drop)]
pub enum Operation {
    /// An event, and what it gave.
    Event {
        event: BookEvent,
        reply: Reply,
    },
    /// A local program's line. Contracts see its answer: one that names an owner can't be copied without memory, and the new entry
    /// is done by then.
    Line {
        connection: u64,
        line: Vec<u8>,
        answer: Snapshot<LocalAnswer>,
    },
    /// The server's own call of this number was sent. Contracts see its callback.
    Sent {
        number: u64,
        callback: Snapshot<Callback>,
    },
}

/// One entry of the journal: its number over all segments, from 1 on, what it notes, and what became of that.
#[derive(Drop)]
pub struct Entry {
    pub number: u64,
    pub operation: Operation,
    pub status: EventStatus,
}
