//! What may happen.

use crate::send_buffer::SendBuffer;
use kept_replies::Peer;
use thiserror::Error;

/// What may happen. The first number of Connect, Piece, Disconnect and Take names a connection that brings records; an event
/// about one that isn't there gives nothing, and so does a `Connect` of a number in use. Local connections are numbered by
/// whoever has them.
#[derive(Drop)]
pub enum Event {
    /// A connection begins, from this peer.
    Connect { connection: u64, peer: Peer },
    /// Bytes come on it.
    Piece { connection: u64, bytes: Vec<u8> },
    /// It ends. Whole records that were not taken are not answered.
    Disconnect { connection: u64 },
    /// The record at this place among its whole records that were not yet taken is answered.
    Take { connection: u64, index: usize },
    /// The server's own call that became due first is sent, if one is due. It is written to this place, whatever stood there.
    Send { send_buffer: Box<SendBuffer> },
    /// An answer came to one of the server's own calls. One that belongs to none changes nothing.
    Answer { bytes: Vec<u8> },
    /// A local program's line, without its line feed, on its connection of this number. It is answered there.
    Local { connection: u64, line: Vec<u8> },
    /// Nothing answered the server's own call of this number. It is due again, or forgotten after three sendings; nothing
    /// changes where it is due now, or where there is none.
    Silent { number: u64 },
    /// The grace period ends (XNFS, NLM: recovery).
    GraceOver,
    /// The server begins anew, with the store's rows, and in grace. Where the store agrees, all connections end.
    Restart,
}

/// The refusal of an event that has nobody to answer.
#[derive(Clone, Copy, Debug, PartialEq, Eq, Error)]
pub enum EventRefusal {
    /// A growth was refused. A connection doesn't begin; a piece isn't received, and its connection
    /// receives no more; the server doesn't begin anew.
    #[error("1 Starved")]
    Starved,
    /// The stream has a record that would be too long. It gives no more records.
    #[error("10 RecordTooLong")]
    RecordTooLong,
    /// The store of hosts refused. The server doesn't begin anew.
    #[error("19 StoreRefused")]
    StoreRefused,
}
