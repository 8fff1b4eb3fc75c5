//! Events of the shared state.
use bytes::Bytes;
use kept_replies::Peer;

/// What happens to the shared state.
#[derive(Drop)]
pub enum BookEvent {
    /// A whole record of a peer is answered.
    Take { peer: Peer, record: Bytes },
    /// An answer came to one of the server's own calls.
    Answer { bytes: Vec<u8> },
    /// A local program's line, without its line feed, on the connection of this number.
    Local { connection: u64, line: Vec<u8> },
    /// Nothing answered the server's own call of this number.
    Silent { number: u64 },
    /// The grace period ends.
    GraceOver,
    /// The server begins anew, with the store's rows.
    Restart,
}
