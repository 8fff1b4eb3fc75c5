//! How the reading of a stream ends.

/// How reading ended.
#[derive(Clone, Copy, PartialEq, Eq)]
pub enum Ending {
    /// The stream ended. An end inside a record is no fault.
    Over,
    /// A read failed, or none brought bytes in time, or the stream was read as often as it may be.
    Failed,
    /// The stream has a record that would be longer than 8,192 bytes. The records before it were put.
    TooLong,
    /// The channel is closed, or 2^64 - 1 jobs were put. A record is left that was not put.
    Closed,
    /// There was no memory for bytes that were read. Records that were whole before them were put.
    Starved,
}
