//! How a local program's connection ends.

/// How a local program's connection ends.
#[derive(Clone, Copy, PartialEq, Eq)]
pub enum LinesEnding {
    /// The stream's end. What stood there without a line feed was dropped.
    Over,
    /// The line `stop` was answered `ok`, or the server stops for another cause.
    Stopped,
    /// There was no memory for the buffer of its lines. Nothing was read.
    Starved,
    /// A read failed.
    ReadFault,
    /// A write failed. A prefix of the line's answer was written.
    WriteFault,
}
