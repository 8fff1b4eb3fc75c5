//! How a connection on which pages are asked for ends.

/// How a connection on which pages are asked for ends.
#[derive(Clone, Copy, Debug, PartialEq, Eq)]
pub enum PagesEnding {
    /// The stream's end, or the last request said that it was the last.
    Over,
    /// What came was no request for a page, and was answered so. What comes behind it isn't read.
    Refused,
    /// There was no memory for a request or for the head of its answer.
    Starved,
    /// A read failed, or its time was up.
    ReadFault,
    /// A write failed, or its time was up. A front of the answer was written.
    WriteFault,
}
