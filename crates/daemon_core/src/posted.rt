//! What came of a sending.

/// What came of a sending.
#[derive(Clone, Copy, PartialEq, Eq)]
pub enum Posted {
    /// No call was due.
    Nothing,
    /// The segment of the journal is full and there is no memory for a fresh one: the call is due as before.
    NoSegment,
    /// A call was sent: whom it is for and its record stand in the place that was lent.
    Sent,
}
