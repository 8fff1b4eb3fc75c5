//! Calls that come by datagram.

/// Answers calls by datagram, over a socket that never blocks, which the sender's thread waits for.
pub trait Datagrams {
    /// Answers what came, a bounded number. Whether more may be left.
    fn answer(&mut self) -> bool;
}

/// None come.
impl Datagrams for () {
    fn answer(&mut self) -> bool {
        false
    }
}

/// With `None` none come.
impl<D: Datagrams> Datagrams for Option<D> {
    fn answer(&mut self) -> bool {
        match self {
            Some(datagrams) => datagrams.answer(),
            None => false,
        }
    }
}
