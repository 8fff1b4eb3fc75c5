//! What is true of every connection table.
ghost use Rattle.connections.specs.Seats.{IsKeptAtCome, IsKeptAtLeave, IsKeptAtLend, IsKeptAtClose, IsFreeOnceLeft, IsCountedAtCome, IsCountedAtLeave};

/// A connection keeps its place, at which its number finds it, until it leaves: while others come and leave, whatever the places
/// lend, and once no more are taken in.
pub fn place_is_kept<K>()
    ensures come { IsKeptAtCome K }
    ensures leave { IsKeptAtLeave K }
    ensures lend { IsKeptAtLend K }
    ensures close { IsKeptAtClose K }
{}

/// The place that a connection leaves is free.
pub fn left_place_is_free<K>()
    ensures { IsFreeOnceLeft K }
{}

/// How many connections from an address are open goes up by one when one more comes from it, and down by one when one of them
/// leaves. What comes from another address and leaves changes it by nothing.
pub fn connections_are_counted<K>()
    ensures come { IsCountedAtCome K }
    ensures leave { IsCountedAtLeave K }
{}
