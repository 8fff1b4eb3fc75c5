//! The local programs that wait for a lock.

/// Reaches local programs on their connections.
pub trait Locals {
    /// Writes a line, with its line feed, whole to the connection of this number. Whether it was written: not where the connection
    /// has ended, or takes no bytes.
    fn tell(&self, connection: u64, line: &[u8]) -> bool;
}
