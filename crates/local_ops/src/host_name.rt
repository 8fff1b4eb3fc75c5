//! The name of a host, where no memory is taken.
ghost use Rattle.std.specs.Prelude.{◌≡◌, ◌≤◌, length};

use arrayvec::ArrayVec;
use std::marker::Model;

/// The name of a host, at most `MOST` bytes, which lie in the value itself. A contract sees them.
#[derive(Drop)]
pub struct HostName<const MOST: usize> {
    bytes: ArrayVec<u8, MOST>,
}

impl<const MOST: usize> Model for HostName<MOST> {
    ghost use Rattle.std.specs.Prelude.{ℕ, List, length, ◌≤◌};

    ghost Value = { List ℕ };

    ghost view = { λ n. n.bytes.items };

    ghost invariant = { λ n. length n.bytes.items ≤ MOST };
}

impl<const MOST: usize> HostName<MOST> {
    pub fn new(name: &[u8]) -> HostName<MOST>
        requires { length name.now ≤ MOST }
        ensures { result ≡ name.now }
    {
        let mut bytes = ArrayVec::new();
        let _ = bytes.try_extend_from_slice(name);
        HostName { bytes }
    }

    pub fn as_slice(&self) -> &[u8]
        ensures { result.now ≡ self.now }
    {
        self.bytes.as_slice()
    }
}
