//! Owned bytes of the protocols.
ghost use Rattle.std.specs.Prelude.{◌≡◌, ◌≤◌, length, IfOk};

use std::alloc::{AllocError, Global};
use std::marker::Model;

/// At most 1,024 bytes: a name, a handle of an owner or a file, or a cookie (RFC 1813, appendix II; XNFS).
/// Contracts see the bytes.
#[derive(Drop)]
pub struct ShortBytes {
    bytes: Vec<u8>,
}

impl Model for ShortBytes {
    ghost use Rattle.std.specs.Prelude.{List, ℕ, ◌≤◌, length};

    ghost Value = { List ℕ };

    ghost view = { λ s. s.bytes.items };

    ghost invariant = { λ s. length s.bytes.items ≤ 1024 };
}

impl ShortBytes {
    /// A copy of the bytes.
    pub fn copy_of(alloc: Global, bytes: &[u8]) -> Result<ShortBytes, AllocError>
        requires { length bytes.now ≤ 1024 }
        ensures { IfOk result (λ copy. copy ≡ bytes.now) }
    {
        Ok(ShortBytes {
            bytes: Vec::from_slice(alloc, bytes)?,
        })
    }

    pub fn as_slice(&self) -> &[u8]
        ensures bytes { result.now ≡ self.now }
        ensures most { length result.now ≤ 1024 }
    {
        self.bytes.as_slice()
    }
}
