//! What is done with a file, and what is denied.
ghost use Rattle.std.specs.Prelude.{◌≡◌};
ghost use Rattle.definitions.specs.Shares.{meets as is_met};

use std::marker::Model;

/// None, read, write or both (XNFS, fsh4_mode and fsh4_access).
#[derive(Clone, Copy, PartialEq, Eq)]
pub struct AccessBits {
    read: bool,
    write: bool,
}

impl Model for AccessBits {
    ghost use Rattle.definitions.specs.Shares.{Access as FileAccess};

    ghost Value = { FileAccess };

    ghost view = { λ a. record { read = a.read; write = a.write } };

    ghost inverse = { λ a. record { read = a.read; write = a.write } };
}

impl AccessBits {
    pub fn new(read: bool, write: bool) -> AccessBits
        ensures { result ≡ record { read = read; write = write } }
    {
        AccessBits { read, write }
    }

    /// Whether both read, or both write.
    pub fn meets(self, other: AccessBits) -> bool
        ensures { result ≡ is_met self other }
    {
        let both_read = self.read && other.read;
        both_read || self.write && other.write
    }
}
