//! Why a file of peers isn't read.

use std::alloc::AllocError;
use thiserror::Error;

/// Why a file of peers isn't read. It is printed by number and name.
#[derive(Clone, Copy, Debug, PartialEq, Eq, Error)]
pub enum PeersFault {
    /// A growth was refused.
    #[error("1 Starved")]
    Starved,
    /// The line of this number, of which the first is 1, is the first that is none of the file's grammar, or names a host
    /// that a line before it names, or comes behind 4,096 others.
    #[error("20 BadLine")]
    BadLine(u32),
}

impl From<AllocError> for PeersFault {
    ghost use Rattle.std.specs.Prelude.{◌≡◌};
    ghost use Rattle.peers.specs.declared.fault.PeersFault.TheVariants.{Starved};

    ghost from_gives = { λ _ f. f ≡ Starved };

    fn from(_refused: AllocError) -> PeersFault {
        PeersFault::Starved
    }
}
