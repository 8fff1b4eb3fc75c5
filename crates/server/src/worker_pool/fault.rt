//! Why workers can't be had, or don't settle.
ghost use Rattle.std.specs.Prelude.{◌≡◌};

use std::alloc::AllocError;
use thiserror::Error;

/// Why workers can't be had, or don't settle. It is printed by number and name.
#[derive(Clone, Copy, Debug, PartialEq, Eq, Error)]
pub enum PoolFault {
    /// A growth was refused, or as many were cut as there may be.
    #[error("1 Starved")]
    Starved,
    /// Not all came back, or what they did isn't what the journal says.
    #[error("22 AuditMismatch")]
    AuditMismatch,
}

impl From<AllocError> for PoolFault {
    ghost use Rattle.std.specs.Prelude.{◌≡◌};
    ghost use Rattle.server.specs.declared.worker_pool.fault.PoolFault.TheVariants.{Starved};

    ghost from_gives = { λ _ f. f ≡ Starved };

    fn from(_refused: AllocError) -> PoolFault {
        PoolFault::Starved
    }
}
