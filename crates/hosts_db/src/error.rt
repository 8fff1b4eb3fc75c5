//! Why a store makes no change.
ghost use Rattle.std.specs.Prelude.{◌≡◌};

use std::alloc::AllocError;
use thiserror::Error;

/// Why a store's call made no change.
#[derive(Clone, Copy, Debug, PartialEq, Eq, Error)]
pub enum StoreError {
    /// A growth of the store's own was refused, before anything was done.
    #[error("1 Starved")]
    Starved,
    /// The database refused, or there would be more rows or watches than a store may have.
    #[error("19 StoreRefused")]
    StoreRefused,
}

impl From<AllocError> for StoreError {
    ghost use Rattle.std.specs.Prelude.{◌≡◌};
    ghost use Rattle.hosts_db.specs.declared.error.StoreError.TheVariants.{Starved};

    ghost from_gives = { λ _ e. e ≡ Starved };

    fn from(_refused: AllocError) -> StoreError {
        StoreError::Starved
    }
}
