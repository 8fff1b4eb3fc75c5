//! The only fault of a page.
use std::alloc::{AllocError, AllocFailed};
use thiserror::Error;

/// There is no memory for a page.
#[derive(Clone, Copy, Debug, PartialEq, Eq, Error)]
#[error("1 Starved")]
pub struct Starved;

impl From<AllocError> for Starved {
    fn from(_refused: AllocError) -> Starved {
        Starved
    }
}

impl<T: Drop> From<AllocFailed<T>> for Starved {
    fn from(_refused: AllocFailed<T>) -> Starved {
        Starved
    }
}
