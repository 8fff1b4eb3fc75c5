//! How what the lock keeps begins.
ghost use Rattle.workers.specs.Holds.{IsWhy};

use book::{Completion, StepResult, StoreAnswer};
use thiserror::Error;

/// The server has not begun anew.
#[derive(Clone, Copy, Debug, PartialEq, Eq, Error)]
pub enum NotBegun {
    /// There was no memory for it.
    #[error("1 Starved")]
    Starved,
    /// The store refused the new own state.
    #[error("19 StoreRefused")]
    StoreRefused,
}

// Why a restart that came to this was not made, if it was not.
pub(crate) fn why_not(step_result: &StepResult) -> Option<NotBegun>
    ensures { IsWhy result step_result.now }
{
    match step_result.status.completion {
        Completion::Starved => Some(NotBegun::Starved),
        Completion::Applied => match step_result.status.store {
            StoreAnswer::Yes => None,
            StoreAnswer::NotAsked | StoreAnswer::Refused => Some(NotBegun::StoreRefused),
        },
    }
}
