//! Each entry of a journal is counted once by what happened, and a call once more by its procedure and what it got.
#![tactic(auto)]

mod counting;
mod outcomes;

pub use counting::{count_call, count_event, count_sent, counts_of_restart, happening_of};
pub use event_counts::{Counts, Happening};
