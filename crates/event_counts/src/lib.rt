//! Counters of what a server did: calls by procedure and by what they got, and all entries of a journal by what happened.
#![tactic(auto)]

mod counts;
mod happenings;
mod outcomes;
mod procedures;

pub use counts::Counts;
pub use happenings::{Happening, StoreReply, event_place};
pub use outcomes::CallOutcome;
pub use procedures::{procedure_place, record_place};
