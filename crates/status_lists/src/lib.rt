//! What a book shows to operators: copies of its lists and its numbers, made in one critical section and printed outside it.
#![tactic(auto)]

mod board;
mod lists;
mod looks;
mod numbers;
mod rows;

pub use board::{Board, Moment, OpenConnections, SectionTimes, TrafficBytes};
pub use lists::{lists_of, waiters_of};
pub use looks::{Look, look_at};
pub use numbers::numbers_of;
pub use status_pages::Starved;
