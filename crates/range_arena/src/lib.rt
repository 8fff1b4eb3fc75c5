//! The table of byte-range locks that is fast however many runs a file has: a sorted list of runs with an index over it.
#![tactic(auto)]

mod arena;
mod indexed;
mod parts;
mod quick;
mod reach;
mod stretch;
mod stretches;

pub use arena::ArenaTable;
