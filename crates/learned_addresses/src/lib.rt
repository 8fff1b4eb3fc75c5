//! Where hosts are that named themselves in their lock calls: the newest address of each, and whether a store has it.
#![tactic(auto)]

mod learned;

pub use learned::{Heard, Learned, LearnedAddresses, MOST_LEARNED, PAUSE_MILLIS};
