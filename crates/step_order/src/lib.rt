//! Orders of steps that stand apart from the service, over traits that say what they need of it, so that a wrong order is tried by
//! itself (by the must-fail edits): what is done by what the store of hosts answers, and that each change is noted once.
#![tactic(auto)]

mod notes;
mod store;

pub use notes::{Changing, Noting, change_noted};
pub use store::{Pending, StoreAnswer, rule};
