//! What is to be done for a call, and the steps in which it is done: a plan changes nothing; then all memory is got; then
//! the store is asked, at most once; and then the plan is done, without memory.
#![tactic(auto)]

mod answers;
mod plans;
mod readings;
mod steps;
mod told;

pub use answers::{answered, granted_res};
pub use lock_state::World;
pub use owner_ids::Starved;
pub use plans::{Asked, Change, Plan, PlannedAnswer, Range, Response, SharedOutcome, WantedLock};
pub use step_order::StoreAnswer;
pub use steps::{abandon, ask, commit, make_change, reserve, reserve_and_ask, reserve_for_change};
