//! The state that calls act on, and the small changes that they are made of, over any table of ranges and any store of
//! hosts.
#![tactic(auto)]

mod answers;
mod changes;
mod closing;
mod hosts;
mod quotas;
mod readings;
mod restart;
mod sends;
mod settle;
mod unsettled;
mod waits;
mod world;

pub use answers::AnswerKey;
pub use blocked_list::NotWaiting;
pub use out_calls::OutCalls;
pub use owner_ids::Starved;
pub use world::World;
