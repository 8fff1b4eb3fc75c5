//! The calls that the server makes of its clients: when each is due, how often it was sent, and what answers it (XNFS,
//! NLM_GRANTED, NLM_GRANTED_MSG and the results of message forms; SM_NOTIFY).
#![tactic(auto)]

mod call;
mod calls;
mod grants;

pub use call::{MOST_SENDINGS, OutCall};
pub use calls::OutCalls;
pub use owner_ids::Starved;
