//! Workers over one book: jobs go through the channel from those who read records to those who answer them, each job is answered
//! in one hold of the book's lock, and what was done is kept for an audit, where that is asked for.
#![tactic(auto)]

mod archive;
mod batch;
mod beginning;
mod call_handler;
mod entering;
mod ghost_trace;
mod law;
mod patience;
mod reading;
mod shared;
mod worker;

pub use beginning::NotBegun;
pub use ghost_trace::GhostTrace;
pub use law::{
    hold_is_step, holds_are_sound, holds_give_kept_replies, holds_grant_reclaims_only,
    holds_tell_of_no_grant,
};
pub use reading::{MOST_READ_BYTES, Origin, Source};
pub use record_mark::Ending;
pub use shared::{Ends, Entered, Next, Shared};
pub use worker::{Leaves, Worker};
