//! Calls that come by datagram, one in each, without a record mark: which of them come to the book, and what goes back.
#![tactic(auto)]

mod answering;
mod screening;
mod slot;

pub use answering::answer_datagram;
pub use screening::{Screened, screen};
pub use slot::ReplySlot;
