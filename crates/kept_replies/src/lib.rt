//! The replies of calls that changed something, by who asked and by the whole record, so that a call which comes again
//! gets its reply again and is applied once (RFC 5531, section 4: retransmitted calls).
#![tactic(auto)]

mod key;
mod once;
mod replies;

pub use key::{Key, Peer};
pub use once::{Answering, answer_once};
pub use replies::{Kept, KeptReplies, MOST_KEPT};
