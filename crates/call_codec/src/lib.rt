//! Calls as bytes and as values: what a record asks, what comes of it and the reply that tells it, and the records of the
//! server's own calls (RFC 5531, section 9).
#![tactic(auto)]

mod outcome;
mod reading;
mod records;

pub use outcome::{CallResult, Outcome, OwnedShareRes, is_kept};
pub use reading::{AnswerReading, Call, Reading, Refusal, one_answer_reading, one_reading};
pub use records::{Dest, HostName, put_record};
