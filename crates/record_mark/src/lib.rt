//! Record marking on a stream (RFC 5531, section 11): the records of all bytes received, however
//! they were cut into pieces, and the mark of what is sent.
#![tactic(auto)]

mod assembler;
mod intake;
mod law;
mod progress;
mod record_queue;
mod sent;
mod writing;

pub use crate::assembler::{Assembler, MarkError};
pub use crate::intake::{Ending, Intake};
pub use crate::law::{one_reading, sent_is_one_record};
pub use crate::record_queue::{Received, RecordQueue};
pub use crate::sent::last_mark;
pub use crate::writing::{Spelled, write_record, write_spelled};
use bytes::Bytes;

/// The most bytes that a record may have.
pub const MOST_RECORD_BYTES: usize = 8192;

/// Whole records, the oldest first. Each is shared: a clone of it copies no byte.
pub type Records = Vec<Bytes>;
