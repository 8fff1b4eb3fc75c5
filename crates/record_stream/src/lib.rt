//! A connection that never blocks, over which records go both ways (RFC 5531, section 11).
#![tactic(auto)]

mod progress;
mod record_stream;

pub use progress::{Progress, progress_of};
pub use record_stream::{RecordStream, TIMES};
