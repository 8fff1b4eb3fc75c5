//! Bytes in and out: they are cut at a byte, a stream is read piece by piece, and bytes are written whole.
#![tactic(auto)]

mod parts;
mod pieces;
mod written;

pub use parts::split_once;
pub use pieces::{FailedRead, MOST_READS, make_place, read_piece};
pub use written::{WriteFault, write_whole};
