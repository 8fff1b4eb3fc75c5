//! All locks and all hosts as text: a line each, in the words of the protocol of local programs.
#![tactic(auto)]

mod block;
mod lines;
mod print;

pub use byte_io::WriteFault;
pub use print::{print_end, print_hosts, print_table};
