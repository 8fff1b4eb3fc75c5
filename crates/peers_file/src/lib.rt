//! The file of peers, read again where it changed, and a trait of what knows where hosts are.
#![tactic(auto)]

mod addresses;
mod known;
mod peers_file;
mod seen;

pub use addresses::{Addresses, WatchedPeers};
pub use known::KnownAddresses;
pub use peers_file::PeersFile;
pub use seen::{Seen, seen_at};
