//! The file of peers: which host answers at which address.
#![tactic(auto)]

mod fault;
mod lines;
mod peers;

pub use fault::PeersFault;
pub use peers::Peers;
