//! A host's port mapper is asked at which port a program is, over sockets that never block.
#![tactic(auto)]

mod asking;
mod datagram;

pub use asking::{Asker, PortAsking};
