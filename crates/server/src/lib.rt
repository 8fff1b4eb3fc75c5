//! The server over sockets: what its threads do, the pool that answers jobs, and the sender, over one book.
#![tactic(auto)]

mod boots;
mod context;
mod datagrams;
mod fault;
mod host_addresses;
mod host_gate;
mod incoming;
mod lines;
mod listening;
mod main_loop;
mod notes;
mod open_gate;
mod opening;
mod operators;
mod peer;
mod running;
mod runtime;
mod seats;
mod serving;
mod settings;
mod signals;
mod sockets;
mod traffic;
mod unnamed;
pub mod worker_pool;

pub use book::Rules;
pub use callback_sender::{Addresses, CallSettings, Registration};
pub use fault::{NoListener, ServerFault};
pub use learned_addresses::LearnedAddresses;
pub use open_gate::OpenGate;
pub use runtime::Runtime;
pub use serving::serve;
pub use settings::{Backing, ServerSettings};
