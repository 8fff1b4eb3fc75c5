//! Connections of a server over TCP, and the threads that serve them: a listener takes connections in, a connection table finds each by its
//! number, and each is written whole pieces at a time, by whoever has something for it.
#![tactic(auto)]

mod connection;
mod connection_table;
mod law;
mod listener;
mod patient;
mod peer_address;
mod threads;
mod writer;

pub use connection::{Connection, Lost};
pub use connection_table::ConnectionTable;
pub use law::{connections_are_counted, left_place_is_free, place_is_kept};
pub use listener::{Listener, ShutdownHandle};
pub use patient::Patience;
pub use peer_address::PeerAddress;
pub use threads::{Accepted, Listeners, MainLoop, NoThread, Service, Side, WorkerPool, run};
pub use writer::Writer;

/// The most bytes that are joined before they are written.
const JOINED: usize = 16_384;
