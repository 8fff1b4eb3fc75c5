//! The threads of a server: who starts them, who joins them, and what ends them.
mod accepting;
mod running;
mod service;

pub use running::{Listeners, NoThread, WorkerPool, run};
pub use service::{Accepted, MainLoop, Service, Side};
