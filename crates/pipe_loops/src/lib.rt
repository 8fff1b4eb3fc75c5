//! The loops of the program `lockd` over a reader and a writer.
#![tactic(auto)]

mod fault;
mod law;
mod output;
mod pipe;
mod server;
mod table;

pub use fault::StreamFault;
pub use law::reads_are_bounded;
pub use pipe::pipe_loop;
pub use server::Server;
pub use table::table_loop;
