//! What the program serves: a stream or sockets, with its hosts in memory or in a database, and how that ends.
#![tactic(auto)]

mod ends;
mod notes;
mod sockets;
mod stores;
mod streams;
mod work;

pub use ends::end;
pub use notes::StartFailure;
pub use streams::Console;
pub use work::serve_asked;
