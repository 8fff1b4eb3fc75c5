//! The thread that makes the server's own calls: it sends what is due, hears the answers, and knows what falls silent and when the
//! grace period is over. No socket of it blocks, so no peer holds it up.
#![tactic(auto)]

mod call_sink;
mod datagrams;
mod due;
mod locals;
mod peer;
mod peer_pool;
mod pending_calls;
mod run;
mod settings;
mod turn;
mod watch;

pub use call_sink::{CallSink, SentCall};
pub use datagrams::Datagrams;
pub use due::{Due, MOST_CALLS, send_due};
pub use locals::Locals;
pub use peers_file::Addresses;
pub use port_registering::Registration;
pub use run::Sender;
pub use settings::CallSettings;
