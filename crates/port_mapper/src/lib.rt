//! The port mapper's protocol, program 100000 in version 2 (RFC 1833, section 3): the calls that set, unset and ask for a port, and
//! what is read of the replies to them. No call takes memory.
#![tactic(auto)]

mod mapping;
mod port;
mod question;
mod reply;

pub use mapping::{Mapping, TCP, UDP};
pub use port::Port;
pub use question::{CALL_BYTES, Procedure, put_call};
pub use reply::{Response, read_flag, read_port};

/// The port mapper's own port, over TCP and UDP (RFC 1833, section 3.1).
pub const PORT: u16 = 111;
