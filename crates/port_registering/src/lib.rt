//! The server's programs are set at the port mapper of its own machine (RFC 1833, section 3), over a connection that never blocks.
#![tactic(auto)]

mod calls;
mod registrar;

pub use calls::Registration;
pub use registrar::{Registrar, TOKEN};
