//! The question to the port mapper of one host, at which port a program is: when it is asked, over what, and what its answer is
//! worth. It takes no memory and has no sockets: its caller does what each call tells it to.
#![tactic(auto)]

mod law;
mod lookup;

pub use law::{has_a_deadline, is_asked_once, names_what_was_given};
pub use lookup::{Action, PortLookup, Question, State, Transport};
