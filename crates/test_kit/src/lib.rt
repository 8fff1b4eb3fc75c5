//! What scripts of tests are made of: bytes as text, messages by name, calls of a store as lines of text and what it shows then, a
//! store that is lent, and a reader and a writer in memory. It knows nothing of a daemon.
#![tactic(auto)]

mod calls;
mod lent;
mod messages;
mod showing;
mod sink;
mod source;
mod words;

pub use calls::{answers, call, run};
pub use lent::Lent;
pub use messages::{put_message, put_terms};
pub use showing::{are_same, does_show, model, shown, shown_after};
pub use sink::Sink;
pub use source::{AT_ONCE, Pace, Source};
pub use words::{Terms, put_plain, put_words, read_number};
