//! What the server's own calls say: whom each is for, and the version, procedure and arguments that it carries, as
//! values that own their bytes.
#![tactic(auto)]

mod callback;
mod caller;
mod copies;
mod lent;
mod lock;
mod message;
mod results;
mod short;

pub use callback::{Callback, Destination};
pub use caller::Caller;
pub use lock::{LocalLock, OwnedLock};
pub use message::{Message, OwnedMyId};
pub use results::{OwnedHolder, OwnedRes, OwnedTestRes};
pub use short::ShortBytes;

/// How many waiters and calls of the server's own there are at most, together.
pub const MOST_SLOTS: usize = 8_192;
