//! Who waits for a lock, and how many places waiters and the server's own calls take together (XNFS, NLM_LOCK with
//! `block`; POSIX fcntl, F_SETLKW and EDEADLK).
#![tactic(auto)]

mod by_file;
mod by_owner;
mod cycles;
mod grants;
mod hulls;
pub mod laws;
mod quotas;
mod settling;
mod slots;
mod touched;
mod waiter;

pub use callbacks::MOST_SLOTS;
pub use owner_ids::Starved;
pub use quotas::{Limit, Quotas, limit_of};
pub use settling::{Grantor, settle};
pub use slots::{NoSlots, NotWaiting, Slots};
pub use touched::Touched;
pub use waiter::Waiter;
