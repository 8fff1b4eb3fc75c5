//! Owners of locks, and the numbers that they have while they are in use.
#![tactic(auto)]

mod hosts;
mod order;
mod owner;
mod owners;

pub use hosts::{HostOf, OneOwner};
pub use order::{Host, OwnerOrder};
pub use owner::Owner;
pub use owners::{NOBODY, OwnerId, Owners, Starved};
