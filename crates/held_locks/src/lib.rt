//! The byte-range locks that owners hold. Owners are values here: that a table knows them by number is this crate's own
//! affair, and so is when a number goes out of use.
#![tactic(auto)]

mod asked;
mod counts;
mod host_runs;
mod listing;
mod locks;
mod owners;
mod quotas;

pub use asked::{NewSetting, Request, RunHolder};
pub use host_runs::{HostRuns, RunsOfHosts};
pub use listing::Listing;
pub use locks::Locks;
pub use owners::{Allowance, conflicts, conflicts_with, is_past, is_short, used_of};
