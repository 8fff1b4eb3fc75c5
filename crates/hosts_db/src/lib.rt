//! What is kept over a restart: the own state, a row for each monitored host, and the watches (XNFS, NSM).
#![tactic(auto)]

mod error;
mod host_rows;
mod lasting;
mod memory;
mod prepared;
mod refusals;
mod rows;
mod search;
mod store;
mod writing;

pub use definitions::quotas::FULL_QUOTA;
pub use error::StoreError;
pub use host_rows::HostRows;
pub use lasting::{KeptHosts, Lasting};
pub use memory::MemHosts;
pub use prepared::Prepared;
pub use refusals::Refusals;
pub use rows::{HostRow, MOST_NAME_BYTES, MyIdRef, RowNote, Watch};
pub use search::{MOST_HOSTS, MOST_WATCHES};
pub use store::HostStore;
pub use writing::Writing;
