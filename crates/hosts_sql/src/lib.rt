//! The store of hosts over a database.
#![tactic(auto)]

mod addresses;
mod calls;
mod error;
mod law;
mod loading;
mod making;
mod notes;
mod objects;
mod pending;
mod placing;
mod rowids;
mod statements;
mod store;
mod tables;
mod upgrade;

pub use addresses::HostAddress;
pub use error::AdoptError;
pub use law::numbers_fit;
pub use store::SqlHosts;
