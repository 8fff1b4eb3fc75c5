//! The records of the calls that the server makes: what each sending writes, from the call's number and what it says.

mod callee;
mod dest;
mod record;

pub use dest::Dest;
pub use local_ops::HostName;
pub use record::put_record;
