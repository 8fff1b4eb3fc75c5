//! The line protocol by which local programs lock files: what a line asks, what it is answered, and the line that tells a
//! waiter that its lock was granted.
#![tactic(auto)]

mod answer;
mod call;
mod fields;
mod granted;
mod host_name;
mod law;
mod listing;
mod output;
mod quota;
mod text;

pub use answer::LocalAnswer;
pub use byte_io::WriteFault;
pub use call::LocalCall;
pub use fields::BadLine;
pub use granted::put_granted;
pub use host_name::HostName;
pub use law::one_line;
pub use listing::{HostsText, ListedHost, ListedRun, TableText};
pub use quota::Quota;
