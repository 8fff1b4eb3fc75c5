//! What a call says of the host that sent it: its name, and the state of its boot.
#![tactic(auto)]

mod nulls;
mod reports;

pub use nulls::null_call;
pub use reports::{CallerReport, report_in};
