//! The values of the status monitor's protocol, version 1 (XNFS), and how XDR (RFC 4506) spells them.
#![tactic(auto)]

mod arguments;
mod call;
mod messages;
mod results;

pub use arguments::{Mon, MonId, MyId, SmName, StatChge, Status};
pub use call::{NsmCall, PROGRAM, VERSION, is_known, one_call};
pub use messages::{NsmMessage, NsmResult};
pub use results::{MonitorRes, SmStat, SmStatRes};
pub use xdr_core::CallError;
