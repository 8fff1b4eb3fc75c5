//! The values of the network lock manager's protocol, versions 1, 3 and 4, and how XDR (RFC 4506) spells them.
#![tactic(auto)]

mod access;
mod arguments;
mod call;
mod lock;
mod messages;
mod notify;
mod offset;
mod results;
mod shares;
mod shown;
mod stat;
mod version;

pub use access::{Access, DenyMode};
pub use arguments::{CancelArgs, LockArgs, TestArgs, UnlockArgs};
pub use call::{NlmCall, is_known, one_call};
pub use lock::{Lock, Name, Netobj};
pub use messages::{GrantedArgs, NlmMessage};
pub use notify::Notify;
pub use offset::{NARROW, WIDE};
pub use results::{Holder, Res, TestRes};
pub use shares::{ShareArgs, ShareRes};
pub use shown::{TOP, shown_holder_is_spelled, shown_len};
pub use stat::Stat;
pub use version::{PROGRAM, Version};
pub use xdr_core::CallError;
