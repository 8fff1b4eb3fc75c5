//! The messages of ONC RPC version 2 (RFC 5531): the header of a call, the replies that a server
//! gives, the header of a call that the server sends, and the answer to it. No call takes memory.
#![tactic(auto)]

mod answer;
mod auth;
mod call;
mod header;
mod law;
mod reply;

pub use answer::{Answer, AnswerOutcome};
pub use auth::{AuthSys, OpaqueAuth};
pub use call::{CallBody, CallStart, ProcedureCall, put_call};
pub use header::{Header, HeaderError};
pub use law::{one_answer, one_verdict};
pub use reply::{
    AcceptError, Denial, ReplyStatus, reply_accept_error, reply_denied, reply_mismatch,
    reply_success,
};

/// The only version of the protocol (RFC 5531, section 9).
pub const RPC_VERSION: u32 = 2;

/// The message types (RFC 5531, section 9).
pub(crate) const CALL: u32 = 0;

pub(crate) const REPLY: u32 = 1;

/// The reply_stat of a reply that was accepted, and of one that was denied.
pub(crate) const MSG_ACCEPTED: u32 = 0;

pub(crate) const MSG_DENIED: u32 = 1;
