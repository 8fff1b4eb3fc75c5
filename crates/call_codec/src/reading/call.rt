//! Calls, and why one is not given to its procedure.
use nlm4_types::{NlmCall, Version};
use nsm_types::NsmCall;

/// A call of a program that is served. It borrows from its record.
#[derive(Clone, Copy)]
pub enum Call<'r> {
    Nlm(Version, NlmCall<'r>),
    Nsm(NsmCall<'r>),
}

/// Why a call is not given to its procedure (RFC 5531, section 9). The first that fits, in this order.
#[derive(Clone, Copy, PartialEq, Eq)]
pub enum Refusal {
    /// Its RPC version is not 2.
    RpcMismatch,
    /// Its credential is neither AUTH_NONE nor a whole AUTH_SYS.
    BadCredential,
    /// Its program is none of those that are served.
    ProgUnavail,
    /// Its program's version is not served; these are the lowest and the highest that are.
    ProgMismatch { low: u32, high: u32 },
    /// Its program has no such procedure.
    ProcUnavail,
    /// No front of its arguments is spelled as the procedure's.
    GarbageArgs,
}
