//! The replies of a server (RFC 5531, section 9). Each is written whole or not at all: `FrameFull`
//! exactly where it doesn't fit, and the frame is unchanged then. The verifier is AUTH_NONE.

ghost use Rattle.std.specs.Prelude.{◌≡◌, [], ◌+◌, ◌≤◌, ◌++◌, ◌↔◌, length, IsOk, OnOk, OnErr};
ghost use Rattle.rpc_msg.specs.declared.reply.ReplyStatus.TheVariants.{Success, AcceptFailure, Mismatch, Denied};
ghost use Rattle.rpc_msg.specs.Reply.{written_reply, size_of_reply};

use crate::auth::OpaqueAuth;
use crate::{MSG_ACCEPTED, MSG_DENIED, REPLY};
use xdr_core::{Frame, FrameFull, Wire};

/// Why an accepted call is not done, where nothing more is said.
#[derive(Clone, Copy, PartialEq, Eq)]
pub enum AcceptError {
    /// The program is not served here.
    ProgUnavail,
    /// The program has no such procedure.
    ProcUnavail,
    /// The arguments are not spelled by the procedure's grammar.
    GarbageArgs,
    /// The server could not do it, for want of memory or of a place.
    SystemErr,
}

/// Why a call is denied.
#[derive(Clone, Copy)]
pub enum Denial {
    /// The RPC version is none from `low` to `high`.
    RpcMismatch { low: u32, high: u32 },
    /// The credential is no good: AUTH_ERROR with AUTH_BADCRED.
    BadCred,
}

/// What a server says to the call of an xid, but for the result that follows a `Success`.
#[derive(Clone, Copy)]
pub enum ReplyStatus {
    Success { xid: u32 },
    AcceptFailure { xid: u32, error: AcceptError },
    /// PROG_MISMATCH: the program is served in versions from `low` to `high`.
    Mismatch { xid: u32, low: u32, high: u32 },
    Denied { xid: u32, denial: Denial },
}

impl ReplyStatus {
    /// Writes it, by the function for its kind.
    #[tactic(auto, using(crate::proofs::Fits::reply_bound))]
    pub fn put(&self, f: &mut Frame) -> Result<(), FrameFull>
        ensures room { IsOk result ↔ (length f.old + length (written_reply self.now) ≤ 4096) }
        ensures size { length (written_reply self.now) ≤ 32 }
        ensures ok { OnOk result (f.new ≡ f.old ++ written_reply self.now) }
        ensures err { OnErr result (f.new ≡ f.old) }
    {
        match *self {
            ReplyStatus::Success { xid } => reply_success(f, xid),
            ReplyStatus::AcceptFailure { xid, error } => reply_accept_error(f, xid, error),
            ReplyStatus::Mismatch { xid, low, high } => reply_mismatch(f, xid, low, high),
            ReplyStatus::Denied { xid, denial } => reply_denied(f, xid, denial),
        }
    }
}

/// The first words of a reply, up to its reply_stat.
type ReplyStart = (u32, (u32, u32));

fn accepted(xid: u32, stat: u32) -> (ReplyStart, (OpaqueAuth<'static>, u32))
    ensures start { result.0 ≡ (xid, (1, 0)) }
    ensures flavor { result.1.0.flavor ≡ 0 }
    ensures body { result.1.0.body.bytes.now ≡ [] }
    ensures stat { result.1.1 ≡ stat }
{
    ((xid, (REPLY, MSG_ACCEPTED)), (OpaqueAuth::none(), stat))
}

/// A SUCCESS; the result is to follow.
#[tactic(auto, unfolding(crate::specs::Reply::accepted_reply, crate::specs::Reply::reply_start))]
pub fn reply_success(f: &mut Frame, xid: u32) -> Result<(), FrameFull>
    ensures room { IsOk result ↔ (length f.old + length (written_reply (Success xid)) ≤ 4096) }
    ensures size { length (written_reply (Success xid)) ≡ size_of_reply (Success xid) }
    ensures ok { OnOk result (f.new ≡ f.old ++ written_reply (Success xid)) }
    ensures err { OnErr result (f.new ≡ f.old) }
{
    accepted(xid, 0).put(f)
}

/// A refusal of an accepted call.
#[tactic(auto, unfolding(crate::specs::Reply::accepted_reply, crate::specs::Reply::reply_start))]
pub fn reply_accept_error(f: &mut Frame, xid: u32, error: AcceptError) -> Result<(), FrameFull>
    ensures room { IsOk result ↔ (length f.old + length (written_reply (AcceptFailure xid error)) ≤ 4096) }
    ensures size { length (written_reply (AcceptFailure xid error)) ≡ size_of_reply (AcceptFailure xid error) }
    ensures ok { OnOk result (f.new ≡ f.old ++ written_reply (AcceptFailure xid error)) }
    ensures err { OnErr result (f.new ≡ f.old) }
{
    let stat = match error {
        AcceptError::ProgUnavail => 1,
        AcceptError::ProcUnavail => 3,
        AcceptError::GarbageArgs => 4,
        AcceptError::SystemErr => 5,
    };
    accepted(xid, stat).put(f)
}

/// PROG_MISMATCH: the program is served in versions from `low` to `high`.
#[tactic(auto, unfolding(crate::specs::Reply::accepted_reply, crate::specs::Reply::reply_start))]
pub fn reply_mismatch(f: &mut Frame, xid: u32, low: u32, high: u32) -> Result<(), FrameFull>
    ensures room { IsOk result ↔ (length f.old + length (written_reply (Mismatch xid low high)) ≤ 4096) }
    ensures size { length (written_reply (Mismatch xid low high)) ≡ size_of_reply (Mismatch xid low high) }
    ensures ok { OnOk result (f.new ≡ f.old ++ written_reply (Mismatch xid low high)) }
    ensures err { OnErr result (f.new ≡ f.old) }
{
    (accepted(xid, 2), (low, high)).put(f)
}

/// A reply to a call that is denied.
#[tactic(auto, unfolding(crate::specs::Reply::accepted_reply, crate::specs::Reply::reply_start))]
pub fn reply_denied(f: &mut Frame, xid: u32, denial: Denial) -> Result<(), FrameFull>
    ensures room { IsOk result ↔ (length f.old + length (written_reply (Denied xid denial)) ≤ 4096) }
    ensures size { length (written_reply (Denied xid denial)) ≡ size_of_reply (Denied xid denial) }
    ensures ok { OnOk result (f.new ≡ f.old ++ written_reply (Denied xid denial)) }
    ensures err { OnErr result (f.new ≡ f.old) }
{
    let start = (xid, (REPLY, MSG_DENIED));
    match denial {
        Denial::RpcMismatch { low, high } => (start, (0u32, (low, high))).put(f),
        Denial::BadCred => (start, (1u32, 1u32)).put(f),
    }
}
