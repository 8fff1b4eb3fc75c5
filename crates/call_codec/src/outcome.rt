//! What comes of a call: its procedure's result, or why it has none, as a value that owns its bytes, and the reply that
//! tells it (RFC 5531, section 9).
ghost use Rattle.std.specs.Prelude.{◌≡◌, ◌+◌, ◌≤◌, ◌++◌, ◌↔◌, length, IsOk, OnOk, OnErr};
ghost use Rattle.rpc_msg.specs.declared.reply.ReplyStatus.TheVariants.{AcceptFailure};
ghost use Rattle.call_codec.specs.CallValues.{view_of_refusal};
ghost use Rattle.call_codec.specs.OutcomeValues.{view_of_outcome, view_of_result};
ghost use Rattle.call_codec.specs.Replies.{reply_of_refusal, reply_bytes, success_bytes};

mod kinds;
mod result;

use crate::reading::Refusal;
pub use kinds::is_kept;
pub use result::{CallResult, OwnedShareRes};
use rpc_msg::{AcceptError, Denial, RPC_VERSION, ReplyStatus, reply_success};
use xdr_core::{Frame, FrameFull};

/// What comes of a call.
pub enum Outcome {
    /// Its procedure was done.
    Success(CallResult),
    /// It was not given to its procedure.
    Refuses(Refusal),
    /// It could not be done, for want of memory or of a place.
    SystemErr,
}

// It is written out, so that no crate above proves again how each part of it is dropped.
impl Drop for Outcome {
    fn drop(self) {
        match self {
            Outcome::Success(result) => drop(result),
            Outcome::Refuses(_) | Outcome::SystemErr => {}
        }
    }
}

impl Outcome {
    /// Appends the reply to the call of this xid: its header, and the result behind a SUCCESS. It is written whole or not
    /// at all: `FrameFull` exactly where it doesn't fit, and the frame is unchanged then. It fits behind 40 bytes, so it
    /// does in an empty frame.
    pub fn put_reply(&self, xid: u32, f: &mut Frame) -> Result<(), FrameFull>
        ensures fits { length f.old ≤ 40 → IsOk result }
        ensures room { IsOk result ↔ (length f.old + length (reply_bytes xid (view_of_outcome self.now)) ≤ 4096) }
        ensures ok { OnOk result (f.new ≡ f.old ++ reply_bytes xid (view_of_outcome self.now)) }
        ensures err { OnErr result (f.new ≡ f.old) }
    {
        match self {
            Outcome::Success(result) => put_success(result, xid, f),
            Outcome::Refuses(refusal) => reply_to_refused(xid, *refusal).put(f),
            Outcome::SystemErr => not_done(xid, AcceptError::SystemErr).put(f),
        }
    }
}

fn put_success(done: &CallResult, xid: u32, f: &mut Frame) -> Result<(), FrameFull>
    ensures fits { length f.old ≤ 40 → IsOk result }
    ensures room { IsOk result ↔ (length f.old + length (success_bytes xid (view_of_result done.now)) ≤ 4096) }
    ensures ok { OnOk result (f.new ≡ f.old ++ success_bytes xid (view_of_result done.now)) }
    ensures err { OnErr result (f.new ≡ f.old) }
{
    let start = f.len();
    reply_success(f, xid)?;
    if done.put(f).is_err() {
        f.truncate(start);
        return Err(FrameFull);
    }
    Ok(())
}

fn reply_to_refused(xid: u32, refusal: Refusal) -> ReplyStatus
    ensures { result ≡ reply_of_refusal xid (view_of_refusal refusal) }
{
    match refusal {
        Refusal::RpcMismatch => ReplyStatus::Denied {
            xid,
            denial: Denial::RpcMismatch {
                low: RPC_VERSION,
                high: RPC_VERSION,
            },
        },
        Refusal::BadCredential => ReplyStatus::Denied {
            xid,
            denial: Denial::BadCred,
        },
        Refusal::ProgUnavail => not_done(xid, AcceptError::ProgUnavail),
        Refusal::ProgMismatch { low, high } => ReplyStatus::Mismatch { xid, low, high },
        Refusal::ProcUnavail => not_done(xid, AcceptError::ProcUnavail),
        Refusal::GarbageArgs => not_done(xid, AcceptError::GarbageArgs),
    }
}

fn not_done(xid: u32, error: AcceptError) -> ReplyStatus
    ensures { result ≡ AcceptFailure xid error }
{
    ReplyStatus::AcceptFailure { xid, error }
}
