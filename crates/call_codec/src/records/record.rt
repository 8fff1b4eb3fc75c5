//! The record of a call.
ghost use Rattle.std.specs.Prelude.{◌≡◌, ◌+◌, ◌≤◌, ◌++◌, ◌↔◌, length, IsOk, OnOk, OnErr};
ghost use Rattle.callbacks.specs.Meanings.{view_of_told_lock, view_of_message};
ghost use Rattle.nlm4_types.specs.Lock.{view_of_lock};
ghost use Rattle.nlm4_types.specs.Messages.{message_bytes, procedure_of};
ghost use Rattle.nlm4_types.specs.Version.{view_of_version};
ghost use Rattle.call_codec.specs.Records.{call_record, lock_manager, record_to};

use crate::records::callee::{Arguments, Callee};
use callbacks::{Message, OwnedLock};
use local_ops::put_granted;
use nlm4_types::{GrantedArgs, NlmMessage, Version};
use nsm_types::{NsmMessage, StatChge, Status};
use xdr_core::{Fixed, Frame, FrameFull};

/// Appends the record of the call of this number, the same at each sending. It is written whole or not at all: `FrameFull`
/// exactly where it doesn't fit, and the frame is unchanged then. It fits behind 24 bytes, so it does in an empty frame.
pub fn put_record(number: u64, message: &Message, f: &mut Frame) -> Result<(), FrameFull>
    ensures fits { length f.old ≤ 24 → IsOk result }
    ensures room { IsOk result ↔ (length f.old + length (call_record number (view_of_message message.now)) ≤ 4096) }
    ensures ok { OnOk result (f.new ≡ f.old ++ call_record number (view_of_message message.now)) }
    ensures err { OnErr result (f.new ≡ f.old) }
{
    match message {
        Message::Granted {
            version,
            exclusive,
            lock,
        } => {
            let grant = grant_of(number, *exclusive, lock);
            put_nlm(number, *version, NlmMessage::Granted(grant), f)
        }
        Message::GrantedMsg {
            version,
            exclusive,
            lock,
        } => {
            let grant = grant_of(number, *exclusive, lock);
            put_nlm(number, *version, NlmMessage::GrantedMsg(grant), f)
        }
        Message::GrantedLine { mode, lock } => put_granted(*mode, lock, f),
        Message::TestResult { version, res } => {
            put_nlm(number, *version, NlmMessage::TestRes(res.lent()), f)
        }
        Message::LockResult { version, res } => {
            put_nlm(number, *version, NlmMessage::LockRes(res.lent()), f)
        }
        Message::CancelResult { version, res } => {
            put_nlm(number, *version, NlmMessage::CancelRes(res.lent()), f)
        }
        Message::UnlockResult { version, res } => {
            put_nlm(number, *version, NlmMessage::UnlockRes(res.lent()), f)
        }
        Message::Status {
            my_id,
            mon_name,
            state,
            private_bytes,
        } => {
            let told = Status {
                mon_name: mon_name.lent(),
                state: *state,
                private_bytes: fixed(private_bytes),
            };
            let arguments = Arguments::Nsm(NsmMessage::Status(told));
            arguments.put_to(number, Callee::watcher(my_id), f)
        }
        Message::Notify { name, state } => {
            let notice = StatChge {
                mon_name: name.lent(),
                state: *state,
            };
            let arguments = Arguments::Nsm(NsmMessage::Notify(notice));
            arguments.put_to(number, Callee::status_monitor(), f)
        }
    }
}

fn grant_of(number: u64, exclusive: bool, lock: &OwnedLock) -> GrantedArgs<'_>
    ensures number { result.number ≡ number }
    ensures exclusive { result.exclusive ≡ exclusive }
    ensures lock { view_of_lock result.alock ≡ view_of_told_lock lock.now }
{
    GrantedArgs {
        number,
        exclusive,
        alock: lock.lent(),
    }
}

fn fixed(bytes: &[u8; 16]) -> Fixed<'_, 16>
    ensures { result.bytes.now ≡ bytes.now }
{
    Fixed { bytes }
}

fn put_nlm(
    number: u64,
    version: Version,
    message: NlmMessage<'_>,
    f: &mut Frame,
) -> Result<(), FrameFull>
    ensures fits { length f.old ≤ 24 → IsOk result }
    ensures room { IsOk result ↔ (length f.old + length (record_to number (lock_manager (view_of_version version) (procedure_of message.entry)) (message_bytes (view_of_version version) message.entry)) ≤ 4096) }
    ensures ok { OnOk result (f.new ≡ f.old ++ record_to number (lock_manager (view_of_version version) (procedure_of message.entry)) (message_bytes (view_of_version version) message.entry)) }
    ensures err { OnErr result (f.new ≡ f.old) }
{
    let callee = Callee::lock_manager(version, message.procedure());
    Arguments::Nlm(version, message).put_to(number, callee, f)
}
