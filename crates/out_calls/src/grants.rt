//! Which lock a grant tells of.
ghost use Rattle.std.specs.Prelude.{◌≡◌};
ghost use Rattle.definitions.specs.LockRules.{tells_of as tells_said};
ghost use Rattle.definitions.specs.Ranges.{mode_of, request_of};
ghost use Rattle.definitions.specs.Waits.{modes_are_same, same_request};
ghost use Rattle.callbacks.specs.Meanings.{view_of_message, view_of_told_lock};
ghost use Rattle.held_locks.specs.Asked.{view_of_request};
ghost use Rattle.range_table.specs.Modes.{view_of_mode};

use callbacks::{Message, OwnedLock};
use held_locks::Request;
use range_table::Mode;

// Whether it is GRANTED or GRANTED_MSG of this lock: of the same owner, file, range and mode.
pub(crate) fn tells_of(message: &Message, wanted: &Request<'_>) -> bool
    ensures { result ≡ tells_said (view_of_request wanted.now) (view_of_message message.now) }
{
    match message {
        Message::Granted {
            exclusive,
            lock,
            ..
        }
        | Message::GrantedMsg {
            exclusive,
            lock,
            ..
        } => is_same(*exclusive, lock, wanted),
        Message::GrantedLine { .. }
        | Message::TestResult { .. }
        | Message::LockResult { .. }
        | Message::CancelResult { .. }
        | Message::UnlockResult { .. }
        | Message::Status { .. }
        | Message::Notify { .. } => false,
    }
}

fn is_same(exclusive: bool, lock: &OwnedLock, wanted: &Request<'_>) -> bool
    ensures { result ≡ same_request (request_of exclusive (view_of_told_lock lock.now)) (view_of_request wanted.now) }
{
    let range = lock.range();
    lock.fh.as_slice() == wanted.file.as_bytes()
        && lock.caller.owner() == wanted.owner
        && range.first == wanted.range.first
        && range.last == wanted.range.last
        && is_mode(exclusive, wanted.mode)
}

fn is_mode(exclusive: bool, mode: Mode) -> bool
    ensures { result ≡ modes_are_same (mode_of exclusive) (view_of_mode mode) }
{
    match mode {
        Mode::Shared => !exclusive,
        Mode::Exclusive => exclusive,
    }
}
