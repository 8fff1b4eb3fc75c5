//! What a call of the server says.
ghost use Rattle.std.specs.Prelude.{◌≡◌};
ghost use Rattle.definitions.specs.Outgoing.{ends_when_sent, is_grant, is_granted_msg};
ghost use Rattle.callbacks.specs.Grants.{granted_lock};
ghost use Rattle.callbacks.specs.Meanings.{view_of_message, view_of_found_lock};

use crate::lock::{LocalLock, OwnedLock};
use crate::results::{OwnedRes, OwnedTestRes};
use crate::short::ShortBytes;
use nlm4_types::Version;
use range_table::Mode;

/// Whom to call when a monitored host has restarted (XNFS, my_id).
#[derive(Drop)]
pub struct OwnedMyId {
    pub my_name: ShortBytes,
    pub prog: i32,
    pub vers: i32,
    pub proc: i32,
}

/// A call's procedure, with its version where it has several, and its arguments. GRANTED and GRANTED_MSG carry the call's
/// number as their cookie.
#[derive(Drop)]
pub enum Message {
    /// GRANTED, to a waiter that came by LOCK or NM_LOCK.
    Granted {
        version: Version,
        exclusive: bool,
        lock: OwnedLock,
    },
    /// GRANTED_MSG, to a waiter that came by LOCK_MSG.
    GrantedMsg {
        version: Version,
        exclusive: bool,
        lock: OwnedLock,
    },
    /// The line `granted`, to a local waiter.
    GrantedLine {
        mode: Mode,
        lock: LocalLock,
    },
    /// TEST_RES.
    TestResult {
        version: Version,
        res: OwnedTestRes,
    },
    /// LOCK_RES.
    LockResult {
        version: Version,
        res: OwnedRes,
    },
    /// CANCEL_RES.
    CancelResult {
        version: Version,
        res: OwnedRes,
    },
    /// UNLOCK_RES.
    UnlockResult {
        version: Version,
        res: OwnedRes,
    },
    /// The call of a watcher, at its own program, version and procedure (XNFS, status).
    Status {
        my_id: OwnedMyId,
        mon_name: ShortBytes,
        state: i32,
        private_bytes: [u8; 16],
    },
    /// SM_NOTIFY: the server's own name and its new state.
    Notify {
        name: ShortBytes,
        state: i32,
    },
}

impl Message {
    /// Whether nothing answers it: a local line ends when it is sent.
    pub fn ends_when_sent(&self) -> bool
        ensures { result ≡ ends_when_sent (view_of_message self.now) }
    {
        match self {
            Message::GrantedLine { .. } => true,
            Message::Granted { .. }
            | Message::GrantedMsg { .. }
            | Message::TestResult { .. }
            | Message::LockResult { .. }
            | Message::CancelResult { .. }
            | Message::UnlockResult { .. }
            | Message::Status { .. }
            | Message::Notify { .. } => false,
        }
    }

    /// Whether it is GRANTED_MSG, which GRANTED_RES answers.
    pub fn is_granted_msg(&self) -> bool
        ensures { result ≡ is_granted_msg (view_of_message self.now) }
    {
        match self {
            Message::GrantedMsg { .. } => true,
            Message::Granted { .. }
            | Message::GrantedLine { .. }
            | Message::TestResult { .. }
            | Message::LockResult { .. }
            | Message::CancelResult { .. }
            | Message::UnlockResult { .. }
            | Message::Status { .. }
            | Message::Notify { .. } => false,
        }
    }

    /// Whether it is GRANTED or GRANTED_MSG.
    pub fn is_grant(&self) -> bool
        ensures { result ≡ is_grant (view_of_message self.now) }
    {
        match self {
            Message::Granted { .. } | Message::GrantedMsg { .. } => true,
            Message::GrantedLine { .. }
            | Message::TestResult { .. }
            | Message::LockResult { .. }
            | Message::CancelResult { .. }
            | Message::UnlockResult { .. }
            | Message::Status { .. }
            | Message::Notify { .. } => false,
        }
    }

    /// The lock that it grants: of GRANTED or GRANTED_MSG.
    pub fn granted_lock(&self) -> Option<&OwnedLock>
        ensures { view_of_found_lock result ≡ granted_lock (view_of_message self.now) }
    {
        match self {
            Message::Granted { lock, .. } | Message::GrantedMsg { lock, .. } => Some(lock),
            Message::GrantedLine { .. }
            | Message::TestResult { .. }
            | Message::LockResult { .. }
            | Message::CancelResult { .. }
            | Message::UnlockResult { .. }
            | Message::Status { .. }
            | Message::Notify { .. } => None,
        }
    }
}
