//! What the lock rules are asked.
ghost use Rattle.std.specs.Prelude.{◌≡◌, ◌≤◌, length, false};
ghost use Rattle.definitions.specs.Ranges.{is_stale, is_too_far};

use call_plans::WantedLock;
use callbacks::LocalLock;
use nlm4_types::{Lock, Version, WIDE};
use range_table::Mode;

/// Whom a lock makes a host to be told of a restart: its name, and its state as the call gave it.
#[derive(Clone, Copy)]
pub(crate) struct NewHost<'r> {
    pub name: &'r [u8],
    pub state: i32,
    pub ghost fits: { length name.now ≤ 1024 },
}

/// How whoever waits is told of the grant.
#[derive(Clone, Copy)]
pub(crate) enum Grant<'r> {
    /// By GRANTED, or by GRANTED_MSG, to the host of the call.
    Call(GrantCall<'r>),
    /// By a line to the local connection of this number.
    Line {
        connection: u64,
        mode: Mode,
        lock: &'r LocalLock,
    },
}

/// A grant by a call, whose lock has a file and ends in it.
#[derive(Clone, Copy)]
pub(crate) struct GrantCall<'r> {
    pub by_message: bool,
    pub version: Version,
    pub exclusive: bool,
    pub lock: Lock<'r, WIDE>,
    pub ghost handle: { is_stale lock.fh.bytes.now ≡ false },
    pub ghost inside: { is_too_far lock.l_offset lock.l_len ≡ false },
}

/// A lock that is asked for.
#[derive(Drop)]
pub(crate) struct LockAsk<'r> {
    pub wanted: WantedLock,
    pub block: bool,
    pub reclaim: bool,
    /// Of a host that is to be told of a restart.
    pub row: Option<NewHost<'r>>,
    pub grant: Grant<'r>,
    /// How many places the telling of the answer takes.
    pub reserved: usize,
}
