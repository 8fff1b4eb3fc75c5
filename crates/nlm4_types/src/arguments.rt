ghost use Rattle.std.specs.Prelude.{◌≡◌, ◌==◌};

use crate::lock::{Lock, Netobj};
use crate::offset::WIDE;
use xdr_core::{Cursor, Frame, FrameFull, Wire, XdrError, get_record, put_record};

/// The arguments of LOCK, LOCK_MSG and NM_LOCK (nlm4_lockargs).
#[derive(Clone, Copy)]
pub struct LockArgs<'r, const BYTES: u32> {
    pub cookie: Netobj<'r>,
    /// Whether the caller waits where the lock can't be had at once.
    pub block: bool,
    pub exclusive: bool,
    pub alock: Lock<'r, BYTES>,
    /// Whether the caller held the lock before the server restarted.
    pub reclaim: bool,
    /// The caller's state, as its status monitor counts it.
    pub state: i32,
}

#[tactic(auto, unfolding(crate::specs::Arguments::lockargs))]
impl<'r, const BYTES: u32> Wire<'r> for LockArgs<'r, BYTES> {
    ghost use Rattle.definitions.specs.Nlm as nlm;
    ghost use Rattle.nlm4_types.specs.Arguments.{view_of_lockargs, lockargs};

    ghost Value = { nlm.LockArgs };

    ghost view = { view_of_lockargs };

    ghost codec = { lockargs (BYTES == 8) };

    fn get(c: &mut Cursor<'r>) -> Result<Self, XdrError> {
        get_record!(c, LockArgs, cookie, block, exclusive, alock, reclaim, state)
    }

    fn put(&self, f: &mut Frame) -> Result<(), FrameFull> {
        put_record!(self, f, cookie, block, exclusive, alock, reclaim, state)
    }
}

impl<'r, const BYTES: u32> LockArgs<'r, BYTES> {
    ghost use Rattle.nlm4_types.specs.Arguments.{view_of_lockargs};

    /// The same arguments with offsets of 8 bytes.
    pub(crate) fn widened(self) -> LockArgs<'r, WIDE>
        ensures { view_of_lockargs result ≡ view_of_lockargs self.entry }
    {
        LockArgs {
            cookie: self.cookie,
            block: self.block,
            exclusive: self.exclusive,
            alock: self.alock.with_offsets(),
            reclaim: self.reclaim,
            state: self.state,
        }
    }
}

/// The arguments of CANCEL and CANCEL_MSG (nlm4_cancargs).
#[derive(Clone, Copy)]
pub struct CancelArgs<'r, const BYTES: u32> {
    pub cookie: Netobj<'r>,
    pub block: bool,
    pub exclusive: bool,
    pub alock: Lock<'r, BYTES>,
}

#[tactic(auto, unfolding(crate::specs::Arguments::cancargs))]
impl<'r, const BYTES: u32> Wire<'r> for CancelArgs<'r, BYTES> {
    ghost use Rattle.definitions.specs.Nlm as nlm;
    ghost use Rattle.nlm4_types.specs.Arguments.{view_of_cancargs, cancargs};

    ghost Value = { nlm.CancelArgs };

    ghost view = { view_of_cancargs };

    ghost codec = { cancargs (BYTES == 8) };

    fn get(c: &mut Cursor<'r>) -> Result<Self, XdrError> {
        get_record!(c, CancelArgs, cookie, block, exclusive, alock)
    }

    fn put(&self, f: &mut Frame) -> Result<(), FrameFull> {
        put_record!(self, f, cookie, block, exclusive, alock)
    }
}

impl<'r, const BYTES: u32> CancelArgs<'r, BYTES> {
    ghost use Rattle.nlm4_types.specs.Arguments.{view_of_cancargs};

    /// The same arguments with offsets of 8 bytes.
    pub(crate) fn widened(self) -> CancelArgs<'r, WIDE>
        ensures { view_of_cancargs result ≡ view_of_cancargs self.entry }
    {
        CancelArgs {
            cookie: self.cookie,
            block: self.block,
            exclusive: self.exclusive,
            alock: self.alock.with_offsets(),
        }
    }
}

/// The arguments of TEST, TEST_MSG, GRANTED and GRANTED_MSG (nlm4_testargs).
#[derive(Clone, Copy)]
pub struct TestArgs<'r, const BYTES: u32> {
    pub cookie: Netobj<'r>,
    pub exclusive: bool,
    pub alock: Lock<'r, BYTES>,
}

#[tactic(auto, unfolding(crate::specs::Arguments::testargs))]
impl<'r, const BYTES: u32> Wire<'r> for TestArgs<'r, BYTES> {
    ghost use Rattle.definitions.specs.Nlm as nlm;
    ghost use Rattle.nlm4_types.specs.Arguments.{view_of_testargs, testargs};

    ghost Value = { nlm.TestArgs };

    ghost view = { view_of_testargs };

    ghost codec = { testargs (BYTES == 8) };

    fn get(c: &mut Cursor<'r>) -> Result<Self, XdrError> {
        get_record!(c, TestArgs, cookie, exclusive, alock)
    }

    fn put(&self, f: &mut Frame) -> Result<(), FrameFull> {
        put_record!(self, f, cookie, exclusive, alock)
    }
}

impl<'r, const BYTES: u32> TestArgs<'r, BYTES> {
    ghost use Rattle.nlm4_types.specs.Arguments.{view_of_testargs};

    /// The same arguments with offsets of 8 bytes.
    pub(crate) fn widened(self) -> TestArgs<'r, WIDE>
        ensures { view_of_testargs result ≡ view_of_testargs self.entry }
    {
        TestArgs {
            cookie: self.cookie,
            exclusive: self.exclusive,
            alock: self.alock.with_offsets(),
        }
    }
}

/// The arguments of UNLOCK and UNLOCK_MSG (nlm4_unlockargs).
#[derive(Clone, Copy)]
pub struct UnlockArgs<'r, const BYTES: u32> {
    pub cookie: Netobj<'r>,
    pub alock: Lock<'r, BYTES>,
}

#[tactic(auto, unfolding(crate::specs::Arguments::unlockargs))]
impl<'r, const BYTES: u32> Wire<'r> for UnlockArgs<'r, BYTES> {
    ghost use Rattle.definitions.specs.Nlm as nlm;
    ghost use Rattle.nlm4_types.specs.Arguments.{view_of_unlockargs, unlockargs};

    ghost Value = { nlm.UnlockArgs };

    ghost view = { view_of_unlockargs };

    ghost codec = { unlockargs (BYTES == 8) };

    fn get(c: &mut Cursor<'r>) -> Result<Self, XdrError> {
        get_record!(c, UnlockArgs, cookie, alock)
    }

    fn put(&self, f: &mut Frame) -> Result<(), FrameFull> {
        put_record!(self, f, cookie, alock)
    }
}

impl<'r, const BYTES: u32> UnlockArgs<'r, BYTES> {
    ghost use Rattle.nlm4_types.specs.Arguments.{view_of_unlockargs};

    /// The same arguments with offsets of 8 bytes.
    pub(crate) fn widened(self) -> UnlockArgs<'r, WIDE>
        ensures { view_of_unlockargs result ≡ view_of_unlockargs self.entry }
    {
        UnlockArgs {
            cookie: self.cookie,
            alock: self.alock.with_offsets(),
        }
    }
}
