//! As many waiters, and then calls of the server's own, as there are slots.
use super::records::{
    A, Asking, B, Span, Status, Testing, cancel, done, granted, held_by, lock, lock_res, says,
    system_err, test, unlock,
};
use super::steps::{Response, Slate, Wrong, asks, begins, calls, goes, is_silent};
use daemon_core::Daemon;
use hosts_db::HostStore;
use range_table::RangeTable;

/// As many as waiters and calls of the server's own share.
const SLOTS: u32 = 8_192;

// Whether `b` is answered so where it would wait for this byte, under an xid of its own.
fn b_asks<T: RangeTable, S: HostStore>(
    daemon: &mut Daemon<T, S>,
    slate: &mut Slate,
    byte: u32,
    status: Status,
) -> bool {
    let xid = byte | 0x10000;
    let call = lock(Asking::Block, xid, B, Span::byte(byte));
    asks(daemon, slate, &call, &says(xid, status))
}

// `a` holds all bytes of the file, and `b` waits for as many single ones as there are slots.
fn all_wait<T: RangeTable, S: HostStore>(
    daemon: &mut Daemon<T, S>,
    slate: &mut Slate,
) -> Result<(), Wrong> {
    begins(daemon, slate)?;
    let call = lock(Asking::Lock, 1, A, Span::WHOLE);
    let is_held = asks(daemon, slate, &call, &says(1, Status::Granted));
    goes(is_held, "a holds the file", 0)?;
    for byte in 0..SLOTS {
        goes(
            b_asks(daemon, slate, byte, Status::Blocked),
            "b waits",
            byte,
        )?;
    }
    Ok(())
}

// Nobody more waits, and a message form gets no slot for its result; who waits already has one.
fn no_more_waits<T: RangeTable, S: HostStore>(
    daemon: &mut Daemon<T, S>,
    slate: &mut Slate,
) -> Result<(), Wrong> {
    let past = Span::byte(SLOTS);
    let by_message = lock(Asking::BlockMsg, 2, B, past);
    let again = lock(Asking::Block, 3, B, Span::byte(0));
    let is_right = b_asks(daemon, slate, SLOTS, Status::NoLocks)
        && asks(daemon, slate, &by_message, &system_err(2))
        && asks(daemon, slate, &by_message, &system_err(2))
        && calls(daemon, slate, Response::Nothing)
        && asks(daemon, slate, &again, &says(3, Status::Blocked));
    goes(is_right, "nobody more waits", 0)
}

// Who waits no longer leaves a slot for the result of a message form, which has none to wait in.
fn one_cancels<T: RangeTable, S: HostStore>(
    daemon: &mut Daemon<T, S>,
    slate: &mut Slate,
) -> Result<(), Wrong> {
    let gone = cancel(4, B, Span::byte(100));
    let by_message = lock(Asking::BlockMsg, 5, B, Span::byte(SLOTS));
    let result = lock_res(1, 5, Status::NoLocks);
    let is_right = asks(daemon, slate, &gone, &says(4, Status::Granted))
        && asks(daemon, slate, &by_message, &done(5))
        && calls(daemon, slate, Response::Call(&result))
        && calls(daemon, slate, Response::Nothing)
        && b_asks(daemon, slate, SLOTS, Status::NoLocks);
    goes(is_right, "one cancels", 0)
}

/// No slot is free, for a waiter or for a call, until one who waits goes.
pub(super) fn waiters<T: RangeTable, S: HostStore>(
    daemon: &mut Daemon<T, S>,
    slate: &mut Slate,
) -> Result<(), Wrong> {
    all_wait(daemon, slate)?;
    no_more_waits(daemon, slate)?;
    one_cancels(daemon, slate)
}

// The holder goes, and each waiter is granted: a call takes its slot.
fn all_are_granted<T: RangeTable, S: HostStore>(
    daemon: &mut Daemon<T, S>,
    slate: &mut Slate,
) -> Result<(), Wrong> {
    let gone = unlock(2, A, Span::WHOLE);
    let by_message = test(Testing::TestMsg, 3, A, Span::WHOLE);
    let all = test(Testing::Test, 4, A, Span::WHOLE);
    let of_b = Span {
        first: 0,
        len: SLOTS,
    };
    let is_right = asks(daemon, slate, &gone, &says(2, Status::Granted))
        && asks(daemon, slate, &by_message, &system_err(3))
        && asks(daemon, slate, &all, &held_by(4, B, of_b));
    goes(is_right, "all are granted", 0)
}

fn are_all_called<T: RangeTable, S: HostStore>(
    daemon: &mut Daemon<T, S>,
    slate: &mut Slate,
) -> Result<(), Wrong> {
    for byte in 0..SLOTS {
        let call = granted(byte.wrapping_add(1), B, Span::byte(byte));
        goes(
            calls(daemon, slate, Response::Call(&call)),
            "b is called",
            byte,
        )?;
    }
    goes(calls(daemon, slate, Response::Nothing), "no more calls", 0)
}

fn are_all_silent<T: RangeTable, S: HostStore>(
    daemon: &mut Daemon<T, S>,
    slate: &mut Slate,
) -> Result<(), Wrong> {
    for number in 1..=SLOTS {
        goes(is_silent(daemon, slate, number), "b is silent", number)?;
    }
    Ok(())
}

// As many slots are free as there are: each TEST_MSG takes one for its result.
fn all_are_free<T: RangeTable, S: HostStore>(
    daemon: &mut Daemon<T, S>,
    slate: &mut Slate,
) -> Result<(), Wrong> {
    for xid in 0..SLOTS {
        let by_message = test(Testing::TestMsg, xid, A, Span::WHOLE);
        let is_right = asks(daemon, slate, &by_message, &done(xid));
        goes(is_right, "a slot is free", xid)?;
    }
    let past = test(Testing::TestMsg, SLOTS, A, Span::WHOLE);
    let is_right = asks(daemon, slate, &past, &system_err(SLOTS));
    goes(is_right, "no slot is free", 0)
}

/// Each waiter is granted and told so three times, says nothing, and is called no more: its slot is free again, and the lock his.
pub(super) fn silences<T: RangeTable, S: HostStore>(
    daemon: &mut Daemon<T, S>,
    slate: &mut Slate,
) -> Result<(), Wrong> {
    all_wait(daemon, slate)?;
    all_are_granted(daemon, slate)?;
    for _sending in 0..3 {
        are_all_called(daemon, slate)?;
        are_all_silent(daemon, slate)?;
    }
    goes(
        calls(daemon, slate, Response::Nothing),
        "all are forgotten",
        0,
    )?;
    all_are_free(daemon, slate)
}
