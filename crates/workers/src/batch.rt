//! Batches of calls: a thread that answers several calls of its connection in a row.
ghost use Rattle.std.specs.Prelude.{◌≡◌};

use crate::patience::try_in_turns;
use reply_outbox::Outbox;
use std::sync::{Mutex, MutexGuard};

/// The most calls that are answered in a row.
const CALLS: u32 = 16;

/// The calls of one read. Where they are several, the thread answers `CALLS` of them in a row under the batch's lock, which keeps others
/// with several calls from the book's lock meanwhile: else each of them would wait for that before each call. A thread that doesn't get
/// the batch's lock in time goes on without it, so that nobody waits long. It stands before the book's lock, and is held over no write
/// to a connection.
#[derive(Drop)]
pub(crate) struct Batch<'a> {
    lock: &'a Mutex<()>,
    is_several: bool,
    guard: Option<MutexGuard<'a, ()>>,
    // How many calls more are answered before the lock is tried again.
    left: u32,
}

impl<'a> Batch<'a> {
    /// Of so many calls, none of which is answered yet. The lock is free.
    pub(crate) fn new(lock: &'a Mutex<()>, count: usize) -> Batch<'a> {
        Batch {
            lock,
            is_several: count > 1,
            guard: None,
            left: 0,
        }
    }

    /// What comes before each call of this connection. Replies that would be written with its own are written, with the lock free.
    /// Of several calls the lock is tried then, and again behind `CALLS` calls, before which it is free.
    pub(crate) fn go_on<O: Outbox>(&mut self, outbox: &mut O, connection: u64)
        ensures { O.handed outbox.new ≡ O.handed outbox.old }
    {
        if outbox.will_write(connection) {
            self.end();
            outbox.flush();
        }
        if self.is_several {
            self.count_call();
        }
    }

    // One call more is answered. The lock is tried before the first, and then before each that is behind `CALLS` others.
    fn count_call(&mut self) {
        if self.left == 0 {
            self.end();
            self.guard = try_in_turns(self.lock);
            self.left = CALLS;
        }
        self.left -= 1;
    }

    // The lock is free.
    fn end(&mut self) {
        self.guard = None;
        self.left = 0;
    }
}
