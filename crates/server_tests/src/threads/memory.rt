//! Where replies and the server's own calls are handed to in memory.
ghost use Rattle.std.specs.Prelude.{◌≡◌, []};

use book::{Dest, RecordReply};
use callback_sender::{CallSink, SentCall};
use ghost_list::History;
use reply_outbox::{Outbox, SentReply};
use std::alloc::Global;
use xdr_core::Frame;

/// An outbox that keeps records, as many as it finds memory for, and tells of all that it was handed.
#[derive(Drop)]
pub(crate) struct MemoryOutbox {
    kept: Vec<SentReply>,
    all: History<SentReply>,
}

impl MemoryOutbox {
    pub(crate) fn new(alloc: Global) -> MemoryOutbox
        ensures { result.all.items ≡ [] }
    {
        MemoryOutbox {
            kept: Vec::new(alloc),
            all: History::new(),
        }
    }

    /// The records that it kept, the oldest first.
    pub(crate) fn kept(&self) -> &[SentReply] {
        &self.kept
    }
}

impl Outbox for MemoryOutbox {
    ghost use Rattle.std.specs.Prelude.{[], false};
    ghost use Rattle.reply_outbox.specs.SentReplies.{view_of_sent};

    ghost handed = { λ o. view_of_sent o.all.items };

    ghost effects = { λ _. [] };

    ghost writes_before = { λ _ _. false };

    fn hand(&mut self, connection: u64, reply: &RecordReply) {
        let mut record = Frame::new();
        // An empty frame has room for each reply.
        let _ = reply.put(&mut record);
        let sent = SentReply { connection, record };
        self.all = self.all.and(&sent);
        let _ = self.kept.push(sent);
    }

    fn turn_to(&mut self, _connection: u64) {}

    fn will_write(&self, _connection: u64) -> bool {
        false
    }

    fn done(&mut self, _connection: u64, _is_due: bool) {}

    fn flush(&mut self) {}
}

/// A call sink that keeps calls, as many as it finds memory for, and tells of all that it was handed.
#[derive(Drop)]
pub(crate) struct MemoryCallSink {
    kept: Vec<SentCall>,
    all: History<SentCall>,
}

impl MemoryCallSink {
    pub(crate) fn new(alloc: Global) -> MemoryCallSink
        ensures { result.all.items ≡ [] }
    {
        MemoryCallSink {
            kept: Vec::new(alloc),
            all: History::new(),
        }
    }

    /// The calls that it kept, the oldest first.
    pub(crate) fn kept(&self) -> &[SentCall] {
        &self.kept
    }
}

impl CallSink for MemoryCallSink {
    ghost use Rattle.callback_sender.specs.SentCalls.{view_of_sent};

    ghost handed = { λ c. view_of_sent c.all.items };

    fn hand(&mut self, number: u64, to: Dest, bytes: Frame) {
        let sent = SentCall { number, to, bytes };
        self.all = self.all.and(&sent);
        let _ = self.kept.push(sent);
    }
}
