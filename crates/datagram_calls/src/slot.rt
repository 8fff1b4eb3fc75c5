//! Where the reply to one call goes.
ghost use Rattle.std.specs.Prelude.{◌≡◌, []};
ghost use Rattle.book.specs.Given.{view_of_record_reply, record_of};
ghost use Rattle.reply_outbox.specs.SentReplies.{view_of_sent};
ghost use Rattle.datagram_calls.specs.Slots.{newest};

use book::RecordReply;
use ghost_list::History;
use reply_outbox::{Outbox, SentReply};
use std::marker::Model;
use xdr_core::Frame;

// The newest reply.
#[derive(Drop)]
struct Newest {
    reply: Option<Frame>,
    all: History<SentReply>,
    ghost kept: { newest (view_of_sent all.items) ≡ reply },
}

/// Takes replies, and keeps the newest one, without a record mark. Contracts see all that it was handed.
#[derive(Drop)]
pub struct ReplySlot {
    newest: Newest,
}

impl Model for ReplySlot {
    ghost use Rattle.std.specs.Prelude.{List};
    ghost use Rattle.reply_outbox.specs.Posted.{Sent};
    ghost use Rattle.reply_outbox.specs.SentReplies.{view_of_sent};

    ghost Value = { List Sent };

    ghost view = { λ slot. view_of_sent slot.newest.all.items };
}

impl ReplySlot {
    /// It was handed nothing.
    pub fn new() -> ReplySlot
        ensures { result ≡ [] }
    {
        ReplySlot {
            newest: Newest {
                reply: None,
                all: History::new(),
            },
        }
    }

    /// The newest reply that it was handed, if there was one.
    pub fn into_newest(self) -> Option<Frame>
        ensures { result ≡ newest self }
    {
        let ReplySlot { newest } = self;
        let Newest { reply, all: _ } = newest;
        reply
    }
}

// The reply's record. An empty frame has room for each.
fn spelled(reply: &RecordReply) -> Frame
    ensures { result ≡ record_of (view_of_record_reply reply.now) }
{
    let mut record = Frame::new();
    let _ = reply.put(&mut record);
    record
}

#[tactic(auto, using(crate::proofs::Newest::newest_more))]
impl Outbox for ReplySlot {
    ghost use Rattle.std.specs.Prelude.{[], false};

    ghost handed = { λ slot. slot };

    ghost effects = { λ _. [] };

    ghost writes_before = { λ _ _. false };

    fn hand(&mut self, connection: u64, reply: &RecordReply) {
        let sent = SentReply {
            connection,
            record: spelled(reply),
        };
        let all = self.newest.all.and(&sent);
        self.newest = Newest {
            reply: Some(sent.record),
            all,
        };
    }

    fn turn_to(&mut self, _connection: u64) {}

    fn will_write(&self, _connection: u64) -> bool {
        false
    }

    fn done(&mut self, _connection: u64, _is_due: bool) {}

    fn flush(&mut self) {}
}
