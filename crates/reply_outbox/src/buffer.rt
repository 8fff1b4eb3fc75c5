//! Replies on their way to their connections.
ghost use Rattle.std.specs.Prelude.{◌≡◌, List, ℕ, false, [], ◌∷◌, ◌++◌, IfOk};
ghost use Rattle.std.proofs.Props.{props};
ghost use Rattle.record_mark.specs.Sent.{marked_record};
ghost use Rattle.reply_outbox.specs.Effects.{InOrder, bytes_to, is_lost, marked_for, writes};
ghost use Rattle.reply_outbox.specs.Posted.{Sent};
ghost use Rattle.reply_outbox.specs.Writes.{is_full, is_written_before};
ghost use Rattle.reply_outbox.specs.SentReplies.{view_of_sent};

use crate::sockets::ReplySockets;
use crate::{Outbox, SentReply};
use book::RecordReply;
use ghost_list::History;
use record_mark::last_mark;
use std::alloc::{AllocError, Global};
use xdr_core::Frame;

/// The most bytes that are joined before they are written.
const JOINED: usize = 16_384;

/// The bytes of the largest frame and its mark.
const LARGEST: usize = 4_100;

/// Joins the replies of one connection, and writes them together. Contracts see the replies that it was handed, and what was
/// done to connections: each connection took its replies in order, behind their marks (RFC 5531, section 11), but for those that
/// are joined, or it is lost and took a prefix of them.
#[derive(Drop)]
pub struct ReplyBuffer<S: ReplySockets> {
    sockets: S,
    // The connection that what is joined is for.
    to: u64,
    joined: Vec<u8>,
    // So many more of its jobs are done.
    jobs: u64,
    // The place of each reply's record in turn.
    sent: SentReply,
    all: History<SentReply>,
    ghost in_order: { InOrder (view_of_sent all.items) (S.effects sockets) to joined.items } by { Prim.hlevel props },
}

impl<S: ReplySockets> ReplyBuffer<S> {
    /// With nothing joined, over connections to which nothing was done.
    pub fn new(alloc: Global, sockets: S) -> ReplyBuffer<S>
        requires { S.effects sockets ≡ [] }
        ensures handed { view_of_sent result.all.items ≡ [] }
    {
        ReplyBuffer {
            sockets,
            to: 0,
            joined: Vec::new(alloc),
            jobs: 0,
            sent: SentReply {
                connection: 0,
                record: Frame::new(),
            },
            all: History::new(),
        }
    }
}

// Writes what is joined for this connection, if there is something, and tells that so many more of its jobs are done.
fn write_joined<S: ReplySockets>(sockets: &mut S, to: u64, joined: &mut Vec<u8>, jobs: u64)
    ensures empty { joined.new.items ≡ [] }
    ensures quiet { joined.old.items ≡ [] → S.effects sockets.new ≡ S.effects sockets.old }
    ensures in_order { (handed : List Sent) → InOrder handed (S.effects sockets.old) to joined.old.items → InOrder handed (S.effects sockets.new) to [] }
{
    if !joined.is_empty() {
        sockets.write(to, joined.as_slice(), jobs);
        joined.clear();
    } else if jobs > 0 {
        sockets.are_done(to, jobs);
    }
}

// The message goes behind its mark and all that is joined.
fn append(joined: &mut Vec<u8>, message: &Frame) -> Result<(), AllocError>
    ensures ok { IfOk result (λ _. joined.new.items ≡ joined.old.items ++ marked_record message.now) }
{
    joined.extend_from_slice(&last_mark(message.len() as u32))?;
    joined.extend_from_slice(message.as_slice())
}

// Writes what is joined where it leaves no room for one more record.
fn make_room<S: ReplySockets>(sockets: &mut S, to: u64, joined: &mut Vec<u8>)
    ensures quiet { is_full joined.old.items ≡ false → S.effects sockets.new ≡ S.effects sockets.old }
    ensures in_order { (handed : List Sent) → InOrder handed (S.effects sockets.old) to joined.old.items → InOrder handed (S.effects sockets.new) to joined.new.items }
{
    if joined.len() > JOINED - LARGEST {
        write_joined(sockets, to, joined, 0);
    }
}

// Joins a record for the connection, behind its mark. Where there is no memory for it the connection is shut.
fn join<S: ReplySockets>(sockets: &mut S, to: u64, joined: &mut Vec<u8>, message: &Frame)
    ensures quiet { is_full joined.old.items ≡ false → writes (S.effects sockets.new) ≡ writes (S.effects sockets.old) }
    ensures in_order { (handed : List Sent) → InOrder handed (S.effects sockets.old) to joined.old.items → InOrder (handed ++ record { connection = to; reply = message.now } ∷ []) (S.effects sockets.new) to joined.new.items }
{
    make_room(sockets, to, joined);
    match append(joined, message) {
        Ok(()) => {}
        Err(AllocError) => {
            joined.clear();
            sockets.shut(to);
        }
    }
}

impl<S: ReplySockets> ReplyBuffer<S> {
    // Writes what is joined, and tells that its jobs are done.
    fn write(&mut self)
        ensures empty { self.new.joined.items ≡ [] }
        ensures quiet { self.old.joined.items ≡ [] → S.effects self.new.sockets ≡ S.effects self.old.sockets }
        ensures handed { self.new.all ≡ self.old.all }
        ensures to { self.new.to ≡ self.old.to }
    {
        write_joined(&mut self.sockets, self.to, &mut self.joined, self.jobs);
        self.jobs = 0;
    }

    // What comes next is for the connection of this number.
    fn turn(&mut self, connection: u64)
        ensures to { self.new.to ≡ connection }
        ensures handed { self.new.all ≡ self.old.all }
        ensures quiet { is_written_before connection self.old.to self.old.joined.items ≡ false → (S.effects self.new.sockets ≡ S.effects self.old.sockets) × (is_full self.new.joined.items ≡ false) }
    {
        if self.to != connection {
            self.write();
            self.to = connection;
        }
    }

    /// Ends it: what was joined is written. Each connection that is not lost took all its replies, each once and in order.
    pub fn into_sockets(self) -> S
        ensures { (n : ℕ) → is_lost n (S.effects result) ≡ false → bytes_to n (S.effects result) ≡ marked_for n (view_of_sent self.all.items) }
    {
        let ReplyBuffer {
            mut sockets,
            to,
            mut joined,
            jobs,
            ..
        } = self;
        write_joined(&mut sockets, to, &mut joined, jobs);
        sockets
    }
}

impl<S: ReplySockets> Outbox for ReplyBuffer<S> {
    ghost use Rattle.reply_outbox.specs.SentReplies.{view_of_sent};
    ghost use Rattle.reply_outbox.specs.Writes.{is_written_before};

    ghost handed = { λ o. view_of_sent o.all.items };

    ghost effects = { λ o. S.effects o.sockets };

    ghost writes_before = { λ o n. is_written_before n o.to o.joined.items };

    fn hand(&mut self, connection: u64, reply: &RecordReply) {
        self.turn(connection);
        self.sent.connection = connection;
        self.sent.record.truncate(0);
        // An empty frame has room for each reply.
        let _ = reply.put(&mut self.sent.record);
        self.all = self.all.and(&self.sent);
        join(
            &mut self.sockets,
            connection,
            &mut self.joined,
            &self.sent.record,
        );
    }

    fn turn_to(&mut self, connection: u64) {
        self.turn(connection);
    }

    fn will_write(&self, connection: u64) -> bool {
        !self.joined.is_empty() && (self.joined.len() > JOINED - LARGEST || self.to != connection)
    }

    fn done(&mut self, connection: u64, is_due: bool) {
        self.turn(connection);
        self.jobs = self.jobs.wrapping_add(1);
        if is_due {
            self.sockets.call_is_due();
        }
    }

    fn flush(&mut self) {
        self.write();
    }
}
