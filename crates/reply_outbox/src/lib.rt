//! Where replies go, and what stands before a hold of the book's lock: a trait of each, and what of a reply is handed over.
#![tactic(auto)]

ghost use Rattle.std.specs.Prelude.{◌≡◌, ℕ, Bool, false, List, [], ◌∷◌, ◌++◌};
ghost use Rattle.book.specs.Given.{view_of_record_reply, view_of_reply, record_of};
ghost use Rattle.reply_outbox.specs.Effects.{Effect, writes};
ghost use Rattle.reply_outbox.specs.Gates.{answered_record};
ghost use Rattle.reply_outbox.specs.Posted.{Sent, sent_of_reply};

mod buffer;
mod sockets;

use book::{RecordReply, Reply};
pub use buffer::ReplyBuffer;
use bytes::Bytes;
use job_queue::Job;
pub use sockets::{ReplySockets, SocketEffects};
use xdr_core::Frame;

/// When a call's thread asked for the book's lock, had it, and gave it back, in nanoseconds by the gate's clock.
#[derive(Clone, Copy, Debug, PartialEq, Eq)]
pub struct TakenTimes {
    pub asked: u64,
    pub inside: u64,
    pub left: u64,
}

/// Runs before a worker takes the book's lock.
pub trait Gate {
    /// Whether it may hold a worker.
    ghost holds: { Self → Bool };

    /// Which record may be answered for a job: the first is the job's own, the second the one that is answered.
    ghost MayAnswer: { Self → List ℕ → List ℕ → Type 0 };

    /// Whether it may hold a worker. Then calls come by the channel, and another worker is woken first, where jobs may be left behind.
    fn may_hold(&self) -> bool
        ensures { result ≡ holds self.now };

    /// Runs before the job is answered. The record that is to be answered in place of the job's own, on behalf of the same peer, and
    /// whose reply goes to the job's connection. None: the job's own is answered.
    fn before(&self, job: &Job) -> Option<Bytes>
        ensures { MayAnswer self.now job.now.asked (answered_record result job.now.asked) };

    /// What its clock says, in nanoseconds from any beginning; 0 where critical sections aren't timed.
    fn time(&self) -> u64 {
        0
    }

    /// A call of this connection had its critical section at these times. Not each call is timed.
    fn timed(&self, connection: u64, times: TakenTimes) {
        let _ = connection;
        let _ = times;
    }
}

/// Takes replies to their connections. Contracts see all that it was handed, and what it did to connections. `ReplyBuffer` says how
/// the two stand to each other.
pub trait Outbox {
    ghost handed: { Self → List Sent };

    ghost effects: { Self → List Effect };

    /// Whether replies are written before, or with, the next one for the connection of this number.
    ghost writes_before: { Self → ℕ → Bool };

    /// The reply to a call.
    fn hand(&mut self, connection: u64, reply: &RecordReply)
        ensures handed { handed self.new ≡ handed self.old ++ record { connection = connection; reply = record_of (view_of_record_reply reply.now) } ∷ [] }
        ensures quiet { writes_before self.old connection ≡ false → writes (effects self.new) ≡ writes (effects self.old) };

    /// The next replies are for this connection. Replies that are joined for another are written now, since what comes next may
    /// hold the worker for long.
    fn turn_to(&mut self, connection: u64)
        ensures handed { handed self.new ≡ handed self.old }
        ensures quiet { writes_before self.old connection ≡ false → writes (effects self.new) ≡ writes (effects self.old) };

    /// Whether replies are written before, or with, the next one for this connection. A write may hold the worker for long.
    fn will_write(&self, connection: u64) -> bool
        ensures { result ≡ writes_before self.now connection };

    /// One job of this connection is done: it has its reply, or none. `is_due`: a call of the server's own is due then.
    fn done(&mut self, connection: u64, is_due: bool)
        ensures { handed self.new ≡ handed self.old };

    /// Writes the replies that are joined.
    fn flush(&mut self)
        ensures { handed self.new ≡ handed self.old };
}

/// Hands over a reply for this connection, once, if it has a record, and nothing else.
pub fn post<O: Outbox>(outbox: &mut O, connection: u64, reply: &Reply)
    ensures { O.handed outbox.new ≡ O.handed outbox.old ++ sent_of_reply connection (view_of_reply reply.now) }
{
    match reply {
        Reply::Record(reply) => outbox.hand(connection, reply),
        Reply::Line(_) | Reply::Nobody(_) => {}
    }
}

/// As `post`, of a reply that nobody else needs, which is let go of.
pub fn post_last<O: Outbox>(outbox: &mut O, connection: u64, reply: Reply)
    ensures { O.handed outbox.new ≡ O.handed outbox.old ++ sent_of_reply connection (view_of_reply reply) }
{
    post(outbox, connection, &reply);
}

/// A reply's record, for a connection.
#[derive(Drop)]
pub struct SentReply {
    pub connection: u64,
    pub record: Frame,
}
