//! What events give.
ghost use Rattle.std.specs.Prelude.{◌≡◌, ◌+◌, ◌≤◌, ◌++◌, ◌↔◌, length, IsOk, OnOk, OnErr};
ghost use Rattle.book.specs.Given.{view_of_record_reply, view_of_reply, record_of};

use call_codec::{Outcome, Refusal};
use local_ops::LocalAnswer;
use owner_ids::Starved;
use std::alloc::Global;
use std::sync::Arc;
use xdr_core::{Frame, FrameFull};

/// What an event gives, by whom it answers.
#[derive(Drop)]
pub enum Reply {
    /// A client's call is answered by a record.
    Record(RecordReply),
    /// A local program's line is answered.
    Line(LocalAnswer),
    /// Nobody is answered.
    Nobody(Unanswered),
}

/// The reply to the call of an xid.
#[derive(Drop)]
pub enum RecordReply {
    /// The call was given to its procedure. The journal, the kept replies and whoever sends it share the outcome.
    Answers {
        xid: u32,
        outcome: Arc<Outcome, Global>,
    },
    /// The call was not given to its procedure.
    Refuses {
        xid: u32,
        refusal: Refusal,
    },
    /// The call could not be done (RFC 5531, section 9: SYSTEM_ERR).
    SystemErr {
        xid: u32,
    },
}

/// Why nobody is answered.
#[derive(Clone, Copy, PartialEq, Eq)]
pub enum Unanswered {
    /// The record was no call, or the event is none of a client's or a local program's.
    Nothing,
    /// An event that has nobody to answer met want of memory.
    Starved,
    /// The store refused an event that has nobody to answer.
    StoreRefused,
}

impl RecordReply {
    /// Appends the record. It is written whole or not at all: `FrameFull` exactly where it doesn't fit, and the frame is unchanged
    /// then. It fits behind 40 bytes, so it does in an empty frame.
    pub fn put(&self, f: &mut Frame) -> Result<(), FrameFull>
        ensures fits { length f.old ≤ 40 → IsOk result }
        ensures room { IsOk result ↔ (length f.old + length (record_of (view_of_record_reply self.now)) ≤ 4096) }
        ensures ok { OnOk result (f.new ≡ f.old ++ record_of (view_of_record_reply self.now)) }
        ensures err { OnErr result (f.new ≡ f.old) }
    {
        match self {
            RecordReply::Answers { xid, outcome } => outcome.put_reply(*xid, f),
            RecordReply::Refuses { xid, refusal } => Outcome::Refuses(*refusal).put_reply(*xid, f),
            RecordReply::SystemErr { xid } => Outcome::SystemErr.put_reply(*xid, f),
        }
    }
}

impl Reply {
    /// Appends the record of the reply that a client gets, and nothing where there is none, as [`RecordReply::put`] does.
    pub fn put(&self, f: &mut Frame) -> Result<(), FrameFull>
        ensures fits { length f.old ≤ 40 → IsOk result }
        ensures room { IsOk result ↔ (length f.old + length (record_of (view_of_reply self.now)) ≤ 4096) }
        ensures ok { OnOk result (f.new ≡ f.old ++ record_of (view_of_reply self.now)) }
        ensures err { OnErr result (f.new ≡ f.old) }
    {
        match self {
            Reply::Record(reply) => reply.put(f),
            Reply::Line(_) | Reply::Nobody(_) => f.append(&[]),
        }
    }
}
