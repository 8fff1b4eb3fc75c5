//! What the tests share: a book, records to be answered, and what goes through a worker's seat.
ghost use Rattle.std.specs.Prelude.{IfSome};
ghost use Rattle.workers.specs.Holds.{IsNew};

use crate::words::{are, put_header};
use book::Book;
use bytes::Bytes;
use callbacks::ShortBytes;
use hosts_db::MemHosts;
use job_queue::{Channel, Job, Place};
use kept_replies::Peer;
use range_arena::ArenaTable;
use reply_outbox::{Gate, SentReply};
use std::alloc::Global;
use std::sync::Wait;
use std::sync::ledger::Ledger;
use test_kit::put_plain;
use workers::{Shared, Worker};

/// Holds nobody, and says whether it may.
#[derive(Clone, Copy, Drop)]
pub(crate) struct Passing {
    pub(crate) may_hold: bool,
}

impl Gate for Passing {
    ghost use Rattle.reply_outbox.specs.Gates.{IsOwn};

    ghost holds = { λ passing. passing.may_hold };

    ghost MayAnswer = { λ _. IsOwn };

    fn may_hold(&self) -> bool {
        self.may_hold
    }

    fn before(&self, _job: &Job) -> Option<Bytes> {
        None
    }
}

/// What the book's lock keeps.
pub(crate) type Kept<L> = Shared<ArenaTable, MemHosts, L>;

/// The book of a server named `server`, over a table without runs and no hosts. None where there is no memory.
pub(crate) fn begun(alloc: Global) -> Option<Book<ArenaTable, MemHosts>>
    ensures { IfSome result (λ book. IsNew book.journal) }
{
    let store = MemHosts::new(alloc, 0, Vec::new(alloc), Vec::new(alloc)).ok()?;
    begun_over(alloc, store)
}

/// The same over these hosts.
pub(crate) fn begun_over(alloc: Global, store: MemHosts) -> Option<Book<ArenaTable, MemHosts>>
    ensures { IfSome result (λ book. IsNew book.journal) }
{
    let name = ShortBytes::copy_of(alloc, b"server").ok()?;
    let table = ArenaTable::new(alloc).ok()?;
    Book::new(alloc, table, store, name).ok()
}

/// The record of a NULL of the lock manager under this xid. None where there is no memory.
pub(crate) fn null(alloc: Global, xid: u32) -> Option<Bytes> {
    let mut record = Vec::new(alloc);
    put_header(&mut record, xid, 0).ok()?;
    Bytes::from_vec(record).ok()
}

/// Sends the record of this number of a connection: 0 where it is taken, and else the connection of the job that comes back.
/// None where there is no record.
pub(crate) fn sent<P: Place, L: Ledger, R: Wait>(
    rt: &R,
    channel: &Channel<P>,
    worker: &mut Worker<P, L>,
    connection: u64,
    number: u64,
    record: Option<Bytes>,
) -> Option<u64> {
    let job = Job::new(connection, Peer::PIPE, number, record?);
    match worker.send(rt, channel, job) {
        Ok(()) => Some(0),
        Err(closed) => Some(closed.job.connection()),
    }
}

/// The replies, in order, each behind the number of its connection, as far as there is memory for them.
pub(crate) fn bytes_of(alloc: Global, sent: &[SentReply]) -> Vec<u8> {
    let mut all = Vec::new(alloc);
    for reply in sent {
        let _ = all.extend_from_slice(reply.connection.to_be_bytes().as_slice());
        let _ = all.extend_from_slice(reply.record.as_slice());
    }
    all
}

/// Whether these are the replies, in order: in the words, two with the number of its connection stand before each. Where there
/// is no memory they are not.
pub(crate) fn are_replies(alloc: Global, sent: &[SentReply], words: &str) -> bool {
    are(alloc, bytes_of(alloc, sent).as_slice(), "", words)
}

/// The words, so often. None where there is no memory.
pub(crate) fn repeated(alloc: Global, words: &str, times: u32) -> Option<Vec<u8>> {
    let mut bytes = Vec::new(alloc);
    for _ in 0..times {
        if !put_plain(&mut bytes, words) {
            return None;
        }
    }
    Some(bytes)
}
