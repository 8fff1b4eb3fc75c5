//! A datagram is answered.
ghost use Rattle.std.specs.Prelude.{◌≡◌};
ghost use Rattle.rpc_msg.specs.declared.reply.AcceptError.TheVariants.{ProgUnavail};
ghost use Rattle.rpc_msg.specs.declared.reply.ReplyStatus.TheVariants.{AcceptFailure};
ghost use Rattle.rpc_msg.specs.Reply.{written_reply};
ghost use Rattle.datagram_calls.specs.Answered.{IsAnswered, IsTaken};

use crate::screening::{Screened, screen};
use crate::slot::ReplySlot;
use hosts_db::HostStore;
use job_queue::{Job, Place};
use range_table::RangeTable;
use reply_outbox::Gate;
use rpc_msg::{AcceptError, ReplyStatus};
use std::sync::ledger::Ledger;
use std::sync::{Mutex, Wait};
use workers::{Shared, Worker};
use xdr_core::Frame;

// PROG_UNAVAIL, which fits into an empty frame.
fn unavailable(xid: u32) -> Frame
    ensures { result ≡ written_reply (AcceptFailure xid ProgUnavail) }
{
    let mut frame = Frame::new();
    let status = ReplyStatus::AcceptFailure {
        xid,
        error: AcceptError::ProgUnavail,
    };
    let _ = status.put(&mut frame);
    frame
}

// The book takes the job, by the record that the gate gives in place of its own, if it gives one.
fn ask_book<P: Place, L: Ledger, R: RangeTable, S: HostStore, G: Gate, W: Wait>(
    rt: &W,
    worker: &mut Worker<P, L>,
    shared: &Mutex<Shared<R, S, L>>,
    gate: &G,
    job: Job,
) -> Option<Frame>
    ensures { IsTaken (G.MayAnswer gate.now) job worker.old worker.new result }
{
    let mut slot = ReplySlot::new();
    worker.serve(rt, shared, gate, &mut slot, job);
    slot.into_newest()
}

/// Answers a datagram, which is a job that never came by the channel: what goes back, without a record mark, if anything does.
/// The worker has the receipt of a call that the book took. What makes a call of the server's own due wakes nobody.
pub fn answer_datagram<P: Place, L: Ledger, R: RangeTable, S: HostStore, G: Gate, W: Wait>(
    rt: &W,
    worker: &mut Worker<P, L>,
    shared: &Mutex<Shared<R, S, L>>,
    gate: &G,
    job: Job,
) -> Option<Frame>
    ensures { IsAnswered (G.MayAnswer gate.now) job worker.old worker.new result }
{
    match screen(job.record().as_slice()) {
        Screened::NoCall => {
            drop(job);
            None
        }
        Screened::Elsewhere { xid } => {
            drop(job);
            Some(unavailable(xid))
        }
        Screened::ForBook => ask_book(rt, worker, shared, gate, job),
    }
}
