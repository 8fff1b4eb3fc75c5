//! What a worker does.
ghost use Rattle.std.specs.Prelude.{◌≡◌, ◌+◌, ◌<◌, [], ◌∷◌, ◌++◌, is_some, IfOk, IfSome, IfNone, Some, None, length, MatchResult};
ghost use Rattle.job_queue.specs.Passes.{with_put, with_taken};
ghost use Rattle.reply_outbox.specs.Gates.{answered_record};
ghost use Rattle.reply_outbox.specs.Posted.{sent_of_reply};
ghost use Rattle.workers.specs.Answers.{Answer, Worked, IsMet, receipt_list, with_seat};

use crate::call_handler::{AtBook, CallHandler};
use crate::entering::answer_call;
use crate::shared::Shared;
use book::{Receipt, Taken};
use bytes::Bytes;
use hosts_db::HostStore;
use job_queue::{Channel, Closed, Job, Place, Seat};
use range_table::RangeTable;
use reply_outbox::{Gate, Outbox};
use std::alloc::Global;
use std::marker::Model;
use std::sync::ledger::{Ledger, Share};
use std::sync::{Mutex, Wait};

/// Whoever answers jobs: a worker's thread, or a connection's own. It has a seat at the channel, and a call handler. Contracts see what
/// the seat knows, the receipts of all calls that it took, and whether they are kept.
pub struct Worker<P: Place, L: Ledger> {
    pub(crate) seat: Seat<P>,
    pub(crate) call_handler: CallHandler<L>,
}

impl<P: Place, L: Ledger> Model for Worker<P, L> {
    ghost use Rattle.std.specs.Prelude.{is_some};
    ghost use Rattle.workers.specs.Answers.{Worker};

    ghost Value = { Worker };

    ghost view = { λ w. record { seat = w.seat; receipts = w.call_handler.receipts.all.items; keeps = is_some w.call_handler.receipts.kept } };
}

// It is written out, so that no crate above proves again how each part is dropped.
impl<P: Place, L: Ledger> Drop for Worker<P, L> {
    fn drop(self) {
        let Worker {
            seat: _,
            call_handler: _,
        } = self;
    }
}

// Wakes a worker where so many jobs may be left, and whoever answers this one may be held up before the next.
fn wake_before<P: Place, G: Gate, O: Outbox>(
    channel: &Channel<P>,
    gate: &G,
    outbox: &O,
    job: &Job,
    left: usize,
) {
    if left > 0 && (gate.may_hold() || outbox.will_write(job.connection())) {
        channel.nudge();
    }
}

// The record that is answered: the one in place of the job's own, or its own where there is none.
fn record_to_answer(job: Job, instead: Option<Bytes>) -> Bytes
    ensures { result ≡ answered_record instead job.asked }
{
    match instead {
        Some(record) => {
            drop(job);
            record
        }
        None => job.into_record(),
    }
}

/// What a worker leaves behind.
#[derive(Drop)]
pub struct Leaves<P: Place, L: Ledger> {
    pub seat: Seat<P>,
    pub share: Share<L>,
    /// Of the calls that it took, in order, where they were kept.
    pub receipts: Option<Vec<Receipt>>,
}

impl<P: Place, L: Ledger> Worker<P, L> {
    /// With this seat and this one part of the ledger. `is_kept` keeps its receipts for an audit.
    pub fn new(alloc: Global, seat: Seat<P>, share: Share<L>, is_kept: bool) -> Worker<P, L>
        requires part { (share.parts ≡ 1) × (share.amount ≡ 0) }
        ensures { result ≡ record { seat = seat; receipts = []; keeps = is_kept } }
    {
        Worker {
            seat,
            call_handler: CallHandler::new(alloc, share, is_kept),
        }
    }

    /// From 1 on, in the order in which they were made.
    pub fn number(&self) -> u64
        ensures { result ≡ self.now.seat.name }
    {
        self.seat.number()
    }

    pub(crate) fn alloc(&self) -> Global {
        self.call_handler.alloc
    }

    /// Ends it. Its share is the number of its receipts, which are given where they were kept.
    pub fn leave(self) -> Leaves<P, L>
        ensures seat { result.seat ≡ self.seat }
        ensures share { (result.share.parts ≡ 1) × (result.share.amount ≡ length self.receipts) }
        ensures receipts { IfSome result.receipts (λ receipts. receipts.items ≡ self.receipts) }
        ensures kept { is_some result.receipts ≡ self.keeps }
    {
        let Worker { seat, call_handler } = self;
        let (share, receipts) = call_handler.into_parts();
        Leaves {
            seat,
            share,
            receipts: receipts.into_kept(),
        }
    }

    /// Puts a job and wakes another for it, or gives it back: the channel is closed.
    pub fn send<W: Wait>(&mut self, rt: &W, channel: &Channel<P>, job: Job) -> Result<(), Closed>
        ensures put { MatchResult result (λ _. self.new ≡ with_seat self.old (with_put self.old.seat job)) (λ e. (e.job ≡ job) × (self.new ≡ self.old)) }
    {
        self.seat.send(rt, channel, job)
    }

    /// As `send`, but nobody is woken: it takes a job itself next.
    pub fn put<W: Wait>(&mut self, rt: &W, channel: &Channel<P>, job: Job) -> Result<(), Closed>
        ensures put { MatchResult result (λ _. self.new ≡ with_seat self.old (with_put self.old.seat job)) (λ e. (e.job ≡ job) × (self.new ≡ self.old)) }
    {
        self.seat.put(rt, channel, job)
    }

    /// Takes jobs and answers them, until the channel is closed and no job is left. Before it sleeps it flushes.
    pub fn work<R: RangeTable, S: HostStore, G: Gate, O: Outbox, W: Wait>(
        &mut self,
        rt: &W,
        channel: &Channel<P>,
        shared: &Mutex<Shared<R, S, L>>,
        gate: &G,
        outbox: &mut O,
    )
        ensures worked { Worked (G.MayAnswer gate.now) self.old self.new (O.handed outbox.old) (O.handed outbox.new) }
    {
        for _ in rt.forever() {
            let Some(job) = self.next_job(rt, channel, outbox) else {
                break;
            };
            self.serve(rt, shared, gate, outbox, job);
        }
    }

    /// Takes as many jobs, if there are so many, whoever put them, and answers them. Then it flushes. Where it may be held up,
    /// and jobs may wait that it is to take, it wakes a worker for them first.
    #[inline(never)]
    pub fn help<R: RangeTable, S: HostStore, G: Gate, O: Outbox, W: Wait>(
        &mut self,
        rt: &W,
        channel: &Channel<P>,
        shared: &Mutex<Shared<R, S, L>>,
        gate: &G,
        outbox: &mut O,
        count: usize,
    )
        ensures worked { Worked (G.MayAnswer gate.now) self.old self.new (O.handed outbox.old) (O.handed outbox.new) }
    {
        let mut left = count;
        for _ in 0..count {
            let Some(job) = self.seat.try_receive(rt, channel) else {
                break;
            };
            left = left.saturating_sub(1);
            wake_before(channel, gate, outbox, &job, left);
            self.serve(rt, shared, gate, outbox, job);
        }
        outbox.flush();
    }

    // The oldest job. Where there is none it flushes, and waits.
    fn next_job<O: Outbox, W: Wait>(
        &mut self,
        rt: &W,
        channel: &Channel<P>,
        outbox: &mut O,
    ) -> Option<Job>
        ensures taken { IfSome result (λ job. self.new ≡ with_seat self.old (with_taken self.old.seat job)) }
        ensures none { IfNone result (self.new ≡ self.old) }
        ensures handed { O.handed outbox.new ≡ O.handed outbox.old }
    {
        if let Some(job) = self.seat.try_receive(rt, channel) {
            return Some(job);
        }
        outbox.flush();
        self.seat.receive(rt, channel)
    }

    /// Answers this job, which was taken from the channel or never came by it: the gate is told before, and the outbox then. Where the
    /// gate gives another record, that one is answered in place of the job's own.
    pub fn serve<R: RangeTable, S: HostStore, G: Gate, O: Outbox, W: Wait>(
        &mut self,
        rt: &W,
        shared: &Mutex<Shared<R, S, L>>,
        gate: &G,
        outbox: &mut O,
        job: Job,
    )
        ensures answered { (a : Answer) × (a.job ≡ job) × G.MayAnswer gate.now job.asked a.answered × IsMet a a.receipt
            × (O.handed outbox.new ≡ O.handed outbox.old ++ sent_of_reply job.connection a.given)
            × (self.new.receipts ≡ self.old.receipts ++ receipt_list a.receipt) }
        ensures seat { self.new.seat ≡ self.old.seat }
        ensures keeps { self.new.keeps ≡ self.old.keeps }
    {
        let connection = job.connection();
        outbox.turn_to(connection);
        let instead = gate.before(&job);
        let is_due = self.answer(rt, shared, gate, outbox, job, instead);
        outbox.done(connection, is_due);
    }

    // Answers one job, by this record in place of its own, if there is one, in one hold: whether a call of the server's own is due then.
    fn answer<R: RangeTable, S: HostStore, G: Gate, O: Outbox, W: Wait>(
        &mut self,
        rt: &W,
        shared: &Mutex<Shared<R, S, L>>,
        gate: &G,
        outbox: &mut O,
        job: Job,
        instead: Option<Bytes>,
    ) -> bool
        ensures answered { (a : Answer) × (a.job ≡ job) × (a.answered ≡ answered_record instead job.asked) × IsMet a a.receipt
            × (O.handed outbox.new ≡ O.handed outbox.old ++ sent_of_reply job.connection a.given)
            × (self.new.receipts ≡ self.old.receipts ++ receipt_list a.receipt) }
        ensures seat { self.new.seat ≡ self.old.seat }
        ensures keeps { self.new.keeps ≡ self.old.keeps }
    {
        let connection = job.connection();
        let peer = job.peer();
        let record = record_to_answer(job, instead);
        let book = AtBook { rt, shared, gate };
        answer_call(
            &book,
            &mut self.call_handler,
            outbox,
            connection,
            Taken { peer, record },
        )
    }
}
