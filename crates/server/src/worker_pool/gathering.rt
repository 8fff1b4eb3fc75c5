//! What is left at the end.
ghost use Rattle.std.specs.Prelude.{◌≡◌, ◌+◌, ◌++◌, [], IfOk, IfNone, IfSome};
ghost use Rattle.server.specs.Gathered.{Audited, Settles, left_by, left_by_all};

use super::fault::PoolFault;
use book::Receipt;
use hosts_db::HostStore;
use job_queue::{Channel, Keeper, Place};
use journal_audit::audit;
use range_table::RangeTable;
use std::alloc::Global;
use std::marker::Model;
use std::sync::ledger::{Ledger, Share};
use workers::{Ends, Leaves, Shared, Worker};

/// Parts of the ledger that came back.
#[derive(Drop)]
pub(crate) struct Back<L: Ledger> {
    share: Share<L>,
    count: u64,
    ghost counted: { share.parts ≡ count },
}

impl<L: Ledger> Back<L> {
    /// From a share without parts.
    pub(crate) fn new(share: Share<L>) -> Back<L>
        requires { share.parts ≡ 0 }
    {
        Back { share, count: 0 }
    }

    fn add(&mut self, share: Share<L>) -> Result<(), PoolFault>
        requires { share.parts ≡ 1 }
    {
        let Some(count) = self.count.checked_add(1) else {
            return Err(PoolFault::AuditMismatch);
        };
        self.share.merge(share);
        self.count = count;
        Ok(())
    }
}

/// Gathers what those who answered jobs leave. Contracts see the receipts that were kept.
#[derive(Drop)]
pub struct PoolShutdown<P: Place, L: Ledger> {
    keeper: Keeper<P>,
    back: Back<L>,
    receipts: Vec<Receipt>,
}

impl<P: Place, L: Ledger> Model for PoolShutdown<P, L> {
    ghost use Rattle.std.specs.Prelude.{List};
    ghost use Rattle.book.specs.Receipts.{Receipt};

    ghost Value = { List Receipt };

    ghost view = { λ g. g.receipts.items };
}

impl<P: Place, L: Ledger> PoolShutdown<P, L> {
    pub(crate) fn new(alloc: Global, keeper: Keeper<P>, back: Back<L>) -> PoolShutdown<P, L>
        ensures { result ≡ [] }
    {
        PoolShutdown {
            keeper,
            back,
            receipts: Vec::new(alloc),
        }
    }

    /// Takes the next one back, in the order in which they were cut.
    pub fn take(&mut self, channel: &Channel<P>, worker: Worker<P, L>) -> Result<(), PoolFault>
        ensures { IfOk result (λ _. self.new ≡ self.old ++ left_by worker) }
    {
        let Leaves {
            seat,
            share,
            receipts,
        } = worker.leave();
        if self.keeper.gather(channel, seat).is_err() {
            return Err(PoolFault::AuditMismatch);
        }
        match self.back.add(share) {
            Ok(()) => self.keep(receipts),
            Err(fault) => Err(fault),
        }
    }

    fn keep(&mut self, receipts: Option<Vec<Receipt>>) -> Result<(), PoolFault>
        ensures some { IfOk result (λ _. IfSome receipts (λ kept. self.new ≡ self.old ++ kept.items)) }
        ensures none { IfNone receipts (self.new ≡ self.old) }
    {
        if let Some(mut receipts) = receipts {
            self.receipts.append(&mut receipts)?;
        }
        Ok(())
    }

    /// Takes all of these back.
    pub fn take_all(
        &mut self,
        channel: &Channel<P>,
        workers: Vec<Worker<P, L>>,
    ) -> Result<(), PoolFault>
        ensures { IfOk result (λ _. self.new ≡ self.old ++ left_by_all workers.items) }
    {
        for worker in workers {
            self.take(channel, worker)?;
        }
        Ok(())
    }

    /// Whether all came back, and the journal and all receipts agree: how many calls were taken, where that was kept, and else 0.
    /// `parts` are all parts of the ledger.
    pub fn settle<T: RangeTable + Drop, S: HostStore + Drop>(
        self,
        channel: &Channel<P>,
        shared: Shared<T, S, L>,
        parts: u64,
    ) -> Result<u64, PoolFault>
        requires { parts ≡ L.parts }
        ensures { IfOk result (λ calls. Settles shared.keeps self calls) }
    {
        let PoolShutdown {
            mut keeper,
            mut back,
            receipts,
        } = self;
        if back.count != parts || !keeper.settle(channel) {
            return Err(PoolFault::AuditMismatch);
        }
        match shared.finish(&mut back.share) {
            Ok(ends) => audited(ends, receipts),
            Err(_) => Err(PoolFault::Starved),
        }
    }
}

// Whether the journal and all receipts agree: how many calls were taken, where that was kept, and else 0.
fn audited<T: RangeTable + Drop, S: HostStore + Drop>(
    ends: Ends<T, S>,
    mut receipts: Vec<Receipt>,
) -> Result<u64, PoolFault>
    ensures none { IfNone ends.segments (IfOk result (λ calls. calls ≡ 0)) }
    ensures some { IfSome ends.segments (λ segments. IfOk result (λ calls. Audited segments.items receipts.items calls)) }
{
    let Ends { segments } = ends;
    match segments {
        None => Ok(0),
        Some(segments) => match audit(&segments, &mut receipts) {
            Ok(()) => Ok(receipts.len() as u64),
            Err(_) => Err(PoolFault::AuditMismatch),
        },
    }
}
