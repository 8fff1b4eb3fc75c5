//! What it takes to answer jobs is cut at the start.
ghost use Rattle.std.specs.Prelude.{◌≡◌, IfSome};

use super::fault::PoolFault;
use super::gathering::{Back, PoolShutdown};
use job_queue::{Channel, Keeper, Place};
use std::alloc::Global;
use std::sync::ledger::{Ledger, Share};
use workers::Worker;

// Parts of the ledger that are still to be cut.
#[derive(Drop)]
struct Uncut<L: Ledger> {
    share: Share<L>,
    count: u64,
    ghost counted: { share.parts ≡ count },
    ghost empty: { share.amount ≡ 0 },
}

impl<L: Ledger> Uncut<L> {
    // One part. `None` where none is left.
    fn cut(&mut self) -> Option<Share<L>>
        ensures { IfSome result (λ share. (share.parts ≡ 1) × (share.amount ≡ 0)) }
    {
        let left = self.count.checked_sub(1)?;
        let one = self.share.split_off(1, 0);
        self.count = left;
        Some(one)
    }
}

/// Cuts workers of a channel, each with a seat of the channel and a part of the ledger.
#[derive(Drop)]
pub struct PoolBuilder<P: Place, L: Ledger> {
    alloc: Global,
    keeper: Keeper<P>,
    uncut: Uncut<L>,
    back: Back<L>,
    is_audited: bool,
}

impl<P: Place, L: Ledger> PoolBuilder<P, L> {
    /// Of this share, whose parts are so many: one for each worker. With `is_audited` workers keep their receipts.
    pub fn new(
        alloc: Global,
        keeper: Keeper<P>,
        share: Share<L>,
        parts: u64,
        is_audited: bool,
    ) -> PoolBuilder<P, L>
        requires { (share.parts ≡ parts) × (share.amount ≡ 0) }
    {
        let mut share = share;
        let back = Back::new(share.empty());
        PoolBuilder {
            alloc,
            keeper,
            uncut: Uncut {
                share,
                count: parts,
            },
            back,
            is_audited,
        }
    }

    /// One worker more.
    pub fn cut(&mut self, channel: &Channel<P>) -> Result<Worker<P, L>, PoolFault> {
        let seat = self.keeper.cut(channel).ok_or(PoolFault::Starved)?;
        let share = self.uncut.cut().ok_or(PoolFault::Starved)?;
        Ok(Worker::new(self.alloc, seat, share, self.is_audited))
    }

    /// As many workers.
    pub fn cut_all(
        &mut self,
        channel: &Channel<P>,
        count: u16,
    ) -> Result<Vec<Worker<P, L>>, PoolFault> {
        let mut workers = Vec::new(self.alloc);
        for _ in 0..count {
            let worker = self.cut(channel)?;
            if workers.push(worker).is_err() {
                return Err(PoolFault::Starved);
            }
        }
        Ok(workers)
    }

    /// Whoever takes them back. No more are cut.
    pub fn into_pool_shutdown(self) -> PoolShutdown<P, L> {
        PoolShutdown::new(self.alloc, self.keeper, self.back)
    }
}
