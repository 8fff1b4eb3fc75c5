//! What a worker has beside its seat.
ghost use Rattle.std.specs.Prelude.{◌≡◌, [], is_some, IfOk, length};
ghost use Rattle.workers.specs.Places.{HasPlace};

use crate::archive::Archive;
use crate::entering::Entering;
use crate::patience::hold;
use crate::shared::{Entered, Shared};
use book::{Receipt, Starved, Taken};
use bytes::Bytes;
use hosts_db::HostStore;
use range_table::RangeTable;
use reply_outbox::{Gate, Outbox, TakenTimes, post, post_last};
use std::alloc::Global;
use std::sync::ledger::{Ledger, Share};
use std::sync::{Mutex, Wait};

/// Of so many calls of a handler the first is timed: to read the clock for each would cost some hundredths of a call's time. The
/// number is odd, so that LOCKs and UNLOCKs are timed where a client sends them by turns.
const TIMED: u8 = 17;

// Whether a call is timed, and how many come before the next one that is.
fn is_timed(untimed: &mut u8) -> bool {
    let is_timed = *untimed == 0;
    *untimed = if is_timed { TIMED - 1 } else { *untimed - 1 };
    is_timed
}

/// One part of the ledger, and the receipts of the calls that were taken.
#[derive(Drop)]
pub(crate) struct CallHandler<L: Ledger> {
    pub(crate) alloc: Global,
    pub(crate) share: Share<L>,
    pub(crate) receipts: Archive<Receipt>,
    // How many calls come before one is timed.
    untimed: u8,
    ghost part: { share.parts ≡ 1 },
    ghost counted: { share.amount ≡ length receipts.all.items },
}

impl<L: Ledger> CallHandler<L> {
    pub(crate) fn new(alloc: Global, share: Share<L>, is_kept: bool) -> CallHandler<L>
        requires part { (share.parts ≡ 1) × (share.amount ≡ 0) }
        ensures none { result.receipts.all.items ≡ [] }
        ensures kept { is_some result.receipts.kept ≡ is_kept }
    {
        CallHandler {
            alloc,
            share,
            receipts: Archive::new(alloc, is_kept),
            untimed: 0,
        }
    }

    /// Its share, and its receipts.
    pub(crate) fn into_parts(self) -> (Share<L>, Archive<Receipt>)
        ensures share { (result.0.parts ≡ 1) × (result.0.amount ≡ length self.receipts.all.items) }
        ensures receipts { result.1.all.items ≡ self.receipts.all.items }
        ensures kept { is_some result.1.kept ≡ is_some self.receipts.kept }
    {
        let CallHandler {
            share,
            receipts,
            ..
        } = self;
        (share, receipts)
    }

    // What there has to be before the hold: a place for the receipt, and a second handle on the record.
    fn prepare(&mut self, asked: &Bytes) -> Result<Bytes, Starved>
        ensures same { IfOk result (λ same. same ≡ asked.now) }
        ensures place { IfOk result (λ _. HasPlace self.new.receipts.kept) }
        ensures all { self.new.receipts.all.items ≡ self.old.receipts.all.items }
        ensures kept { is_some self.new.receipts.kept ≡ is_some self.old.receipts.kept }
    {
        self.receipts.reserve()?;
        Ok(asked.clone()?)
    }
}

/// The book, where it is shared under a lock, and the gate whose clock times its critical sections.
#[derive(Drop)]
pub(crate) struct AtBook<'a, R: RangeTable, S: HostStore, L: Ledger, W, G> {
    pub(crate) rt: &'a W,
    pub(crate) shared: &'a Mutex<Shared<R, S, L>>,
    pub(crate) gate: &'a G,
}

impl<'a, R: RangeTable, S: HostStore, L: Ledger, W, G: Gate> AtBook<'a, R, S, L, W, G> {
    // What the gate's clock says, where this call is timed.
    fn time(&self, is_timed: bool) -> u64 {
        if is_timed { self.gate.time() } else { 0 }
    }
}

impl<'a, R: RangeTable, S: HostStore, L: Ledger, W: Wait, G: Gate, O: Outbox> Entering<
    CallHandler<L>,
    O,
> for AtBook<'a, R, S, L, W, G> {
    ghost use Rattle.std.specs.Prelude.{◌≡◌, is_some};
    ghost use Rattle.book.specs.Journal.{room_of};
    ghost use Rattle.workers.specs.Holds.{Held};
    ghost use Rattle.workers.specs.Places.{HasPlace};

    // The allocator's word, which no contract names.
    ghost IsUnprepared = { λ _. Unit {0} };

    ghost FoundFull = { λ _. (held : Held) × (room_of held.book.journal ≡ 0) };

    ghost papers = { λ call_handler. record { receipts = call_handler.receipts.all.items; keeps = is_some call_handler.receipts.kept } };

    ghost HasPlace = { λ call_handler. HasPlace call_handler.receipts.kept };

    ghost handed = { λ outbox. O.handed outbox };

    fn prepare(&self, call_handler: &mut CallHandler<L>, taken: &Taken) -> Result<Bytes, Starved> {
        call_handler.prepare(&taken.record)
    }

    fn enter(
        &self,
        call_handler: &mut CallHandler<L>,
        outbox: &mut O,
        connection: u64,
        taken: Taken,
        same: Bytes,
    ) -> Result<bool, Taken> {
        let is_timed = is_timed(&mut call_handler.untimed);
        let asked = self.time(is_timed);
        let mut shared = hold(self.rt, self.shared);
        let inside = self.time(is_timed);
        let got = shared.take(taken, same, &mut call_handler.share);
        drop(shared);
        let left = self.time(is_timed);
        if is_timed {
            let times = TakenTimes {
                asked,
                inside,
                left,
            };
            self.gate.timed(connection, times);
        }
        let Entered {
            receipt,
            is_due,
            over,
        } = match got {
            Ok(entered) => entered,
            Err(back) => return Err(back),
        };
        post(outbox, connection, receipt.reply());
        call_handler.receipts.add(receipt);
        drop(over);
        Ok(is_due)
    }

    fn turn_back(&self, outbox: &mut O, connection: u64, taken: Taken) {
        post_last(outbox, connection, taken.starved());
    }
}
