//! Replies that are kept.
ghost use Rattle.std.specs.Prelude.{◌≡◌, IfOk};
ghost use Rattle.definitions.specs.Hosts.{NotAsked};
ghost use Rattle.definitions.specs.Step.{Applied, Replies};
ghost use Rattle.call_codec.specs.OutcomeValues.{view_of_outcome};
ghost use Rattle.book.specs.Given.{comes_to};

use crate::step_result::Answered;
use call_codec::Outcome;
use call_plans::Response;
use callbacks::Callback;
use kept_replies::Kept;
use lock_service::StoreAnswer;
use owner_ids::Starved;
use std::alloc::Global;
use std::sync::Arc;

/// A reply, under the number that it carries, and the calls of the server's own that became due with it.
#[derive(Drop)]
pub(crate) struct KeptReply {
    pub(crate) xid: u32,
    pub(crate) outcome: Arc<Outcome, Global>,
    pub(crate) callbacks: Vec<Callback>,
}

impl Kept for KeptReply {
    ghost use Rattle.call_codec.specs.OutcomeValues.{view_of_outcome};

    ghost xid = { λ k. k.xid };

    ghost outcome = { λ k. view_of_outcome k.outcome.value };

    ghost callbacks = { λ k. k.callbacks.items };
}

impl KeptReply {
    // What is kept of a call to which this is told.
    pub(crate) fn of(alloc: Global, xid: u32, told: &Response) -> Result<KeptReply, Starved>
        ensures xid { IfOk result (λ kept. kept.xid ≡ xid) }
        ensures outcome { IfOk result (λ kept. view_of_outcome kept.outcome.value ≡ view_of_outcome told.now.outcome.told.value) }
        ensures callbacks { IfOk result (λ kept. kept.callbacks.items ≡ told.now.due.items) }
    {
        let callbacks = copies_of(alloc, &told.due)?;
        let outcome = Arc::try_clone(&told.outcome.told)?;
        Ok(KeptReply {
            xid,
            outcome,
            callbacks,
        })
    }

    // The reply to the call that came again, and copies of the calls that went with it.
    pub(crate) fn again(&self, alloc: Global) -> Result<(Answered, Vec<Callback>), Starved>
        ensures step_result { IfOk result (λ made. made.0.step_result ≡ comes_to Applied NotAsked (Replies self.now.xid (view_of_outcome self.now.outcome.value))) }
        ensures callbacks { IfOk result (λ made. made.1.items ≡ self.now.callbacks.items) }
    {
        let outcome = Arc::try_clone(&self.outcome)?;
        let noted = Arc::try_clone(&self.outcome)?;
        let callbacks = copies_of(alloc, &self.callbacks)?;
        let said = Answered::answers(StoreAnswer::NotAsked, self.xid, outcome, noted);
        Ok((said, callbacks))
    }
}

// The same callbacks again, in memory of their own.
pub(crate) fn copies_of(alloc: Global, callbacks: &[Callback]) -> Result<Vec<Callback>, Starved>
    ensures { IfOk result (λ copies. copies.items ≡ callbacks.now) }
{
    let mut copies = Vec::with_capacity(alloc, callbacks.len())?;
    for callback in callbacks {
        copies.push_reserved(callback.copy(alloc)?);
    }
    Ok(copies)
}
