//! A call whose reply isn't kept.
ghost use Rattle.std.specs.Prelude.{◌≡◌, [], true, cond, None, OnOk, OnErr};
ghost use Rattle.definitions.specs.World.{World as SaidWorld, the_limits};
ghost use Rattle.definitions.specs.Replies.{Asks};
ghost use Rattle.definitions.specs.Step.{Take, is_kept_kind, is_restart as restarts, kept_after};
ghost use Rattle.kept_replies.specs.Pairs.{view_of_peer, at_key};
ghost use Rattle.call_plans.specs.Planned.{view_of_stored, refusal_count, told_in, IsForgotten};
ghost use Rattle.call_codec.specs.CallValues.{view_of_call};
ghost use Rattle.book.specs.Notes.{IsStep};

use crate::kept::KeptReply;
use crate::state::BookState;
use crate::step_result::Answered;
use call_codec::is_kept;
use call_plans::Response;
use hosts_db::HostStore;
use kept_replies::{KeptReplies, Key, Peer};
use lock_service::{Call, Plan, StoreAnswer, World, abandon, commit, plan_and_ask};
use nsm_types::NsmCall;
use owner_ids::Starved;
use range_table::RangeTable;
use std::alloc::Global;

impl<R: RangeTable, S: HostStore> BookState<R, S> {
    /// The call is planned, all memory is got, the store is asked, the reply is kept, the plan is done, and what waited for
    /// it is granted.
    pub(crate) fn fresh(&mut self, key: Key, xid: u32, call: &Call<'_>) -> Answered
        requires { at_key key self.old.state.kept ≡ None }
        ensures step { IsStep self.old.state (Take (view_of_peer key.peer) key.record (Asks xid (view_of_call call.now))) result.step_result self.new.state }
        ensures counts { self.new.refusals ≡ refusal_count result.step_result.store self.old.refusals }
    {
        let peer = key.peer;
        let Ok((plan, store)) = plan_and_ask(&mut self.world, peer.is_local, call) else {
            return Answered::starved(StoreAnswer::NotAsked, xid);
        };
        let told = plan.told(store);
        match keep_or_abandon(&mut self.world, &mut self.kept, key, xid, call, &plan, told) {
            Ok(()) => {
                let outcome = commit(&mut self.world, plan, store);
                self.world.settle();
                clear_at_restart(&mut self.kept, peer, call, store);
                Answered::answers(store, xid, outcome.told, outcome.noted)
            }
            Err(Starved) => {
                plan.let_go();
                Answered::starved(store, xid)
            }
        }
    }
}

// Keeps what is told of a call, where its kind is kept. Starved: nothing has changed, but that its plan is given up, so that
// whoever was made known for it alone is known no more.
fn keep_or_abandon<R: RangeTable, S: HostStore>(
    world: &mut World<R, S>,
    kept: &mut KeptReplies<KeptReply>,
    key: Key,
    xid: u32,
    call: &Call<'_>,
    plan: &Plan,
    told: &Response,
) -> Result<(), Starved>
    requires { at_key key kept.old ≡ None }
    ensures ok { OnOk result ((w : SaidWorld) → kept.new ≡ kept_after the_limits (view_of_peer key.peer) key.record xid (view_of_call call.now) (told_in told.now w) kept.old) }
    ensures ready { OnOk result (world.new ≡ world.old) }

    ensures stays { OnErr result (kept.new ≡ kept.old) }
    ensures fed { OnErr result (is_kept_kind (view_of_call call.now) ≡ true) }
    ensures err { OnErr result ((world.new.world ≡ world.old.world) × (world.new.refusals ≡ world.old.refusals)) }
    ensures forgotten { OnErr result (IsForgotten plan.now world.new.world world.new) }
{
    let made = keep(kept, world.alloc(), key, xid, call, told);
    if made.is_err() {
        abandon(world, plan);
    }
    made
}

// Keeps what is told of a call, where its kind is kept. Nothing else takes memory. Starved: nothing has changed.
fn keep(
    kept: &mut KeptReplies<KeptReply>,
    alloc: Global,
    key: Key,
    xid: u32,
    call: &Call<'_>,
    told: &Response,
) -> Result<(), Starved>
    requires { at_key key kept.old ≡ None }
    ensures ok { OnOk result ((w : SaidWorld) → kept.new ≡ kept_after the_limits (view_of_peer key.peer) key.record xid (view_of_call call.now) (told_in told.now w) kept.old) }
    ensures stays { OnErr result (kept.new ≡ kept.old) }
    ensures fed { OnErr result (is_kept_kind (view_of_call call.now) ≡ true) }
{
    if is_kept(call, &told.outcome.told) {
        let reply = KeptReply::of(alloc, xid, told)?;
        kept.keep(key, reply)?;
    }
    Ok(())
}

// A restart forgets what is kept.
fn clear_at_restart(
    kept: &mut KeptReplies<KeptReply>,
    peer: Peer,
    call: &Call<'_>,
    store: StoreAnswer,
)
    ensures { kept.new ≡ cond (restarts (view_of_peer peer) (view_of_call call.now) (view_of_stored store)) [] kept.old }
{
    if is_restart(peer, call, store) {
        kept.clear();
    }
}

// Whether the call began the state anew (XNFS, SM_SIMU_CRASH).
fn is_restart(peer: Peer, call: &Call<'_>, store: StoreAnswer) -> bool
    ensures { result ≡ restarts (view_of_peer peer) (view_of_call call.now) (view_of_stored store) }
{
    match call {
        Call::Nsm(NsmCall::SimuCrash) => peer.is_local && store == StoreAnswer::Yes,
        _ => false,
    }
}
