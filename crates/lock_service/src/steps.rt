//! A call is planned, by its procedure, and its plan prepared.
ghost use Rattle.std.specs.Prelude.{◌≡◌, IfOk, OnErr};
ghost use Rattle.definitions.specs.Replies.{Nlm};
ghost use Rattle.definitions.specs.World.{the_limits};
ghost use Rattle.definitions.specs.Answer.{nlm_answer, ruling};
ghost use Rattle.definitions.specs.Replay.{may_leave_row};
ghost use Rattle.nlm4_types.specs.Call.{view_of_call as view_of_nlm_call};
ghost use Rattle.nlm4_types.specs.Version.{view_of_version};
ghost use Rattle.call_codec.specs.CallValues.{view_of_call};
ghost use Rattle.call_plans.specs.Planned.{view_of_stored, refusal_count, world_after_store, AsksOnlyIf, FitsUnder, IsAnswerTo, IsPlan, IsReady, IsWithin};
ghost use Rattle.call_plans.specs.Forgotten.{LeavesNobody};
ghost use Rattle.lock_service.specs.MayAsk.{may_ask};

use crate::lock::LockCall;
use crate::telling::Form;
use crate::{cancel, free_all, granted, lock, null, share, status, test, unlock, unshare};
use call_codec::Call;
use call_plans::{Plan, StoreAnswer, reserve_and_ask};
use hosts_db::HostStore;
use lock_state::World;
use nlm4_types::{NlmCall, Version};
use owner_ids::Starved;
use range_table::RangeTable;

/// What is to be done for a call, by the rules of its procedure, whether its peer is local or not. Changes nothing.
pub fn plan<R: RangeTable, S: HostStore>(
    world: &World<R, S>,
    local: bool,
    call: &Call<'_>,
) -> Result<Plan, Starved>
    ensures plan { IfOk result (λ made. IsPlan (ruling the_limits world.now.world local (view_of_call call.now)) world.now.world made) }
    ensures asks { IfOk result (AsksOnlyIf (may_ask (view_of_call call.now))) }
{
    match call {
        Call::Nlm(version, call) => plan_nlm(world, *version, call),
        Call::Nsm(call) => status::plan(world, local, call),
    }
}

fn plan_nlm<R: RangeTable, S: HostStore>(
    world: &World<R, S>,
    version: Version,
    call: &NlmCall<'_>,
) -> Result<Plan, Starved>
    ensures plan { IfOk result (λ made. IsPlan (nlm_answer the_limits world.now.world (view_of_version version) (view_of_nlm_call call.now)) world.now.world made) }
    ensures asks { IfOk result (AsksOnlyIf (may_leave_row (Nlm (view_of_version version) (view_of_nlm_call call.now)))) }
{
    let alloc = world.alloc();
    match call {
        NlmCall::Null => null::plan(alloc),
        NlmCall::Test(args) => test::plan(world, version, args),
        NlmCall::Lock(args) => lock::plan(world, version, args, LockCall::Lock),
        NlmCall::Cancel(args) => cancel::plan(world, version, args, Form::Reply),
        NlmCall::Unlock(args) => unlock::plan(world, version, args, Form::Reply),
        NlmCall::TestMsg(args) => test::plan_message(world, version, args),
        NlmCall::LockMsg(args) => lock::plan(world, version, args, LockCall::LockMsg),
        NlmCall::CancelMsg(args) => cancel::plan(world, version, args, Form::Message),
        NlmCall::UnlockMsg(args) => unlock::plan(world, version, args, Form::Message),
        NlmCall::GrantedRes(args) => granted::plan(alloc, args),
        NlmCall::NmLock(args) => lock::plan(world, version, args, LockCall::NmLock),
        NlmCall::Share(args) => share::plan(world, version, args),
        NlmCall::Unshare(args) => unshare::plan(world, version, args),
        NlmCall::FreeAll(args) => free_all::plan(alloc, args),
    }
}

/// A call is planned, all memory is got for that, and the store is asked. The plan is that of the rules for the world before;
/// since then its hosts alone have changed, as the store answered. Starved: the world stays, and nobody is known for the call
/// alone.
pub fn plan_and_ask<R: RangeTable, S: HostStore>(
    world: &mut World<R, S>,
    local: bool,
    call: &Call<'_>,
) -> Result<(Plan, StoreAnswer), Starved>
    ensures plan { IfOk result (λ made. IsPlan (ruling the_limits world.old.world local (view_of_call call.now)) world.old.world made.0) }
    ensures asks { IfOk result (λ made. AsksOnlyIf (may_ask (view_of_call call.now)) made.0) }
    ensures answer { IfOk result (λ made. IsAnswerTo made.0 (view_of_stored made.1)) }
    ensures limit { IfOk result (λ made. IsWithin made.0 (view_of_stored made.1) world.old.world) }
    ensures world { IfOk result (λ made. world.new.world ≡ world_after_store made.0 (view_of_stored made.1) world.old.world) }
    ensures counts { IfOk result (λ made. world.new.refusals ≡ refusal_count (view_of_stored made.1) world.old.refusals) }
    ensures fits { IfOk result (λ made. FitsUnder (view_of_stored made.1) made.0 world.new.world) }
    ensures ready { IfOk result (λ made. IsReady made.0 world.new) }
    ensures err { OnErr result ((world.new.world ≡ world.old.world) × (world.new.refusals ≡ world.old.refusals)) }
    ensures forgotten { OnErr result (LeavesNobody (ruling the_limits world.old.world local (view_of_call call.now)) world.old world.new) }
{
    let plan = plan(world, local, call)?;
    let Ok(store) = reserve_and_ask(world, &plan) else {
        plan.let_go();
        return Err(Starved);
    };
    Ok((plan, store))
}
