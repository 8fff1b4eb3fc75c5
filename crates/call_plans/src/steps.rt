//! The steps in which a plan is done.
ghost use Rattle.std.specs.Prelude.{◌≡◌, ◌↔◌, IfOk, OnOk, OnErr, IsErr, IsTrue};
ghost use Rattle.definitions.specs.Hosts.{after_store, is_past_limit};
ghost use Rattle.definitions.specs.LockRules.{with_lock};
ghost use Rattle.definitions.specs.Settings.{setting_of};
ghost use Rattle.definitions.specs.World.{with_hosts, with_setting};
ghost use Rattle.hosts_db.specs.Calls.{Counts, Makes, IsPastLimit};
ghost use Rattle.definitions.specs.Starts.{refuses};
ghost use Rattle.call_codec.specs.OutcomeValues.{view_of_outcome};
ghost use Rattle.callbacks.specs.Meanings.{view_of_told_my_id};
ghost use Rattle.std.specs.Option.{option_copied};
ghost use Rattle.owner_ids.specs.Views.{view_of_owner};
ghost use Rattle.lock_state.specs.Seen.{AdmitsNobody, KeepsKnown, Knows};
ghost use Rattle.call_plans.specs.Planned.{view_of_stored, answer_in, view_of_asked, told_in, world_after_store, refusal_count};
ghost use Rattle.call_plans.specs.Planned.{IsAnswerTo, IsCommitted, IsWithin, Fits, FitsChange, FitsAnswer, FitsDue, FitsUnder, CanAsk, CanAskFor, IsReady, IsReadyFor};
ghost use Rattle.call_plans.specs.Forgotten.{IsForgottenBy, IsForgottenUnder};
ghost use Rattle.call_plans.specs.Planned.{IsForgotten, IsForgottenFor, KeepsOthers, KeepsOthersFor, IsForgottenIfIdle, changed_world, view_of_range, view_of_wanted};

use crate::answers::granted_res;
use crate::plans::{
    Asked, Change, Plan, PlannedAnswer, Range, Response, SharedOutcome, WantedLock,
};
use callbacks::{OwnedMyId, ShortBytes};
use hosts_db::{HostStore, StoreError};
use lock_state::World;
use owner_ids::Starved;
use range_table::{NoRuns, RangeTable};
use step_order::{Pending, StoreAnswer, rule};

/// Gets all memory that doing the plan takes. The world stays, and who was known is known. Starved: the plan can't be
/// done, and nobody has become known.
pub fn reserve<R: RangeTable, S: HostStore>(
    world: &mut World<R, S>,
    plan: &Plan,
) -> Result<(), Starved>
    ensures world { world.new.world ≡ world.old.world }
    ensures refusals { world.new.refusals ≡ world.old.refusals }
    ensures known { KeepsKnown world.old world.new }
    ensures ready { OnOk result (IsReady plan.now world.new) }
    ensures err { OnErr result (AdmitsNobody world.old world.new) }
{
    match plan {
        Plan::Decided(answer) => reserve_for_change(world, &answer.change),
        Plan::AfterStore { agreed, .. } => reserve_for_change(world, &agreed.change),
    }
}

/// Gets all memory that the change takes. The world stays, and who was known is known. Starved: nobody has become known.
pub fn reserve_for_change<R: RangeTable, S: HostStore>(
    world: &mut World<R, S>,
    change: &Change,
) -> Result<(), Starved>
    ensures world { world.new.world ≡ world.old.world }
    ensures refusals { world.new.refusals ≡ world.old.refusals }
    ensures known { KeepsKnown world.old world.new }
    ensures ready { OnOk result (IsReadyFor change.now world.new) }
    ensures err { OnErr result (AdmitsNobody world.old world.new) }
{
    match change {
        Change::Lock(wanted) | Change::Wait(wanted, _) => world.admit(&wanted.owner),
        // All else takes none.
        _ => Ok(()),
    }
}

/// Gives a plan up that was prepared and isn't to be done: whoever was made known for it alone is known no more. The world
/// stays.
pub fn abandon<R: RangeTable, S: HostStore>(world: &mut World<R, S>, plan: &Plan)
    ensures world { world.new.world ≡ world.old.world }
    ensures refusals { world.new.refusals ≡ world.old.refusals }
    ensures forgotten { IsForgotten plan.now world.old.world world.new }
    ensures others { KeepsOthers plan.now world.old world.new }
{
    match plan {
        Plan::Decided(answer) => forget(world, &answer.change),
        Plan::AfterStore { agreed, .. } => forget(world, &agreed.change),
    }
}

// Forgets who was to hold a lock or to wait for one, unless he holds one or waits.
fn forget<R: RangeTable, S: HostStore>(world: &mut World<R, S>, change: &Change)
    ensures world { world.new.world ≡ world.old.world }
    ensures refusals { world.new.refusals ≡ world.old.refusals }
    ensures forgotten { IsForgottenFor change.now world.old.world world.new }
    ensures others { KeepsOthersFor change.now world.old world.new }
{
    match change {
        Change::Lock(wanted) | Change::Wait(wanted, _) => world.forget_idle(&wanted.owner),
        Change::Unlock(range) => world.forget_idle(&range.owner),
        _ => {}
    }
}

/// Asks the store, where the plan does. The rows are changed exactly where it answers yes, and a refusal is counted.
/// Starved: the store had no memory of its own, and nothing has changed.
pub fn ask<R: RangeTable, S: HostStore>(
    world: &mut World<R, S>,
    plan: &Plan,
) -> Result<StoreAnswer, Starved>
    requires { CanAsk plan.now world.old.world }
    ensures answer { IfOk result (λ answer. IsAnswerTo plan.now (view_of_stored answer)) }
    ensures world { IfOk result (λ answer. world.new.world ≡ world_after_store plan.now (view_of_stored answer) world.old.world) }
    ensures limit { IfOk result (λ answer. IsWithin plan.now (view_of_stored answer) world.old.world) }
    ensures refusals { IfOk result (λ answer. world.new.refusals ≡ refusal_count (view_of_stored answer) world.old.refusals) }
    ensures starved { OnErr result (world.new ≡ world.old) }
    ensures fits { IfOk result (λ answer. Fits plan.now world.old.world → FitsUnder (view_of_stored answer) plan.now world.new.world) }
    ensures ready { IsReady plan.now world.old → IsReady plan.now world.new }
{
    match plan {
        Plan::Decided(_) => Ok(StoreAnswer::NotAsked),
        Plan::AfterStore { asked, .. } => match ask_for(world, asked) {
            Ok(()) => Ok(StoreAnswer::Yes),
            Err(StoreError::StoreRefused) => Ok(StoreAnswer::Refused),
            Err(StoreError::Starved) => Err(Starved),
        },
    }
}

fn ask_for<R: RangeTable, S: HostStore>(
    world: &mut World<R, S>,
    asked: &Asked,
) -> Result<(), StoreError>
    requires { CanAskFor asked.now world.old.world }
    ensures world { world.new.world ≡ with_hosts world.old.world world.new.world.hosts }
    ensures makes { Makes result world.old.world.hosts world.new.world.hosts (after_store world.old.world.hosts (view_of_asked asked.now)) }
    ensures counts { Counts result world.old.refusals world.new.refusals }
    ensures limit { IsPastLimit result (is_past_limit 4096 1024 world.old.world.hosts (view_of_asked asked.now)) }
    ensures names { world.new.names ≡ world.old.names }
{
    match asked {
        Asked::Monitor { name, state } => world.monitor(name.as_slice(), *state),
        Asked::Seen { name, state } => world.seen(name.as_slice(), *state),
        Asked::Watched {
            mon_name,
            my_id,
            private_bytes,
        } => world.watch(mon_name.as_slice(), &lent(my_id), private_bytes),
        Asked::Unwatched { mon_name, my_id } => world.unwatch(lent_name(mon_name), &lent(my_id)),
        Asked::Begin => world.start(),
    }
}

// A watcher as the store takes it.
fn lent(my_id: &OwnedMyId) -> hosts_db::MyIdRef<'_>
    ensures { result ≡ view_of_told_my_id my_id.now }
{
    hosts_db::MyIdRef::new(my_id.my_name.as_slice(), my_id.prog, my_id.vers, my_id.proc)
}

fn lent_name(name: &Option<ShortBytes>) -> Option<&[u8]>
    ensures { option_copied result ≡ name.now }
{
    match name {
        Some(name) => Some(name.as_slice()),
        None => None,
    }
}

/// Does what the plan says, under the store's answer, without memory. What is answered, the calls that become due, and the
/// world after it, are those of the rules for the world of which the plan was made.
pub fn commit<R: RangeTable, S: HostStore>(
    world: &mut World<R, S>,
    plan: Plan,
    store: StoreAnswer,
) -> SharedOutcome
    requires fits { FitsUnder (view_of_stored store) plan world.old.world }
    requires ready { IsReady plan world.old }
    ensures answer { IsCommitted (view_of_stored store) plan (view_of_outcome result.told.value) world.old.world world.new.world }
    ensures refusals { world.new.refusals ≡ world.old.refusals }
    ensures forgotten { IsForgottenUnder (view_of_stored store) plan world.old.world.calls world.new }
{
    match plan {
        Plan::Decided(answer) => do_answer(world, answer),
        Plan::AfterStore {
            asked,
            agreed,
            refused,
        } => {
            // Dropped by a call: where a plan's part ends in place, each of its variants is proved there.
            drop(asked);
            rule(world, Deferred { agreed, refused }, store)
        }
    }
}

// What is agreed on, and what is told where the store refuses.
#[derive(Drop)]
struct Deferred {
    agreed: PlannedAnswer,
    refused: Response,
}

impl<R: RangeTable, S: HostStore> Pending<World<R, S>, SharedOutcome> for Deferred {
    ghost use Rattle.call_plans.specs.Planned.{FitsAnswer, FitsDue, IsReadyFor};
    ghost use Rattle.call_plans.specs.Deferred.{IsAgreed, IsTurnedDown};

    ghost MayAgree = { λ d w. FitsAnswer d.agreed w.world × IsReadyFor d.agreed.change w };

    ghost Agreed = { λ d old told new. IsAgreed d.agreed old told new };

    ghost MayRefuse = { λ d w. FitsDue d.refused w.world };

    ghost Refused = { λ d old told new. IsTurnedDown d.agreed d.refused old told new };

    fn agree(self, world: &mut World<R, S>) -> SharedOutcome {
        let Deferred { agreed, refused } = self;
        drop(refused);
        do_answer(world, agreed)
    }

    fn refuse(self, world: &mut World<R, S>) -> SharedOutcome {
        let Deferred { agreed, refused } = self;
        refuse(world, agreed, refused)
    }
}

// The change isn't made, and this is told.
fn refuse<R: RangeTable, S: HostStore>(
    world: &mut World<R, S>,
    agreed: PlannedAnswer,
    refused: Response,
) -> SharedOutcome
    requires { FitsDue refused world.old.world }
    ensures told { record { outcome = view_of_outcome result.told.value; due = refused.due.items; world = world.new.world } ≡ told_in refused world.old.world }
    ensures refusals { world.new.refusals ≡ world.old.refusals }
    ensures forgotten { IsForgottenFor agreed.change world.new.world world.new }
{
    forget(world, &agreed.change);
    drop(agreed);
    tell(world, refused)
}

// The change, and then the calls that become due.
fn do_answer<R: RangeTable, S: HostStore>(
    world: &mut World<R, S>,
    answer: PlannedAnswer,
) -> SharedOutcome
    requires fits { FitsAnswer answer world.old.world }
    requires ready { IsReadyFor answer.change world.old }
    ensures told { record { outcome = view_of_outcome result.told.value; due = answer.told.due.items; world = world.new.world } ≡ answer_in answer world.old.world }
    ensures refusals { world.new.refusals ≡ world.old.refusals }
    ensures forgotten { IsForgottenBy answer.change world.old.world.calls world.new }
{
    let PlannedAnswer {
        told,
        change: wanted,
    } = answer;
    make_change(world, wanted);
    tell(world, told)
}

fn tell<R: RangeTable, S: HostStore>(world: &mut World<R, S>, told: Response) -> SharedOutcome
    requires { FitsDue told world.old.world }
    ensures told { record { outcome = view_of_outcome result.told.value; due = told.due.items; world = world.new.world } ≡ told_in told world.old.world }
    ensures names { world.new.names ≡ world.old.names }
    ensures refusals { world.new.refusals ≡ world.old.refusals }
{
    world.tell(told.due);
    told.outcome
}

// Whoever is to hold the lock holds it, and stays known.
fn lock<R: RangeTable, S: HostStore>(
    world: &mut World<R, S>,
    wanted: &WantedLock,
) -> Result<(), NoRuns>
    requires { Knows world.old (view_of_owner wanted.now.owner) }
    ensures refused { IsErr result ↔ IsTrue (refuses 65536 world.old.world.settings (setting_of (view_of_wanted wanted.now))) }
    ensures ok { OnOk result (world.new.world ≡ with_lock world.old.world (view_of_wanted wanted.now)) }
    ensures err { OnErr result (world.new.world ≡ world.old.world) }
    ensures refusals { world.new.refusals ≡ world.old.refusals }
    ensures forgotten { OnOk result (IsForgottenIfIdle (view_of_owner wanted.now.owner) world.new.world world.new) }
{
    world.lock(&wanted.request())
}

// Whoever holds nothing there any more is forgotten, unless he holds a lock or waits.
fn unlock<R: RangeTable, S: HostStore>(world: &mut World<R, S>, range: &Range) -> Result<(), NoRuns>
    ensures refused { IsErr result ↔ IsTrue (refuses 65536 world.old.world.settings (view_of_range range.now)) }
    ensures ok { OnOk result (world.new.world ≡ with_setting world.old.world (view_of_range range.now)) }
    ensures err { OnErr result (world.new.world ≡ world.old.world) }
    ensures refusals { world.new.refusals ≡ world.old.refusals }
    ensures forgotten { OnOk result (IsForgottenIfIdle (view_of_owner range.now.owner) world.new.world world.new) }
{
    let done = world.set(&range.setting());
    world.forget_idle(&range.owner);
    done
}

/// Makes the change, without memory. No waiter is granted yet.
pub fn make_change<R: RangeTable, S: HostStore>(world: &mut World<R, S>, change: Change)
    requires fits { FitsChange change world.old.world }
    requires ready { IsReadyFor change world.old }
    ensures world { world.new.world ≡ changed_world change world.old.world }
    ensures refusals { world.new.refusals ≡ world.old.refusals }
    ensures forgotten { IsForgottenBy change world.old.world.calls world.new }
{
    // What ends is dropped by a call: in place, each of its parts is proved here.
    match change {
        Change::Nothing => {}
        Change::Lock(wanted) => {
            let _ = lock(world, &wanted);
            drop(wanted);
        }
        Change::Unlock(range) => {
            let _ = unlock(world, &range);
            drop(range);
        }
        Change::Wait(wanted, callback) => {
            world.wait(&wanted.request(), callback);
            drop(wanted);
        }
        Change::Cancel(wanted) => {
            let _ = world.cancel(&wanted.request());
            world.forget_idle(&wanted.owner);
            drop(wanted);
        }
        Change::Share(share) => {
            let _ = world.share(share);
        }
        Change::Unshare(share) => {
            world.unshare(&share);
            drop(share);
        }
        Change::DropHost(name) => world.drop_host(&name),
        Change::GrantAnswered { cookie, stat } => {
            granted_res(world, cookie.as_slice(), stat);
            drop(cookie);
        }
        Change::Restart(notices) => world.begin(notices),
    }
}

/// Gets all memory that the plan takes, and asks the store. Starved: the plan is given up, and the world stays.
pub fn reserve_and_ask<R: RangeTable, S: HostStore>(
    world: &mut World<R, S>,
    plan: &Plan,
) -> Result<StoreAnswer, Starved>
    requires fits { Fits plan.now world.old.world }
    requires asks { CanAsk plan.now world.old.world }
    ensures answer { IfOk result (λ answer. IsAnswerTo plan.now (view_of_stored answer)) }
    ensures limit { IfOk result (λ answer. IsWithin plan.now (view_of_stored answer) world.old.world) }
    ensures world { IfOk result (λ answer. world.new.world ≡ world_after_store plan.now (view_of_stored answer) world.old.world) }
    ensures counts { IfOk result (λ answer. world.new.refusals ≡ refusal_count (view_of_stored answer) world.old.refusals) }
    ensures fits { IfOk result (λ answer. FitsUnder (view_of_stored answer) plan.now world.new.world) }
    ensures ready { OnOk result (IsReady plan.now world.new) }
    ensures err { OnErr result ((world.new.world ≡ world.old.world) × (world.new.refusals ≡ world.old.refusals)) }
    ensures forgotten { OnErr result (IsForgotten plan.now world.new.world world.new) }
{
    let agreed = match reserve(world, plan) {
        Ok(()) => ask(world, plan),
        Err(starved) => Err(starved),
    };
    if agreed.is_err() {
        abandon(world, plan);
    }
    agreed
}
