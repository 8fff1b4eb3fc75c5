//! TEST: whether a lock could be had, or who is in the way (XNFS, NLM_TEST).
ghost use Rattle.std.specs.Prelude.{◌≡◌, ◌<◌, ◌^◌, false, None, IfOk};
ghost use Rattle.definitions.specs.Nlm as nlm;
ghost use Rattle.definitions.specs.World.{the_limits};
ghost use Rattle.definitions.specs.Ranges.{shown_oh as oh_said, shown_svid as svid_said};
ghost use Rattle.definitions.specs.Shown.{free_test, nobody as nobody_said, shown_holder as holder_said};
ghost use Rattle.definitions.specs.Answer.{nlm_answer, test_answer};
ghost use Rattle.nlm4_types.specs.Version.{view_of_version};
ghost use Rattle.nlm4_types.specs.Arguments.{view_of_testargs};
ghost use Rattle.nlm4_types.specs.Stat.{view_of_stat};
ghost use Rattle.owner_ids.specs.Views.{view_of_owner};
ghost use Rattle.callbacks.specs.Meanings.{view_of_told_test_res, view_of_told_holder};
ghost use Rattle.held_locks.specs.Asked.{view_of_lock_holder};
ghost use Rattle.lock_state.specs.Whole.{IsShown};
ghost use Rattle.call_plans.specs.Planned.{IsPlan, AsksOnlyIf};

use crate::checks::place_of;
use crate::copies::{cookie_of, mode_of, owner_of};
use crate::telling::no_place;
use call_codec::{CallResult, Outcome};
use call_plans::{Change, Plan, PlannedAnswer, Response};
use callbacks::{Callback, Destination, Message, OwnedHolder, OwnedTestRes, ShortBytes};
use grace::CallKind;
use hosts_db::HostStore;
use lock_state::World;
use nlm4_types::{Stat, TestArgs, Version, WIDE};
use owner_ids::{Owner, Starved};
use range_table::{Mode, RangeTable};
use std::alloc::Global;

pub(crate) fn plan<R: RangeTable, S: HostStore>(
    world: &World<R, S>,
    version: Version,
    args: &TestArgs<'_, WIDE>,
) -> Result<Plan, Starved>
    ensures plan { IfOk result (λ made. IsPlan (nlm_answer the_limits world.now.world (view_of_version version) (nlm.Test (view_of_testargs args.now))) world.now.world made) }
    ensures asks { IfOk result (AsksOnlyIf false) }
{
    let res = test_res(world, version, args)?;
    Ok(Plan::Decided(PlannedAnswer {
        told: Response::reply(
            world.alloc(),
            Outcome::Success(CallResult::TestRes(version, res)),
        )?,
        change: Change::Nothing,
    }))
}

/// TEST_MSG: told by TEST_RES to the caller's host.
#[inline(never)]
pub(crate) fn plan_message<R: RangeTable, S: HostStore>(
    world: &World<R, S>,
    version: Version,
    args: &TestArgs<'_, WIDE>,
) -> Result<Plan, Starved>
    ensures plan { IfOk result (λ made. IsPlan (nlm_answer the_limits world.now.world (view_of_version version) (nlm.TestMsg (view_of_testargs args.now))) world.now.world made) }
    ensures asks { IfOk result (AsksOnlyIf false) }
{
    let alloc = world.alloc();
    if world.free_slots() == 0 {
        return no_place(alloc);
    }
    let res = test_res(world, version, args)?;
    let host = ShortBytes::copy_of(alloc, args.alock.caller_name.bytes)?;
    let callback = Callback::new(
        Destination::Host(host),
        Message::TestResult { version, res },
    );
    let told = Response::message(alloc, callback)?;
    Ok(Plan::Decided(PlannedAnswer {
        told,
        change: Change::Nothing,
    }))
}

// What it comes to, as the version shows it.
fn test_res<R: RangeTable, S: HostStore>(
    world: &World<R, S>,
    version: Version,
    args: &TestArgs<'_, WIDE>,
) -> Result<OwnedTestRes, Starved>
    ensures { IfOk result (λ res. view_of_told_test_res res ≡ test_answer world.now.world (view_of_version version) (view_of_testargs args.now)) }
{
    let alloc = world.alloc();
    let cookie = cookie_of(alloc, &args.cookie)?;
    let place = match place_of(world, CallKind::Testing, &args.alock) {
        Ok(place) => place,
        Err(stat) => return unheld(alloc, version, cookie, stat),
    };
    let Ok(owner) = owner_of(alloc, &args.alock) else {
        drop(cookie);
        return Err(Starved);
    };
    let wanted = held_locks::Request {
        file: place.file,
        owner: &owner,
        range: place.range,
        mode: mode_of(args.exclusive),
    };
    let res = match world.first_conflict(&wanted) {
        None => unheld(alloc, version, cookie, Stat::Granted),
        Some(found) => match holder_of(alloc, version, &found) {
            Ok(holder) => Ok(OwnedTestRes {
                cookie,
                stat: Stat::Denied,
                holder: Some(holder),
            }),
            Err(starved) => {
                drop(cookie);
                Err(starved)
            }
        },
    };
    // By a call: in place, each kind of owner would be proved to be dropped in each arm.
    drop(owner);
    res
}

// A status without a run in the way. Where the version shows it as a denial, nobody is its holder.
fn unheld(
    alloc: Global,
    version: Version,
    cookie: ShortBytes,
    stat: Stat,
) -> Result<OwnedTestRes, Starved>
    ensures { IfOk result (λ res. view_of_told_test_res res ≡ free_test (view_of_version version) cookie (view_of_stat stat)) }
{
    let stat = stat.shown_in(version);
    let holder = match stat {
        Stat::Denied => Some(nobody(alloc)?),
        _ => None,
    };
    Ok(OwnedTestRes {
        cookie,
        stat,
        holder,
    })
}

fn nobody(alloc: Global) -> Result<OwnedHolder, Starved>
    ensures { IfOk result (λ holder. view_of_told_holder holder ≡ nobody_said) }
{
    Ok(OwnedHolder {
        exclusive: false,
        svid: 0,
        oh: ShortBytes::copy_of(alloc, &[])?,
        l_offset: 0,
        l_len: 0,
    })
}

// Who is in the way, as the version shows it.
fn holder_of(
    alloc: Global,
    version: Version,
    found: &held_locks::RunHolder<'_>,
) -> Result<OwnedHolder, Starved>
    requires { IsShown (view_of_owner found.now.owner.now) × (found.now.last < 2 ^ 63) }
    ensures { IfOk result (λ holder. view_of_told_holder holder ≡ holder_said (view_of_version version) (view_of_lock_holder found.now)) }
{
    Ok(OwnedHolder {
        exclusive: found.mode.is_same(Mode::Exclusive),
        svid: shown_svid(found.owner),
        oh: shown_oh(alloc, found.owner)?,
        l_offset: version.offset_shown(found.first),
        l_len: version.len_shown(found.first, found.last),
    })
}

fn shown_svid(owner: &Owner) -> i32
    requires { IsShown (view_of_owner owner.now) }
    ensures { result ≡ svid_said (view_of_owner owner.now) }
{
    match owner {
        Owner::Remote { svid, .. } => *svid,
        Owner::Process(pid) => *pid as i32,
        Owner::Description(_) => -1,
    }
}

#[tactic(auto, using(nlm4_types::proofs::Eight::eight_bytes_written))]
fn shown_oh(alloc: Global, owner: &Owner) -> Result<ShortBytes, Starved>
    requires { IsShown (view_of_owner owner.now) }
    ensures { IfOk result (λ oh. oh ≡ oh_said (view_of_owner owner.now)) }
{
    Ok(match owner {
        Owner::Remote { oh, .. } => ShortBytes::copy_of(alloc, oh.as_slice())?,
        Owner::Process(_) => ShortBytes::copy_of(alloc, &[])?,
        Owner::Description(number) => ShortBytes::copy_of(alloc, &number.to_be_bytes())?,
    })
}
