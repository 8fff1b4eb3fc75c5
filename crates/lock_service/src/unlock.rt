//! UNLOCK and UNLOCK_MSG: an owner is to hold nothing of a range (XNFS, NLM_UNLOCK and NLM_UNLOCK_MSG).
ghost use Rattle.std.specs.Prelude.{◌≡◌, ℕ, false, None, IfOk};
ghost use Rattle.definitions.specs.LockRules.{unlock_rules as rules_said};
ghost use Rattle.definitions.specs.World.{the_limits};
ghost use Rattle.definitions.specs.Answer.{unlock_answer};
ghost use Rattle.nlm4_types.specs.Arguments.{view_of_unlockargs};
ghost use Rattle.call_plans.specs.Planned.{view_of_range, IsPlan, AsksOnlyIf};
ghost use Rattle.lock_service.specs.Procedures.{unlock_telling};
ghost use Rattle.lock_service.specs.Tellings.{telling_of};
ghost use Rattle.lock_service.specs.Verdicts.{IsVerdict, OnlyAsksIf};

use crate::checks::place_of;
use crate::copies::owner_of;
use crate::telling::{Form, ResultCall, Telling};
use crate::verdict::Verdict;
use call_plans::{Change, Plan, Range};
use grace::CallKind;
use hosts_db::HostStore;
use lock_state::World;
use nlm4_types::{Stat, UnlockArgs, Version, WIDE};
use owner_ids::Starved;
use range_table::RangeTable;

pub(crate) fn plan<R: RangeTable, S: HostStore>(
    world: &World<R, S>,
    version: Version,
    args: &UnlockArgs<'_, WIDE>,
    form: Form,
) -> Result<Plan, Starved>
    ensures plan { IfOk result (λ made. IsPlan (telling_of form (unlock_telling form version args.now) world.now.world (unlock_answer the_limits world.now.world (view_of_unlockargs args.now))) world.now.world made) }
    ensures asks { IfOk result (AsksOnlyIf false) }
{
    let telling = Telling {
        form,
        result: ResultCall::Unlock,
        version,
        cookie: args.cookie,
        host: args.alock.caller_name,
    };
    verdict(world, args)?.told(world.alloc(), world.free_slots(), &telling)
}

fn verdict<R: RangeTable, S: HostStore>(
    world: &World<R, S>,
    args: &UnlockArgs<'_, WIDE>,
) -> Result<Verdict, Starved>
    ensures verdict { IfOk result (λ made. (reserved : ℕ) → IsVerdict (unlock_answer the_limits world.now.world (view_of_unlockargs args.now)) reserved world.now.world made) }
    ensures asks { IfOk result (OnlyAsksIf false) }
{
    let place = match place_of(world, CallKind::Unlocking, &args.alock) {
        Ok(place) => place,
        Err(stat) => return Ok(Verdict::of_stat(stat)),
    };
    let range = Range {
        file: place.file,
        owner: owner_of(world.alloc(), &args.alock)?,
        range: place.range,
    };
    Ok(unlock_rules(world, range))
}

/// UNLOCK, and a line's `u`: refused where the table is short of runs and the unlock would raise their number, or where it
/// goes past its owner's host's quota.
pub(crate) fn unlock_rules<R: RangeTable, S: HostStore>(
    world: &World<R, S>,
    range: Range,
) -> Verdict
    ensures verdict { (reserved : ℕ) → IsVerdict (rules_said the_limits world.now.world (view_of_range range)) reserved world.now.world result }
    ensures asks { OnlyAsksIf false result }
{
    if world.is_refused(&range.setting()) {
        return Verdict::of_stat(Stat::DeniedNolocks);
    }
    Verdict::Decided {
        stat: Stat::Granted,
        change: Change::Unlock(range),
    }
}
