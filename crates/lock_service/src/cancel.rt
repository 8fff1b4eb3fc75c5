//! CANCEL and CANCEL_MSG: an owner waits for a lock no longer (XNFS, NLM_CANCEL and NLM_CANCEL_MSG). The `block` is unused.
ghost use Rattle.std.specs.Prelude.{ℕ, false, IfOk};
ghost use Rattle.definitions.specs.Answer.{cancel_answer};
ghost use Rattle.nlm4_types.specs.Arguments.{view_of_cancargs};
ghost use Rattle.call_plans.specs.Planned.{IsPlan, AsksOnlyIf};
ghost use Rattle.lock_service.specs.Procedures.{cancel_telling};
ghost use Rattle.lock_service.specs.Tellings.{telling_of};
ghost use Rattle.lock_service.specs.Verdicts.{IsVerdict, OnlyAsksIf};

use crate::checks::place_of;
use crate::copies::wanted_of;
use crate::telling::{Form, ResultCall, Telling};
use crate::verdict::Verdict;
use call_plans::{Change, Plan};
use grace::CallKind;
use hosts_db::HostStore;
use lock_state::World;
use nlm4_types::{CancelArgs, Stat, Version, WIDE};
use owner_ids::Starved;
use range_table::RangeTable;

pub(crate) fn plan<R: RangeTable, S: HostStore>(
    world: &World<R, S>,
    version: Version,
    args: &CancelArgs<'_, WIDE>,
    form: Form,
) -> Result<Plan, Starved>
    ensures plan { IfOk result (λ made. IsPlan (telling_of form (cancel_telling form version args.now) world.now.world (cancel_answer world.now.world (view_of_cancargs args.now))) world.now.world made) }
    ensures asks { IfOk result (AsksOnlyIf false) }
{
    let telling = Telling {
        form,
        result: ResultCall::Cancel,
        version,
        cookie: args.cookie,
        host: args.alock.caller_name,
    };
    verdict(world, args)?.told(world.alloc(), world.free_slots(), &telling)
}

fn verdict<R: RangeTable, S: HostStore>(
    world: &World<R, S>,
    args: &CancelArgs<'_, WIDE>,
) -> Result<Verdict, Starved>
    ensures verdict { IfOk result (λ made. (reserved : ℕ) → IsVerdict (cancel_answer world.now.world (view_of_cancargs args.now)) reserved world.now.world made) }
    ensures asks { IfOk result (OnlyAsksIf false) }
{
    let place = match place_of(world, CallKind::Cancelling, &args.alock) {
        Ok(place) => place,
        Err(stat) => return Ok(Verdict::of_stat(stat)),
    };
    let wanted = wanted_of(world.alloc(), &place, args.exclusive, &args.alock)?;
    if !world.is_waiting(&wanted.request()) {
        return Ok(Verdict::of_stat(Stat::Denied));
    }
    Ok(Verdict::Decided {
        stat: Stat::Granted,
        change: Change::Cancel(wanted),
    })
}
