//! What a call of the status monitor comes to, by procedure (XNFS, NSM): its plan, which changes nothing.
ghost use Rattle.std.specs.Prelude.{IfOk};
ghost use Rattle.definitions.specs.World.{the_limits};
ghost use Rattle.definitions.specs.Answer.{nsm_answer};
ghost use Rattle.nsm_types.specs.Call.{view_of_call};
ghost use Rattle.call_plans.specs.Planned.{IsPlan};

mod crash;
mod notify;
mod stat;
mod watches;

use call_plans::{Plan, World};
use hosts_db::HostStore;
use nsm_types::{MonitorRes, NsmCall};
use owner_ids::Starved;
use range_table::RangeTable;

/// What is to be done for a call of the status monitor, whether its peer is local or not (XNFS, NSM). Changes nothing.
/// Starved: there is no memory for the plan.
#[inline(never)]
pub(crate) fn plan<R: RangeTable, S: HostStore>(
    world: &World<R, S>,
    local: bool,
    call: &NsmCall<'_>,
) -> Result<Plan, Starved>
    ensures { IfOk result (λ made. IsPlan (nsm_answer the_limits world.now.world local (view_of_call call.now)) world.now.world made) }
{
    match call {
        NsmCall::Null => stat::nothing(world),
        NsmCall::Stat(_) => stat::plan(world, MonitorRes::Succ),
        NsmCall::Mon(args) => watches::mon(world, local, args),
        NsmCall::Unmon(args) => watches::unmon(world, local, args),
        NsmCall::UnmonAll(my_id) => watches::unmon_all(world, local, my_id),
        NsmCall::SimuCrash => crash::plan(world, local),
        NsmCall::Notify(args) => notify::plan(world, args),
    }
}
