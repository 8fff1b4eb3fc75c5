//! SM_NULL and SM_STAT, and what the others show of the own state (XNFS).
ghost use Rattle.std.specs.Prelude.{◌≡◌, pos, IfOk};
ghost use Rattle.definitions.specs.World.{World as SaidWorld};
ghost use Rattle.definitions.specs.Replies.{Success, SystemErr, NoResult, MonitorResult};
ghost use Rattle.definitions.specs.Rulings.{decided_ruling};
ghost use Rattle.definitions.specs.Answer.{gives, gives_state, own_state, says};
ghost use Rattle.nsm_types.specs.Results.{view_of_monitor_res};
ghost use Rattle.call_plans.specs.Planned.{told_in, FitsDue, IsPlan};

use call_codec::{CallResult, Outcome};
use call_plans::{Change, Plan, PlannedAnswer, Response, World};
use hosts_db::HostStore;
use nsm_types::{MonitorRes, SmStat, SmStatRes};
use owner_ids::Starved;
use range_table::RangeTable;

/// An empty reply, and nothing changes.
pub(crate) fn nothing<R: RangeTable, S: HostStore>(world: &World<R, S>) -> Result<Plan, Starved>
    ensures { IfOk result (λ made. IsPlan (says world.now.world NoResult) world.now.world made) }
{
    Ok(unchanged(Response::reply(world.alloc(), Outcome::Success(CallResult::Nothing))?))
}

/// SYSTEM_ERR, and nothing changes.
pub(crate) fn failed<R: RangeTable, S: HostStore>(world: &World<R, S>) -> Result<Plan, Starved>
    ensures { IfOk result (λ made. IsPlan (decided_ruling (gives world.now.world SystemErr)) world.now.world made) }
{
    Ok(unchanged(Response::reply(world.alloc(), Outcome::SystemErr)?))
}

/// This result with the own state, and nothing changes.
pub(crate) fn plan<R: RangeTable, S: HostStore>(
    world: &World<R, S>,
    res: MonitorRes,
) -> Result<Plan, Starved>
    ensures { IfOk result (λ made. IsPlan (says world.now.world (MonitorResult (view_of_monitor_res res) (pos world.now.world.hosts.own))) world.now.world made) }
{
    Ok(unchanged(monitored(world, res)?))
}

/// The own state, and nothing changes.
pub(crate) fn state<R: RangeTable, S: HostStore>(world: &World<R, S>) -> Result<Plan, Starved>
    ensures { IfOk result (λ made. IsPlan (decided_ruling (gives_state world.now.world)) world.now.world made) }
{
    Ok(unchanged(own(world)?))
}

/// This result with the own state.
pub(crate) fn monitored<R: RangeTable, S: HostStore>(
    world: &World<R, S>,
    res: MonitorRes,
) -> Result<Response, Starved>
    ensures told { IfOk result (λ made. (w : SaidWorld) → told_in made w ≡ gives w (Success (MonitorResult (view_of_monitor_res res) (pos world.now.world.hosts.own)))) }
    ensures fits { IfOk result (λ made. (w : SaidWorld) → FitsDue made w) }
{
    let state = world.own_state() as i32;
    Response::reply(
        world.alloc(),
        Outcome::Success(CallResult::Monitor(SmStatRes { res, state })),
    )
}

/// The own state.
pub(crate) fn own<R: RangeTable, S: HostStore>(world: &World<R, S>) -> Result<Response, Starved>
    ensures told { IfOk result (λ made. (w : SaidWorld) → told_in made w ≡ gives w (Success (own_state world.now.world))) }
    ensures fits { IfOk result (λ made. (w : SaidWorld) → FitsDue made w) }
{
    let state = world.own_state() as i32;
    Response::reply(
        world.alloc(),
        Outcome::Success(CallResult::State(SmStat { state })),
    )
}

fn unchanged(told: Response) -> Plan
    ensures { (w : SaidWorld) → FitsDue told w → IsPlan (decided_ruling (told_in told w)) w result }
{
    Plan::Decided(PlannedAnswer {
        told,
        change: Change::Nothing,
    })
}
