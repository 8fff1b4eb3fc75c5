//! SM_SIMU_CRASH: for a local peer a restart that keeps the connections (XNFS).
ghost use Rattle.std.specs.Prelude.{IfOk};
ghost use Rattle.definitions.specs.Nsm.{SmSimuCrash};
ghost use Rattle.definitions.specs.World.{the_limits};
ghost use Rattle.definitions.specs.Answer.{nsm_answer};
ghost use Rattle.call_plans.specs.Planned.{IsPlan};

use super::stat;
use call_codec::{CallResult, Outcome};
use call_plans::{Asked, Change, Plan, PlannedAnswer, Response, World};
use hosts_db::HostStore;
use owner_ids::Starved;
use range_table::RangeTable;

pub(crate) fn plan<R: RangeTable, S: HostStore>(
    world: &World<R, S>,
    local: bool,
) -> Result<Plan, Starved>
    ensures { IfOk result (λ made. IsPlan (nsm_answer the_limits world.now.world local SmSimuCrash) world.now.world made) }
{
    if !local {
        return stat::nothing(world);
    }
    let alloc = world.alloc();
    let notices = world.notices()?;
    let told = Response::reply(alloc, Outcome::Success(CallResult::Nothing))?;
    let refused = Response::reply(alloc, Outcome::SystemErr)?;
    Ok(Plan::AfterStore {
        asked: Asked::Begin,
        agreed: PlannedAnswer {
            told,
            change: Change::Restart(notices),
        },
        refused,
    })
}
