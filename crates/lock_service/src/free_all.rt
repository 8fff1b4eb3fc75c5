//! FREE_ALL: all that a host has goes (XNFS, NLM_FREE_ALL). Its state is unused.
ghost use Rattle.std.specs.Prelude.{false, IfOk};
ghost use Rattle.definitions.specs.Nlm as nlm;
ghost use Rattle.definitions.specs.World.{World as SaidWorld, the_limits};
ghost use Rattle.definitions.specs.Answer.{nlm_answer};
ghost use Rattle.call_plans.specs.Planned.{IsPlan, AsksOnlyIf};

use call_codec::{CallResult, Outcome};
use call_plans::{Change, Plan, PlannedAnswer, Response};
use nlm4_types::Notify;
use owner_ids::Starved;
use std::alloc::Global;

#[inline(never)]
pub(crate) fn plan(alloc: Global, args: &Notify<'_>) -> Result<Plan, Starved>
    ensures plan { IfOk result (λ made. (w : SaidWorld) (version : nlm.Version) → IsPlan (nlm_answer the_limits w version (nlm.FreeAll args.now.name.bytes.now args.now.state)) w made) }
    ensures asks { IfOk result (AsksOnlyIf false) }
{
    let told = Response::reply(alloc, Outcome::Success(CallResult::Nothing))?;
    let name = Vec::from_slice(alloc, args.name.bytes)?;
    Ok(Plan::Decided(PlannedAnswer {
        told,
        change: Change::DropHost(name),
    }))
}
