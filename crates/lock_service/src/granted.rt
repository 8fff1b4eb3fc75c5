//! GRANTED_RES: what a client says of a grant (XNFS, NLM_GRANTED_RES). It is answered without a result.
ghost use Rattle.std.specs.Prelude.{false, IfOk};
ghost use Rattle.definitions.specs.Nlm as nlm;
ghost use Rattle.definitions.specs.World.{World as SaidWorld, the_limits};
ghost use Rattle.definitions.specs.Answer.{nlm_answer};
ghost use Rattle.nlm4_types.specs.Results.{view_of_res};
ghost use Rattle.call_plans.specs.Planned.{IsPlan, AsksOnlyIf};

use crate::copies::cookie_of;
use call_codec::{CallResult, Outcome};
use call_plans::{Change, Plan, PlannedAnswer, Response};
use nlm4_types::Res;
use owner_ids::Starved;
use std::alloc::Global;

#[inline(never)]
pub(crate) fn plan(alloc: Global, args: &Res<'_>) -> Result<Plan, Starved>
    ensures plan { IfOk result (λ made. (w : SaidWorld) (version : nlm.Version) → IsPlan (nlm_answer the_limits w version (nlm.GrantedRes (view_of_res args.now))) w made) }
    ensures asks { IfOk result (AsksOnlyIf false) }
{
    let told = Response::reply(alloc, Outcome::Success(CallResult::Nothing))?;
    let cookie = cookie_of(alloc, &args.cookie)?;
    Ok(Plan::Decided(PlannedAnswer {
        told,
        change: Change::GrantAnswered {
            cookie,
            stat: args.stat,
        },
    }))
}
