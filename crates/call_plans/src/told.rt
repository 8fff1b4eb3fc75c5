//! What is told, made of its parts.
ghost use Rattle.std.specs.Prelude.{◌≡◌, ◌≤◌, IfOk};
ghost use Rattle.call_codec.specs.OutcomeValues.{view_of_outcome};
ghost use Rattle.definitions.specs.Answer.{gives, sent_back};
ghost use Rattle.definitions.specs.World.{World as SaidWorld, slots_free, the_limits};
ghost use Rattle.call_plans.specs.Planned.{told_in, FitsDue};

use crate::plans::{Response, SharedOutcome};
use call_codec::{CallResult, Outcome};
use callbacks::Callback;
use owner_ids::Starved;
use std::alloc::Global;
use std::sync::Arc;

impl SharedOutcome {
    /// The outcome, for both.
    pub fn of(alloc: Global, outcome: Outcome) -> Result<SharedOutcome, Starved>
        ensures { IfOk result (λ made. made.told.value ≡ outcome) }
    {
        let told = match Arc::new(alloc, outcome) {
            Ok(told) => told,
            Err(_) => return Err(Starved),
        };
        let noted = Arc::try_clone(&told)?;
        Ok(SharedOutcome { told, noted })
    }
}

impl Response {
    /// The outcome alone: no call of the server's own goes with it.
    pub fn reply(alloc: Global, outcome: Outcome) -> Result<Response, Starved>
        ensures told { IfOk result (λ made. (w : SaidWorld) → told_in made w ≡ gives w (view_of_outcome outcome)) }
        ensures fits { IfOk result (λ made. (w : SaidWorld) → FitsDue made w) }
    {
        Ok(Response {
            outcome: SharedOutcome::of(alloc, outcome)?,
            due: Vec::new(alloc),
        })
    }

    /// An empty reply, and one call of the server's own that tells the rest.
    pub fn message(alloc: Global, callback: Callback) -> Result<Response, Starved>
        ensures told { IfOk result (λ made. (w : SaidWorld) → told_in made w ≡ sent_back callback w) }
        ensures fits { IfOk result (λ made. (w : SaidWorld) → 1 ≤ slots_free the_limits w → FitsDue made w) }
    {
        let Ok(mut due) = Vec::with_capacity(alloc, 1) else {
            drop(callback);
            return Err(Starved);
        };
        due.push_reserved(callback);
        Ok(Response {
            outcome: SharedOutcome::of(alloc, Outcome::Success(CallResult::Nothing))?,
            due,
        })
    }
}
