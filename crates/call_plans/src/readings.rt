//! What is read of a plan.
ghost use Rattle.std.specs.Prelude.{◌≡◌};
ghost use Rattle.definitions.specs.World.{World as SaidWorld};
ghost use Rattle.definitions.specs.Rulings.{ruled_answer};
ghost use Rattle.call_codec.specs.OutcomeValues.{view_of_outcome};
ghost use Rattle.held_locks.specs.Asked.{view_of_request, view_of_new_setting};
ghost use Rattle.call_plans.specs.Planned.{view_of_stored, ruling_of_plan, view_of_wanted, view_of_range};

use crate::plans::{Plan, Range, Response, WantedLock};
use step_order::StoreAnswer;

impl Range {
    /// The same, as the locks take it.
    pub fn setting(&self) -> held_locks::NewSetting<'_>
        ensures { view_of_new_setting result ≡ view_of_range self.now }
    {
        held_locks::NewSetting {
            file: self.file,
            owner: &self.owner,
            range: self.range,
            mode: None,
        }
    }
}

impl WantedLock {
    /// The same, as the locks are asked.
    pub fn request(&self) -> held_locks::Request<'_>
        ensures { view_of_request result ≡ view_of_wanted self.now }
    {
        held_locks::Request {
            file: self.file,
            owner: &self.owner,
            range: self.range,
            mode: self.mode,
        }
    }
}

impl Plan {
    /// What will be told under this answer of the store, known before the plan is done.
    pub fn told(&self, store: StoreAnswer) -> &Response
        ensures outcome { (w : SaidWorld) → view_of_outcome result.now.outcome.told.value ≡ (ruled_answer (view_of_stored store) (ruling_of_plan self.now w)).outcome }
        ensures due { (w : SaidWorld) → result.now.due.items ≡ (ruled_answer (view_of_stored store) (ruling_of_plan self.now w)).due }
    {
        match (self, store) {
            (Plan::Decided(answer), _) => &answer.told,
            (Plan::AfterStore { agreed, .. }, StoreAnswer::Yes) => &agreed.told,
            (Plan::AfterStore { refused, .. }, StoreAnswer::NotAsked | StoreAnswer::Refused) => {
                refused
            }
        }
    }
}
