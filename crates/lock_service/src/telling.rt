//! How a call is told what it came to: by its reply, or, for the message forms, by an empty reply and a call to its host
//! (XNFS, NLM_LOCK_MSG and its like). Where no place is free for that call, nothing is done.
ghost use Rattle.std.specs.Prelude.{◌≡◌, ◌≤◌, ◌<◌, Bool, false, IfOk};
ghost use Rattle.definitions.specs.Answer.{gives};
ghost use Rattle.definitions.specs.Replies.{SystemErr};
ghost use Rattle.definitions.specs.Rulings.{decided_ruling};
ghost use Rattle.definitions.specs.World.{World as SaidWorld, the_limits, slots_free};
ghost use Rattle.callbacks.specs.Meanings.{view_of_message, view_of_told_res};
ghost use Rattle.nlm4_types.specs.Stat.{view_of_stat};
ghost use Rattle.nlm4_types.specs.Version.{view_of_version};
ghost use Rattle.call_plans.specs.Planned.{told_in, AsksOnlyIf, FitsDue, IsPlan};
ghost use Rattle.lock_service.specs.Tellings.{places, result_message, told_as, IsAnswered, IsAnsweredIn};
ghost use Rattle.lock_service.specs.Verdicts.{OnlyAsksIf};

use crate::copies::cookie_of;
use crate::verdict::Verdict;
use call_codec::{CallResult, Outcome};
use call_plans::{Change, Plan, PlannedAnswer, Response};
use callbacks::{Callback, Destination, Message, OwnedRes, ShortBytes};
use nlm4_types::{Name, Netobj, Stat, Version};
use owner_ids::Starved;
use std::alloc::Global;

/// How a call is told.
#[derive(Clone, Copy)]
pub(crate) enum Form {
    /// By its reply.
    Reply,
    /// By an empty reply, and a call to its host, which takes a place.
    Message,
}

impl Form {
    /// How many places it takes.
    pub(crate) fn places(self) -> usize
        ensures { result ≡ places self }
    {
        match self {
            Form::Reply => 0,
            Form::Message => 1,
        }
    }
}

/// The calls that tell a status to a host.
#[derive(Clone, Copy)]
pub(crate) enum ResultCall {
    Lock,
    Cancel,
    Unlock,
}

impl ResultCall {
    fn message(self, version: Version, res: OwnedRes) -> Message
        ensures { view_of_message result ≡ result_message self (view_of_version version) (view_of_told_res res) }
    {
        match self {
            ResultCall::Lock => Message::LockResult { version, res },
            ResultCall::Cancel => Message::CancelResult { version, res },
            ResultCall::Unlock => Message::UnlockResult { version, res },
        }
    }
}

/// Who is told a status, and how: the version and the cookie of the call, its host, and the call that answers its message
/// form.
#[derive(Clone, Copy)]
pub(crate) struct Telling<'r> {
    pub form: Form,
    pub result: ResultCall,
    pub version: Version,
    pub cookie: Netobj<'r>,
    pub host: Name<'r>,
}

impl Telling<'_> {
    // What changes, and then what is told of it.
    fn answer(&self, alloc: Global, stat: Stat, change: Change) -> Result<PlannedAnswer, Starved>
        ensures change { IfOk result (λ made. made.change ≡ change) }
        ensures told { IfOk result (λ made. (w : SaidWorld) → told_in made.told w ≡ told_as self.now.form self.now (view_of_stat stat) w) }
        ensures fits { IfOk result (λ made. (w : SaidWorld) → places self.now.form ≤ slots_free the_limits w → FitsDue made.told w) }
    {
        let Ok(told) = self.told(alloc, stat) else {
            drop(change);
            return Err(Starved);
        };
        Ok(PlannedAnswer { told, change })
    }

    // The status as the call's version shows it.
    fn told(&self, alloc: Global, stat: Stat) -> Result<Response, Starved>
        ensures told { IfOk result (λ made. (w : SaidWorld) → told_in made w ≡ told_as self.now.form self.now (view_of_stat stat) w) }
        ensures fits { IfOk result (λ made. (w : SaidWorld) → places self.now.form ≤ slots_free the_limits w → FitsDue made w) }
    {
        let cookie = cookie_of(alloc, &self.cookie)?;
        let stat = stat.shown_in(self.version);
        let res = OwnedRes { cookie, stat };
        match self.form {
            Form::Reply => Response::reply(alloc, Outcome::Success(CallResult::Res(res))),
            Form::Message => {
                let to = Destination::Host(ShortBytes::copy_of(alloc, self.host.bytes)?);
                let message = self.result.message(self.version, res);
                Response::message(alloc, Callback::new(to, message))
            }
        }
    }
}

impl Verdict {
    /// The plan that tells it, where so many places are free. Where they are too few, nothing is done.
    pub(crate) fn told(
        self,
        alloc: Global,
        free: usize,
        telling: &Telling<'_>,
    ) -> Result<Plan, Starved>
        ensures plan { IfOk result (λ made. IsAnswered free telling.now self made) }
        ensures asks { IfOk result (λ made. (allowed : Bool) → OnlyAsksIf allowed self → AsksOnlyIf allowed made) }
    {
        if free < telling.form.places() {
            drop(self);
            return no_place(alloc);
        }
        self.told_in_place(alloc, telling)
    }

    fn told_in_place(self, alloc: Global, telling: &Telling<'_>) -> Result<Plan, Starved>
        ensures plan { IfOk result (λ made. (w : SaidWorld) → IsAnsweredIn w telling.now self made) }
        ensures asks { IfOk result (λ made. (allowed : Bool) → OnlyAsksIf allowed self → AsksOnlyIf allowed made) }
    {
        match self {
            Verdict::Decided { stat, change } => {
                telling.answer(alloc, stat, change).map(Plan::Decided)
            }
            Verdict::AfterStore {
                asked,
                stat,
                change,
            } => {
                let Ok(agreed) = telling.answer(alloc, stat, change) else {
                    drop(asked);
                    return Err(Starved);
                };
                let Ok(refused) = telling.told(alloc, Stat::DeniedNolocks) else {
                    drop(asked);
                    drop(agreed);
                    return Err(Starved);
                };
                Ok(Plan::AfterStore {
                    asked,
                    agreed,
                    refused,
                })
            }
        }
    }
}

/// There is no place for the call that would tell what came of it.
pub(crate) fn no_place(alloc: Global) -> Result<Plan, Starved>
    ensures plan { IfOk result (λ made. (w : SaidWorld) → IsPlan (decided_ruling (gives w SystemErr)) w made) }
    ensures asks { IfOk result (λ made. (allowed : Bool) → AsksOnlyIf allowed made) }
{
    let told = Response::reply(alloc, Outcome::SystemErr)?;
    Ok(Plan::Decided(PlannedAnswer {
        told,
        change: Change::Nothing,
    }))
}
