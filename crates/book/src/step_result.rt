//! What an event comes to.
ghost use Rattle.std.specs.Prelude.{◌≡◌};
ghost use Rattle.definitions.specs.Hosts.{NotAsked};
ghost use Rattle.definitions.specs.Step.{Applied, Starved as IsStarved, Nothing, Replies};
ghost use Rattle.definitions.specs.Replies.{SystemErr, Refuses};
ghost use Rattle.call_codec.specs.OutcomeValues.{view_of_outcome};
ghost use Rattle.call_codec.specs.CallValues.{view_of_refusal};
ghost use Rattle.call_plans.specs.Planned.{view_of_stored};
ghost use Rattle.book.specs.declared.reply.Reply.TheVariants.{Nobody};
ghost use Rattle.book.specs.Given.{comes_to, result_under, view_of_completion, view_of_reply};

use crate::reply::{RecordReply, Reply, Unanswered};
use call_codec::{Outcome, Refusal};
use lock_service::StoreAnswer;
use std::alloc::Global;
use std::marker::Model;
use std::sync::Arc;

/// Whether an event was done, or met want of memory.
#[derive(Clone, Copy, PartialEq, Eq)]
pub enum Completion {
    Applied,
    Starved,
}

/// What became of an event, and what the store answered it.
#[derive(Clone, Copy, PartialEq, Eq)]
pub struct EventStatus {
    pub completion: Completion,
    pub store: StoreAnswer,
}

/// What an event came to: its status, and what it gives. Contracts see it in the words of `definitions`.
#[derive(Drop)]
pub struct StepResult {
    pub status: EventStatus,
    pub reply: Reply,
}

impl Model for StepResult {
    ghost use Rattle.book.specs.Given.{StepResult, result_under, view_of_reply};

    ghost Value = { StepResult };

    ghost view = { λ u. result_under u.status (view_of_reply u.reply) };
}

/// What an event came to, with its reply twice: for whoever asked, and for the journal.
#[derive(Drop)]
pub(crate) struct Answered {
    pub(crate) step_result: StepResult,
    pub(crate) noted: Reply,
    pub(crate) ghost same: { view_of_reply noted ≡ step_result.given },
}

impl EventStatus {
    pub(crate) fn applied(store: StoreAnswer) -> EventStatus
        ensures completion { view_of_completion result.completion ≡ Applied }
        ensures store { result.store ≡ store }
    {
        EventStatus {
            completion: Completion::Applied,
            store,
        }
    }

    /// There was no memory, when the store had answered so.
    pub(crate) fn starved(store: StoreAnswer) -> EventStatus
        ensures completion { view_of_completion result.completion ≡ IsStarved }
        ensures store { result.store ≡ store }
    {
        EventStatus {
            completion: Completion::Starved,
            store,
        }
    }
}

impl Answered {
    /// With this status, and this reply twice.
    fn of(status: EventStatus, reply: Reply, noted: Reply) -> Answered
        requires { view_of_reply noted ≡ view_of_reply reply }
        ensures { result.step_result ≡ result_under status (view_of_reply reply) }
    {
        Answered {
            step_result: StepResult { status, reply },
            noted,
        }
    }

    /// Nobody is answered, for this reason.
    pub(crate) fn nobody(status: EventStatus, reason: Unanswered) -> Answered
        ensures { result.step_result ≡ result_under status (view_of_reply (Nobody reason)) }
    {
        Answered::of(status, Reply::Nobody(reason), Reply::Nobody(reason))
    }

    /// The event was applied, and nobody is answered.
    pub(crate) fn nothing(store: StoreAnswer) -> Answered
        ensures { result.step_result ≡ comes_to Applied (view_of_stored store) Nothing }
    {
        Answered::nobody(EventStatus::applied(store), Unanswered::Nothing)
    }

    /// The call of this xid is not given to a procedure.
    pub(crate) fn refuses(xid: u32, refusal: Refusal) -> Answered
        ensures { result.step_result ≡ comes_to Applied NotAsked (Replies xid (Refuses (view_of_refusal refusal))) }
    {
        Answered::of(
            EventStatus::applied(StoreAnswer::NotAsked),
            Reply::Record(RecordReply::Refuses { xid, refusal }),
            Reply::Record(RecordReply::Refuses { xid, refusal }),
        )
    }

    fn system_err(status: EventStatus, xid: u32) -> Answered
        ensures { result.step_result ≡ result_under status (Replies xid SystemErr) }
    {
        Answered::of(
            status,
            Reply::Record(RecordReply::SystemErr { xid }),
            Reply::Record(RecordReply::SystemErr { xid }),
        )
    }

    /// There was no memory for the call of this xid, when the store had answered so.
    pub(crate) fn starved(store: StoreAnswer, xid: u32) -> Answered
        ensures { result.step_result ≡ comes_to IsStarved (view_of_stored store) (Replies xid SystemErr) }
    {
        Answered::system_err(EventStatus::starved(store), xid)
    }

    /// The call of this xid came again, and there are too few places for the calls that went with it.
    pub(crate) fn too_few_places(xid: u32) -> Answered
        ensures { result.step_result ≡ comes_to Applied NotAsked (Replies xid SystemErr) }
    {
        Answered::system_err(EventStatus::applied(StoreAnswer::NotAsked), xid)
    }

    /// The call of this xid was done, and its outcome is shared with the journal.
    pub(crate) fn answers(
        store: StoreAnswer,
        xid: u32,
        outcome: Arc<Outcome, Global>,
        noted: Arc<Outcome, Global>,
    ) -> Answered
        requires { view_of_outcome noted.value ≡ view_of_outcome outcome.value }
        ensures { result.step_result ≡ comes_to Applied (view_of_stored store) (Replies xid (view_of_outcome outcome.value)) }
    {
        Answered::of(
            EventStatus::applied(store),
            Reply::Record(RecordReply::Answers { xid, outcome }),
            Reply::Record(RecordReply::Answers {
                xid,
                outcome: noted,
            }),
        )
    }
}
