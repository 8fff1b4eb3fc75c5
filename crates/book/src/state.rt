//! The shared state: the world and the kept replies.
ghost use Rattle.std.specs.Prelude.{◌≡◌, [], IfOk};
ghost use Rattle.definitions.specs.Options.{view_of_rules};
ghost use Rattle.definitions.specs.Step.{opening_state_with, Silent, GraceOver, Restart, Applied, Starved as HasStarved};
ghost use Rattle.call_plans.specs.Planned.{refusal_count};
ghost use Rattle.book.specs.Given.{result_under, unbegun, view_of_completion};
ghost use Rattle.book.specs.Journal.{TakesMemory};
ghost use Rattle.book.specs.Notes.{given_in, view_of_operation, view_of_event, AsksLine, HearsAnswer, IsStep, Steps};

use crate::entries::NewEntry;
use crate::entry::Operation;
use crate::event::BookEvent;
use crate::kept::KeptReply;
use crate::reply::{Reply, Unanswered};
use crate::snapshot::Snapshot;
use crate::step_result::{Answered, Completion, EventStatus, StepResult};
use call_codec::AnswerReading;
use callbacks::ShortBytes;
use definitions::rules::Rules;
use hosts_db::{HostStore, StoreError};
use kept_replies::KeptReplies;
use local_ops::LocalAnswer;
use lock_service::{StoreAnswer, World, answered};
use owner_ids::Starved;
use range_table::RangeTable;
use std::alloc::Global;
use std::marker::Model;

/// What the events of the book act on. A contract sees it as the state of `definitions`, and how often the store refused.
pub(crate) struct BookState<R: RangeTable, S: HostStore> {
    pub(crate) world: World<R, S>,
    pub(crate) kept: KeptReplies<KeptReply>,
}

impl<R: RangeTable, S: HostStore> Model for BookState<R, S> {
    ghost use Rattle.book.specs.BookState.{BookState};

    ghost Value = { BookState };

    ghost view = { λ s. record { state = record { world = s.world.world; kept = s.kept }; refusals = s.world.refusals } };
}

// It is written out, so that each part of a world is proved to be dropped once.
impl<R: RangeTable + Drop, S: HostStore + Drop> Drop for BookState<R, S> {
    fn drop(self) {
        let BookState { world: _, kept: _ } = self;
    }
}

impl<R: RangeTable + Drop, S: HostStore + Drop> BookState<R, S> {
    pub(crate) fn new(
        alloc: Global,
        table: R,
        store: S,
        own_name: ShortBytes,
        rules: Rules,
    ) -> Result<BookState<R, S>, Starved>
        requires { R.settings table ≡ [] }
        ensures { IfOk result (λ made. made ≡ record { state = opening_state_with own_name (view_of_rules rules) (S.rows store); refusals = S.refusals store }) }
    {
        let kept = KeptReplies::new(alloc)?;
        Ok(BookState {
            world: World::new(alloc, table, store, own_name, rules)?,
            kept,
        })
    }
}

impl<R: RangeTable, S: HostStore> BookState<R, S> {
    /// Has the store hear where a host is. Nothing of the state changes.
    pub(crate) fn locate(&mut self, name: &[u8], address: &[u8]) -> Result<(), StoreError>
        ensures { self.new ≡ self.old }
    {
        self.world.locate(name, address)
    }

    /// One event: what it comes to, and what the journal notes of it.
    pub(crate) fn apply(&mut self, event: BookEvent) -> (StepResult, NewEntry)
        ensures step { Steps self.old.state (view_of_event event) result.0 self.new.state }
        ensures event { view_of_operation result.1.operation ≡ view_of_event event }
        ensures noted { result_under result.1.status (given_in result.1.operation) ≡ result.0 }
        ensures counts { self.new.refusals ≡ refusal_count result.0.store self.old.refusals }
        ensures fed { result.0.completion ≡ HasStarved → TakesMemory (view_of_event event) }
    {
        let (answered, event) = match event {
            BookEvent::Local { connection, line } => return self.local(connection, line),
            BookEvent::Take { peer, record } => {
                (self.take(peer, &record), BookEvent::Take { peer, record })
            }
            BookEvent::Answer { bytes } => (self.answer(&bytes), BookEvent::Answer { bytes }),
            BookEvent::Silent { number } => (self.silent(number), BookEvent::Silent { number }),
            BookEvent::GraceOver => (self.grace_over(), BookEvent::GraceOver),
            BookEvent::Restart => (self.restart(), BookEvent::Restart),
        };
        let Answered { step_result, noted } = answered;
        let new_entry = NewEntry {
            operation: Operation::Event {
                event,
                reply: noted,
            },
            status: step_result.status,
        };
        (step_result, new_entry)
    }

    #[inline(never)]
    fn local(&mut self, connection: u64, line: Vec<u8>) -> (StepResult, NewEntry)
        ensures step { Steps self.old.state (AsksLine connection line.items) result.0 self.new.state }
        ensures event { view_of_operation result.1.operation ≡ AsksLine connection line.items }
        ensures noted { result_under result.1.status (given_in result.1.operation) ≡ result.0 }
        ensures counts { self.new.refusals ≡ refusal_count result.0.store self.old.refusals }
    {
        let (status, answer) = match self.line(connection, &line) {
            Ok((answer, store)) => (EventStatus::applied(store), answer),
            Err(Starved) => (
                EventStatus::starved(StoreAnswer::NotAsked),
                LocalAnswer::Starved,
            ),
        };
        let operation = Operation::Line {
            connection,
            line,
            answer: Snapshot::of(&answer),
        };
        let step_result = StepResult {
            status,
            reply: Reply::Line(answer),
        };
        (step_result, NewEntry { operation, status })
    }

    #[inline(never)]
    fn answer(&mut self, bytes: &[u8]) -> Answered
        ensures step { Steps self.old.state (HearsAnswer bytes.now) result.step_result self.new.state }
        ensures counts { self.new.refusals ≡ refusal_count result.step_result.store self.old.refusals }
        ensures fed { result.step_result.completion ≡ Applied }
    {
        let reading = AnswerReading::read(bytes);
        Answered::nothing(answered(&mut self.world, &reading))
    }

    #[inline(never)]
    fn silent(&mut self, number: u64) -> Answered
        ensures step { IsStep self.old.state (Silent number) result.step_result self.new.state }
        ensures counts { self.new.refusals ≡ refusal_count result.step_result.store self.old.refusals }
        ensures fed { result.step_result.completion ≡ Applied }
    {
        self.world.silent(number);
        Answered::nothing(StoreAnswer::NotAsked)
    }

    fn grace_over(&mut self) -> Answered
        ensures step { IsStep self.old.state GraceOver result.step_result self.new.state }
        ensures counts { self.new.refusals ≡ refusal_count result.step_result.store self.old.refusals }
        ensures fed { result.step_result.completion ≡ Applied }
    {
        self.world.grace_over();
        Answered::nothing(StoreAnswer::NotAsked)
    }

    #[inline(never)]
    fn restart(&mut self) -> Answered
        ensures step { IsStep self.old.state Restart result.step_result self.new.state }
        ensures counts { self.new.refusals ≡ refusal_count result.step_result.store self.old.refusals }
    {
        let Ok(notices) = self.world.notices() else {
            return unstarted(EventStatus::starved(StoreAnswer::NotAsked));
        };
        match self.world.restart(notices) {
            Ok(()) => {
                self.kept.clear();
                Answered::nothing(StoreAnswer::Yes)
            }
            Err(StoreError::StoreRefused) => unstarted(EventStatus::applied(StoreAnswer::Refused)),
            Err(StoreError::Starved) => unstarted(EventStatus::starved(StoreAnswer::NotAsked)),
        }
    }
}

// The server did not begin anew, and there is nobody to answer.
fn unstarted(status: EventStatus) -> Answered
    ensures step_result { result.step_result ≡ result_under status (unbegun (view_of_completion status.completion)) }
{
    let reason = match status.completion {
        Completion::Applied => Unanswered::StoreRefused,
        Completion::Starved => Unanswered::Starved,
    };
    Answered::nobody(status, reason)
}
