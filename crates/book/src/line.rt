//! A local program's line is answered.
ghost use Rattle.std.specs.Prelude.{◌≡◌, ℕ, IfOk, OnErr};
ghost use Rattle.definitions.specs.Hosts.{NotAsked};
ghost use Rattle.definitions.specs.Replies.{Line, LineReply, LineStarved};
ghost use Rattle.definitions.specs.Step.{Local, Applied, Starved as IsStarved, Says};
ghost use Rattle.call_plans.specs.Planned.{view_of_stored, refusal_count};
ghost use Rattle.local_ops.specs.Answers.{view_of_local_answer};
ghost use Rattle.local_ops.specs.Calls.{view_of_local_call};
ghost use Rattle.lock_service.specs.Lined.{view_of_set_line};
ghost use Rattle.book.specs.Given.{comes_to};
ghost use Rattle.book.specs.Lines.{IsDone, IsAnsweredOnly};
ghost use Rattle.book.specs.Notes.{AsksLine, IsStep, Steps};

use crate::state::BookState;
use hosts_db::HostStore;
use local_ops::{LocalAnswer, LocalCall};
use lock_service::{
    SetLine, StoreAnswer, close_file, get_lock, list_hosts, list_table, set_lock, set_quota,
};
use owner_ids::Starved;
use range_table::RangeTable;

impl<R: RangeTable, S: HostStore> BookState<R, S> {
    /// A line, without its line feed, on the local connection of this number: what it is answered, and what the store
    /// answered. Starved: there is no memory for it, and nothing has changed.
    pub(crate) fn line(
        &mut self,
        connection: u64,
        bytes: &[u8],
    ) -> Result<(LocalAnswer, StoreAnswer), Starved>
        ensures ok { IfOk result (λ told. Steps self.old.state (AsksLine connection bytes.now) (comes_to Applied (view_of_stored told.1) (Says (view_of_local_answer told.0))) self.new.state) }
        ensures err { OnErr result (Steps self.old.state (AsksLine connection bytes.now) (comes_to IsStarved NotAsked (Says LineStarved)) self.new.state) }
        ensures counts { IfOk result (λ told. self.new.refusals ≡ refusal_count (view_of_stored told.1) self.old.refusals) }
        ensures refusals { OnErr result (self.new.refusals ≡ self.old.refusals) }
    {
        match LocalCall::read(bytes) {
            Ok(call) => self.asked(connection, &call),
            Err(_) => self.settled(Ok(LocalAnswer::Bad)),
        }
    }

    fn asked(
        &mut self,
        connection: u64,
        call: &LocalCall,
    ) -> Result<(LocalAnswer, StoreAnswer), Starved>
        ensures ok { IfOk result (λ told. IsStep self.old.state (Local connection (view_of_local_call call.now)) (comes_to Applied (view_of_stored told.1) (Says (view_of_local_answer told.0))) self.new.state) }
        ensures err { OnErr result (IsStep self.old.state (Local connection (view_of_local_call call.now)) (comes_to IsStarved NotAsked (Says LineStarved)) self.new.state) }
        ensures counts { IfOk result (λ told. self.new.refusals ≡ refusal_count (view_of_stored told.1) self.old.refusals) }
        ensures refusals { OnErr result (self.new.refusals ≡ self.old.refusals) }
    {
        match call {
            LocalCall::GetLock { mode, lock } => {
                let told = get_lock(&self.world, *mode, lock);
                self.settled(told)
            }
            LocalCall::SetLock { mode, lock } => self.set(&SetLine {
                connection,
                waits: false,
                mode: *mode,
                lock,
            }),
            LocalCall::SetLockWait { mode, lock } => self.set(&SetLine {
                connection,
                waits: true,
                mode: *mode,
                lock,
            }),
            LocalCall::Close { owner, file } => {
                close_file(&mut self.world, owner, file);
                Ok((LocalAnswer::Done, StoreAnswer::NotAsked))
            }
            LocalCall::Quota(quota) => Ok(set_quota(&mut self.world, quota)),
            LocalCall::Table => {
                let told = list_table(&self.world);
                self.settled(told)
            }
            LocalCall::Hosts => {
                let told = list_hosts(&self.world);
                self.settled(told)
            }
            LocalCall::Stop => self.settled(Ok(LocalAnswer::Done)),
        }
    }

    // Of `setlk`, and of `setlkw`.
    fn set(&mut self, line: &SetLine<'_>) -> Result<(LocalAnswer, StoreAnswer), Starved>
        ensures ok { IfOk result (λ told. IsStep self.old.state (Local line.now.connection (view_of_set_line line.now)) (comes_to Applied (view_of_stored told.1) (Says (view_of_local_answer told.0))) self.new.state) }
        ensures err { OnErr result (IsStep self.old.state (Local line.now.connection (view_of_set_line line.now)) (comes_to IsStarved NotAsked (Says LineStarved)) self.new.state) }
        ensures counts { IfOk result (λ told. self.new.refusals ≡ refusal_count (view_of_stored told.1) self.old.refusals) }
        ensures refusals { OnErr result (self.new.refusals ≡ self.old.refusals) }
    {
        let answer = set_lock(&mut self.world, line)?;
        Ok((answer, StoreAnswer::NotAsked))
    }

    // What a line was told that by itself changes nothing: unless it starved, what waits for what is free is granted.
    fn settled(
        &mut self,
        told: Result<LocalAnswer, Starved>,
    ) -> Result<(LocalAnswer, StoreAnswer), Starved>
        ensures ok { (l : ℕ) (line : Line) (reply : LineReply) → IsAnsweredOnly self.old.state l line reply → IfOk told (λ answer. view_of_local_answer answer ≡ reply) → IfOk result (IsDone self.old.state l line self.new.state) }
        ensures err { (l : ℕ) (line : Line) → OnErr result (IsStep self.old.state (Local l line) (comes_to IsStarved NotAsked (Says LineStarved)) self.new.state) }
        ensures counts { IfOk result (λ made. self.new.refusals ≡ refusal_count (view_of_stored made.1) self.old.refusals) }
        ensures refusals { OnErr result (self.new.refusals ≡ self.old.refusals) }
    {
        let answer = told?;
        self.world.settle();
        Ok((answer, StoreAnswer::NotAsked))
    }
}
