//! Lines of local programs: `getlk`, `setlk`, `setlkw` and `close` (POSIX, fcntl and close).
ghost use Rattle.std.specs.Prelude.{◌≡◌, ◌<◌, ◌^◌, ℕ, false, None, Some, IfOk, IfErr, OnErr};
ghost use Rattle.definitions.specs.Hosts.{NotAsked};
ghost use Rattle.definitions.specs.LockRules.{lock_rules as lock_rules_said, unlock_rules as unlock_rules_said};
ghost use Rattle.definitions.specs.World.{World as SaidWorld, the_limits, settled_world, slots_free};
ghost use Rattle.definitions.specs.Ranges.{last_of as last_byte, line_unlock};
ghost use Rattle.definitions.specs.Replies.{Close};
ghost use Rattle.definitions.specs.Rulings.{ruled_answer};
ghost use Rattle.definitions.specs.Lines.{line_refusal, line_answer, line_told, line_word, get_unless, shown_run};
ghost use Rattle.owner_ids.specs.Views.{view_of_owner};
ghost use Rattle.range_table.specs.Modes.{view_of_mode};
ghost use Rattle.callbacks.specs.Meanings.{view_of_local_lock};
ghost use Rattle.held_locks.specs.Asked.{view_of_lock_holder};
ghost use Rattle.local_ops.specs.Answers.{view_of_local_answer};
ghost use Rattle.nlm4_types.specs.Stat.{view_of_stat};
ghost use Rattle.lock_state.specs.Seen.{AdmitsNobody};
ghost use Rattle.call_plans.specs.Planned.{view_of_range, FitsChange, IsForgottenIfIdle};
ghost use Rattle.call_plans.specs.declared.plans.Change.TheVariants.{Nothing};
ghost use Rattle.lock_service.specs.Lined.{line_planned, lock_asked, view_of_set_line};
ghost use Rattle.lock_service.specs.Verdicts.{verdict_in, FitsIn, IsVerdict, OnlyAsksIf};

use crate::checks::{CallRange, range_of};
use crate::lock_ask::{Grant, LockAsk};
use crate::lock_rules::lock_rules;
use crate::unlock::unlock_rules;
use crate::verdict::Verdict;
use call_plans::{Change, Range, WantedLock, reserve_for_change};
use callbacks::LocalLock;
use grace::{CallKind, admits};
use hosts_db::HostStore;
use local_ops::LocalAnswer;
use lock_state::World;
use nlm4_types::{Stat, shown_len};
use owner_ids::{Owner, Starved};
use range_table::{FileId, Mode, RangeTable};

/// What is to be done for `setlk` or `setlkw`: what is answered, and what changes. The store isn't asked.
#[derive(Drop)]
pub struct LinePlan {
    pub answer: LocalAnswer,
    pub change: Change,
}

/// A line that sets a lock, or takes one away where it has no mode, on the local connection of this number.
#[derive(Clone, Copy)]
pub struct SetLine<'r> {
    pub connection: u64,
    /// Whether it waits where another owner's lock is in the way: `setlkw`.
    pub waits: bool,
    pub mode: Option<Mode>,
    pub lock: &'r LocalLock,
}

/// The bytes that a line names, or what it is refused for.
fn place_of<R: RangeTable, S: HostStore>(
    world: &World<R, S>,
    lock: &LocalLock,
) -> Result<CallRange, LocalAnswer>
    ensures ok { IfOk result (λ p. (line_refusal world.now.world (view_of_local_lock lock.now) ≡ None) × (p.file ≡ lock.now.file) × (p.range.first ≡ lock.now.offset) × (p.range.last ≡ last_byte lock.now.offset lock.now.len)) }
    ensures err { IfErr result (λ answer. line_refusal world.now.world (view_of_local_lock lock.now) ≡ Some (view_of_local_answer answer)) }
{
    let Some(range) = range_of(lock.offset, lock.len) else {
        return Err(LocalAnswer::TooFar);
    };
    if !admits(world.phase(), &CallKind::LocalLocking) {
        return Err(LocalAnswer::Grace);
    }
    Ok(CallRange {
        file: lock.file,
        range,
    })
}

/// `getlk`: whether a lock could be had, or who is in the way. Changes nothing.
pub fn get_lock<R: RangeTable, S: HostStore>(
    world: &World<R, S>,
    mode: Mode,
    lock: &LocalLock,
) -> Result<LocalAnswer, Starved>
    ensures { IfOk result (λ answer. view_of_local_answer answer ≡ get_unless world.now.world (view_of_mode mode) (view_of_local_lock lock.now) (line_refusal world.now.world (view_of_local_lock lock.now))) }
{
    let place = match place_of(world, lock) {
        Ok(place) => place,
        Err(refusal) => return Ok(refusal),
    };
    let wanted = held_locks::Request {
        file: place.file,
        owner: &lock.owner,
        range: place.range,
        mode,
    };
    match world.first_conflict(&wanted) {
        None => Ok(LocalAnswer::Free),
        Some(found) => held_by(&found),
    }
}

// A lock that is in the way, as a line shows it.
fn held_by(found: &held_locks::RunHolder<'_>) -> Result<LocalAnswer, Starved>
    requires { found.now.last < 2 ^ 63 }
    ensures { IfOk result (λ answer. view_of_local_answer answer ≡ shown_run (Some (view_of_lock_holder found.now))) }
{
    Ok(LocalAnswer::Held {
        mode: found.mode,
        first: found.first,
        len: shown_len(found.first, found.last),
        owner: found.owner.clone()?,
    })
}

/// What such a line is to do. Changes nothing.
pub fn plan_set<R: RangeTable, S: HostStore>(
    world: &World<R, S>,
    line: &SetLine<'_>,
) -> Result<LinePlan, Starved>
    ensures plan { IfOk result (λ made. line_planned made world.now.world ≡ ruled_answer NotAsked (line_answer the_limits world.now.world line.now.connection (view_of_set_line line.now))) }
    ensures fits { IfOk result (λ made. FitsChange made.change world.now.world) }
{
    let place = match place_of(world, line.lock) {
        Ok(place) => place,
        Err(refusal) => return Ok(plan_to_say(refusal)),
    };
    let verdict = match line.mode {
        Some(mode) => lock_verdict(world, &place, mode, line)?,
        None => unlock_verdict(world, &place, line.lock)?,
    };
    Ok(told_by_line(verdict))
}

fn plan_to_say(answer: LocalAnswer) -> LinePlan
    ensures { result ≡ record { answer = answer; change = Nothing } }
{
    LinePlan {
        answer,
        change: Change::Nothing,
    }
}

// The verdict in a line's word. It never asks the store.
fn told_by_line(verdict: Verdict) -> LinePlan
    requires { OnlyAsksIf false verdict }
    ensures plan { (w : SaidWorld) → line_planned result w ≡ line_told (ruled_answer NotAsked (verdict_in verdict w)) }
    ensures fits { (w : SaidWorld) → FitsIn verdict w → FitsChange result.change w }
{
    match verdict {
        Verdict::Decided { stat, change } => LinePlan {
            answer: word_of(stat),
            change,
        },
        Verdict::AfterStore { .. } => unreachable!(),
    }
}

// A status in a line's word; the last of them are never a lock's.
fn word_of(stat: Stat) -> LocalAnswer
    ensures { view_of_local_answer result ≡ line_word (view_of_stat stat) }
{
    match stat {
        Stat::Granted => LocalAnswer::Done,
        Stat::Denied => LocalAnswer::Again,
        Stat::DeniedNolocks => LocalAnswer::NoLocks,
        Stat::Blocked => LocalAnswer::Wait,
        Stat::DeniedGracePeriod => LocalAnswer::Grace,
        Stat::Deadlck => LocalAnswer::Deadlock,
        Stat::Fbig => LocalAnswer::TooFar,
        Stat::Rofs | Stat::StaleFh | Stat::Failed => LocalAnswer::Bad,
    }
}

// As for LOCK, without a row.
fn lock_verdict<R: RangeTable, S: HostStore>(
    world: &World<R, S>,
    place: &CallRange,
    mode: Mode,
    line: &SetLine<'_>,
) -> Result<Verdict, Starved>
    requires file { place.now.file ≡ line.now.lock.now.file }
    requires first { place.now.range.first ≡ line.now.lock.now.offset }
    requires last { place.now.range.last ≡ last_byte line.now.lock.now.offset line.now.lock.now.len }
    ensures verdict { IfOk result (λ made. IsVerdict (lock_rules_said the_limits world.now.world (lock_asked line.now mode (slots_free the_limits world.now.world))) 0 world.now.world made) }
    ensures asks { IfOk result (OnlyAsksIf false) }
{
    let wanted = WantedLock {
        file: place.file,
        owner: line.lock.owner.clone()?,
        range: place.range,
        mode,
    };
    let ask = LockAsk {
        wanted,
        block: line.waits,
        reclaim: false,
        row: None,
        grant: Grant::Line {
            connection: line.connection,
            mode,
            lock: line.lock,
        },
        reserved: 0,
    };
    lock_rules(world, ask)
}

fn unlock_verdict<R: RangeTable, S: HostStore>(
    world: &World<R, S>,
    place: &CallRange,
    lock: &LocalLock,
) -> Result<Verdict, Starved>
    requires file { place.now.file ≡ lock.now.file }
    requires first { place.now.range.first ≡ lock.now.offset }
    requires last { place.now.range.last ≡ last_byte lock.now.offset lock.now.len }
    ensures verdict { IfOk result (λ made. IsVerdict (unlock_rules_said the_limits world.now.world (line_unlock (view_of_local_lock lock.now))) 0 world.now.world made) }
    ensures asks { IfOk result (OnlyAsksIf false) }
{
    let range = unlocked_range(place, lock)?;
    Ok(unlock_rules(world, range))
}

// What the line's owner is to hold there: nothing.
fn unlocked_range(place: &CallRange, lock: &LocalLock) -> Result<Range, Starved>
    requires file { place.now.file ≡ lock.now.file }
    requires first { place.now.range.first ≡ lock.now.offset }
    requires last { place.now.range.last ≡ last_byte lock.now.offset lock.now.len }
    ensures setting { IfOk result (λ range. view_of_range range ≡ line_unlock (view_of_local_lock lock.now)) }
{
    Ok(Range {
        file: place.file,
        owner: lock.owner.clone()?,
        range: place.range,
    })
}

/// Does what the line asks, and then grants what waited for it. What is answered, and the world after it, are those of the
/// rules. Starved: the world stays, and nobody has become known.
pub fn set_lock<R: RangeTable, S: HostStore>(
    world: &mut World<R, S>,
    line: &SetLine<'_>,
) -> Result<LocalAnswer, Starved>
    ensures reply { IfOk result (λ answer. view_of_local_answer answer ≡ (ruled_answer NotAsked (line_answer the_limits world.old.world line.now.connection (view_of_set_line line.now))).says) }
    ensures world { IfOk result (λ answer. world.new.world ≡ settled_world the_limits (ruled_answer NotAsked (line_answer the_limits world.old.world line.now.connection (view_of_set_line line.now))).world) }
    ensures err { OnErr result (world.new.world ≡ world.old.world) }
    ensures refusals { world.new.refusals ≡ world.old.refusals }
    ensures forgotten { IfOk result (λ _. IsForgottenIfIdle (view_of_owner line.now.lock.now.owner) world.new.world world.new) }
    ensures unknown { OnErr result (AdmitsNobody world.old world.new) }
{
    let plan = plan_set(world, line)?;
    let Ok(()) = reserve_for_change(world, &plan.change) else {
        drop(plan);
        return Err(Starved);
    };
    let LinePlan { answer, change } = plan;
    call_plans::make_change(world, change);
    world.forget_idle(&line.lock.owner);
    world.settle();
    Ok(answer)
}

/// `close`: the owner loses its locks and waits on the file, and then who waited for them is granted. It is always answered
/// `ok`.
pub fn close_file<R: RangeTable, S: HostStore>(
    world: &mut World<R, S>,
    owner: &Owner,
    file: &FileId,
)
    ensures world { (l : ℕ) → world.new.world ≡ settled_world the_limits (ruled_answer NotAsked (line_answer the_limits world.old.world l (Close (view_of_owner owner.now) file.now))).world }
    ensures refusals { world.new.refusals ≡ world.old.refusals }
    ensures forgotten { IsForgottenIfIdle (view_of_owner owner.now) world.new.world world.new }
{
    world.close(file, owner);
    world.forget_idle(owner);
    world.settle();
}
