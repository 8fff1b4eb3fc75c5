//! The line `quota` of local programs: how many runs the owners of a host may have.
ghost use Rattle.std.specs.Prelude.{◌≡◌, ℕ, List, true};
ghost use Rattle.definitions.specs.Lines.{line_answer, quota_rules};
ghost use Rattle.definitions.specs.Replay.{fits};
ghost use Rattle.definitions.specs.Replies.{SetQuota};
ghost use Rattle.definitions.specs.Rulings.{ruled_answer};
ghost use Rattle.definitions.specs.Step.{KeptPair, Local, Applied};
ghost use Rattle.definitions.specs.World.{settled_world, the_limits};
ghost use Rattle.call_plans.specs.Planned.{view_of_stored, refusal_count};
ghost use Rattle.local_ops.specs.Answers.{view_of_local_answer};

use call_plans::StoreAnswer;
use hosts_db::HostStore;
use local_ops::{LocalAnswer, Quota};
use lock_state::World;
use range_table::RangeTable;

/// `quota`: the store keeps the quota of a host that has a row, and then who waited for no more than it is granted. What is
/// answered, whether the store was asked, and the world after it, are those of the rules. It takes no memory. Where the
/// store refuses, its rows stay.
pub fn set_quota<R: RangeTable, S: HostStore>(
    world: &mut World<R, S>,
    quota: &Quota,
) -> (LocalAnswer, StoreAnswer)
    ensures reply { (l : ℕ) → view_of_local_answer result.0 ≡ (ruled_answer (view_of_stored result.1) (line_answer the_limits world.old.world l (SetQuota quota.now.name quota.now.runs))).says }
    ensures world { (l : ℕ) → world.new.world ≡ settled_world the_limits (ruled_answer (view_of_stored result.1) (line_answer the_limits world.old.world l (SetQuota quota.now.name quota.now.runs))).world }
    ensures fits { (kept : List KeptPair) (l : ℕ) → fits the_limits (record { world = world.old.world; kept = kept }) (record { event = Local l (SetQuota quota.now.name quota.now.runs); completion = Applied; store = view_of_stored result.1 }) ≡ true }
    ensures refusals { world.new.refusals ≡ refusal_count (view_of_stored result.1) world.old.refusals }
{
    let (answer, store) = stored(world, quota);
    world.settle();
    (answer, store)
}

// The store keeps it. Nobody is granted yet.
fn stored<R: RangeTable, S: HostStore>(
    world: &mut World<R, S>,
    quota: &Quota,
) -> (LocalAnswer, StoreAnswer)
    ensures told { record { says = view_of_local_answer result.0; world = world.new.world } ≡ ruled_answer (view_of_stored result.1) (quota_rules world.old.world quota.now.name quota.now.runs) }
    ensures fits { (kept : List KeptPair) (l : ℕ) → fits the_limits (record { world = world.old.world; kept = kept }) (record { event = Local l (SetQuota quota.now.name quota.now.runs); completion = Applied; store = view_of_stored result.1 }) ≡ true }
    ensures refusals { world.new.refusals ≡ refusal_count (view_of_stored result.1) world.old.refusals }
{
    let name = quota.name.as_slice();
    if !world.has_row(name) {
        return (LocalAnswer::Absent, StoreAnswer::NotAsked);
    }
    match world.quota(name, quota.runs) {
        Ok(()) => (LocalAnswer::Done, StoreAnswer::Yes),
        Err(_) => (LocalAnswer::Refused, StoreAnswer::Refused),
    }
}
