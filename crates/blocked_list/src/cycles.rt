//! Who would wait for whom in a circle.
ghost use Rattle.std.specs.Prelude.{◌≡◌, ◌<◌, ◌≤◌, ◌+◌, ◌-◌, ◌||◌, ℕ, not, true, false, Some, IsSome, IfSome, IfNone, length, slice_get, slice_index_or};
ghost use Rattle.definitions.specs.Owners.{is_description};
ghost use Rattle.definitions.specs.Waits.{Waiter as OwnerWaiter, closes_cycle};
ghost use Rattle.owner_ids.specs.Names.{names_of_owners};
ghost use Rattle.blocked_list.specs.Reach.{leads, MarksLed};
ghost use Rattle.blocked_list.specs.Waiting.{owner_at};
ghost use Rattle.blocked_list.specs.Standing.{WhereWants};

use crate::slots::Slots;
use owner_ids::{OwnerId, Owners};
use range_table::{RangeTable, Wanted};

impl Slots {
    /// Whether one who waited for this lock would wait, directly or through others, for itself (POSIX fcntl, EDEADLK).
    /// Open file descriptions are neither askers nor steps of a cycle.
    pub fn closes_cycle<T: RangeTable>(&self, table: &T, owners: &Owners, wanted: &Wanted) -> bool
        ensures { WhereWants (names_of_owners owners.now) (T.settings table.now) self.now.waiters wanted.now (λ settings waiters r. result ≡ closes_cycle settings waiters r) }
    {
        if !is_step(owners, wanted.run().owner) {
            return false;
        }
        let mut reached = unmarked();
        let mut followed = unmarked();
        self.comes_back(table, owners, wanted, &mut reached, &mut followed)
    }

    // Whether somebody whom this lock makes wait for, directly or through others, waits for its owner. Each who was reached
    // is followed once.
    fn comes_back<T: RangeTable>(
        &self,
        table: &T,
        owners: &Owners,
        wanted: &Wanted,
        reached: &mut [bool; 8192],
        followed: &mut [bool; 8192],
    ) -> bool
        requires nobody { (k : ℕ) → slice_index_or reached.old k false ≡ false }
        requires nowhere { (k : ℕ) → slice_index_or followed.old k false ≡ false }
        ensures { WhereWants (names_of_owners owners.now) (T.settings table.now) self.now.waiters wanted.now (λ settings waiters r. is_description (owner_at (names_of_owners owners.now) wanted.now.owner) ≡ false → result ≡ closes_cycle settings waiters r) }
    {
        self.reach(table, owners, wanted, reached);
        while let Some(place) = pending(reached, followed, self.waiters.len()) {
            followed[place] = true;
            let next = self.waiters[place].asked();
            if held_locks::conflicts_with(table, owners, next, wanted.run().owner) {
                return true;
            }
            self.reach(table, owners, next, reached);
        }
        false
    }

    // Marks the waiters whose modes keep this lock out, but for descriptions.
    fn reach<T: RangeTable>(
        &self,
        table: &T,
        owners: &Owners,
        wanted: &Wanted,
        reached: &mut [bool; 8192],
    )
        ensures { WhereWants (names_of_owners owners.now) (T.settings table.now) self.now.waiters wanted.now (λ settings waiters r. MarksLed reached.old reached.new settings waiters r) }
    {
        for place in 0..self.waiters.len() {
            reached[place] = self.is_reached(table, owners, wanted, place, reached[place]);
        }
    }

    // Whether the waiter at this place was reached before, or is now.
    fn is_reached<T: RangeTable>(
        &self,
        table: &T,
        owners: &Owners,
        wanted: &Wanted,
        place: usize,
        before: bool,
    ) -> bool
        requires there { place < length self.now.waiters }
        ensures { WhereWants (names_of_owners owners.now) (T.settings table.now) self.now.waiters wanted.now (λ settings waiters r. (x : OwnerWaiter) → slice_get waiters place ≡ Some x → result ≡ (before || leads settings r x)) }
    {
        before || self.leads_to(table, owners, wanted, place)
    }

    // Whether the waiter at this place is no description, and its modes keep this lock out.
    fn leads_to<T: RangeTable>(
        &self,
        table: &T,
        owners: &Owners,
        wanted: &Wanted,
        place: usize,
    ) -> bool
        requires there { place < length self.now.waiters }
        ensures { WhereWants (names_of_owners owners.now) (T.settings table.now) self.now.waiters wanted.now (λ settings waiters r. (x : OwnerWaiter) → slice_get waiters place ≡ Some x → result ≡ leads settings r x) }
    {
        let owner = self.waiters[place].wanted().owner;
        is_step(owners, owner) && held_locks::conflicts_with(table, owners, wanted, owner)
    }
}

// Whether the owner can be a step of a cycle: an open file description can't.
fn is_step(owners: &Owners, owner: OwnerId) -> bool
    ensures { IsSome (names_of_owners owners.now owner) → result ≡ not (is_description (owner_at (names_of_owners owners.now) owner)) }
{
    match owners.find(owner) {
        Some(found) => !found.is_description(),
        None => true,
    }
}

// The first of so many places that was reached and not followed.
fn pending(reached: &[bool; 8192], followed: &[bool; 8192], count: usize) -> Option<usize>
    requires { count ≤ 8192 }
    ensures some { IfSome result (λ place. (place < count) × (slice_index_or reached.now place false ≡ true) × (slice_index_or followed.now place false ≡ false)) }
    ensures none { IfNone result ((k : ℕ) → k < count → slice_index_or reached.now k false ≡ true → slice_index_or followed.now k false ≡ true) }
{
    for place in 0..count {
        if reached[place] && !followed[place] {
            return Some(place);
        }
    }
    None
}

// A mark for each place, and none is made.
fn unmarked() -> [bool; 8192]
    ensures { (k : ℕ) → slice_index_or result k false ≡ false }
{
    [false; 8192]
}
