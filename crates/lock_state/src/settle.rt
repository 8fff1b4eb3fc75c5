//! Who waits is granted once nothing is in the way.
ghost use Rattle.std.specs.Prelude.{◌≡◌, ◌<◌, length, IfSome};
ghost use Rattle.definitions.specs.World.{settled_world, the_limits, is_ready_in};
ghost use Rattle.definitions.specs.First.{IsFirstPlace};
ghost use Rattle.definitions.specs.Owners.{Owner as SaidOwner};
ghost use Rattle.lock_state.specs.Seen.{IsIdle};

use crate::quotas::{Stored, is_limited};
use crate::unsettled::Unsettled;
use crate::world::World;
use blocked_list::laws::setting_frees_own_bytes;
use blocked_list::{Grantor, Touched, settle};
use hosts_db::HostStore;
use range_table::RangeTable;

impl<R: RangeTable, S: HostStore> World<R, S> {
    /// Grants the first waiter that can be granted, and again from the front, until none can be. Each grant's call
    /// becomes due.
    pub fn settle(&mut self)
        ensures world { self.new.world ≡ settled_world the_limits self.old.world }
        ensures refusals { self.new.refusals ≡ self.old.refusals }
        ensures names { self.new.names ≡ self.old.names }
        ensures idle { (x : SaidOwner) → IsIdle self.new.world x → IsIdle self.old.world x }
    {
        settle(self);
    }

    // Where the first waiter stands that can be granted. Nobody is looked at who can't be.
    fn next_place(&self) -> Option<usize>
        ensures bound { IfSome result (λ place. place < length self.now.world.waiters) }
        ensures first { IsFirstPlace (is_ready_in the_limits self.now.world) self.now.world.waiters result }
    {
        let (table, owners) = self.locks.parts();
        let quotas = Stored { store: &self.store };
        match &self.unsettled {
            Unsettled::Nowhere => None,
            Unsettled::On(touched) => {
                self.slots
                    .next_grantable_on(table, owners, &self.locks, &quotas, touched)
            }
            Unsettled::Anywhere => self
                .slots
                .next_grantable(table, owners, &self.locks, &quotas),
        }
    }
}

impl<R: RangeTable, S: HostStore> Grantor for World<R, S> {
    ghost use Rattle.lock_state.specs.Seen.{IsIdle};

    ghost world = { λ w. w.world };

    ghost names = { λ w. w.names };

    ghost refusals = { λ w. w.refusals };

    ghost Idle = { λ w x. IsIdle w.world x };

    fn grant_next(&mut self) -> bool {
        let Some(place) = self.next_place() else {
            self.unsettled = Unsettled::Nowhere;
            return false;
        };
        setting_frees_own_bytes();
        let _free = self.slots.free();
        let waiter = self.slots.grant(place);
        let wanted = waiter.wanted();
        let quotas = Stored { store: &self.store };
        let was_held = is_limited(&quotas, self.locks.owner(wanted.owner));
        self.unsettled = self.unsettled.after_change(&Touched::of(wanted), was_held);
        let _ = self.locks.set_run(waiter.asked());
        self.calls.make_due(self.next, waiter.into_callback());
        self.next = self.next.wrapping_add(1);
        true
    }
}
