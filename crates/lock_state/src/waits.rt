//! Who waits for a lock.
ghost use Rattle.std.specs.Prelude.{◌≡◌, ◌↔◌, ◌<◌, false, length, map, slice_get, Some, IsErr, OnOk, OnErr};
ghost use Rattle.definitions.specs.Waits.{is_waiting, without_waiter, closes_cycle};
ghost use Rattle.definitions.specs.World.{with_waiter, slots_free, the_limits};
ghost use Rattle.owner_ids.specs.Views.{view_of_owner};
ghost use Rattle.held_locks.specs.Asked.{view_of_request};
ghost use Rattle.lock_state.specs.Listed.{request_wanted};
ghost use Rattle.lock_state.specs.Seen.{Knows};
ghost use Rattle.lock_state.specs.Whole.{IsShown};

use crate::world::World;
use blocked_list::{NotWaiting, Touched, Waiter};
use callbacks::Callback;
use held_locks::Request;
use hosts_db::HostStore;
use range_table::{ByteRange, RangeTable};

impl<R: RangeTable, S: HostStore> World<R, S> {
    /// How many wait.
    #[tactic(auto, using(crate::proofs::Listed::waiters_count))]
    pub fn waiting(&self) -> usize
        ensures { result ≡ length self.now.world.waiters }
    {
        self.slots.waiters().len()
    }

    /// What the waiter at this place of the order of waiting waits for.
    pub fn wanted_at(&self, place: usize) -> Request<'_>
        requires { place < length self.now.world.waiters }
        ensures { slice_get (map request_wanted self.now.world.waiters) place ≡ Some (view_of_request result) }
    {
        let wanted = self.slots.waiters()[place].wanted();
        Request {
            file: wanted.file,
            owner: self.locks.owner(wanted.owner),
            range: ByteRange {
                first: wanted.first,
                last: wanted.last,
            },
            mode: wanted.mode,
        }
    }

    /// Whether its owner waits for just this lock.
    pub fn is_waiting(&self, wanted: &Request<'_>) -> bool
        ensures { result ≡ is_waiting (view_of_request wanted.now) self.now.world.waiters }
    {
        let (_, owners) = self.locks.parts();
        match owners.number(wanted.owner) {
            Some(number) => self.slots.is_waiting(&wanted.by_number(number)),
            None => false,
        }
    }

    /// Whether the owner, if it waited for this lock, would wait for itself, directly or through others (POSIX fcntl,
    /// EDEADLK). Nobody waits for an owner that holds nothing, and then no waiter is looked at.
    pub fn closes_cycle(&self, wanted: &Request<'_>) -> bool
        ensures { result ≡ closes_cycle self.now.world.settings self.now.world.waiters (view_of_request wanted.now) }
    {
        if self.locks.idle_number(wanted.owner).is_some() {
            return false;
        }
        let (table, owners) = self.locks.parts();
        match owners.number(wanted.owner) {
            Some(number) => self
                .slots
                .closes_cycle(table, owners, &wanted.by_number(number)),
            None => false,
        }
    }

    /// From now on the owner waits for this lock, behind all who wait, and the callback is what tells of the grant. It takes
    /// no memory.
    pub fn wait(&mut self, wanted: &Request<'_>, callback: Callback)
        requires room { 0 < slots_free the_limits self.old.world }
        requires known { Knows self.old (view_of_owner wanted.now.owner.now) }
        requires shown { IsShown (view_of_owner wanted.now.owner.now) }
        ensures { self.new ≡ record self.old { world = with_waiter self.old.world (record { request = view_of_request wanted.now; callback = callback }) } }
    {
        let (_, owners) = self.locks.parts();
        let Some(number) = owners.number(wanted.owner) else {
            unreachable!();
        };
        let waiter = Waiter::new(wanted.by_number(number), callback);
        let touched = Touched::of(waiter.wanted());
        let is_kept_out = self.locks.conflicts(wanted);
        self.unsettled = self.unsettled.after_wait(&touched, is_kept_out);
        let _ = self.slots.block(waiter);
    }

    /// The owner waits for just this lock no longer (XNFS, NLM_CANCEL). `NotWaiting` where it didn't; then nothing has
    /// changed.
    pub fn cancel(&mut self, wanted: &Request<'_>) -> Result<(), NotWaiting>
        ensures refused { IsErr result ↔ (is_waiting (view_of_request wanted.now) self.old.world.waiters ≡ false) }
        ensures ok { OnOk result (self.new ≡ record self.old { world = record self.old.world { waiters = without_waiter (view_of_request wanted.now) self.old.world.waiters } }) }
        ensures err { OnErr result (self.new ≡ self.old) }
    {
        let (_, owners) = self.locks.parts();
        match owners.number(wanted.owner) {
            Some(number) => self.slots.cancel(&wanted.by_number(number)),
            None => Err(NotWaiting),
        }
    }
}
