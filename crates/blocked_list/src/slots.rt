//! Places for waiters and for calls.
ghost use Rattle.std.specs.Prelude.{◌≡◌, ◌↔◌, ◌≤◌, ◌<◌, ◌+◌, ◌-◌, ◌++◌, ◌∷◌, ◌==◌, ◌&&◌, [], not, length, true, false, Bool, Some, IfOk, OnOk, OnErr, IsErr, IsTrue, IsSome, slice_index_or};
ghost use Rattle.definitions.specs.Bytes.{same_bytes, first_that, without_first};
ghost use Rattle.definitions.specs.Owners.{Owner};
ghost use Rattle.definitions.specs.Waits.{Waiter as OwnerWaiter, is_waiting, without_waiter, without_host_waiters, without_waiters_on};
ghost use Rattle.owner_ids.specs.Names.{Names, names_of_owners};
ghost use Rattle.std.specs.List.{list_any, remove};
ghost use Rattle.definitions.specs.First.{IsFirstAt, IsFirstPlace};
ghost use Rattle.blocked_list.specs.Waiting.{Waiting, AreKnown, AreNamed, free_places, owner_at, request_by, waiter_by, waiters_by, same_wanted};

use crate::by_file::ByFile;
use crate::by_owner::ByOwner;
use crate::hulls::Hulls;
use crate::waiter::Waiter;
use callbacks::MOST_SLOTS;
use owner_ids::{Host, HostOf, OwnerId, Owners, Starved};
use range_table::{FileId, Run, Wanted};
use std::alloc::Global;
use std::marker::Model;
use thiserror::Error;

/// There are not as many free places.
#[derive(Clone, Copy, Debug, PartialEq, Eq, Error)]
#[error("16 NoSlots")]
pub struct NoSlots;

/// Nobody waits for just this lock.
#[derive(Clone, Copy, Debug, PartialEq, Eq, Error)]
#[error("17 NotWaiting")]
pub struct NotWaiting;

/// Those who wait, in the order of waiting, and how many places calls take. A clause sees both.
///
/// Room for all is reserved at the start, so no later call takes memory. The calls themselves are kept elsewhere.
#[derive(Drop)]
pub struct Slots {
    pub(crate) waiters: Vec<Waiter>,
    pub(crate) by_file: ByFile,
    by_owner: ByOwner,
    pub(crate) hulls: Hulls,
    calls: usize,
}

impl Model for Slots {
    ghost use Rattle.std.specs.Prelude.{◌≤◌, ◌+◌, length, vec_capacity};
    ghost use Rattle.blocked_list.specs.ByFile.{IsIndex, file_at};
    ghost use Rattle.blocked_list.specs.ByOwner.{AreCounted};
    ghost use Rattle.blocked_list.specs.Hulls.{AreIn};
    ghost use Rattle.blocked_list.specs.Waiting.{Taken};

    ghost Value = { Taken };

    ghost view = { λ s. record { waiters = s.waiters.items; calls = s.calls } };

    ghost invariant = { λ s. (length s.waiters.items + s.calls ≤ 8192) × (8192 ≤ vec_capacity s.waiters) × IsIndex (file_at s.waiters.items) (length s.waiters.items) s.by_file × AreCounted s.waiters.items s.by_owner × AreIn s.waiters.items s.hulls };
}

impl Slots {
    /// All places free, with room for `MOST_SLOTS` waiters, or `Starved` where there is no memory for it.
    pub fn new(alloc: Global) -> Result<Slots, Starved>
        ensures { IfOk result (λ slots. slots ≡ record { waiters = []; calls = 0 }) }
    {
        Ok(Slots {
            waiters: Vec::with_capacity(alloc, MOST_SLOTS)?,
            by_file: ByFile::new(alloc)?,
            by_owner: ByOwner::new(alloc)?,
            hulls: Hulls::new(alloc)?,
            calls: 0,
        })
    }

    /// How many places are free.
    pub fn free(&self) -> usize
        ensures free { result ≡ free_places self.now }
        ensures most { length self.now.waiters + self.now.calls ≤ 8192 }
    {
        MOST_SLOTS - (self.waiters.len() + self.calls)
    }

    /// Those who wait, the first in front.
    pub fn waiters(&self) -> &[Waiter]
        ensures { result.now ≡ self.now.waiters }
    {
        self.waiters.as_slice()
    }

    /// Somebody waits, behind the others. `NoSlots` where no place is free; then nothing changes, and the waiter is dropped.
    pub fn block(&mut self, waiter: Waiter) -> Result<(), NoSlots>
        ensures full { IsErr result ↔ (free_places self.old ≡ 0) }
        ensures ok { OnOk result (self.new ≡ record { waiters = self.old.waiters ++ waiter ∷ []; calls = self.old.calls }) }
        ensures err { OnErr result (self.new ≡ self.old) }
        ensures by { OnOk result ((names : Names) → waiters_by names self.new.waiters ≡ waiters_by names self.old.waiters ++ waiter_by names waiter ∷ []) }
        ensures named { OnOk result ((names : Names) → AreNamed names self.old.waiters → IsSome (names waiter.wanted.owner) → AreNamed names self.new.waiters) }
    {
        if self.free() == 0 {
            drop(waiter);
            return Err(NoSlots);
        }
        let place = self.waiters.len();
        let owner = waiter.wanted().owner;
        self.hulls.widen(place, waiter.wanted());
        self.waiters.push_reserved(waiter);
        self.by_file.add(&self.waiters, place);
        self.by_owner.add(owner);
        Ok(())
    }

    /// Whether somebody waits for just this lock.
    pub fn is_waiting(&self, wanted: &Wanted) -> bool
        ensures { (names : Names) → AreKnown names self.now.waiters → IsSome (names wanted.now.owner) → result ≡ is_waiting (request_by names wanted.now) (waiters_by names self.now.waiters) }
    {
        self.place_of(wanted.run()).is_some()
    }

    /// The waiter for just this lock waits no longer (XNFS, NLM_CANCEL). `NotWaiting` where there is none; then nothing
    /// changes.
    pub fn cancel(&mut self, wanted: &Wanted) -> Result<(), NotWaiting>
        ensures refused { (names : Names) → AreKnown names self.old.waiters → IsSome (names wanted.now.owner) → IsErr result ↔ (is_waiting (request_by names wanted.now) (waiters_by names self.old.waiters) ≡ false) }
        ensures ok { OnOk result ((names : Names) → AreKnown names self.old.waiters → IsSome (names wanted.now.owner) → waiters_by names self.new.waiters ≡ without_waiter (request_by names wanted.now) (waiters_by names self.old.waiters)) }
        ensures err { OnErr result (self.new ≡ self.old) }
        ensures calls { self.new.calls ≡ self.old.calls }
        ensures named { (names : Names) → AreNamed names self.old.waiters → AreNamed names self.new.waiters }
    {
        match self.place_of(wanted.run()) {
            Some(place) => {
                drop(self.take_out(place));
                Ok(())
            }
            None => Err(NotWaiting),
        }
    }

    /// The waiter at this place is granted: its place becomes its call's.
    pub fn grant(&mut self, place: usize) -> Waiter
        requires { place < length self.old.waiters }
        ensures there { (names : Names) (test : OwnerWaiter → Bool) → IsFirstAt test (waiters_by names self.old.waiters) place → first_that test (waiters_by names self.old.waiters) ≡ Some (waiter_by names result) }
        ensures gone { (names : Names) (test : OwnerWaiter → Bool) → IsFirstAt test (waiters_by names self.old.waiters) place → waiters_by names self.new.waiters ≡ without_first test (waiters_by names self.old.waiters) }
        ensures calls { self.new.calls ≡ self.old.calls + 1 }
        ensures named { (names : Names) → AreNamed names self.old.waiters → AreNamed names self.new.waiters × IsSome (names result.wanted.owner) }
    {
        let waiter = self.take_out(place);
        self.calls += 1;
        waiter
    }

    // The waiter at this place waits no longer.
    fn take_out(&mut self, place: usize) -> Waiter
        requires { place < length self.old.waiters }
        ensures waiter { result ≡ slice_index_or self.old.waiters place result }
        ensures others { self.new ≡ record self.old { waiters = remove self.old.waiters place } }
        ensures room { length self.new.waiters + self.new.calls < 8192 }
    {
        let waiter = self.waiters.remove(place);
        self.by_file.remove(place);
        self.by_owner.remove(waiter.wanted().owner);
        self.hulls.refresh(&self.waiters);
        waiter
    }

    /// So many places become places of calls. `NoSlots` where fewer are free; then nothing changes.
    pub fn take(&mut self, count: usize) -> Result<(), NoSlots>
        ensures full { IsErr result ↔ (free_places self.old < count) }
        ensures ok { OnOk result (self.new ≡ record self.old { calls = self.old.calls + count }) }
        ensures err { OnErr result (self.new ≡ self.old) }
    {
        if self.free() < count {
            return Err(NoSlots);
        }
        self.calls += count;
        Ok(())
    }

    /// So many calls have ended, and their places are free.
    pub fn give(&mut self, count: usize)
        requires { count ≤ self.old.calls }
        ensures { self.new ≡ record self.old { calls = self.old.calls - count } }
    {
        self.calls -= count;
    }

    /// Takes out the waiters of a host (XNFS, NLM_FREE_ALL and SM_NOTIFY).
    pub fn drop_host(&mut self, owners: &Owners, name: &[u8])
        ensures by { AreNamed (names_of_owners owners.now) self.old.waiters → waiters_by (names_of_owners owners.now) self.new.waiters ≡ without_host_waiters name.now (waiters_by (names_of_owners owners.now) self.old.waiters) }
        ensures calls { self.new.calls ≡ self.old.calls }
        ensures named { (names : Names) → AreNamed names self.old.waiters → AreNamed names self.new.waiters }
    {
        let host = HostOf { owners, name };
        let before = self.waiters.len();
        self.waiters
            .retain(|waiter| !host.has(waiter.wanted().owner));
        self.by_file.renew_after(&self.waiters, before);
        self.by_owner.renew_after(&self.waiters, before);
        self.hulls.refresh_after(&self.waiters, before);
    }

    /// Takes out the waiters of an owner on a file, as when it closes the file (POSIX fcntl).
    pub fn drop_owner_on_file(&mut self, file: &FileId, owner: OwnerId)
        ensures by { (names : Names) → AreKnown names self.old.waiters → IsSome (names owner) → waiters_by names self.new.waiters ≡ without_waiters_on file.now (owner_at names owner) (waiters_by names self.old.waiters) }
        ensures calls { self.new.calls ≡ self.old.calls }
        ensures named { (names : Names) → AreNamed names self.old.waiters → AreNamed names self.new.waiters }
    {
        let before = self.waiters.len();
        self.waiters.retain(|waiter| !(waiter.is_on(file) && waiter.wanted().owner == owner));
        self.by_file.renew_after(&self.waiters, before);
        self.by_owner.renew_after(&self.waiters, before);
        self.hulls.refresh_after(&self.waiters, before);
    }

    /// Whether somebody of this number waits.
    pub fn has_owner(&self, owner: OwnerId) -> bool
        ensures { result ≡ list_any (λ w. w.wanted.owner == owner) self.now.waiters }
    {
        if self.by_owner.is_nobody(owner) {
            return false;
        }
        self.waiters
            .iter()
            .any(|waiter| waiter.wanted().owner == owner)
    }

    /// Frees every place, as at a restart.
    pub fn clear(&mut self)
        ensures { self.new ≡ record { waiters = []; calls = 0 } }
    {
        self.waiters.clear();
        self.by_file.clear();
        self.by_owner.clear();
        self.hulls.forget();
        self.calls = 0;
    }

    // Where the first waiter for just this lock stands.
    fn place_of(&self, wanted: &Run) -> Option<usize>
        ensures { IsFirstPlace (λ w. same_wanted w.wanted wanted.now) self.now.waiters result }
    {
        if self.by_owner.is_nobody(wanted.owner) {
            return None;
        }
        for place in self.by_file.part(&self.waiters, &wanted.file) {
            let place = usize::from(*place);
            if self.waiters[place].is_for(wanted) {
                return Some(place);
            }
        }
        None
    }
}
