//! Owners by number.
ghost use Rattle.std.specs.Prelude.{◌≡◌, ◌≢◌, ◌<◌, ◌^◌, ℕ, [], Some, None, Ok, IfOk, OnErr, IfSome, IfNone, IsSome, true};
ghost use Rattle.definitions.specs.Owners.{owner_cmp};
ghost use Rattle.owner_ids.specs.Views.{view_of_owner, view_of_slot, view_of_found};
ghost use Rattle.owner_ids.specs.Names.{names_of_owners, number_cmp, Renames, IsNumberFor};
ghost use Rattle.owner_ids.specs.Orders.{number_total, number_exact};

use crate::order::OwnerOrder;
use crate::owner::Owner;
use slab::Slab;
use std::alloc::{AllocError, Global};
use std::cmp::Ordering;
use std::collections::BTreeMap;
use std::marker::Model;
use std::sync::atomic::AtomicU32;
use std::sync::atomic::Ordering::Relaxed;
use thiserror::Error;

/// The number of an owner while it is in use.
pub type OwnerId = u32;

/// A number that no owner ever has.
pub const NOBODY: OwnerId = 4_294_967_295;

/// There is no memory, or no number, for one more owner.
#[derive(Clone, Copy, Debug, PartialEq, Eq, Error)]
#[error("1 Starved")]
pub struct Starved;

impl From<AllocError> for Starved {
    fn from(_refused: AllocError) -> Starved {
        Starved
    }
}

/// The owners in use, each with one number. A clause sees the owner at each number, or none.
#[derive(Drop)]
pub struct Owners {
    slots: Slab<Owner>,
    // A search by value is in the owners' order, so that no choice of names makes it slow.
    numbers: BTreeMap<Owner, OwnerId>,
    // The number that was found last. One call asks for its owner several times: where that has this number still, the search
    // is spared. Any value will do, since it is looked at first.
    recent: AtomicU32,
}

impl Model for Owners {
    ghost use Rattle.std.specs.Prelude.{List, Option};
    ghost use Rattle.definitions.specs.Owners.{Owner};
    ghost use Rattle.owner_ids.specs.Kept.{view_of_owners, IsKept};

    ghost Value = { List (Option Owner) };

    ghost view = { view_of_owners };

    ghost invariant = { IsKept };
}

impl Owners {
    /// No owner is in use.
    pub fn new(alloc: Global) -> Owners
        ensures { result ≡ [] }
    {
        Owners {
            slots: Slab::new(alloc),
            numbers: BTreeMap::new(alloc),
            recent: AtomicU32::new(NOBODY),
        }
    }

    /// The number of an owner, which gets one where it has none. An owner in use keeps its number, and takes no memory.
    /// Starved: the owners in use and their numbers are as before.
    pub fn intern(&mut self, owner: &Owner) -> Result<OwnerId, Starved>
        ensures known { (n : ℕ) → names_of_owners self.old n ≡ Some (view_of_owner owner.now) → result ≡ Ok n }
        ensures named { IfOk result (λ n. Renames (names_of_owners self.old) (names_of_owners self.new) n (Some (view_of_owner owner.now))) }
        ensures was { IfOk result (λ n. IsNumberFor (names_of_owners self.old) n (view_of_owner owner.now)) }
        ensures err { OnErr result (self.new ≡ self.old) }
    {
        if let Some(number) = self.number(owner) {
            return Ok(number);
        }
        let kept = owner.clone()?;
        let key = owner.clone()?;
        let number = self.add(kept, key)?;
        self.recent.store(number, Relaxed);
        Ok(number)
    }

    /// The number of an owner in use.
    pub fn number(&self, owner: &Owner) -> Option<OwnerId>
        ensures nobody { names_of_owners self.now 4294967295 ≡ None }
        ensures found { IfSome result (λ n. names_of_owners self.now n ≡ Some (view_of_owner owner.now)) }
        ensures known { (n : ℕ) → names_of_owners self.now n ≡ Some (view_of_owner owner.now) → result ≡ Some n }
    {
        let recent = self.recent.load(Relaxed);
        if self.is_at(recent, owner) {
            return Some(recent);
        }
        let number = self.numbers.get(owner).copied()?;
        self.recent.store(number, Relaxed);
        Some(number)
    }

    // Whether this number is the owner's.
    fn is_at(&self, number: OwnerId, owner: &Owner) -> bool
        ensures { result ≡ true → names_of_owners self.now number ≡ Some (view_of_owner owner.now) }
    {
        match self.find(number) {
            Some(known) => known == owner,
            None => false,
        }
    }

    // A number for an owner who has none, of which these are two copies.
    fn add(&mut self, owner: Owner, key: Owner) -> Result<OwnerId, Starved>
        requires copies { view_of_owner key ≡ view_of_owner owner }
        requires absent { (n : ℕ) → names_of_owners self.old n ≢ Some (view_of_owner owner) }
        ensures named { IfOk result (λ n. Renames (names_of_owners self.old) (names_of_owners self.new) n (Some (view_of_owner owner))) }
        ensures free { IfOk result (λ n. names_of_owners self.old n ≡ None) }
        ensures err { OnErr result (self.new ≡ self.old) }
    {
        self.slots.reserve(1)?;
        let place = self.slots.vacant_key();
        if place >= NOBODY as usize {
            return Err(Starved);
        }
        let number = place as OwnerId;
        if self.numbers.insert(key, number).is_err() {
            return Err(Starved);
        }
        let _ = self.slots.insert_reserved(owner);
        Ok(number)
    }

    /// The owner of a number in use.
    pub fn get(&self, number: OwnerId) -> &Owner
        requires { IsSome (names_of_owners self.now number) }
        ensures { names_of_owners self.now number ≡ Some (view_of_owner result.now) }
    {
        &self.slots[number as usize]
    }

    /// The owner of a number, if it is in use.
    pub fn find(&self, number: OwnerId) -> Option<&Owner>
        ensures { names_of_owners self.now number ≡ view_of_found result }
    {
        self.slots.get(number as usize)
    }

    /// Takes a number out of use. From now on it may be another owner's.
    pub fn release(&mut self, number: OwnerId)
        requires { IsSome (names_of_owners self.old number) }
        ensures { Renames (names_of_owners self.old) (names_of_owners self.new) number None }
    {
        let owner = self.slots.remove(number as usize);
        let _ = self.numbers.remove(&owner);
    }
}

/// Numbers in use stand as their owners.
impl OwnerOrder for Owners {
    ghost order = { λ owners. number_cmp (names_of_owners owners) };

    fn compare(&self, a: OwnerId, b: OwnerId) -> Ordering {
        match (self.find(a), self.find(b)) {
            (Some(x), Some(y)) => x.cmp(y).then(a.cmp(&b)),
            (Some(_), None) => Ordering::Greater,
            (None, Some(_)) => Ordering::Less,
            (None, None) => a.cmp(&b),
        }
    }

    ghost total = { λ owners. number_total (names_of_owners owners) };

    ghost exact = { λ owners. number_exact (names_of_owners owners) };
}
