//! Who asked for a lock.
ghost use Rattle.std.specs.Prelude.{◌≡◌, ◌≤◌, length, IfOk};
ghost use Rattle.definitions.specs.Owners.{Remote};
ghost use Rattle.owner_ids.specs.Views.{view_of_owner};

use owner_ids::Owner;
use std::alloc::{AllocError, Global};
use std::marker::Model;

/// The owner that a call names (RFC 1813, appendix II, nlm4_lock): its host's name, its number there and its own bytes.
/// The name and the bytes are at most 1,024 each. It is held as the lock tables know it, so that a range of it is
/// unlocked without a copy.
#[derive(Drop)]
pub struct Caller {
    owner: Owner,
}

impl Model for Caller {
    ghost use Rattle.definitions.specs.Owners.{Caller as SaidCaller};
    ghost use Rattle.owner_ids.specs.Views.{view_of_owner};
    ghost use Rattle.callbacks.specs.Callers.{caller_of, IsCaller};

    ghost Value = { SaidCaller };

    ghost view = { λ c. caller_of (view_of_owner c.owner) };

    ghost invariant = { λ c. IsCaller (view_of_owner c.owner) };
}

impl Caller {
    /// A copy of what a call says.
    pub fn copy_of(alloc: Global, name: &[u8], svid: i32, oh: &[u8]) -> Result<Caller, AllocError>
        requires name { length name.now ≤ 1024 }
        requires oh { length oh.now ≤ 1024 }
        ensures { IfOk result (λ caller. caller ≡ record { name = name.now; svid = svid; oh = oh.now }) }
    {
        Ok(Caller {
            owner: Owner::Remote {
                name: Vec::from_slice(alloc, name)?,
                svid,
                oh: Vec::from_slice(alloc, oh)?,
            },
        })
    }

    /// Its host's name.
    pub fn name(&self) -> &[u8]
        ensures bytes { result.now ≡ self.now.name }
        ensures most { length result.now ≤ 1024 }
    {
        match &self.owner {
            Owner::Remote { name, .. } => name.as_slice(),
            Owner::Process(_) | Owner::Description(_) => unreachable!(),
        }
    }

    /// Its number at its host.
    pub fn svid(&self) -> i32
        ensures { result ≡ self.now.svid }
    {
        match &self.owner {
            Owner::Remote { svid, .. } => *svid,
            Owner::Process(_) | Owner::Description(_) => unreachable!(),
        }
    }

    /// Its own bytes.
    pub fn oh(&self) -> &[u8]
        ensures bytes { result.now ≡ self.now.oh }
        ensures most { length result.now ≤ 1024 }
    {
        match &self.owner {
            Owner::Remote { oh, .. } => oh.as_slice(),
            Owner::Process(_) | Owner::Description(_) => unreachable!(),
        }
    }

    /// As the lock tables know it.
    #[tactic(auto, using(crate::proofs::Callers::is_remote, crate::proofs::Callers::oh_fits))]
    pub fn owner(&self) -> &Owner
        ensures owner { view_of_owner result.now ≡ Remote self.now }
        ensures most { length self.now.oh ≤ 1024 }
    {
        &self.owner
    }
}
