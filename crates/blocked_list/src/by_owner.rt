//! How many wait of which owners.
ghost use Rattle.std.specs.Prelude.{◌≡◌, ◌<◌, ◌≤◌, ◌+◌, ◌-◌, ◌%◌, ◌==◌, [], length, IfOk, slice_index_or, slice_set};
ghost use Rattle.blocked_list.specs.ByOwner.{AreCounted};

use crate::waiter::Waiter;
use callbacks::MOST_SLOTS;
use owner_ids::OwnerId;
use std::alloc::{AllocError, Global};
use std::marker::Model;

/// How many wait of the owners whose numbers leave each remainder by 8,192, so that it mostly takes no walk to tell that
/// nobody of an owner waits. A clause sees the counts.
#[derive(Drop)]
pub(crate) struct ByOwner {
    counts: Vec<u16>,
}

impl Model for ByOwner {
    ghost use Rattle.std.specs.Prelude.{◌≡◌, List, ℕ, length};

    ghost Value = { List ℕ };

    ghost view = { λ b. b.counts.items };

    ghost invariant = { λ b. length b.counts.items ≡ 8192 };
}

impl ByOwner {
    /// Of nobody. No later call takes memory.
    pub(crate) fn new(alloc: Global) -> Result<ByOwner, AllocError>
        ensures { IfOk result (λ by_owner. AreCounted [] by_owner) }
    {
        let mut counts = Vec::new(alloc);
        counts.resize(MOST_SLOTS, 0)?;
        Ok(ByOwner { counts })
    }

    /// Whether nobody of an owner waits, nor of those who are counted with it.
    pub(crate) fn is_nobody(&self, owner: OwnerId) -> bool
        ensures { result ≡ (slice_index_or self.now (owner % 8192) 0 == 0) }
    {
        self.counts[place_of(owner)] == 0
    }

    /// One more of an owner waits.
    pub(crate) fn add(&mut self, owner: OwnerId)
        requires { slice_index_or self.old (owner % 8192) 0 < 8192 }
        ensures { self.new ≡ slice_set self.old (owner % 8192) (slice_index_or self.old (owner % 8192) 0 + 1) }
    {
        self.counts[place_of(owner)] += 1;
    }

    /// One of an owner waits no longer.
    pub(crate) fn remove(&mut self, owner: OwnerId)
        requires { 0 < slice_index_or self.old (owner % 8192) 0 }
        ensures { self.new ≡ slice_set self.old (owner % 8192) (slice_index_or self.old (owner % 8192) 0 - 1) }
    {
        self.counts[place_of(owner)] -= 1;
    }

    /// Some of so many waiters may be gone. Where one is, all are counted anew.
    pub(crate) fn renew_after(&mut self, waiters: &[Waiter], before: usize)
        requires few { length waiters.now ≤ MOST_SLOTS }
        requires same { before ≤ length waiters.now → AreCounted waiters.now self.old }
        ensures { AreCounted waiters.now self.new }
    {
        if waiters.len() < before {
            self.renew(waiters);
        }
    }

    fn renew(&mut self, waiters: &[Waiter])
        requires { length waiters.now ≤ MOST_SLOTS }
        ensures { AreCounted waiters.now self.new }
    {
        self.clear();
        for place in 0..waiters.len() {
            self.add(waiters[place].wanted().owner);
        }
    }

    pub(crate) fn clear(&mut self)
        ensures { AreCounted [] self.new }
    {
        self.counts.as_mut_slice().fill(0);
    }
}

// Where an owner is counted.
fn place_of(owner: OwnerId) -> usize
    ensures { result ≡ owner % 8192 }
{
    owner as usize % MOST_SLOTS
}
