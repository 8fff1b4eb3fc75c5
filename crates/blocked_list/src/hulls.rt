//! Which bytes those wait for who stand together in the order of waiting.
ghost use Rattle.std.specs.Prelude.{◌≡◌, ◌<◌, ◌≤◌, [], length, IfOk};
ghost use Rattle.blocked_list.specs.Touches.{meets};
ghost use Rattle.blocked_list.specs.Hulls.{AreIn, first_of, last_of, with_run};

use crate::touched::{Touched, greater, lesser};
use crate::waiter::Waiter;
use range_table::Run;
use std::alloc::{AllocError, Global};
use std::marker::Model;

/// How many places stand together.
pub(crate) const TOGETHER: usize = 64;

/// How many times so many.
pub(crate) const BLOCKS: usize = 128;

/// From the least first byte to the greatest last one that 64 in a row wait for, of whatever files: where no byte of a change
/// lies there, none of them is looked at. A clause sees the bounds.
#[derive(Drop)]
pub(crate) struct Hulls {
    firsts: Vec<u64>,
    lasts: Vec<u64>,
}

impl Model for Hulls {
    ghost use Rattle.std.specs.Prelude.{◌≡◌, length};
    ghost use Rattle.blocked_list.specs.Hulls.{Bounds};

    ghost Value = { Bounds };

    ghost view = { λ h. record { firsts = h.firsts.items; lasts = h.lasts.items } };

    ghost invariant = { λ h. (length h.firsts.items ≡ 128) × (length h.lasts.items ≡ 128) };
}

impl Hulls {
    /// Of nobody. No later call takes memory.
    pub(crate) fn new(alloc: Global) -> Result<Hulls, AllocError>
        ensures { IfOk result (λ hulls. AreIn [] hulls) }
    {
        let mut firsts = Vec::new(alloc);
        firsts.resize(BLOCKS, u64::MAX)?;
        let mut lasts = Vec::new(alloc);
        lasts.resize(BLOCKS, 0)?;
        let mut hulls = Hulls { firsts, lasts };
        hulls.forget();
        Ok(hulls)
    }

    /// One more stands at this place, who waits for this lock.
    pub(crate) fn widen(&mut self, place: usize, wanted: &Run)
        requires { place < 8192 }
        ensures { self.new ≡ with_run self.old place wanted.now }
    {
        let block = place / TOGETHER;
        self.firsts[block] = lesser(self.firsts[block], wanted.first);
        self.lasts[block] = greater(self.lasts[block], wanted.last);
    }

    /// Whether a byte of these lies within the bounds of the block.
    pub(crate) fn may_meet(&self, block: usize, touched: &Touched) -> bool
        requires { block < 128 }
        ensures { result ≡ meets touched.now (first_of self.now block) (last_of self.now block) }
    {
        self.firsts[block] <= touched.last && touched.first <= self.lasts[block]
    }

    /// Some of so many waiters may be gone. Where one is, all bounds are found anew.
    pub(crate) fn refresh_after(&mut self, waiters: &[Waiter], before: usize)
        requires few { length waiters.now ≤ 8192 }
        requires same { before ≤ length waiters.now → AreIn waiters.now self.old }
        ensures { AreIn waiters.now self.new }
    {
        if waiters.len() < before {
            self.refresh(waiters);
        }
    }

    /// All bounds are found anew.
    pub(crate) fn refresh(&mut self, waiters: &[Waiter])
        requires { length waiters.now ≤ 8192 }
        ensures { AreIn waiters.now self.new }
    {
        self.forget();
        for place in 0..waiters.len() {
            self.widen(place, waiters[place].wanted());
        }
    }

    /// Of nobody.
    pub(crate) fn forget(&mut self)
        ensures { AreIn [] self.new }
    {
        self.firsts.as_mut_slice().fill(u64::MAX);
        self.lasts.as_mut_slice().fill(0);
    }
}
