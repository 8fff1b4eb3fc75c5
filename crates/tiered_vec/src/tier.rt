//! 256 numbers in a ring.
ghost use Rattle.std.specs.Prelude.{◌≡◌, ◌+◌, ◌<◌, ◌≤◌, [], ◌∷◌, ◌++◌, length, slice_index_or};
ghost use Rattle.std.specs.List.{range_with_len};
ghost use Rattle.tiered_vec.specs.Moves.{PushedIn, PulledIn};

use crate::cells::{pull_in, push_in};
use std::marker::Model;

/// How many numbers a tier has.
pub(crate) const TIER: usize = 256;

/// A clause sees the numbers from the head on.
#[derive(Drop)]
pub(crate) struct Tier {
    cells: [u16; 256],
    head: u16,
}

impl Model for Tier {
    ghost use Rattle.std.specs.Prelude.{List, ℕ};
    ghost use Rattle.tiered_vec.specs.Tiers.{cells_from_head, IsRing};

    ghost Value = { List ℕ };

    ghost view = { λ t. cells_from_head t.head t.cells };

    ghost invariant = { λ t. IsRing t.head t.cells };
}

impl Tier {
    /// The numbers from one on.
    pub(crate) fn new(first: u16) -> Tier
        requires { first + 256 ≤ 65536 }
        ensures { result ≡ range_with_len first 256 }
    {
        let mut cells = [0; 256];
        for i in 0..256u16 {
            cells[i as usize] = first + i;
        }
        Tier { cells, head: 0 }
    }

    pub(crate) fn get(&self, at: usize) -> u16
        requires { at < TIER }
        ensures { result ≡ slice_index_or self.now at 0 }
    {
        self.cells[(self.head as usize + at) % TIER]
    }

    /// Puts a number in front and gives the last one back.
    pub(crate) fn push_front(&mut self, number: u16) -> u16
        ensures { number ∷ self.old ≡ self.new ++ result ∷ [] }
    {
        let place = (self.head + 255) % 256;
        let last = self.cells[place as usize];
        self.cells[place as usize] = number;
        self.head = place;
        last
    }

    /// Puts a number at the end and gives the first one back.
    pub(crate) fn push_back(&mut self, number: u16) -> u16
        ensures { self.old ++ number ∷ [] ≡ result ∷ self.new }
    {
        let place = self.head;
        let first = self.cells[place as usize];
        self.cells[place as usize] = number;
        self.head = (place + 1) % 256;
        first
    }
}

impl Tier {
    /// Puts a number in at the begin and takes the one in front of the end out.
    pub(crate) fn push(&mut self, begin: usize, end: usize, number: u16) -> u16
        requires order { begin ≤ end }
        requires within { end ≤ TIER }
        ensures { PushedIn self.old begin end number self.new result }
    {
        let head = self.head as usize;
        let high = TIER - head;
        if end <= high {
            return push_in(&mut self.cells, head + begin, head + end, number);
        }
        if high <= begin {
            return push_in(&mut self.cells, begin - high, end - high, number);
        }
        let number = push_in(&mut self.cells, head + begin, head + high, number);
        push_in(&mut self.cells, 0, end - high, number)
    }

    /// Puts a number in in front of the end and takes the one at the begin out.
    pub(crate) fn pull(&mut self, begin: usize, end: usize, number: u16) -> u16
        requires order { begin ≤ end }
        requires within { end ≤ TIER }
        ensures { PulledIn self.old begin end number self.new result }
    {
        let head = self.head as usize;
        let high = TIER - head;
        if end <= high {
            return pull_in(&mut self.cells, head + begin, head + end, number);
        }
        if high <= begin {
            return pull_in(&mut self.cells, begin - high, end - high, number);
        }
        let number = pull_in(&mut self.cells, 0, end - high, number);
        pull_in(&mut self.cells, head + begin, head + high, number)
    }
}
