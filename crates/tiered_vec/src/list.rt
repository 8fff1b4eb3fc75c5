//! 256 tiers, one behind the other.
ghost use Rattle.std.specs.Prelude.{◌≡◌, ◌+◌, ◌*◌, ◌<◌, ◌≤◌, IfOk, length, slice_index_or};
ghost use Rattle.std.specs.List.{range_with_len};
ghost use Rattle.tiered_vec.specs.Moves.{brought, numbers_after_move, PushedIn, PulledIn};

use crate::tier::{TIER, Tier};
use std::alloc::{AllocError, Global};
use std::marker::Model;

/// A clause sees the numbers in their order.
#[derive(Drop)]
pub struct TieredList {
    tiers: Vec<Tier>,
}

impl Model for TieredList {
    ghost use Rattle.std.specs.Prelude.{List, ℕ};
    ghost use Rattle.std.specs.List.{concat};
    ghost use Rattle.tiered_vec.specs.Tiers.{AreTiers};

    ghost Value = { List ℕ };

    ghost view = { λ l. concat l.tiers.items };

    ghost invariant = { λ l. AreTiers l.tiers.items };
}

impl TieredList {
    /// The numbers from 0 to 65,535, upwards. No other call takes memory.
    pub fn new(alloc: Global) -> Result<TieredList, AllocError>
        ensures { IfOk result (λ list. list ≡ range_with_len 0 65536) }
    {
        let mut tiers = Vec::with_capacity(alloc, 256)?;
        for i in 0..256u16 {
            tiers.push(Tier::new(256 * i))?;
        }
        Ok(TieredList { tiers })
    }

    pub fn get(&self, at: usize) -> u16
        requires { at < 65536 }
        ensures number { result ≡ slice_index_or self.now at 0 }
        ensures long { length self.now ≡ 65536 }
    {
        self.tiers[at / TIER].get(at % TIER)
    }

    /// Brings the number at one place to another in front of it.
    pub fn bring(&mut self, from: usize, to: usize)
        requires order { to ≤ from }
        requires within { from < 65536 }
        ensures { self.new ≡ brought from to self.old }
    {
        let number = self.get(from);
        let _ = self.push(to, from + 1, number);
    }

    /// Sends the number at one place to another behind it.
    pub fn send(&mut self, from: usize, to: usize)
        requires order { from ≤ to }
        requires within { to < 65536 }
        ensures { self.new ≡ numbers_after_move from to self.old }
    {
        let number = self.get(from);
        let _ = self.pull(from, to + 1, number);
    }
}

impl TieredList {
    // Puts a number in at the begin and takes the one in front of the end out.
    fn push(&mut self, begin: usize, end: usize, number: u16) -> u16
        requires order { begin ≤ end }
        requires within { end ≤ 65536 }
        requires long { length self.old ≡ 65536 }
        ensures { PushedIn self.old begin end number self.new result }
    {
        let (first, last) = (begin / TIER, end / TIER);
        if first == last {
            return self.push_cells(first, begin % TIER, end % TIER, number);
        }
        let number = self.push_cells(first, begin % TIER, TIER, number);
        let number = self.push_tiers(first + 1, last, number);
        self.push_cells(last, 0, end % TIER, number)
    }

    // The same in one tier.
    fn push_cells(&mut self, tier: usize, begin: usize, end: usize, number: u16) -> u16
        requires order { begin ≤ end }
        requires within { end ≤ TIER }
        requires inside { 256 * tier + end ≤ 65536 }
        ensures pushed { PushedIn self.old (256 * tier + begin) (256 * tier + end) number self.new result }
        ensures long { length self.new ≡ length self.old }
    {
        if begin == end {
            return number;
        }
        self.tiers[tier].push(begin, end, number)
    }

    // The same tier by tier.
    fn push_tiers(&mut self, begin: usize, end: usize, number: u16) -> u16
        requires order { begin ≤ end }
        requires within { end ≤ 256 }
        requires long { length self.old ≡ 65536 }
        ensures pushed { PushedIn self.old (256 * begin) (256 * end) number self.new result }
        ensures long { length self.new ≡ 65536 }
    {
        let mut carried = number;
        for tier in begin..end {
            carried = self.push_front(tier, carried);
        }
        carried
    }

    // Puts a number in front of a tier and gives its last one back.
    fn push_front(&mut self, tier: usize, number: u16) -> u16
        requires { tier < 256 }
        ensures { PushedIn self.old (256 * tier) (256 * (tier + 1)) number self.new result }
    {
        self.tiers[tier].push_front(number)
    }
}

impl TieredList {
    // Puts a number in in front of the end and takes the one at the begin out.
    fn pull(&mut self, begin: usize, end: usize, number: u16) -> u16
        requires order { begin ≤ end }
        requires within { end ≤ 65536 }
        requires long { length self.old ≡ 65536 }
        ensures { PulledIn self.old begin end number self.new result }
    {
        let (first, last) = (begin / TIER, end / TIER);
        if first == last {
            return self.pull_cells(first, begin % TIER, end % TIER, number);
        }
        let number = self.pull_cells(last, 0, end % TIER, number);
        let number = self.pull_tiers(first + 1, last, number);
        self.pull_cells(first, begin % TIER, TIER, number)
    }

    // The same in one tier.
    fn pull_cells(&mut self, tier: usize, begin: usize, end: usize, number: u16) -> u16
        requires order { begin ≤ end }
        requires within { end ≤ TIER }
        requires inside { 256 * tier + end ≤ 65536 }
        ensures pulled { PulledIn self.old (256 * tier + begin) (256 * tier + end) number self.new result }
        ensures long { length self.new ≡ length self.old }
    {
        if begin == end {
            return number;
        }
        self.tiers[tier].pull(begin, end, number)
    }

    // The same tier by tier, the last one first.
    fn pull_tiers(&mut self, begin: usize, end: usize, number: u16) -> u16
        requires order { begin ≤ end }
        requires within { end ≤ 256 }
        requires long { length self.old ≡ 65536 }
        ensures pulled { PulledIn self.old (256 * begin) (256 * end) number self.new result }
        ensures long { length self.new ≡ 65536 }
    {
        let mut carried = number;
        for back in 0..end - begin {
            carried = self.push_back(end - (back + 1), carried);
        }
        carried
    }

    // Puts a number behind a tier and gives its first one back.
    fn push_back(&mut self, tier: usize, number: u16) -> u16
        requires { tier < 256 }
        ensures { PulledIn self.old (256 * tier) (256 * (tier + 1)) number self.new result }
    {
        self.tiers[tier].push_back(number)
    }
}
