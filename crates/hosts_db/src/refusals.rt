//! How often a store has refused.
ghost use Rattle.std.specs.Prelude.{◌≡◌, ◌+◌};

use crate::error::StoreError;
use ghost_list::History;
use std::marker::Model;

/// How often a store has refused, which contracts alone see. It takes no memory.
#[derive(Drop)]
pub struct Refusals {
    each: History<()>,
}

impl Model for Refusals {
    ghost use Rattle.std.specs.Prelude.{ℕ, length};

    ghost Value = { ℕ };

    ghost view = { λ r. length r.each.items };
}

impl Refusals {
    /// None yet.
    pub fn new() -> Refusals
        ensures { result ≡ 0 }
    {
        Refusals {
            each: History::new(),
        }
    }

    /// One more, and what is answered.
    pub fn refuse(&mut self) -> StoreError
        ensures answer { result ≡ StoreError.StoreRefused }
        ensures counts { self.new ≡ self.old + 1 }
    {
        self.each = self.each.and(&());
        StoreError::StoreRefused
    }
}
