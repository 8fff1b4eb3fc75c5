//! What a table of numbers asks of those who know the owners.
ghost use Rattle.std.specs.Prelude.{◌≡◌, ℕ, Bool};
ghost use Rattle.std.specs.Cmp.{IsTotalOrder};
ghost use Rattle.std.specs.declared.cmp.Ordering.{Ordering};
ghost use Rattle.std.specs.declared.cmp.Ordering.TheVariants.{Equal};

use crate::owners::OwnerId;
use std::cmp::Ordering;

/// The order of owners, by their numbers.
pub trait OwnerOrder {
    ghost order: { Self → ℕ → ℕ → Ordering };

    fn compare(&self, a: OwnerId, b: OwnerId) -> Ordering
        ensures { result ≡ order self.now a b };

    ghost total: { (owners : Self) → IsTotalOrder (order owners) };

    /// A number is of one owner.
    ghost exact: { (owners : Self) (a b : ℕ) → order owners a b ≡ Equal → a ≡ b };
}

/// Some owners, as those of one host.
pub trait Host {
    ghost has: { Self → ℕ → Bool };

    fn has(&self, owner: OwnerId) -> bool
        ensures { result ≡ has self.now owner };
}
