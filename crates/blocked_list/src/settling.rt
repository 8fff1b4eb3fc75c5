//! Who waits is granted, one after another, until nobody can be.
ghost use Rattle.std.specs.Prelude.{◌≡◌, ◌<◌, true, false, length};
ghost use Rattle.definitions.specs.World.{settled_world, the_limits};
ghost use Rattle.definitions.specs.Owners.{Owner as SaidOwner};

/// Grants those who wait.
pub trait Grantor {
    ghost use Rattle.std.specs.Prelude.{ℕ, List, Option};
    ghost use Rattle.definitions.specs.Owners.{Owner};
    ghost use Rattle.definitions.specs.World.{World};

    /// Who waits, and what stands in the way.
    ghost world: { Self → World };

    /// Who has a number.
    ghost names: { Self → List (Option Owner) };

    /// How often the store has refused.
    ghost refusals: { Self → ℕ };

    /// Who holds nothing, and waits for nothing.
    ghost Idle: { Self → Owner → Type 0 };

    /// Grants the first waiter that can be granted. Whether there was one.
    fn grant_next(&mut self) -> bool
        ensures same { settled_world the_limits (world self.new) ≡ settled_world the_limits (world self.old) }
        ensures done { result ≡ false → world self.new ≡ settled_world the_limits (world self.new) }
        ensures fewer { result ≡ true → length (world self.new).waiters < length (world self.old).waiters }
        ensures names { names self.new ≡ names self.old }
        ensures refusals { refusals self.new ≡ refusals self.old }
        ensures idle { (x : Owner) → Idle self.new x → Idle self.old x };
}

/// Grants the first waiter that can be granted, and again from the front, until none can be.
pub fn settle<G: Grantor>(grantor: &mut G)
    ensures world { G.world grantor.new ≡ settled_world the_limits (G.world grantor.old) }
    ensures names { G.names grantor.new ≡ G.names grantor.old }
    ensures refusals { G.refusals grantor.new ≡ G.refusals grantor.old }
    ensures idle { (x : SaidOwner) → G.Idle grantor.new x → G.Idle grantor.old x }
{
    while grantor.grant_next() {}
}
