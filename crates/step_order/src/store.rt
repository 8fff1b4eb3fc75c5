//! What the store of hosts answers, and what is done by it.

ghost use Rattle.std.specs.Prelude.{◌≡◌, ◌≢◌};
ghost use Rattle.step_order.specs.declared.store.StoreAnswer.TheVariants.{Yes};

/// What the store answered.
#[derive(Clone, Copy, PartialEq, Eq)]
pub enum StoreAnswer {
    /// It was asked nothing.
    NotAsked,
    /// It keeps what it was asked to keep.
    Yes,
    /// It refused, and keeps what it kept before.
    Refused,
}

/// What waits for the store's answer, to be done in a world `W`. A `T` is told of it.
pub trait Pending<W, T> {
    /// It can be done in this world.
    ghost MayAgree: { Self → W → Type 0 };

    /// It was done in the one world, this is told, and the other is left.
    ghost Agreed: { Self → W → T → W → Type 0 };

    /// It can be refused in this world.
    ghost MayRefuse: { Self → W → Type 0 };

    /// It was refused, likewise.
    ghost Refused: { Self → W → T → W → Type 0 };

    /// The store keeps what it was asked to keep.
    fn agree(self, world: &mut W) -> T
        requires { MayAgree self world.old }
        ensures { Agreed self world.old result world.new };

    /// It doesn't.
    fn refuse(self, world: &mut W) -> T
        requires { MayRefuse self world.old }
        ensures { Refused self world.old result world.new };
}

/// Does what was asked for, where the store keeps what that rests on, and refuses it else.
pub fn rule<W, T, P: Pending<W, T>>(world: &mut W, pending: P, store: StoreAnswer) -> T
    requires agreed { store ≡ Yes → P.MayAgree pending world.old }
    requires refused { store ≢ Yes → P.MayRefuse pending world.old }
    ensures agreed { store ≡ Yes → P.Agreed pending world.old result world.new }
    ensures refused { store ≢ Yes → P.Refused pending world.old result world.new }
{
    match store {
        StoreAnswer::Yes => pending.agree(world),
        StoreAnswer::NotAsked | StoreAnswer::Refused => pending.refuse(world),
    }
}
