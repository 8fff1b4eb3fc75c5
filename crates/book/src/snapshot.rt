//! Values that contracts alone see.
ghost use Rattle.std.specs.Prelude.{◌≡◌};
ghost use Rattle.std.specs.Borrow.{ftrue};

use std::marker::{Model, PhantomData};

/// A `T` as contracts see it: its value at the time when this was made.
#[derive(Drop)]
pub struct Snapshot<T> {
    of: PhantomData<T>,
    pub ghost value: { T },
}

impl<T> Model for Snapshot<T> {
    ghost also_owns = { λ _. ftrue };
}

// It owns nothing.
unsafe impl<T> Send for Snapshot<T> {}

impl<T> Snapshot<T> {
    pub fn of(x: &T) -> Snapshot<T>
        ensures { result.value ≡ x.now }
    {
        let _ = x;
        Snapshot { of: PhantomData }
    }
}
