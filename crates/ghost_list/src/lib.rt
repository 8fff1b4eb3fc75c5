//! Lists that only contracts read: what was received, what was given, which entries there were.
//! They take no memory, and their methods do nothing at run time.
#![tactic(auto)]

ghost use Rattle.std.specs.Prelude.{◌≡◌, List, [], ◌∷◌, ◌++◌};
ghost use Rattle.std.specs.Borrow.{ftrue};

use std::marker::{Model, PhantomData};

/// A list whose items a clause reads as `items`, the oldest first. The invariant of the type that
/// has it says what it has to do with what is real: alone it says nothing.
#[derive(Drop)]
pub struct History<S> {
    of: PhantomData<S>,
    pub ghost items: { List S },
}

impl<S> Model for History<S> {
    ghost also_owns = { λ _. ftrue };
}

// It owns nothing.
unsafe impl<S: Send> Send for History<S> {}

impl<S> History<S> {
    /// With no items.
    pub fn new() -> History<S>
        ensures { result.items ≡ [] }
    {
        History { of: PhantomData }
    }

    /// The list that the caller's proof names, out of this one and of what it is handed.
    pub fn after<K>(&self, by: &K) -> History<S>
        ghost items: { List S }
        ensures { result.items ≡ items }
    {
        History { of: PhantomData }
    }

    /// With this item more.
    pub fn and(&self, item: &S) -> History<S>
        ensures { result.items ≡ self.now.items ++ item.now ∷ [] }
    {
        self.after(item)
    }

    /// With these items more.
    pub fn and_all(&self, more: &[S]) -> History<S>
        ensures { result.items ≡ self.now.items ++ more.now }
    {
        self.after(&more)
    }
}
