//! Each event is one change and one note of it.

/// What events change. Of each a `U` is told, and an `N` is to be noted.
pub trait Changing<E, U, N> {
    /// The event led from the one to the other, this is told, and this is to be noted.
    ghost Changes: { Self → E → U → N → Self → Type 0 };

    fn change(&mut self, event: E) -> (U, N)
        ensures { Changes self.old event result.0 result.1 self.new };
}

/// Where changes are noted.
pub trait Noting<N> {
    /// There is room for one note more.
    ghost HasRoom: { Self → Type 0 };

    /// It has this note more.
    ghost Notes: { Self → N → Self → Type 0 };

    fn note(&mut self, note: N)
        requires { HasRoom self.old }
        ensures { Notes self.old note self.new };
}

/// One event: one change, and its note.
pub fn change_noted<E, U, N: Drop, C: Changing<E, U, N>, J: Noting<N>>(
    changing: &mut C,
    noting: &mut J,
    event: E,
) -> U
    requires { J.HasRoom noting.old }
    ensures { (note : N) × C.Changes changing.old event result note changing.new × J.Notes noting.old note noting.new }
{
    let (told, note) = changing.change(event);
    noting.note(note);
    told
}
