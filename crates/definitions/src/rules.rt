//! What an option changes of the rules.
ghost use Rattle.std.specs.Prelude.{◌≡◌};
ghost use Rattle.definitions.specs.Options.{view_of_rules};
ghost use Rattle.definitions.specs.World.{the_rules};

/// What an option changes of the rules of the public standards. No event changes it.
#[derive(Clone, Copy)]
pub struct Rules {
    /// Whether a LOCK, NM_LOCK or LOCK_MSG that is answered GRANTED ends each GRANTED and GRANTED_MSG of the same owner, file,
    /// range and mode, due or sent. Its owner has learned of the lock by then, and may answer such a call that it was not
    /// granted; which would unlock what it holds.
    pub polls_end_grants: bool,
}

impl Rules {
    /// The rules of the public standards: a grant ends by its answer, or once it was sent three times without one.
    pub fn standard() -> Rules
        ensures { view_of_rules result ≡ the_rules }
    {
        Rules {
            polls_end_grants: false,
        }
    }
}
