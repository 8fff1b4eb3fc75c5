//! A struct whose contracts see the daemon's state as its value: each part of a state has a code that Rattle finds.
ghost use Rattle.std.specs.Prelude.{◌≡◌};
ghost use Rattle.definition_laws.specs.ShortForms.{fresh_daemon};

use std::marker::Model;

/// A daemon that holds nothing yet, over a store without hosts. `own` is the own state that the store has kept.
#[derive(Drop)]
pub struct Fresh {
    own: u32,
}

impl Model for Fresh {
    ghost use Rattle.definitions.specs.Step.{State, opening_state};
    ghost use Rattle.definition_laws.specs.ShortForms.{server, no_hosts};

    ghost Value = { State };

    ghost view = { λ f. opening_state server (record no_hosts { own = f.own }) };
}

/// The daemon as every worked row begins with it.
pub fn make_fresh() -> Fresh
    ensures { result ≡ fresh_daemon }
{
    Fresh { own: 0 }
}
