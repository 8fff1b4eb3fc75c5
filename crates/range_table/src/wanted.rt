//! A lock that is asked for.
ghost use Rattle.std.specs.Prelude.{◌≡◌, ◌≤◌, ◌<◌, ◌^◌};

use crate::run::Run;
use std::marker::Model;

/// A lock that is asked for, of at least one byte and of bytes from 0 to 2^63 - 1. A clause sees its run.
#[derive(Clone, Copy)]
pub struct Wanted {
    run: Run,
}

impl Model for Wanted {
    ghost use Rattle.range_table.specs.declared.run.Run.{Run};

    ghost Value = { Run };

    ghost use Rattle.range_table.specs.Range.{IsRange};

    ghost view = { λ w. w.run };

    ghost invariant = { λ w. IsRange w.run.first w.run.last };

    ghost inverse = { λ r. record { run = r } };
}

impl Wanted {
    pub fn new(run: Run) -> Wanted
        requires ordered { run.first ≤ run.last }
        requires inside { run.last < 2 ^ 63 }
        ensures { result ≡ run }
    {
        Wanted { run }
    }

    pub fn run(&self) -> &Run
        ensures run { result.now ≡ self.now }
        ensures ordered { self.now.first ≤ self.now.last }
        ensures inside { self.now.last < 2 ^ 63 }
    {
        &self.run
    }
}
