//! Worked rows, each as the contract of a function that does nothing.
ghost use Rattle.std.specs.Prelude.{◌≡◌};
ghost use Rattle.definitions.specs.Replay.{outputs};
ghost use Rattle.definition_laws.specs.RowsOfGrace.{first_run_gives, in_grace, in_grace_gives, kept_past_grace, kept_past_grace_gives, late_reclaims, late_reclaims_give, one_call, one_in_grace, one_in_grace_gives, second_run_gives, stored_by_first};
ghost use Rattle.definition_laws.specs.ShortForms.{fresh_daemon, row, server};
ghost use Rattle.definitions.specs.Step.{opening_state};
ghost use Rattle.definitions.specs.World.{the_limits};

/// In grace reclaims, FREE_ALL and close act, and nothing else does.
pub fn row_in_grace()
    ensures { row in_grace ≡ in_grace_gives }
{}

/// Outside it no reclaim is granted; UNSHARE's flag is unused.
pub fn row_late_reclaims()
    ensures { row late_reclaims ≡ late_reclaims_give }
{}

/// A kept reply stays what it was past the end of grace.
pub fn row_kept_past_grace()
    ensures { row kept_past_grace ≡ kept_past_grace_gives }
{}

/// A call that finds grace.
pub fn row_one_in_grace()
    ensures { outputs the_limits fresh_daemon one_in_grace ≡ one_in_grace_gives }
{}

/// A call over a fresh store.
pub fn row_first_run()
    ensures { outputs the_limits fresh_daemon one_call ≡ first_run_gives }
{}

/// The same over the store that the first run left: its host is told of the restart.
pub fn row_second_run()
    ensures { outputs the_limits (opening_state server stored_by_first) one_call ≡ second_run_gives }
{}
