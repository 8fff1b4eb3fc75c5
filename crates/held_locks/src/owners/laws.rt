//! What numbers hold and what owners hold, each law as the contract of a function that does nothing.
ghost use Rattle.held_locks.specs.Allowances.{PastLaw};
ghost use Rattle.held_locks.specs.Stands.{ClearLaw, ConflictsLaw, DropHostLaw, DropOwnerLaw, FirstConflictLaw, InternLaw, RefusalLaw, ReleaseLaw, ReleaseTestLaw, RunOrderLaw, RunsLaw, SettingLaw, UsedAfterLaw, UsedLaw, UsedOfLaw};

/// A setting on both sides.
pub fn setting_keeps()
    ensures { SettingLaw }
{}

/// A drop of a host on both sides.
pub fn drop_of_host_keeps()
    ensures { DropHostLaw }
{}

/// A drop of an owner on a file on both sides.
pub fn drop_of_owner_keeps()
    ensures { DropOwnerLaw }
{}

/// A new owner gets a number that was not in use.
pub fn intern_keeps()
    ensures { InternLaw }
{}

/// The number of an owner who holds nothing goes out of use.
pub fn release_keeps()
    ensures { ReleaseLaw }
{}

/// Nothing stands for nothing.
pub fn clear_keeps()
    ensures { ClearLaw }
{}

/// How many runs there are.
pub fn used_goes_over()
    ensures { UsedLaw }
{}

/// How many runs the owners of a host have.
pub fn used_of_goes_over()
    ensures { UsedOfLaw }
{}

/// Which settings are refused.
pub fn refusal_goes_over()
    ensures { RefusalLaw }
{}

/// The runs.
pub fn runs_go_over()
    ensures { RunsLaw }
{}

/// The first conflict.
pub fn first_conflict_goes_over()
    ensures { FirstConflictLaw }
{}

/// Whether a range conflicts.
pub fn conflicts_goes_over()
    ensures { ConflictsLaw }
{}

/// An owner with no run holds nothing, so the count of runs is the test before a release.
pub fn no_runs_hold_nothing()
    ensures { ReleaseTestLaw }
{}

/// The order of the runs.
pub fn run_order_goes_over()
    ensures { RunOrderLaw }
{}

/// How many runs there are after a setting.
pub fn used_after_goes_over()
    ensures { UsedAfterLaw }
{}

/// The number of all runs after a setting says whether it goes past a host's quota, and none does that is two runs away.
pub fn past_is_told_by_all()
    ensures { PastLaw }
{}
