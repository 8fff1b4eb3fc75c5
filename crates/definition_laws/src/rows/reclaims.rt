//! Worked rows, each as the contract of a function that does nothing.
ghost use Rattle.std.specs.Prelude.{◌≡◌};
ghost use Rattle.definitions.specs.Replay.{outputs};
ghost use Rattle.definition_laws.specs.RowsOfReclaims.{Dishonest, NewDaemonIsAlike, ReclaimsAreHonest, ReclaimsInAnyOrder, ReclaimsStayWithin, dishonest_reclaim, dishonest_reclaim_gives, restarted_after};
ghost use Rattle.definitions.specs.World.{the_limits};

/// Honest reclaims are granted in all 24 orders, and again under new xids.
pub fn row_reclaims_in_any_order()
    ensures { ReclaimsInAnyOrder }
{}

/// At each byte the mode is then at most the old one.
pub fn row_reclaims_stay_within()
    ensures { ReclaimsStayWithin }
{}

/// They are honest.
pub fn row_reclaims_are_honest()
    ensures { ReclaimsAreHonest }
{}

/// One that isn't stands in the way of one that is.
pub fn row_dishonest_reclaim()
    ensures { outputs the_limits restarted_after dishonest_reclaim ≡ dishonest_reclaim_gives }
{}

/// It isn't honest.
pub fn row_dishonest()
    ensures { Dishonest }
{}

/// A new daemon over the same rows begins alike.
pub fn row_new_daemon()
    ensures { NewDaemonIsAlike }
{}
