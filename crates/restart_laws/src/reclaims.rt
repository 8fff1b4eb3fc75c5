//! Reclaims of locks in grace (XNFS, "Grace period").
ghost use Rattle.restart_laws.specs.Histories.{HonestHistoriesGrant, HonestHistoriesStayUnder};
ghost use Rattle.restart_laws.specs.Holds.{HoldsGrantHonestReclaims};
ghost use Rattle.restart_laws.specs.Laws.{ReclaimIsGranted, StaysUnder};
ghost use Rattle.restart_laws.specs.Runs.{HonestReclaimsAreGranted, HonestRunsStayUnder};

use workers::hold_is_step;

/// In grace a step from a world under a list of locks leads to one under it, unless it reclaims a lock that isn't honest.
pub fn world_stays_under_the_list()
    ensures { StaysUnder }
{}

/// From a world under the list an honest reclaim that is done, and for which nothing is wanting, is granted.
pub fn honest_reclaim_is_granted()
    ensures { ReclaimIsGranted }
{}

/// Over every legal history whose reclaims since a restart are honest the world stays under the list.
pub fn honest_histories_stay_under()
    ensures { HonestHistoriesStayUnder }
{}

/// So each honest reclaim is granted, in whatever order and number they come.
pub fn honest_histories_grant()
    ensures { HonestHistoriesGrant }
{}

/// Over every list of events since a restart whose reclaims are honest the world stays under the list.
pub fn honest_runs_stay_under()
    ensures { HonestRunsStayUnder }
{
    honest_histories_stay_under();
}

/// So each honest reclaim is granted, in whatever order and number they come, and the reply that says so is sent.
pub fn honest_reclaims_are_granted()
    ensures { HonestReclaimsAreGranted }
{
    honest_runs_stay_under();
}

/// So it is in each hold of a server's book, where the reclaims since the restart are honest.
pub fn holds_grant_honest_reclaims()
    ensures { HoldsGrantHonestReclaims }
{
    hold_is_step();
    honest_histories_grant();
}
