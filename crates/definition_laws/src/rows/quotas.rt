//! Worked rows, each as the contract of a function that does nothing.
ghost use Rattle.std.specs.Prelude.{◌≡◌};
ghost use Rattle.definition_laws.specs.RowsOfQuotas.{freed_by_own, freed_by_own_gives, lowered_quota_events, lowered_gives, quota_in_grace, quota_in_grace_gives, quota_of_runs, quota_of_runs_gives, refused_grant_stays, refused_grant_stays_gives, QuotaRefused, QuotaRefusedStays};
ghost use Rattle.definition_laws.specs.ShortForms.{row};

/// A quota holds locks, unlocks and waiters back, and lets them go once it is raised.
pub fn row_quota_of_runs()
    ensures { row quota_of_runs ≡ quota_of_runs_gives }
{}

/// Whoever has more runs than a lowered quota may still join them and give them back.
pub fn row_lowered()
    ensures { row lowered_quota_events ≡ lowered_gives }
{}

/// Who waits for its host's quota alone is granted once a lock of its host goes.
pub fn row_freed_by_own()
    ensures { row freed_by_own ≡ freed_by_own_gives }
{}

/// A refused grant stays where its unlock is refused.
pub fn row_refused_grant_stays()
    ensures { row refused_grant_stays ≡ refused_grant_stays_gives }
{}

/// Reclaims are held to the quota, which outlasts a restart.
pub fn row_quota_in_grace()
    ensures { row quota_in_grace ≡ quota_in_grace_gives }
{}

/// A store that refuses the quota.
pub fn row_quota_refused()
    ensures { QuotaRefused }
{}

/// And changes nothing.
pub fn row_quota_refused_stays()
    ensures { QuotaRefusedStays }
{}
