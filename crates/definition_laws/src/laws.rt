//! The laws of the definitions, each as the contract of a function that does nothing.
ghost use Rattle.definition_laws.specs.Asking.{HostRunLaw, StarvedLaw, StoreLaw, UnaskedLaw};
ghost use Rattle.definitions.specs.Conflict.{ConflictLaw, ConflictWithLaw};
ghost use Rattle.definitions.specs.Hosts.{HostsLaw, NextOwnLaw};
ghost use Rattle.definition_laws.specs.Monitored.{MonitoredLaw, RefusedRowLaw};
ghost use Rattle.definitions.specs.Moves.{ExclusionLaw, GraceGrantsLaw, GraceLaw, GraceRunLaw, HonestIsGranted, RunIsSound};
ghost use Rattle.definition_laws.specs.Numbers.{NumbersLaw};
ghost use Rattle.definitions.specs.Owners.{OwnersLaw};
ghost use Rattle.definitions.specs.Quotas.{FullQuotaLaw};
ghost use Rattle.definitions.specs.Replay.{HistoryGrows, HistoryLaw};
ghost use Rattle.definitions.specs.Reclaims.{ExclusionKept, ExclusionKeptByDrops, ExclusionKeptByUnlock, HonestMeetsNoConflict, HonestStaysWithin, RestartIsUnder};
ghost use Rattle.definitions.specs.Settings.{DropHostLaw, DropOwnerLaw, NewestLaw};
ghost use Rattle.definitions.specs.Shares.{ClashLaw, SharesLaw};
ghost use Rattle.definition_laws.specs.Polls.{LateAnswerLaw, PollLaw};
ghost use Rattle.definition_laws.specs.Standing.{GraceAnswersLaw, GraceCallsLaw, GraceSharesLaw, OwnNameLaw, RulesLaw, ShareRunLaw, ShownLaw};
ghost use Rattle.definitions.specs.Starts.{FirstConflictLaw, RunsLaw, StartsLaw};
ghost use Rattle.definitions.specs.Step.{RepeatLaw};
ghost use Rattle.definitions.specs.Uses.{KeptIsFound, KeptLaw};
ghost use Rattle.definitions.specs.Waits.{CycleLaw};
ghost use Rattle.definitions.specs.World.{RestartNotices, SettleLaw};

/// The newest setting that covers a byte decides.
#[tactic(auto, using(definitions::proofs::SettingLaws::newest_wins))]
pub fn newest_setting_wins()
    ensures { NewestLaw }
{}

/// A drop of a host takes its owners' modes away, and no other's.
#[tactic(auto, using(definitions::proofs::SettingLaws::drop_host))]
pub fn drop_of_host()
    ensures { DropHostLaw }
{}

/// A drop of an owner on a file takes its modes there away, and no other.
#[tactic(auto, using(definitions::proofs::SettingLaws::drop_owner))]
pub fn drop_of_owner_on_file()
    ensures { DropOwnerLaw }
{}

/// The tested bytes tell whether some byte of the range conflicts.
#[tactic(auto, using(definitions::proofs::ConflictLaws::conflicts_law))]
pub fn conflict_is_found()
    ensures { ConflictLaw }
{}

/// The same with one owner.
#[tactic(auto, using(definitions::proofs::ConflictLaws::conflicts_with_law))]
pub fn conflict_with_owner_is_found()
    ensures { ConflictWithLaw }
{}

/// `starts` holds exactly the starts, in order and each once.
#[tactic(auto, using(definitions::proofs::StartLaws::starts_law))]
pub fn starts_are_exact()
    ensures { StartsLaw }
{}

/// A quota of as many runs as the whole table may have refuses nothing that finds free runs.
#[tactic(auto, using(definitions::proofs::QuotaLaws::full_quota_law))]
pub fn full_quota_refuses_nothing()
    ensures { FullQuotaLaw }
{}

/// `closes_cycle` is true exactly where a chain of waits leads back to the asker.
#[tactic(auto, using(definitions::proofs::WaitLaws::cycle_law))]
pub fn cycle_is_found()
    ensures { CycleLaw }
{}

/// Settle is a list of grants, each of the first ready waiter, at whose end none is ready.
#[tactic(auto, using(definitions::proofs::WorldLaws::settle_law))]
pub fn settle_grants_first_ready()
    ensures { SettleLaw }
{}

/// A lock that meets no conflict leaves no exclusive mode beside another's.
#[tactic(auto, using(definitions::proofs::ReclaimLaws::exclusion_kept))]
pub fn exclusion_is_kept()
    ensures { ExclusionKept }
{}

/// Nor does an unlock.
#[tactic(auto, using(definitions::proofs::ReclaimLaws::exclusion_kept_by_unlock))]
pub fn exclusion_is_kept_by_unlock()
    ensures { ExclusionKeptByUnlock }
{}

/// Nor does a drop.
#[tactic(auto, using(definitions::proofs::ReclaimLaws::exclusion_kept_by_drops))]
pub fn exclusion_is_kept_by_drops()
    ensures { ExclusionKeptByDrops }
{}

/// After a restart one notice for each row is due, in order, and no other call.
pub fn restart_tells_each_host()
    ensures { RestartNotices }
{}

/// The next own state is the least odd number above the stored one, and after 2^31 - 1 it is 1.
#[tactic(auto, using(definitions::proofs::WorldLaws::next_own_law))]
pub fn next_own_state_is_least_odd()
    ensures { NextOwnLaw }
{}

/// The world after a restart is under every list.
pub fn restarted_world_is_under()
    ensures { RestartIsUnder }
{}

/// An honest reclaim stays within the modes of the list.
#[tactic(auto, using(definitions::proofs::ReclaimLaws::honest_stays_within))]
pub fn honest_reclaim_stays_within()
    ensures { HonestStaysWithin }
{}

/// An honest reclaim meets no conflict.
pub fn honest_reclaim_meets_no_conflict()
    ensures { HonestMeetsNoConflict }
{}

/// After every step no exclusive mode stands beside another owner's, and nobody who waits is ready.
#[tactic(auto, using(crate::proofs::StepLaws::exclusion_law))]
pub fn each_step_is_sound()
    ensures { ExclusionLaw }
{}

/// In grace a step leads from under a list to under it, unless it is a reclaim that isn't honest.
pub fn grace_stays_under()
    ensures { GraceLaw }
{}

/// A run begins at a start, has one mode throughout, and ends where that mode ends.
pub fn each_run_is_whole()
    ensures { RunsLaw }
{}

/// There is a first conflict exactly where the range conflicts, and no conflicting run comes before it.
pub fn first_conflict_is_least()
    ensures { FirstConflictLaw }
{}

/// So it is after any events, whatever was refused or starved.
pub fn each_history_is_sound()
    ensures { RunIsSound }
{}

/// In grace a table gains a mode only by a reclaim.
pub fn grace_grants_reclaims_only()
    ensures { GraceGrantsLaw }
{}

/// Over any events in grace whose reclaims are honest the world stays under the list.
pub fn honest_histories_stay_under()
    ensures { GraceRunLaw }
{}

/// An honest reclaim is granted, unless runs, its host's quota or the row are wanting.
pub fn honest_reclaim_is_granted()
    ensures { HonestIsGranted }
{}

/// The order of owners is total, and tells all owners apart.
pub fn owners_are_ordered()
    ensures { OwnersLaw }
{}

/// A call whose reply is kept is not applied again.
pub fn repeat_is_not_applied()
    ensures { RepeatLaw }
{}

/// A LOCK or LOCK_MSG that is granted or waits is of a host with a row.
pub fn monitored_lock_has_row()
    ensures { MonitoredLaw }
{}

/// Each store call keeps rows and watches in order, and none twice.
pub fn hosts_stay_in_order()
    ensures { HostsLaw }
{}

/// There is one share for each file and owner.
pub fn shares_stay_single()
    ensures { SharesLaw }
{}

/// A history is fixed by its events, their outcomes and the store's answers.
pub fn history_is_fixed()
    ensures { HistoryLaw }
{}

/// A step more makes a legal history of one.
pub fn history_grows_by_a_step()
    ensures { HistoryGrows }
{}

/// Over every step the server's own calls keep their numbers and their order, and new ones are numbered on.
pub fn numbers_rise_by_one()
    ensures { NumbersLaw }
{}

/// No step changes the own name.
pub fn own_name_stays()
    ensures { OwnNameLaw }
{}

/// Nor the rules.
pub fn rules_stay()
    ensures { RulesLaw }
{}

/// A new share is denied exactly where another owner's does what it denies, or denies what it does.
pub fn clash_is_found()
    ensures { ClashLaw }
{}

/// After any events no share does what another owner's on the file denies.
pub fn shares_coexist()
    ensures { ShareRunLaw }
{}

/// In grace no share is granted but a reclaim.
pub fn grace_shares_are_reclaims()
    ensures { GraceSharesLaw }
{}

/// What is kept are the newest uses, each of another call, as many as there is room for.
pub fn kept_are_newest_uses()
    ensures { KeptLaw }
{}

/// A call whose reply is kept stands first, where its repeat finds that reply.
pub fn kept_reply_is_found()
    ensures { KeptIsFound }
{}

/// In grace nobody waits, and no call tells of a grant.
pub fn grace_tells_of_no_grant()
    ensures { GraceCallsLaw }
{}

/// In grace a lock or a share is answered GRANTED, or comes to wait, only where it is a reclaim.
pub fn grace_answers_reclaims_only()
    ensures { GraceAnswersLaw }
{}

/// Where the store isn't asked there is one outcome.
pub fn unasked_is_decided()
    ensures { UnaskedLaw }
{}

/// What starved changes nothing but, perhaps, the hosts.
pub fn starved_leaves_all_but_hosts()
    ensures { StarvedLaw }
{}

/// Hosts change as the event's store call says, where it was answered yes, and never else.
pub fn hosts_follow_the_store()
    ensures { StoreLaw }
{}

/// After any events rows and watches stand in order, and none twice.
pub fn hosts_stay_in_order_over_runs()
    ensures { HostRunLaw }
{}

/// Where the store refuses the row, the lock is refused and nothing has changed.
pub fn refused_row_changes_nothing()
    ensures { RefusedRowLaw }
{}

/// What a version shows as granted or waiting is so, and what it shows otherwise is not.
#[tactic(auto, using(crate::proofs::StandingLaws::shown_law))]
pub fn shown_statuses_keep_their_sense()
    ensures { ShownLaw }
{}

/// Where polls end grants, an answer to a lock call that is GRANTED leaves no call that tells of its lock.
pub fn polled_lock_is_untold()
    ensures { PollLaw }
{}

/// No answer to a call of the server's own unlocks a lock that no call tells of.
pub fn late_answer_unlocks_another()
    ensures { LateAnswerLaw }
{}
