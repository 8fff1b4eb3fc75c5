//! Worked rows, each as the contract of a function that does nothing.
ghost use Rattle.std.specs.Prelude.{◌≡◌};
ghost use Rattle.definitions.specs.Replay.{outputs};
ghost use Rattle.definition_laws.specs.RowsOfHosts.{waiter_dropped, waiter_dropped_gives, NoticeAnswered, NotifySeen, StarvedEarly, StarvedLate, StarvedLateSetsNothing, StateWraps, grace, grace_gives, monitor_and_simulated_crash, monitor_and_simulated_crash_gives, notify, notify_gives, restart, restart_gives, rows_of_waiters, rows_of_waiters_gives, stat_call, stat_call_gives, two_hosts};
ghost use Rattle.definition_laws.specs.ShortForms.{fresh_daemon, row, server};
ghost use Rattle.definitions.specs.Step.{opening_state};
ghost use Rattle.definitions.specs.World.{the_limits};

/// In grace only reclaims are granted, and afterwards none.
pub fn row_grace()
    ensures { outputs the_limits fresh_daemon grace ≡ grace_gives }
{}

/// A host that has restarted is dropped, once for each state.
pub fn row_notify()
    ensures { row notify ≡ notify_gives }
{}

/// The state that was seen changes nothing.
pub fn row_notify_seen()
    ensures { NotifySeen }
{}

/// After a restart each host is told, in order of name.
pub fn row_restart()
    ensures { outputs the_limits (opening_state server two_hosts) restart ≡ restart_gives }
{}

/// An answer of SUCCESS stores the epoch.
pub fn row_notice_answered()
    ensures { NoticeAnswered }
{}

/// After the last state comes 1.
pub fn row_state_wraps()
    ensures { StateWraps }
{}

/// Watches, their status calls, and SM_SIMU_CRASH.
pub fn row_monitor_and_simulated_crash()
    ensures { row monitor_and_simulated_crash ≡ monitor_and_simulated_crash_gives }
{}

/// SM_STAT.
pub fn row_stat_call()
    ensures { row stat_call ≡ stat_call_gives }
{}

/// LOCK stores a row for a waiter, NM_LOCK none.
pub fn row_rows_of_waiters()
    ensures { row rows_of_waiters ≡ rows_of_waiters_gives }
{}

/// A lock that starved before the store was asked changes nothing.
pub fn row_starved_early()
    ensures { StarvedEarly }
{}

/// One that starved behind the store leaves the row.
pub fn row_starved_late()
    ensures { StarvedLate }
{}

/// And no lock.
pub fn row_starved_late_sets_nothing()
    ensures { StarvedLateSetsNothing }
{}

/// A drop takes a host's waiters, too.
pub fn row_waiter_dropped()
    ensures { row waiter_dropped ≡ waiter_dropped_gives }
{}
