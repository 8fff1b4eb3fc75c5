//! Who holds a monitored lock, or waits for one, is a host with a row (XNFS, NSM).
ghost use Rattle.std.specs.Prelude.{◌≡◌, IfSome};
ghost use Rattle.hosts_db.specs.Outlives.{Outlives};
ghost use Rattle.restart_laws.specs.Histories.{HistoriesKeepRows, HistoriesMonitorHosts, MonitorsHosts};
ghost use Rattle.restart_laws.specs.Holds.{HoldsKeepRows};
ghost use Rattle.restart_laws.specs.Laws.{KeptRowsStay, RowsStay, StandingHasRow};
ghost use Rattle.restart_laws.specs.Runs.{RunsKeepRows};
ghost use Rattle.workers.specs.Laws.{state_of};

use book::Book;
use call_codec::one_reading;
use daemon_core::{Daemon, runs_are_histories};
use hosts_db::{HostStore, Lasting};
use range_table::RangeTable;
use std::sync::ledger::Ledger;
use workers::{Shared, hold_is_step};

/// No step takes a row away.
pub fn rows_stay()
    ensures { RowsStay }
{}

/// Kept replies that tell of a lock that was granted, or waits, stay those of hosts with rows.
pub fn kept_replies_stay_of_hosts_with_rows()
    ensures { KeptRowsStay }
{
    one_reading();
}

/// A LOCK or LOCK_MSG that is told that its lock is granted, or waits, is of a host with a row, a repeat among them.
pub fn standing_lock_has_row()
    ensures { StandingHasRow }
{}

/// No legal history takes a row away.
pub fn histories_keep_rows()
    ensures { HistoriesKeepRows }
{}

/// Wherever a history from an opening has led kept replies are of hosts with rows, and so is each call that is told that its lock
/// is granted, or waits, a repeat among them.
pub fn histories_monitor_hosts()
    ensures { HistoriesMonitorHosts }
{
    one_reading();
}

/// So it is over every list of events from the opening, whatever was refused or starved.
pub fn rows_stay_over_runs()
    ensures { RunsKeepRows }
{
    runs_are_histories();
    histories_keep_rows();
    histories_monitor_hosts();
}

/// So it is of each state that a hold of a server's book sees.
pub fn holds_monitor_hosts<R: RangeTable, S: HostStore, L: Ledger>(shared: &Shared<R, S, L>)
    ensures { MonitorsHosts (state_of shared.now) }
{
    shared.history();
    histories_monitor_hosts();
}

/// No hold takes a row away.
pub fn holds_keep_rows()
    ensures { HoldsKeepRows }
{
    hold_is_step();
    rows_stay();
}

/// The store of a daemon, once its `start` was Ok: whatever a crash leaves of it now, each host of the daemon's state has its row
/// in it. So after a LOCK or LOCK_MSG that is told that its lock is granted, or waits, no crash takes the row of its host.
pub fn lasting_store<R: RangeTable, S: HostStore>(
    daemon: &Daemon<R, Lasting<S>>,
) -> Option<&Lasting<S>>
    ensures { IfSome result (λ store. Outlives daemon.now.state.world.hosts (⟦<Lasting<S> as HostStore>⟧.may_leave store.now)) }
{
    let store = daemon.store();
    if store.is_begun() { Some(store) } else { None }
}

/// The same of a book.
pub fn lasting_store_of_book<R: RangeTable, S: HostStore>(
    book: &Book<R, Lasting<S>>,
) -> Option<&Lasting<S>>
    ensures { IfSome result (λ store. Outlives book.now.journal.end.world.hosts (⟦<Lasting<S> as HostStore>⟧.may_leave store.now)) }
{
    let store = book.store();
    if store.is_begun() { Some(store) } else { None }
}

/// The same of what a server's threads share.
pub fn lasting_store_of_shared<R: RangeTable, S: HostStore, L: Ledger>(
    shared: &Shared<R, Lasting<S>, L>,
) -> Option<&Lasting<S>>
    ensures { IfSome result (λ store. Outlives (state_of shared.now).world.hosts (⟦<Lasting<S> as HostStore>⟧.may_leave store.now)) }
{
    let store = shared.store();
    if store.is_begun() { Some(store) } else { None }
}
