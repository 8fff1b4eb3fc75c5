//! The server begins anew (XNFS, NSM: crash and recovery).
ghost use Rattle.restart_laws.specs.Laws.{BeginsAnew, BeginsUnder};
ghost use Rattle.restart_laws.specs.Runs.{DaemonBeginsAnew};

/// After a restart that the store agreed to, SM_SIMU_CRASH among them, the own state is odd and not the stored one, and one
/// SM_NOTIFY with it is due for each row, in order of name, and no other call.
pub fn restart_begins_anew()
    ensures { BeginsAnew }
{}

/// And the world is under every list of locks: nobody has more than the list gives, and nobody waits.
pub fn restart_is_under_every_list()
    ensures { BeginsUnder }
{}

/// So it is of the daemon, by the event as by the call of a local peer.
pub fn daemon_begins_anew()
    ensures { DaemonBeginsAnew }
{}
