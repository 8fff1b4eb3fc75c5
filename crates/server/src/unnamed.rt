//! What a server is made of before its types name the channel and the ledger.
ghost use Rattle.std.specs.Prelude.{◌≡◌, ◌+◌, [], IfOk, cond, is_some};

use crate::fault::ServerFault;
use crate::settings::ServerSettings;
use job_queue::Opened;
use range_arena::ArenaTable;
use range_table::RangeTable;
use std::alloc::Global;
use std::sync::ledger::Blank;

/// A table without locks, a channel without jobs, and a ledger of calls that is cut into so many parts. No type names the channel
/// or the ledger yet.
#[derive(Drop)]
pub(crate) struct Unnamed<T: RangeTable> {
    pub(crate) alloc: Global,
    pub(crate) table: T,
    pub(crate) opened: Opened,
    pub(crate) blank: Blank,
    pub(crate) parts: u64,
    ghost empty: { T.settings table ≡ [] },
    ghost counted: { blank.parts ≡ parts },
}

impl Unnamed<ArenaTable> {
    /// With a part of the ledger for whoever answers calls: for each place of a connection for calls, for each worker, for the port
    /// for datagrams where there is one, and for the server's own notices where LOCKs report reboots.
    /// `Starved`: there is no memory for it.
    pub(crate) fn new(
        alloc: Global,
        settings: &ServerSettings,
    ) -> Result<Unnamed<ArenaTable>, ServerFault>
        ensures { IfOk result (λ unnamed. unnamed.parts ≡ settings.now.connections + settings.now.workers + cond (is_some settings.now.notify) 1 0 + cond settings.now.lock_state_tells_reboot 1 0) }
    {
        let Ok(table) = ArenaTable::new(alloc) else {
            return Err(ServerFault::Starved);
        };
        let Ok(opened) = Opened::new(alloc) else {
            drop(table);
            return Err(ServerFault::Starved);
        };
        let datagrams = if settings.notify.is_some() { 1 } else { 0 };
        let notices = if settings.lock_state_tells_reboot {
            1
        } else {
            0
        };
        let parts = u64::from(settings.connections)
            + u64::from(settings.workers)
            + datagrams
            + notices;
        Ok(Unnamed {
            alloc,
            table,
            opened,
            blank: Blank::new(parts),
            parts,
        })
    }
}
