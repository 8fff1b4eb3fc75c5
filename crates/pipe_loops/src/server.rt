//! What serves a stream.

ghost use Rattle.std.specs.Prelude.{◌≡◌, [], IfOk};
ghost use Rattle.daemon_core.specs.DaemonState.{opening};

use callbacks::ShortBytes;
use daemon_core::Daemon;
use hosts_db::HostStore;
use owner_ids::Starved;
use range_table::RangeTable;
use std::alloc::Global;

/// What serves a stream.
#[derive(Drop)]
pub struct Server<T: RangeTable, S: HostStore> {
    /// The table of locks. It begins without runs.
    pub table: T,
    /// The stored hosts.
    pub store: S,
    /// The name by which the server tells others of itself.
    pub own_name: ShortBytes,
    /// Whether the grace period goes on until the stream ends.
    pub is_grace: bool,
}

impl<T: RangeTable + Drop, S: HostStore + Drop> Server<T, S> {
    /// The daemon, before anything has happened. Starved: there is no memory for it.
    pub(crate) fn into_daemon(self, alloc: Global) -> Result<Daemon<T, S>, Starved>
        requires { T.settings self.table ≡ [] }
        ensures { IfOk result (λ daemon. daemon ≡ opening self.own_name (S.rows self.store) (S.refusals self.store)) }
    {
        Daemon::new(alloc, self.table, self.store, self.own_name)
    }
}
