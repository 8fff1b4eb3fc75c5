//! A server, from its start to its end.
ghost use Rattle.std.specs.Prelude.{◌≡◌};

use crate::fault::ServerFault;
use crate::opening::Server;
use crate::runtime::Runtime;
use crate::settings::{Backing, ServerSettings};
use crate::unnamed::Unnamed;
use callback_sender::Addresses;
use hosts_db::HostStore;
use job_queue::Place;
use range_table::RangeTable;
use reply_outbox::Gate;
use std::alloc::Global;
use std::marker::Brand;
use std::sync::ledger::Ledger;

// Serves by the channel and the ledger of these types.
fn serve_as<P, L, T, S, G, R, A>(
    rt: &R,
    settings: &ServerSettings,
    backing: Backing<S, A>,
    gate: &G,
    unnamed: Unnamed<T>,
) -> Result<u64, ServerFault>
where
    P: Place + Send + Sync,
    L: Ledger + Send + Sync,
    T: RangeTable + Drop + Send,
    S: HostStore + Drop + Send,
    G: Gate + Sync,
    R: Runtime,
    A: Addresses + Drop,
    requires place { (unnamed.opened.slip.table_id ≡ P.table) × (unnamed.opened.slip.me.0.of ≡ P.key) }
    requires ledger { (unnamed.blank.name ≡ L.name) × (unnamed.blank.parts ≡ L.parts) }
{
    let (server, start) = match Server::<P, L, T, S>::open(rt, settings, backing, unnamed) {
        Ok(opened) => opened,
        Err(fault) => return Err(fault),
    };
    match server.run(rt, gate, start) {
        Ok(crew) => server.finish(crew),
        Err(fault) => {
            drop(server);
            Err(fault)
        }
    }
}

/// Serves until a local program says `stop`: how many calls were taken, where that was audited, and else 0. It begins the server
/// anew over the store's hosts, opens both listeners and, where it is asked for, the port for datagrams, starts the threads, and
/// prints `ready`; in the end all threads are joined and what they did is settled. Before each job the gate is told.
///
/// `Starved`: no memory. `NoSender`: what calls peers could not be had. `NoThread`: a thread could not be started.
/// `StoreRefused`: the store refused the new own state. `ReadFault`: a listener could not be had; the store has the new own state
/// by then. `WriteFault`: `ready` could not be written. `AuditMismatch`: the journal and the receipts don't agree, after all was
/// served. With each of these every thread that was started has ended.
pub fn serve<S, G, R, A>(
    rt: &R,
    alloc: Global,
    settings: &ServerSettings,
    backing: Backing<S, A>,
    gate: &G,
) -> Result<u64, ServerFault>
where
    S: HostStore + Drop + Send,
    G: Gate + Sync,
    R: Runtime,
    A: Addresses + Drop,
{
    let Ok(unnamed) = Unnamed::new(alloc, settings) else {
        drop(backing);
        return Err(ServerFault::Starved);
    };
    serve_as::<Brand, Brand, _, _, _, _, _>(rt, settings, backing, gate, unnamed)
}
