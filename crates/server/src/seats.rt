//! What it takes to answer jobs is given to the places of connections and to the workers, and taken back.
ghost use Rattle.std.specs.Prelude.{◌≡◌};

use crate::context::ConnectionTables;
use crate::fault::ServerFault;
use crate::settings::ServerSettings;
use crate::worker_pool::{PoolBuilder, PoolShutdown};
use connections::ConnectionTable;
use hosts_db::HostStore;
use job_queue::{Channel, Place};
use range_table::RangeTable;
use std::alloc::{AllocError, Global};
use std::marker::PhantomData;
use std::sync::Mutex;
use std::sync::ledger::Ledger;
use workers::{Shared, Worker};

/// How many connections of local programs may be open.
const LOCAL_PLACES: usize = 256;

/// How many connections of operators may be open.
const OPERATOR_PLACES: usize = 16;

/// How many parts the ledger `L` is cut into.
#[derive(Drop)]
pub(crate) struct Parts<L: Ledger> {
    count: u64,
    of: PhantomData<L>,
    ghost all: { count ≡ L.parts },
}

impl<L: Ledger> Parts<L> {
    /// As many.
    pub(crate) fn new(count: u64) -> Parts<L>
        requires { count ≡ L.parts }
    {
        Parts {
            count,
            of: PhantomData,
        }
    }

    fn count(&self) -> u64
        ensures { result ≡ L.parts }
    {
        self.count
    }
}

/// A channel and who cuts workers of it, before anything was given out. The ledger is cut into these parts.
#[derive(Drop)]
pub(crate) struct Unseated<P: Place, L: Ledger> {
    pub(crate) alloc: Global,
    pub(crate) channel: Channel<P>,
    pub(crate) pool_builder: PoolBuilder<P, L>,
    pub(crate) parts: Parts<L>,
}

/// What it takes to answer jobs, of whoever has no connection.
#[derive(Drop)]
pub(crate) struct Crew<P: Place, L: Ledger> {
    /// Of the workers.
    pub(crate) workers: Vec<Worker<P, L>>,
    /// Of the port for datagrams, where there is one.
    pub(crate) datagrams: Option<Worker<P, L>>,
    /// Of the server's own notices, where LOCKs report reboots.
    pub(crate) notices: Option<Worker<P, L>>,
}

/// A channel, the connections with what their places lend, and who takes back what was given out. The ledger is cut into these parts.
#[derive(Drop)]
pub(crate) struct Seats<P: Place, L: Ledger> {
    pub(crate) channel: Channel<P>,
    pub(crate) connection_tables: ConnectionTables<P, L>,
    pool_shutdown: PoolShutdown<P, L>,
    parts: Parts<L>,
}

// A connection table of callers, whose places lend what it takes to answer jobs.
fn callers<P: Place, L: Ledger>(
    alloc: Global,
    pool_builder: &mut PoolBuilder<P, L>,
    channel: &Channel<P>,
    settings: &ServerSettings,
) -> Result<ConnectionTable<Worker<P, L>>, ServerFault> {
    let workers = pool_builder.cut_all(channel, settings.connections)?;
    Ok(ConnectionTable::new(alloc, workers, settings.connections_per_peer)?)
}

// A connection table of so many places, which lend nothing: local programs and operators need nothing. Refused: there is no memory
// for it.
fn plain_places(alloc: Global, places: usize) -> Result<ConnectionTable<()>, AllocError> {
    let mut nothing = Vec::new(alloc);
    for _ in 0..places {
        nothing.push(())?;
    }
    ConnectionTable::new(alloc, nothing, None)
}

// Takes back what the places lent.
fn take_back<P: Place, L: Ledger>(
    pool_shutdown: &mut PoolShutdown<P, L>,
    channel: &Channel<P>,
    connection_table: &mut ConnectionTable<Worker<P, L>>,
) -> Result<(), ServerFault> {
    for place in 0..connection_table.places() {
        let worker = connection_table
            .take(place)
            .ok_or(ServerFault::AuditMismatch)?;
        pool_shutdown.take(channel, worker)?;
    }
    Ok(())
}

// Takes back what one had that may be missing.
fn take_one<P: Place, L: Ledger>(
    pool_shutdown: &mut PoolShutdown<P, L>,
    channel: &Channel<P>,
    worker: Option<Worker<P, L>>,
) -> Result<(), ServerFault> {
    match worker {
        Some(worker) => Ok(pool_shutdown.take(channel, worker)?),
        None => Ok(()),
    }
}

// Takes back what the workers had, then what the port for datagrams had, and then what the server's own notices had.
fn take_crew<P: Place, L: Ledger>(
    pool_shutdown: &mut PoolShutdown<P, L>,
    channel: &Channel<P>,
    crew: Crew<P, L>,
) -> Result<(), ServerFault> {
    let Crew {
        workers,
        datagrams,
        notices,
    } = crew;
    pool_shutdown.take_all(channel, workers)?;
    take_one(pool_shutdown, channel, datagrams)?;
    take_one(pool_shutdown, channel, notices)
}

// Takes back what the places lent, and then what all others had.
fn gather_all<P: Place, L: Ledger>(
    pool_shutdown: &mut PoolShutdown<P, L>,
    channel: &Channel<P>,
    callers: &mut ConnectionTable<Worker<P, L>>,
    crew: Crew<P, L>,
) -> Result<(), ServerFault> {
    match take_back(pool_shutdown, channel, callers) {
        Ok(()) => take_crew(pool_shutdown, channel, crew),
        Err(fault) => {
            drop(crew);
            Err(fault)
        }
    }
}

impl<P: Place, L: Ledger> Unseated<P, L> {
    /// Gives each place of a caller, then each worker, then the port for datagrams, where there is one, and then the server's own
    /// notices, where LOCKs report reboots, what it takes to answer jobs. What has no connection comes beside. `Starved`: there is
    /// no memory for it, and nothing is left.
    pub(crate) fn seat_all(
        self,
        settings: &ServerSettings,
    ) -> Result<(Seats<P, L>, Crew<P, L>), ServerFault> {
        let Unseated {
            alloc,
            channel,
            mut pool_builder,
            parts,
        } = self;
        let callers = callers(alloc, &mut pool_builder, &channel, settings)?;
        let workers = pool_builder.cut_all(&channel, settings.workers)?;
        let datagrams = match settings.notify {
            Some(_) => Some(pool_builder.cut(&channel)?),
            None => None,
        };
        let notices = if settings.lock_state_tells_reboot {
            Some(pool_builder.cut(&channel)?)
        } else {
            None
        };
        let locals = plain_places(alloc, LOCAL_PLACES)?;
        let operators = plain_places(alloc, OPERATOR_PLACES)?;
        let seats = Seats {
            channel,
            connection_tables: ConnectionTables {
                callers: Mutex::new(callers),
                locals: Mutex::new(locals),
                operators: Mutex::new(operators),
            },
            pool_shutdown: pool_builder.into_pool_shutdown(),
            parts,
        };
        let crew = Crew {
            workers,
            datagrams,
            notices,
        };
        Ok((seats, crew))
    }
}

impl<P: Place, L: Ledger> Seats<P, L> {
    /// Takes back what was given out, once nobody serves, and checks the journal of the same ledger: how many calls were taken,
    /// where that was audited, and else 0. `AuditMismatch`: not all came back, or the journal and the receipts don't agree.
    /// `Starved`: there is no memory to check it.
    pub(crate) fn settle<T: RangeTable + Drop, S: HostStore + Drop>(
        self,
        shared: Shared<T, S, L>,
        crew: Crew<P, L>,
    ) -> Result<u64, ServerFault> {
        let Seats {
            channel,
            connection_tables,
            mut pool_shutdown,
            parts,
        } = self;
        let mut callers = connection_tables.callers.into_inner();
        let gathered = gather_all(&mut pool_shutdown, &channel, &mut callers, crew);
        drop(callers);
        match gathered {
            Ok(()) => Ok(pool_shutdown.settle(&channel, shared, parts.count())?),
            Err(fault) => {
                drop(shared);
                drop(pool_shutdown);
                Err(fault)
            }
        }
    }
}
