//! What a server has before a thread starts.
ghost use Rattle.std.specs.Prelude.{◌≡◌, []};

use crate::boots::Boots;
use crate::context::ShutdownHandles;
use crate::datagrams::DatagramSeat;
use crate::fault::ServerFault;
use crate::listening::{Listening, listen};
use crate::operators::Status;
use crate::seats::{Crew, Parts, Seats, Unseated};
use crate::settings::{Backing, ServerSettings};
use crate::unnamed::Unnamed;
use crate::worker_pool::PoolBuilder;
use book::Book;
use boot_states::BootStates;
use connections::WorkerPool;
use hosts_db::HostStore;
use job_queue::Place;
use learned_addresses::LearnedAddresses;
use peers_file::KnownAddresses;
use range_table::RangeTable;
use std::alloc::{AllocError, Global};
use std::net::{Net, TcpListener, TcpStream};
use std::sync::Mutex;
use std::sync::ledger::{Book as Total, Ledger};
use std::time::Clock;
use workers::{Shared, Worker};

/// The bytes of a thread's stack.
const STACK: usize = 262_144;

/// A server that has begun anew: what its threads share, and what is left behind them. The pool and the journal are of one
/// ledger.
#[derive(Drop)]
pub(crate) struct Server<P: Place, L: Ledger, T: RangeTable, S: HostStore> {
    pub(crate) alloc: Global,
    pub(crate) settings: ServerSettings,
    pub(crate) shared: Mutex<Shared<T, S, L>>,
    pub(crate) seats: Seats<P, L>,
    pub(crate) status: Status,
    /// Where hosts are, if that is learned.
    pub(crate) learned: Option<Mutex<LearnedAddresses>>,
    /// Which boots hosts reported, if LOCKs report them.
    pub(crate) boots: Option<Mutex<Boots<P, L>>>,
    /// From where connections for calls may come, if that is limited.
    pub(crate) known: Option<Mutex<KnownAddresses>>,
}

/// What the threads of a server take with them: its listeners with what each worker has, the status port, if there is one, what
/// shuts the listeners, and the peers that are called.
#[derive(Drop)]
pub(crate) struct Start<P: Place, L: Ledger, A> {
    pub(crate) worker_pool: WorkerPool<Worker<P, L>>,
    pub(crate) shutdown_handles: ShutdownHandles,
    pub(crate) datagrams: Option<DatagramSeat<P, L>>,
    pub(crate) peers: A,
}

impl<P: Place, L: Ledger, A> Start<P, L, A> {
    fn new(alloc: Global, listening: Listening, crew: Crew<P, L>, peers: A) -> Start<P, L, A> {
        let Listening {
            listeners,
            shutdown_handles,
            datagrams: socket,
        } = listening;
        let Crew {
            workers,
            datagrams,
            notices: _,
        } = crew;
        Start {
            worker_pool: WorkerPool {
                alloc,
                listeners,
                workers,
                stack: STACK,
            },
            shutdown_handles,
            datagrams: match (socket, datagrams) {
                (Some(socket), Some(worker)) => Some(DatagramSeat { socket, worker }),
                _ => None,
            },
            peers,
        }
    }
}

// Where the hosts are: those of the file of peers, and, where it is learned, those that the store has.
#[derive(Drop)]
struct Whereabouts<A> {
    peers: A,
    learned: Option<LearnedAddresses>,
}

// What there is once a server has begun anew: a book that all threads share, what they are to be given, and where the hosts are.
#[derive(Drop)]
struct Begun<P: Place, L: Ledger, T: RangeTable, S: HostStore, A> {
    shared: Shared<T, S, L>,
    unseated: Unseated<P, L>,
    whereabouts: Whereabouts<A>,
}

// What was given to those who answer jobs, and which boots hosts reported, if LOCKs report them: the crew has nothing for
// notices.
#[derive(Drop)]
struct Seated<P: Place, L: Ledger> {
    seats: Seats<P, L>,
    crew: Crew<P, L>,
    boots: Option<Mutex<Boots<P, L>>>,
}

// All that is had before a server listens, but for what it shows to operators.
#[derive(Drop)]
struct Unopened<P: Place, L: Ledger, T: RangeTable, S: HostStore, A> {
    alloc: Global,
    shared: Shared<T, S, L>,
    seated: Seated<P, L>,
    whereabouts: Whereabouts<A>,
}

// A book over the store whose server has begun anew, so that the store has the new own state, and beside it where the hosts are.
fn shared_over<T: RangeTable + Drop, S: HostStore + Drop, L: Ledger, A: Drop>(
    alloc: Global,
    table: T,
    backing: Backing<S, A>,
    total: Total<L>,
    is_audited: bool,
) -> Result<(Shared<T, S, L>, Whereabouts<A>), ServerFault>
    requires empty { T.settings table ≡ [] }
    requires total { total.total ≡ 0 }
{
    let Backing {
        store,
        peers,
        learned,
        own_name,
        rules,
    } = backing;
    let whereabouts = Whereabouts { peers, learned };
    let Ok(book) = Book::new_with(alloc, table, store, own_name, rules) else {
        drop(whereabouts);
        return Err(ServerFault::Starved);
    };
    match Shared::new(alloc, book, total, is_audited) {
        Ok(shared) => Ok((shared, whereabouts)),
        Err(why) => {
            drop(whereabouts);
            Err(ServerFault::from(why))
        }
    }
}

// Names the channel and the ledger, and begins the server anew.
fn begin<P: Place, L: Ledger, T: RangeTable + Drop, S: HostStore + Drop, A: Drop>(
    settings: &ServerSettings,
    backing: Backing<S, A>,
    unnamed: Unnamed<T>,
) -> Result<Begun<P, L, T, S, A>, ServerFault>
    requires place { (unnamed.opened.slip.table_id ≡ P.table) × (unnamed.opened.slip.me.0.of ≡ P.key) }
    requires ledger { (unnamed.blank.name ≡ L.name) × (unnamed.blank.parts ≡ L.parts) }
{
    let Unnamed {
        alloc,
        table,
        opened,
        blank,
        parts,
    } = unnamed;
    let is_audited = settings.is_audited;
    let (channel, keeper) = opened.named::<P>();
    let (total, share) = blank.open::<L>();
    let unseated = Unseated {
        alloc,
        channel,
        pool_builder: PoolBuilder::new(alloc, keeper, share, parts, is_audited),
        parts: Parts::new(parts),
    };
    match shared_over(alloc, table, backing, total, is_audited) {
        Ok((shared, whereabouts)) => Ok(Begun {
            shared,
            unseated,
            whereabouts,
        }),
        Err(fault) => {
            drop(unseated);
            Err(fault)
        }
    }
}

// Which boots hosts report, with what the server's own notices have, where there are any. `Starved`: there is no memory for it.
fn boots_of<P: Place, L: Ledger>(
    alloc: Global,
    notices: Option<Worker<P, L>>,
) -> Result<Option<Mutex<Boots<P, L>>>, ServerFault> {
    let Some(worker) = notices else {
        return Ok(None);
    };
    match BootStates::new(alloc) {
        Ok(states) => Ok(Some(Mutex::new(Boots::new(alloc, states, worker)))),
        Err(_) => {
            drop(worker);
            Err(ServerFault::Starved)
        }
    }
}

// Gives all who answer jobs what it takes. `Starved`: there is no memory for it, and nothing is left.
fn seat<P: Place, L: Ledger>(
    unseated: Unseated<P, L>,
    settings: &ServerSettings,
) -> Result<Seated<P, L>, ServerFault> {
    let alloc = unseated.alloc;
    let (seats, crew) = match unseated.seat_all(settings) {
        Ok(seated) => seated,
        Err(fault) => return Err(fault),
    };
    let Crew {
        workers,
        datagrams,
        notices,
    } = crew;
    let crew = Crew {
        workers,
        datagrams,
        notices: None,
    };
    match boots_of(alloc, notices) {
        Ok(boots) => Ok(Seated { seats, crew, boots }),
        Err(fault) => {
            drop(seats);
            drop(crew);
            Err(fault)
        }
    }
}

// From where connections for calls may come, where that is limited: nowhere yet, but for loopback.
fn known_of(alloc: Global, settings: &ServerSettings) -> Option<Mutex<KnownAddresses>> {
    if settings.known_hosts_only {
        Some(Mutex::new(KnownAddresses::new(Vec::new(alloc))))
    } else {
        None
    }
}

// What a mutex keeps, where there is one.
fn shared_in<T>(mutex: Option<T>) -> Option<Mutex<T>> {
    match mutex {
        Some(value) => Some(Mutex::new(value)),
        None => None,
    }
}

impl<P: Place, L: Ledger, T: RangeTable + Drop, S: HostStore + Drop, A: Drop> Begun<P, L, T, S, A> {
    // All who answer jobs have what it takes. `Starved`: there is no memory for it, and nothing is left but the new own state.
    fn seated(self, settings: &ServerSettings) -> Result<Unopened<P, L, T, S, A>, ServerFault> {
        let Begun {
            shared,
            unseated,
            whereabouts,
        } = self;
        let alloc = unseated.alloc;
        match seat(unseated, settings) {
            Ok(seated) => Ok(Unopened {
                alloc,
                shared,
                seated,
                whereabouts,
            }),
            Err(fault) => {
                drop(shared);
                drop(whereabouts);
                Err(fault)
            }
        }
    }
}

impl<P: Place, L: Ledger, T: RangeTable, S: HostStore, A> Unopened<P, L, T, S, A> {
    // With what it shows to operators, and where it listens.
    fn opened(
        self,
        settings: &ServerSettings,
        status: Status,
        listening: Listening,
    ) -> (Server<P, L, T, S>, Start<P, L, A>) {
        let Unopened {
            alloc,
            shared,
            seated,
            whereabouts,
        } = self;
        let Seated { seats, crew, boots } = seated;
        let Whereabouts { peers, learned } = whereabouts;
        let server = Server {
            alloc,
            settings: *settings,
            status,
            shared: Mutex::new(shared),
            seats,
            learned: shared_in(learned),
            boots,
            known: known_of(alloc, settings),
        };
        (server, Start::new(alloc, listening, crew, peers))
    }
}

impl<P, L, T, S> Server<P, L, T, S>
where
    P: Place,
    L: Ledger,
    T: RangeTable + Drop,
    S: HostStore + Drop,
{
    /// All that can be had before a thread starts. The store has the new own state before a listener opens. Each fault lets go of
    /// what was had: `Starved`, `StoreRefused`, and `ReadFault`, behind which the new own state stays stored.
    pub(crate) fn open<R, A>(
        rt: &R,
        settings: &ServerSettings,
        backing: Backing<S, A>,
        unnamed: Unnamed<T>,
    ) -> Result<(Server<P, L, T, S>, Start<P, L, A>), ServerFault>
    where
        R: Net<Listener = TcpListener, Stream = TcpStream> + Clock,
        A: Drop,
        requires place { (unnamed.opened.slip.table_id ≡ P.table) × (unnamed.opened.slip.me.0.of ≡ P.key) }
        requires ledger { (unnamed.blank.name ≡ L.name) × (unnamed.blank.parts ≡ L.parts) }
    {
        let begun = match begin::<P, L, T, S, A>(settings, backing, unnamed) {
            Ok(begun) => begun,
            Err(fault) => return Err(fault),
        };
        let unopened = match begun.seated(settings) {
            Ok(unopened) => unopened,
            Err(fault) => return Err(fault),
        };
        let own_state = unopened.shared.own_state();
        let status = match Status::new(rt, unopened.alloc, own_state, settings) {
            Ok(status) => status,
            Err(AllocError) => {
                drop(unopened);
                return Err(ServerFault::Starved);
            }
        };
        match listen(rt, settings) {
            Ok(listening) => Ok(unopened.opened(settings, status, listening)),
            Err(refused) => {
                drop(status);
                drop(unopened);
                Err(ServerFault::ReadFault(refused))
            }
        }
    }
}
