//! The run of a server, and its end.
use crate::context::{Context, ShutdownHandles};
use crate::datagrams::{DatagramContext, DatagramPort, DatagramSeat};
use crate::fault::ServerFault;
use crate::host_addresses::HostAddresses;
use crate::host_gate::{HostBooks, HostGate};
use crate::lines::LocalLines;
use crate::main_loop::Sends;
use crate::opening::{Server, Start};
use crate::runtime::Runtime;
use crate::seats::Crew;
use crate::settings::ServerSettings;
use crate::signals::StopSignals;
use callback_sender::{Addresses, Sender};
use connections::{NoThread, WorkerPool, run};
use hosts_db::HostStore;
use job_queue::Place;
use log::Log;
use mio::Registry;
use range_table::RangeTable;
use reply_outbox::Gate;
use std::alloc::Global;
use std::io;
use std::net::Net;
use std::sync::Wait;
use std::sync::ledger::Ledger;
use std::time::Clock;
use workers::Worker;

// What the server's own calls need.
#[derive(Drop)]
struct Calling<'a, R, A: Drop> {
    sender: Sender<'a, R, LocalLines<'a, R>, A>,
    stop_signals: StopSignals,
}

fn call<'a, R: Net + Clock + Wait, A: Addresses + Drop>(
    rt: &'a R,
    alloc: Global,
    settings: &ServerSettings,
    peers: A,
    locals: &'a LocalLines<'a, R>,
) -> io::Result<Calling<'a, R, A>> {
    let sender = Sender::new(alloc, rt, settings.calls, peers, locals)?;
    let stop_signals = StopSignals::new(sender.waker()?);
    Ok(Calling {
        sender,
        stop_signals,
    })
}

// All threads, from their start to their end: what the workers and the port for datagrams had, once it was said that the server
// is ready.
fn run_threads<P, L, T, S, G, R, A>(
    rt: &R,
    context: &Context<'_, P, L, T, S, G>,
    worker_pool: WorkerPool<Worker<P, L>>,
    sender: Sender<'_, R, LocalLines<'_, R>, A>,
    datagrams: Option<DatagramPort<'_, R, P, L, T, S, G>>,
) -> Result<Crew<P, L>, ServerFault>
where
    P: Place + Send + Sync,
    L: Ledger + Send + Sync,
    T: RangeTable + Drop + Send,
    S: HostStore + Drop + Send,
    G: Gate + Sync,
    R: Runtime,
    A: Addresses + Drop,
{
    let mut sends = Sends::new(sender, datagrams, context.shared, context.stop_signals);
    let ran = run(rt, context, worker_pool, &mut sends);
    let is_told = sends.is_told();
    let datagrams = match sends.into_datagrams() {
        Some(port) => Some(port.into_worker()),
        None => None,
    };
    match if_told(ran, is_told) {
        Ok(workers) => Ok(Crew {
            workers,
            datagrams,
            notices: None,
        }),
        Err(fault) => {
            drop(datagrams);
            Err(fault)
        }
    }
}

// What came back, where it was said that the server is ready.
fn if_told<W: Drop>(ran: Result<Vec<W>, NoThread>, is_told: bool) -> Result<Vec<W>, ServerFault> {
    match ran {
        Ok(back) if is_told => Ok(back),
        Ok(_) => Err(ServerFault::WriteFault),
        Err(NoThread) => Err(ServerFault::NoThread),
    }
}

impl<P, L, T, S> Server<P, L, T, S>
where
    P: Place + Send + Sync,
    L: Ledger + Send + Sync,
    T: RangeTable + Drop + Send,
    S: HostStore + Drop + Send,
{
    /// Starts the threads, prints `ready`, and comes back with what each without a connection had once the server was stopped and
    /// all threads have ended. `NoSender`: no thread was started. `NoThread`, `WriteFault`: each that was started has ended.
    pub(crate) fn run<G, R, A>(
        &self,
        rt: &R,
        gate: &G,
        start: Start<P, L, A>,
    ) -> Result<Crew<P, L>, ServerFault>
    where
        G: Gate + Sync,
        R: Runtime,
        A: Addresses + Drop,
    {
        let Start {
            worker_pool,
            shutdown_handles,
            datagrams,
            peers,
        } = start;
        // The sender borrows the connection table through these lines, so it is made here and not by `open`.
        let lines = LocalLines::new(rt, &self.seats.connection_tables.locals);
        let gate = self.host_gate(rt, gate);
        let addresses = self.host_addresses(rt, peers);
        let Calling {
            sender,
            stop_signals,
        } = match call(rt, self.alloc, &self.settings, addresses, &lines) {
            Ok(calling) => calling,
            Err(error) => return Err(ServerFault::NoSender(error)),
        };
        let datagrams = match self.open_datagrams(rt, &gate, sender.registry(), datagrams) {
            Ok(datagrams) => datagrams,
            Err(error) => return Err(ServerFault::NoSender(error)),
        };
        let context = self.context(&shutdown_handles, &stop_signals, &gate);
        run_threads(rt, &context, worker_pool, sender, datagrams)
    }

    // The gate of all calls: this one, with what is to be done about hosts before it.
    fn host_gate<'a, R: Clock, G>(
        &'a self,
        rt: &'a R,
        gate: &'a G,
    ) -> HostGate<'a, R, P, L, T, S, G> {
        let books = HostBooks {
            learned: self.learned.as_ref(),
            boots: self.boots.as_ref(),
        };
        HostGate::new(
            rt,
            self.alloc,
            &self.shared,
            gate,
            books,
            self.status.traffic(),
        )
    }

    // Where hosts are called: as these peers say, and as was learned, where it is.
    fn host_addresses<'a, R: Wait + Log, A: Addresses>(
        &'a self,
        rt: &'a R,
        peers: A,
    ) -> HostAddresses<'a, R, A> {
        HostAddresses::new(
            rt,
            self.alloc,
            peers,
            self.learned.as_ref(),
            self.known.as_ref(),
        )
    }

    // What every thread knows.
    fn context<'a, G>(
        &'a self,
        shutdown_handles: &'a ShutdownHandles,
        stop_signals: &'a StopSignals,
        gate: &'a G,
    ) -> Context<'a, P, L, T, S, G> {
        Context {
            alloc: self.alloc,
            channel: &self.seats.channel,
            shared: &self.shared,
            connection_tables: &self.seats.connection_tables,
            shutdown_handles,
            stop_signals,
            gate,
            idle: self.settings.idle,
            status: &self.status,
            known: self.known.as_ref(),
        }
    }

    // The port for datagrams, where there is one, which is waited for with whatever is registered there.
    fn open_datagrams<'a, G, R>(
        &'a self,
        rt: &'a R,
        gate: &'a G,
        registry: &Registry,
        seat: Option<DatagramSeat<P, L>>,
    ) -> io::Result<Option<DatagramPort<'a, R, P, L, T, S, G>>> {
        let Some(seat) = seat else {
            return Ok(None);
        };
        let context = DatagramContext {
            alloc: self.alloc,
            rt,
            shared: &self.shared,
            gate,
            known: self.known.as_ref(),
        };
        Ok(Some(DatagramPort::new(context, registry, seat)?))
    }

    /// Takes back what was given out, and checks the journal: how many calls were taken, where that was audited, and else 0.
    /// `AuditMismatch`: not all came back, or the journal and the receipts don't agree. `Starved`: no memory to check it.
    pub(crate) fn finish(self, crew: Crew<P, L>) -> Result<u64, ServerFault> {
        let Server {
            alloc: _,
            settings: _,
            shared,
            seats,
            status: _,
            learned: _,
            boots,
            known: _,
        } = self;
        let Crew {
            workers,
            datagrams,
            notices: _,
        } = crew;
        let notices = match boots {
            Some(boots) => Some(boots.into_inner().into_worker()),
            None => None,
        };
        let crew = Crew {
            workers,
            datagrams,
            notices,
        };
        seats.settle(shared.into_inner(), crew)
    }
}
