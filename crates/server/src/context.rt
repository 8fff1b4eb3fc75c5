//! What every thread knows, and what it does.
use crate::host_addresses::is_known;
use crate::incoming::{Incoming, is_reset};
use crate::notes;
use crate::operators::{
    AnswerBytes, BookPages, RequestBytes, Status, Turns, idle, linger, prepare,
};
use crate::peer::peer_at;
use crate::signals::StopSignals;
use crate::sockets::CallerSockets;
use byte_io::MOST_READS;
use connections::{Accepted, ConnectionTable, PeerAddress, Service, ShutdownHandle, Side, Writer};
use hosts_db::HostStore;
use job_queue::{Channel, Place};
use line_loop::{Signals, serve_lines};
use log::Log;
use page_loop::{PagesEnding, serve_pages};
use peers_file::KnownAddresses;
use range_table::RangeTable;
use reply_outbox::{Gate, ReplyBuffer};
use std::alloc::Global;
use std::net::{SocketAddr, TcpStream};
use std::sync::ledger::Ledger;
use std::sync::{Mutex, Wait};
use std::time::{Clock, Duration};
use workers::{Origin, Shared, Source, Worker};

/// The connections that are open. Those for calls lend what it takes to answer jobs.
#[derive(Drop)]
pub(crate) struct ConnectionTables<P: Place, L: Ledger> {
    pub(crate) callers: Mutex<ConnectionTable<Worker<P, L>>>,
    pub(crate) locals: Mutex<ConnectionTable<()>>,
    pub(crate) operators: Mutex<ConnectionTable<()>>,
}

/// What shuts the listeners.
#[derive(Drop)]
pub(crate) struct ShutdownHandles {
    pub(crate) callers: ShutdownHandle,
    pub(crate) locals: ShutdownHandle,
    pub(crate) operators: Option<ShutdownHandle>,
}

/// What every thread knows. A thread holds one of the locks at a time, with two exceptions: the channel's batch lock is held over
/// the book's, and where a host reports its reboot, that of the boots is held while the book takes the notice.
#[derive(Drop)]
pub(crate) struct Context<'a, P: Place, L: Ledger, T: RangeTable, S: HostStore, G> {
    pub(crate) alloc: Global,
    pub(crate) channel: &'a Channel<P>,
    pub(crate) shared: &'a Mutex<Shared<T, S, L>>,
    pub(crate) connection_tables: &'a ConnectionTables<P, L>,
    pub(crate) shutdown_handles: &'a ShutdownHandles,
    pub(crate) stop_signals: &'a StopSignals,
    pub(crate) gate: &'a G,
    pub(crate) idle: Duration,
    pub(crate) status: &'a Status,
    /// From where connections for calls may come, where that is limited.
    pub(crate) known: Option<&'a Mutex<KnownAddresses>>,
}

impl<'a, P: Place, L: Ledger, T: RangeTable + Drop, S: HostStore + Drop, G: Gate> Context<
    'a,
    P,
    L,
    T,
    S,
    G,
> {
    // Answers the calls of a connection until no more come and each is answered.
    fn read<R: Wait + Log>(&self, rt: &R, accepted: &Accepted, worker: &mut Worker<P, L>) {
        let number = accepted.connection.number();
        let home = Some(&accepted.connection);
        let sockets = CallerSockets::new(
            rt,
            &self.connection_tables.callers,
            home,
            self.stop_signals,
            self.status.traffic(),
        );
        let mut outbox = ReplyBuffer::new(self.alloc, sockets);
        let origin = Origin {
            connection: number,
            peer: peer_at(accepted.from),
            put: 0,
        };
        let mut source = Source {
            stream: Incoming::new(
                accepted.connection.stream(),
                self.stop_signals,
                self.status.traffic(),
                number,
            ),
            bound: MOST_READS,
            origin,
        };
        let ending = worker.read(
            rt,
            self.channel,
            self.shared,
            self.gate,
            &mut outbox,
            &mut source,
        );
        notes::caller(rt, accepted.from, ending);
        accepted.connection.wait_for(rt, source.origin.put);
    }

    // What answers jobs is lent here and not before the thread stands, so that it can't be lost with it. (Each kind of connection has
    // a frame of its own on the thread's stack: in one function a thread would take the memory of all three.)
    #[inline(never)]
    fn serve_caller<R: Wait + Log>(&self, rt: &R, accepted: &Accepted) {
        let number = accepted.connection.number();
        let lent = self.connection_tables.callers.lock(rt).lend(number);
        if let Some(mut worker) = lent {
            self.read(rt, accepted, &mut worker);
            self.connection_tables
                .callers
                .lock(rt)
                .give_back(number, worker);
        }
        self.connection_tables.callers.lock(rt).leave(number);
    }

    // Answers the lines of a local program.
    #[inline(never)]
    fn serve_local<R: Wait + Log>(&self, rt: &R, accepted: &Accepted) {
        let number = accepted.connection.number();
        let mut input = accepted.connection.stream();
        let mut output = Writer::new(self.alloc, rt, &accepted.connection);
        let served = serve_lines(
            self.alloc,
            rt,
            self.shared,
            self.stop_signals,
            number,
            &mut input,
            &mut output,
            MOST_READS,
        );
        drop(output);
        notes::local(rt, accepted.from, served.ending);
        self.connection_tables.locals.lock(rt).leave(number);
    }

    // Answers the requests of an operator.
    fn answer_operator<R: Wait + Clock>(&self, rt: &R, stream: &TcpStream) -> PagesEnding {
        let mut pages = BookPages {
            rt,
            status: self.status,
            shared: self.shared,
            connection_tables: self.connection_tables,
        };
        let turns = Turns::new();
        let mut input = RequestBytes::new(rt, stream, &turns, self.stop_signals);
        let mut output = AnswerBytes::new(stream, &turns, self.stop_signals);
        serve_pages(self.alloc, &mut pages, &mut input, &mut output, MOST_READS)
    }

    #[inline(never)]
    fn serve_operator<R: Wait + Log + Clock>(&self, rt: &R, accepted: &Accepted) {
        let stream = accepted.connection.stream();
        if prepare(stream).is_ok() {
            let ending = self.answer_operator(rt, stream);
            notes::operator(rt, accepted.from, ending);
            if ending == PagesEnding::Refused {
                linger(stream);
            }
        }
        let number = accepted.connection.number();
        self.connection_tables.operators.lock(rt).leave(number);
    }
}

impl<
    'a,
    P: Place,
    L: Ledger,
    T: RangeTable + Drop,
    S: HostStore + Drop,
    G: Gate,
    R: Wait + Log + Clock,
> Service<R, Worker<P, L>> for Context<'a, P, L, T, S, G> {
    fn admit(&self, rt: &R, side: Side, stream: TcpStream, from: SocketAddr) -> Option<Accepted> {
        let is_barred = side == Side::Callers && !is_known(rt, self.known, from.ip());
        if is_barred || is_reset(&stream) {
            drop(stream);
            return None;
        }
        let peer = PeerAddress::new(from.ip());
        let connection = match side {
            Side::Callers => self
                .connection_tables
                .callers
                .lock(rt)
                .admit(stream, peer, Some(self.idle)),
            Side::Locals => self
                .connection_tables
                .locals
                .lock(rt)
                .admit(stream, peer, None),
            Side::Operators => self
                .connection_tables
                .operators
                .lock(rt)
                .admit(stream, peer, Some(idle())),
        };
        Some(Accepted {
            side,
            connection: connection?,
            from,
        })
    }

    fn attend(&self, rt: &R, accepted: Accepted) {
        match accepted.side {
            Side::Callers => self.serve_caller(rt, &accepted),
            Side::Locals => self.serve_local(rt, &accepted),
            Side::Operators => self.serve_operator(rt, &accepted),
        }
    }

    fn dismiss(&self, rt: &R, side: Side, number: u64) {
        match side {
            Side::Callers => self.connection_tables.callers.lock(rt).leave(number),
            Side::Locals => self.connection_tables.locals.lock(rt).leave(number),
            Side::Operators => self.connection_tables.operators.lock(rt).leave(number),
        }
    }

    fn work(&self, rt: &R, worker: Worker<P, L>) -> Worker<P, L> {
        let mut worker = worker;
        let sockets = CallerSockets::new(
            rt,
            &self.connection_tables.callers,
            None,
            self.stop_signals,
            self.status.traffic(),
        );
        let mut outbox = ReplyBuffer::new(self.alloc, sockets);
        worker.work(rt, self.channel, self.shared, self.gate, &mut outbox);
        worker
    }

    fn watch(&self, rt: &R) {
        self.status.watch(rt, self.shared, self.stop_signals);
    }

    fn stop(&self, rt: &R) {
        self.stop_signals.stop();
        self.shutdown_handles.callers.shut();
        self.shutdown_handles.locals.shut();
        if let Some(handle) = &self.shutdown_handles.operators {
            handle.shut();
        }
        self.connection_tables.callers.lock(rt).close();
        self.connection_tables.locals.lock(rt).close();
        self.connection_tables.operators.lock(rt).close();
    }

    fn is_stopping(&self) -> bool {
        self.stop_signals.is_stopping()
    }

    fn close(&self) {
        self.channel.close();
    }
}
