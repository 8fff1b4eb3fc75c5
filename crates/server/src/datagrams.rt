//! The port of calls by datagram.
use crate::host_addresses::is_known;
use crate::peer::peer_at;
use byte_io::make_place;
use bytes::Bytes;
use callback_sender::Datagrams;
use datagram_calls::answer_datagram;
use hosts_db::HostStore;
use job_queue::{Job, Place};
use mio::net::UdpSocket;
use mio::{Interest, Registry, Token};
use peers_file::KnownAddresses;
use range_table::RangeTable;
use record_mark::MOST_RECORD_BYTES;
use reply_outbox::Gate;
use std::alloc::{AllocError, Global};
use std::io::{self, ErrorKind};
use std::net::SocketAddr;
use std::sync::ledger::Ledger;
use std::sync::{Mutex, Wait};
use workers::{Shared, Worker};
use xdr_core::Frame;

/// The token of its socket, which no place of the sender has.
const TOKEN: Token = Token(usize::MAX - 2);

/// The number of no connection: a reply by datagram goes to none.
const NO_CONNECTION: u64 = u64::MAX;

/// The most datagrams that are answered one behind another, before the sender goes on.
const MOST_DATAGRAMS: usize = 64;

/// A port for datagrams: its socket, and what it takes to answer jobs.
#[derive(Drop)]
pub(crate) struct DatagramSeat<P: Place, L: Ledger> {
    pub(crate) socket: UdpSocket,
    pub(crate) worker: Worker<P, L>,
}

/// Over what datagrams are answered.
pub(crate) struct DatagramContext<'a, R, T: RangeTable, S: HostStore, L: Ledger, G> {
    pub(crate) alloc: Global,
    pub(crate) rt: &'a R,
    pub(crate) shared: &'a Mutex<Shared<T, S, L>>,
    pub(crate) gate: &'a G,
    pub(crate) known: Option<&'a Mutex<KnownAddresses>>,
}

/// Answers calls that come by datagram, each to where it came from.
#[derive(Drop)]
pub(crate) struct DatagramPort<'a, R, P: Place, L: Ledger, T: RangeTable, S: HostStore, G> {
    alloc: Global,
    rt: &'a R,
    shared: &'a Mutex<Shared<T, S, L>>,
    gate: &'a G,
    known: Option<&'a Mutex<KnownAddresses>>,
    seat: DatagramSeat<P, L>,
    // How many came.
    count: u64,
    // The place of each datagram in turn, with room for one byte more than a record may have.
    place: Vec<u8>,
}

impl<'a, R, P: Place, L: Ledger, T: RangeTable, S: HostStore, G> DatagramPort<
    'a,
    R,
    P,
    L,
    T,
    S,
    G,
> {
    /// It is waited for with whatever is registered there. The error is the system's, or there is no memory.
    pub(crate) fn new(
        context: DatagramContext<'a, R, T, S, L, G>,
        registry: &Registry,
        seat: DatagramSeat<P, L>,
    ) -> io::Result<DatagramPort<'a, R, P, L, T, S, G>> {
        let DatagramContext {
            alloc,
            rt,
            shared,
            gate,
            known,
        } = context;
        let mut seat = seat;
        registry.register(&mut seat.socket, TOKEN, Interest::READABLE)?;
        Ok(DatagramPort {
            alloc,
            rt,
            shared,
            gate,
            known,
            seat,
            count: 0,
            place: make_place(alloc, MOST_RECORD_BYTES + 1)?,
        })
    }

    /// What it took to answer jobs.
    pub(crate) fn into_worker(self) -> Worker<P, L> {
        self.seat.worker
    }

    // The job of the datagram that stands at the front of the place. None where it is longer than a record may be.
    fn job(&mut self, len: usize, from: SocketAddr) -> Result<Option<Job>, AllocError> {
        let number = self.count;
        self.count = number.wrapping_add(1);
        let Some(bytes) = self.place.get(..len) else {
            return Ok(None);
        };
        if bytes.len() > MOST_RECORD_BYTES {
            return Ok(None);
        }
        let record = Bytes::from_vec(Vec::from_slice(self.alloc, bytes)?)?;
        Ok(Some(Job::new(NO_CONNECTION, peer_at(from), number, record)))
    }
}

impl<'a, R: Wait, P: Place, L: Ledger, T: RangeTable, S: HostStore, G: Gate> DatagramPort<
    'a,
    R,
    P,
    L,
    T,
    S,
    G,
> {
    // What goes back for the datagram at the front of the place. Where there is no memory for it, or none may come from there, it is
    // as if it were lost.
    fn reply(&mut self, len: usize, from: SocketAddr) -> Option<Frame> {
        if !is_known(self.rt, self.known, from.ip()) {
            return None;
        }
        let Ok(Some(job)) = self.job(len, from) else {
            return None;
        };
        answer_datagram(self.rt, &mut self.seat.worker, self.shared, self.gate, job)
    }

    // Answers the next datagram. Whether there was one.
    fn answer_next(&mut self) -> bool {
        let Ok((len, from)) = self.seat.socket.recv_from(&mut self.place) else {
            return false;
        };
        if let Some(reply) = self.reply(len, from) {
            // Where it can't be sent, it is as if it were lost, and the call comes again.
            let _ = self.seat.socket.send_to(reply.as_slice(), from);
        }
        true
    }
}

impl<'a, R: Wait, P: Place, L: Ledger, T: RangeTable, S: HostStore, G: Gate> Datagrams
    for DatagramPort<'a, R, P, L, T, S, G> {
    fn answer(&mut self) -> bool {
        for _ in 0..MOST_DATAGRAMS {
            if !self.answer_next() {
                return false;
            }
        }
        true
    }
}
