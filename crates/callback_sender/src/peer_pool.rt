//! All peers.
use crate::peer::{Asks, PeerLink};
use crate::pending_calls::PendingCalls;
use bytes::Bytes;
use log::Log;
use mio::net::TcpStream;
use mio::{Events, Interest, Poll, Registry, Token, Waker};
use port_registering::{Registrar, Registration};
use record_stream::{Progress, TIMES};
use std::alloc::{AllocError, Global};
use std::net::{Net, SocketAddr};
use std::time::{Clock, Duration, Instant, SystemTime};
use std::{io, mem};

/// The waker's token.
const WAKER: usize = usize::MAX;

/// The most events of a turn.
const EVENTS: usize = 256;

/// The most connections.
const CONNECTIONS: usize = 256;

/// So long a connection that was used is not closed for another, in milliseconds.
const MOMENT_MILLIS: u64 = 200;

/// The peers that were called, each at a place of its own.
#[derive(Drop)]
pub(crate) struct PeerPool {
    alloc: Global,
    poll: Poll,
    events: Events<Global>,
    peers: Vec<PeerLink>,
    // The places where something may go on.
    ready: Vec<usize>,
    // The places that have a connection, or whose port mapper is asked, the one that was used last at the end.
    open: Vec<usize>,
    // The xid of the last question to a port mapper.
    xid: u32,
    // Registers the server. None where it isn't registered.
    registrar: Option<Registrar>,
}

// The xid before the first question: another one for each start.
fn first_xid<R: Clock>(rt: &R) -> u32 {
    match SystemTime::now(rt) {
        Ok(now) => match now.duration_since(SystemTime::UNIX_EPOCH) {
            Ok(since) => since.subsec_nanos(),
            Err(_) => 0,
        },
        Err(_) => 0,
    }
}

impl PeerPool {
    pub(crate) fn new<R: Net + Clock>(rt: &R, alloc: Global) -> io::Result<PeerPool> {
        let events = Events::with_capacity(alloc, EVENTS)?;
        let poll = Poll::new(rt)?;
        Ok(PeerPool {
            alloc,
            poll,
            events,
            peers: Vec::new(alloc),
            ready: Vec::new(alloc),
            open: Vec::new(alloc),
            xid: first_xid(rt),
            registrar: None,
        })
    }

    /// The server is to be registered, from now on.
    pub(crate) fn register(&mut self, registration: Registration, now: Instant) {
        let registrar = Registrar::new(self.alloc, registration, self.xid, now);
        self.registrar = Some(registrar);
    }

    /// Goes on with what registers the server.
    pub(crate) fn serve_registrar<R: Net + Log>(&mut self, rt: &R, now: Instant) {
        if let Some(registrar) = &mut self.registrar {
            registrar.turn(rt, self.poll.registry(), now);
        }
    }

    /// What was registered is to be taken back.
    pub(crate) fn unregister<R: Net + Log>(&mut self, rt: &R, now: Instant) {
        if let Some(registrar) = &mut self.registrar {
            registrar.leave(rt, now);
            registrar.turn(rt, self.poll.registry(), now);
        }
    }

    /// Whether nothing is registered any more.
    pub(crate) fn is_unregistered(&self) -> bool {
        match &self.registrar {
            Some(registrar) => registrar.is_over(),
            None => true,
        }
    }

    /// Where sockets are registered that end a wait.
    pub(crate) fn registry(&self) -> &Registry {
        self.poll.registry()
    }

    /// Ends a wait.
    pub(crate) fn waker(&self) -> io::Result<Waker> {
        Waker::new(self.poll.registry(), Token(WAKER))
    }

    /// The place of the peer at this address, whose port mapper is asked this. None where there is no memory for a new one.
    pub(crate) fn place_of(
        &mut self,
        at: SocketAddr,
        asks: Option<Asks>,
        now: Instant,
    ) -> Option<usize> {
        let found = self
            .peers
            .iter()
            .position(|peer| peer.at == at && peer.asks == asks);
        if let Some(place) = found {
            return Some(place);
        }
        let place = self.peers.len();
        self.peers
            .push(PeerLink::new(self.alloc, at, asks, now))
            .ok()?;
        Some(place)
    }

    // Something may go on at this place.
    fn mark(&mut self, place: usize) {
        if !self.ready.contains(&place) {
            // Where there is no memory, its calls fall silent.
            let _ = self.ready.push(place);
        }
    }

    // Begins to connect, without waiting.
    fn dial<R: Net>(&mut self, rt: &R, place: usize) -> io::Result<()> {
        let Some(peer) = self.peers.get_mut(place) else {
            return Ok(());
        };
        let mut stream = TcpStream::connect(rt, peer.place())?;
        let both = Interest::READABLE | Interest::WRITABLE;
        self.poll
            .registry()
            .register(&mut stream, Token(place), both)?;
        peer.connect(stream);
        Ok(())
    }

    // Asks the peer's port mapper where it is to be asked, until then. Whether it is asked.
    fn ask<R: Net>(&mut self, rt: &R, place: usize, until: Instant) -> bool {
        let xid = self.xid.wrapping_add(1);
        let Some(peer) = self.peers.get_mut(place) else {
            return false;
        };
        match peer.asker(rt, self.poll.registry(), Token(place)) {
            Some(asker) => {
                self.xid = xid;
                peer.asking.need(&asker, xid, until)
            }
            None => false,
        }
    }

    // The peer's port is known, or there is none but the fixed one.
    fn connect<R: Net>(&mut self, rt: &R, place: usize) {
        if self.dial(rt, place).is_err() {
            self.close(place);
        }
    }

    // Asks the peer's port mapper, or begins to connect.
    fn begin<R: Net>(&mut self, rt: &R, place: usize, now: Instant, until: Instant) {
        if let Some(peer) = self.peers.get_mut(place) {
            peer.begin(now);
        }
        if !self.ask(rt, place, until) {
            self.connect(rt, place);
        }
    }

    /// The record goes out to this peer, over the connection that there is, or a new one, for which its port mapper may be asked
    /// until then. Where that fails the call falls silent.
    pub(crate) fn send<R: Net>(
        &mut self,
        rt: &R,
        place: usize,
        record: &[u8],
        now: Instant,
        until: Instant,
    ) {
        let Some(peer) = self.peers.get_mut(place) else {
            return;
        };
        let is_open = peer.is_open();
        if peer.put(record, now).is_err() {
            return;
        }
        if !is_open {
            self.make_way();
        }
        self.use_now(place);
        if !is_open {
            self.begin(rt, place, now, until);
        }
        self.mark(place);
    }

    // This place is the one that was used last.
    fn use_now(&mut self, place: usize) {
        self.open.retain(|p| *p != place);
        if self.open.push(place).is_err() {
            self.close(place);
        }
    }

    // Where there are as many connections as there may be, the one that was not used for longest is closed.
    fn make_way(&mut self) {
        if self.open.len() < CONNECTIONS {
            return;
        }
        if let Some(place) = self.open.first().copied() {
            self.leave(place);
        }
    }

    /// Whether there are as many connections as there may be, and all of them were used a moment ago: a further call may have to
    /// wait for one.
    pub(crate) fn is_busy(&self, now: Instant) -> bool {
        if self.open.len() < CONNECTIONS {
            return false;
        }
        let Some(place) = self.open.first() else {
            return false;
        };
        let moment = Duration::from_millis(MOMENT_MILLIS);
        let peer = self.peers.get(*place);
        peer.is_some_and(|p| now.duration_since(p.used()) < moment)
    }

    // The peer's connection is refused or lost, or nothing came over it.
    fn close(&mut self, place: usize) {
        self.open.retain(|p| *p != place);
        if let Some(peer) = self.peers.get_mut(place) {
            peer.lose();
        }
    }

    // The place of the peer's connection, or of its question, is needed.
    fn leave(&mut self, place: usize) {
        self.open.retain(|p| *p != place);
        if let Some(peer) = self.peers.get_mut(place) {
            peer.leave();
        }
    }

    /// Nothing answered what was sent then: the connection over which that was is closed, and not one that was begun since. What
    /// waits for the port mapper is dropped, and the port mapper is asked on.
    pub(crate) fn give_up(&mut self, place: usize, sent: Instant) {
        let Some(peer) = self.peers.get_mut(place) else {
            return;
        };
        if peer.since() > sent {
            return;
        }
        if peer.records.is_connected() {
            self.close(place);
        } else {
            peer.records.close();
        }
    }

    // Reads what there is, and keeps the answers.
    fn read(&mut self, place: usize, pending_calls: &mut PendingCalls) -> Progress {
        let Some(peer) = self.peers.get_mut(place) else {
            return Progress::Waits;
        };
        for _ in 0..TIMES {
            match peer.records.read_some() {
                Ok(records) => keep(pending_calls, place, &records),
                Err(Progress::GoesOn) => {}
                Err(progress) => return progress,
            }
        }
        Progress::GoesOn
    }

    // Writes and reads what goes over the peer's connection. Whether it may go on.
    fn serve_calls(&mut self, place: usize, pending_calls: &mut PendingCalls) -> bool {
        let Some(peer) = self.peers.get_mut(place) else {
            return false;
        };
        let written = peer.records.write_on();
        let read = self.read(place, pending_calls);
        if written == Progress::Lost || read == Progress::Lost {
            self.close(place);
            return false;
        }
        written == Progress::GoesOn || read == Progress::GoesOn
    }

    // Writes and reads what goes to and from the peer's port mapper. None where it is not asked, or was not, and else whether it may
    // go on.
    fn serve_question<R: Net>(&mut self, rt: &R, place: usize) -> Option<bool> {
        let peer = self.peers.get_mut(place)?;
        if !peer.asking.is_asked() {
            return None;
        }
        let asker = peer.asker(rt, self.poll.registry(), Token(place))?;
        let progress = peer.asking.serve(&asker);
        if !peer.asking.is_asked() {
            self.go_there(rt, place);
            return Some(true);
        }
        Some(progress == Progress::GoesOn)
    }

    // The question is over: what waits goes out.
    fn go_there<R: Net>(&mut self, rt: &R, place: usize) {
        let waits = self
            .peers
            .get(place)
            .is_some_and(|peer| peer.records.has_bytes());
        if waits {
            self.connect(rt, place);
            self.mark(place);
        } else {
            self.leave(place);
        }
    }

    // Writes and reads what goes at this place. Whether it may go on.
    fn serve_at<R: Net>(&mut self, rt: &R, place: usize, pending_calls: &mut PendingCalls) -> bool {
        match self.serve_question(rt, place) {
            Some(goes_on) => goes_on,
            None => self.serve_calls(place, pending_calls),
        }
    }

    /// Writes and reads what goes.
    pub(crate) fn serve<R: Net>(&mut self, rt: &R, pending_calls: &mut PendingCalls) {
        let ready = mem::replace(&mut self.ready, Vec::new(self.alloc));
        for place in ready {
            if self.serve_at(rt, place, pending_calls) {
                self.mark(place);
            }
        }
    }

    // A place where the time of a question is up.
    fn overdue(&self, now: Instant) -> Option<usize> {
        for place in &self.open {
            let is_overdue = self
                .peers
                .get(*place)
                .is_some_and(|peer| peer.is_overdue(now));
            if is_overdue {
                return Some(*place);
            }
        }
        None
    }

    // The time of the question at this place is up.
    fn end_question<R: Net>(&mut self, rt: &R, place: usize, now: Instant) {
        let Some(peer) = self.peers.get_mut(place) else {
            return;
        };
        if let Some(asker) = peer.asker(rt, self.poll.registry(), Token(place)) {
            peer.asking.pass(&asker, now);
        }
        self.go_there(rt, place);
    }

    /// It is this late: questions whose time is up are over.
    pub(crate) fn pass<R: Net>(&mut self, rt: &R, now: Instant) {
        for _ in 0..CONNECTIONS {
            let Some(place) = self.overdue(now) else {
                return;
            };
            self.end_question(rt, place, now);
        }
    }

    /// When the time of a question is up next, or the registration goes on.
    pub(crate) fn next(&self) -> Option<Instant> {
        let mut next = match &self.registrar {
            Some(registrar) => registrar.next(),
            None => None,
        };
        for place in &self.open {
            let until = match self.peers.get(*place) {
                Some(peer) => peer.asking.until(),
                None => None,
            };
            next = [next, until].into_iter().flatten().min();
        }
        next
    }

    /// Whether something may go on.
    pub(crate) fn is_ready(&self) -> bool {
        !self.ready.is_empty()
    }

    // The places of the sockets that the last wait found ready.
    fn found(&self) -> Result<Vec<usize>, AllocError> {
        let mut places = Vec::new(self.alloc);
        for event in self.events.iter() {
            places.push(event.token().0)?;
        }
        Ok(places)
    }

    /// Waits until a socket is ready, it is woken, or the time is up.
    pub(crate) fn wait(&mut self, most: Duration) -> io::Result<()> {
        self.poll.poll(&mut self.events, Some(most))?;
        for place in self.found()? {
            self.mark(place);
        }
        Ok(())
    }
}

// The answers among these records.
fn keep(pending_calls: &mut PendingCalls, place: usize, records: &[Bytes]) {
    for record in records {
        let _ = pending_calls.hear(place, record.as_slice());
    }
}
