//! One peer.
use mio::net::TcpStream;
use mio::{Registry, Token};
use port_asking::{Asker, PortAsking};
use port_mapper::Mapping;
use record_stream::RecordStream;
use std::alloc::{AllocError, Global};
use std::net::SocketAddr;
use std::time::Instant;

/// What the port mapper of a peer is asked, and at which port it is.
#[derive(Clone, Copy, PartialEq, Eq)]
pub(crate) struct Asks {
    pub(crate) mapping: Mapping,
    pub(crate) port: u16,
}

/// A peer: where it is, what its port mapper says, its connection, what is to be written to it, and what was read from it.
#[derive(Drop)]
pub(crate) struct PeerLink {
    alloc: Global,
    /// Its address, with the port of calls where no port mapper names one.
    pub(crate) at: SocketAddr,
    /// None where no port mapper is asked.
    pub(crate) asks: Option<Asks>,
    pub(crate) records: RecordStream,
    pub(crate) asking: PortAsking,
    since: Instant,
    used: Instant,
}

impl PeerLink {
    /// Without a connection.
    pub(crate) fn new(alloc: Global, at: SocketAddr, asks: Option<Asks>, now: Instant) -> PeerLink {
        PeerLink {
            alloc,
            at,
            asks,
            records: RecordStream::new(alloc),
            asking: PortAsking::new(alloc),
            since: now,
            used: now,
        }
    }

    /// Whether it has a connection, or its port mapper is asked.
    pub(crate) fn is_open(&self) -> bool {
        self.records.is_connected() || self.asking.is_asked()
    }

    /// When its connection was begun, which is before its port mapper was asked for it.
    pub(crate) fn since(&self) -> Instant {
        self.since
    }

    /// A connection is begun now.
    pub(crate) fn begin(&mut self, now: Instant) {
        self.since = now;
    }

    /// Where its calls go now.
    pub(crate) fn place(&self) -> SocketAddr {
        match self.asking.port() {
            Some(port) => SocketAddr::new(self.at.ip(), port),
            None => self.at,
        }
    }

    /// It has this connection now.
    pub(crate) fn connect(&mut self, stream: TcpStream) {
        self.records.connect(stream);
    }

    /// The connection was refused or lost, or nothing came over it: what was not written is dropped, and its port mapper is asked
    /// again.
    pub(crate) fn lose(&mut self) {
        self.records.close();
        self.asking.lose();
    }

    /// Its place is needed: what was not written is dropped, and a question, too. A port that was named stays.
    pub(crate) fn leave(&mut self) {
        self.records.close();
        if self.asking.is_asked() {
            self.asking = PortAsking::new(self.alloc);
        }
    }

    /// When something was to be written last.
    pub(crate) fn used(&self) -> Instant {
        self.used
    }

    /// A record is to be written, behind its mark, if there is memory for it.
    pub(crate) fn put(&mut self, record: &[u8], now: Instant) -> Result<(), AllocError> {
        self.used = now;
        self.records.put(record)
    }

    /// Whether the time of its question is up.
    pub(crate) fn is_overdue(&self, now: Instant) -> bool {
        self.asking.until().is_some_and(|until| until <= now)
    }

    /// Who asks its port mapper, under this token. None where it isn't asked.
    pub(crate) fn asker<'a, R>(
        &self,
        rt: &'a R,
        registry: &'a Registry,
        token: Token,
    ) -> Option<Asker<'a, R>> {
        match self.asks {
            Some(asks) => Some(Asker {
                rt,
                registry,
                token,
                at: SocketAddr::new(self.at.ip(), asks.port),
                mapping: asks.mapping,
            }),
            None => None,
        }
    }
}
