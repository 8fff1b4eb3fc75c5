//! One question, with its sockets.
use crate::datagram::{receive, socket_to};
use mio::net::{TcpStream, UdpSocket};
use mio::{Interest, Registry, Token};
use port_lookup::{Action, PortLookup};
use port_mapper::{Mapping, Procedure, put_call};
use record_stream::{Progress, RecordStream, TIMES};
use std::alloc::Global;
use std::io;
use std::net::{Net, SocketAddr};
use std::time::Instant;
use xdr_core::Frame;

/// Where a question goes, and under which token its sockets are waited for.
#[derive(Clone, Copy)]
pub struct Asker<'a, R> {
    pub rt: &'a R,
    pub registry: &'a Registry,
    pub token: Token,
    /// The address of the port mapper, with its port.
    pub at: SocketAddr,
    /// What it is asked for.
    pub mapping: Mapping,
}

/// The question to the port mapper of one host, with the sockets that it goes over: one at most.
#[derive(Drop)]
pub struct PortAsking {
    lookup: PortLookup,
    stream: RecordStream,
    datagrams: Option<UdpSocket>,
}

// The question of this xid. None where it doesn't fit, which it does.
fn question_of(xid: u32, mapping: &Mapping) -> Option<Frame> {
    let mut frame = Frame::new();
    match put_call(&mut frame, xid, Procedure::GetPort, mapping) {
        Ok(()) => Some(frame),
        Err(_) => None,
    }
}

impl PortAsking {
    /// Nothing was asked.
    pub fn new(alloc: Global) -> PortAsking {
        PortAsking {
            lookup: PortLookup::new(),
            stream: RecordStream::new(alloc),
            datagrams: None,
        }
    }

    /// The port that the port mapper named.
    pub fn port(&self) -> Option<u16> {
        self.lookup.port()
    }

    /// When the question that is asked is given up. None where none is asked.
    pub fn until(&self) -> Option<Instant> {
        match self.lookup.question() {
            Some(question) => Some(question.until),
            None => None,
        }
    }

    /// Whether it is asked.
    pub fn is_asked(&self) -> bool {
        self.lookup.question().is_some()
    }

    /// The connection to the port that was named, or to the fixed one, was refused or lost.
    pub fn lose(&mut self) {
        self.lookup.lose();
    }

    /// The port is needed: it is asked for where it was not, until then. Whether it is asked.
    pub fn need<R: Net>(&mut self, asker: &Asker<'_, R>, xid: u32, until: Instant) -> bool {
        let action = self.lookup.need(xid, until);
        self.act(asker, action);
        self.is_asked()
    }

    // Does this, and what is to be done where it is refused at once.
    fn act<R: Net>(&mut self, asker: &Asker<'_, R>, action: Action) {
        let mut action = action;
        for _ in 0..2 {
            if self.is_done(asker, action) {
                return;
            }
            action = self.lookup.refuse();
        }
        let _ = self.is_done(asker, action);
    }

    // Does this. Whether it was not refused at once.
    fn is_done<R: Net>(&mut self, asker: &Asker<'_, R>, action: Action) -> bool {
        match action {
            Action::Nothing => true,
            Action::Connect => self.connect(asker).is_ok(),
            Action::SendDatagram => self.send(asker).is_ok(),
            Action::Close => {
                self.stream.close();
                self.datagrams = None;
                true
            }
        }
    }

    // The question that is asked.
    fn frame<R>(&self, asker: &Asker<'_, R>) -> io::Result<Frame> {
        let frame = match self.lookup.question() {
            Some(question) => question_of(question.xid, &asker.mapping),
            None => None,
        };
        frame.ok_or(io::Error::from(io::ErrorKind::InvalidInput))
    }

    fn connect<R: Net>(&mut self, asker: &Asker<'_, R>) -> io::Result<()> {
        let frame = self.frame(asker)?;
        let mut stream = TcpStream::connect(asker.rt, asker.at)?;
        let both = Interest::READABLE | Interest::WRITABLE;
        asker.registry.register(&mut stream, asker.token, both)?;
        self.stream.put(frame.as_slice())?;
        self.stream.connect(stream);
        Ok(())
    }

    fn send<R: Net>(&mut self, asker: &Asker<'_, R>) -> io::Result<()> {
        self.stream.close();
        let frame = self.frame(asker)?;
        let mut socket = socket_to(asker.rt, asker.at)?;
        asker
            .registry
            .register(&mut socket, asker.token, Interest::READABLE)?;
        socket.send(frame.as_slice())?;
        self.datagrams = Some(socket);
        Ok(())
    }

    // What a record or a datagram says is done.
    fn hear<R: Net>(&mut self, asker: &Asker<'_, R>, bytes: &[u8]) {
        let action = self.lookup.hear(bytes);
        self.act(asker, action);
    }

    // Reads the connection once.
    fn read_record<R: Net>(&mut self, asker: &Asker<'_, R>) -> Progress {
        match self.stream.read_some() {
            Ok(records) => {
                for record in &records {
                    self.hear(asker, record.as_slice());
                }
                Progress::GoesOn
            }
            Err(progress) => progress,
        }
    }

    // Reads a datagram.
    fn read_datagram<R: Net>(&mut self, asker: &Asker<'_, R>) -> Progress {
        let Some(socket) = &self.datagrams else {
            return Progress::Waits;
        };
        match receive(socket) {
            Ok(datagram) => {
                self.hear(asker, datagram.as_slice());
                Progress::GoesOn
            }
            Err(progress) => progress,
        }
    }

    // Writes and reads once, whatever it is asked over.
    fn exchange<R: Net>(&mut self, asker: &Asker<'_, R>) -> Progress {
        if !self.stream.is_connected() {
            return self.read_datagram(asker);
        }
        if self.stream.write_on() == Progress::Lost {
            return Progress::Lost;
        }
        self.read_record(asker)
    }

    // Writes and reads once. Where it is refused the next way is gone.
    fn go_on<R: Net>(&mut self, asker: &Asker<'_, R>) -> Progress {
        match self.exchange(asker) {
            Progress::Lost => {
                let action = self.lookup.refuse();
                self.act(asker, action);
                Progress::GoesOn
            }
            progress => progress,
        }
    }

    /// Writes and reads what goes. Whether it is over: the port is known then, or there is none. `GoesOn` where it may go on.
    pub fn serve<R: Net>(&mut self, asker: &Asker<'_, R>) -> Progress {
        for _ in 0..TIMES {
            if !self.is_asked() {
                return Progress::Waits;
            }
            let progress = self.go_on(asker);
            if progress != Progress::GoesOn {
                return progress;
            }
        }
        Progress::GoesOn
    }

    /// It is this late: where the time of the question is up it is over.
    pub fn pass<R: Net>(&mut self, asker: &Asker<'_, R>, now: Instant) {
        let action = self.lookup.pass(now);
        self.act(asker, action);
    }
}
