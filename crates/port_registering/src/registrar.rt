//! When the server is registered, and with which calls.
use crate::calls::{Registration, UNSETS, goes_on};
use log::{Log, info, warn};
use mio::net::TcpStream;
use mio::{Interest, Registry, Token};
use port_mapper::{Response, read_flag};
use record_stream::{Progress, RecordStream, TIMES};
use std::alloc::Global;
use std::io;
use std::net::{Ipv4Addr, Net, SocketAddr, SocketAddrV4};
use std::time::{Duration, Instant};

/// The token of its connection.
pub const TOKEN: Token = Token(usize::MAX - 1);

/// How long the calls may take, and those that take all back, in seconds.
const TALK_SECONDS: u64 = 5;

const LEAVING_SECONDS: u64 = 1;

/// How far it is.
#[derive(Clone, Copy)]
enum State {
    /// Nothing is registered. It is tried at this time.
    Rests(Instant),
    /// The call of this place was sent, `end` is behind the last, and this is how long they may take.
    Talks {
        step: usize,
        end: usize,
        until: Instant,
    },
    /// All is registered, over the connection that there is.
    Stands,
    /// All was taken back.
    Over,
}

/// Registers a server at the port mapper of its machine, again where that was restarted, and takes it back.
#[derive(Drop)]
pub struct Registrar {
    registration: Registration,
    stream: RecordStream,
    state: State,
    xid: u32,
    // Whether it was noted that the port mapper can't be had.
    is_noted: bool,
}

impl Registrar {
    /// It is tried at once.
    pub fn new(alloc: Global, registration: Registration, xid: u32, now: Instant) -> Registrar {
        Registrar {
            registration,
            stream: RecordStream::new(alloc),
            state: State::Rests(now),
            xid,
            is_noted: false,
        }
    }

    /// When there is something to do, whatever comes.
    pub fn next(&self) -> Option<Instant> {
        match self.state {
            State::Rests(at) => Some(at),
            State::Talks { until, .. } => Some(until),
            State::Stands | State::Over => None,
        }
    }

    /// Whether nothing is registered any more, or can be taken back.
    pub fn is_over(&self) -> bool {
        matches!(self.state, State::Over)
    }

    fn later(now: Instant, time: Duration) -> Instant {
        match now.checked_add(time) {
            Some(later) => later,
            None => now,
        }
    }

    // It is tried again later. Where it was to take all back, that is over.
    fn rest(&mut self, now: Instant) {
        self.stream.close();
        self.state = if self.is_leaving() {
            State::Over
        } else {
            State::Rests(Registrar::later(now, self.registration.pause))
        };
    }

    // Whether all is being taken back.
    fn is_leaving(&self) -> bool {
        matches!(self.state, State::Talks { end: UNSETS, .. } | State::Over)
    }

    // It is tried again later, which is noted once.
    fn fail<R: Log>(&mut self, rt: &R, now: Instant, why: &str) {
        if !self.is_noted && !self.is_leaving() {
            warn!(rt; "the port mapper at port {} {why}: it is tried again every {} seconds", self.registration.mapper, self.registration.pause.as_secs());
        }
        self.is_noted = true;
        self.rest(now);
    }

    // Sends the call of this place.
    fn ask(&mut self, step: usize) -> io::Result<()> {
        self.xid = self.xid.wrapping_add(1);
        match self.registration.call_at(step, self.xid) {
            Some(frame) => Ok(self.stream.put(frame.as_slice())?),
            None => Ok(()),
        }
    }

    fn connect<R: Net>(&mut self, rt: &R, registry: &Registry) -> io::Result<()> {
        let at = SocketAddrV4::new(Ipv4Addr::LOCALHOST, self.registration.mapper);
        let mut stream = TcpStream::connect(rt, SocketAddr::V4(at))?;
        let both = Interest::READABLE | Interest::WRITABLE;
        registry.register(&mut stream, TOKEN, both)?;
        self.stream.connect(stream);
        self.ask(0)
    }

    // The calls are begun. Whether there may be more to do now.
    fn begin<R: Net + Log>(&mut self, rt: &R, registry: &Registry, now: Instant) -> bool {
        if self.connect(rt, registry).is_err() {
            self.fail(rt, now, "can't be reached");
            return false;
        }
        self.state = State::Talks {
            step: 0,
            end: self.registration.calls(),
            until: Registrar::later(now, Duration::from_secs(TALK_SECONDS)),
        };
        true
    }

    // The call of this place was answered so that the next one follows.
    fn follow<R: Log>(&mut self, rt: &R, now: Instant, step: usize, end: usize, until: Instant) {
        let step = step.saturating_add(1);
        if step < end {
            self.state = State::Talks { step, end, until };
            if self.ask(step).is_err() {
                self.fail(rt, now, "isn't asked for want of memory");
            }
            return;
        }
        if end == UNSETS {
            self.stream.close();
            self.state = State::Over;
            return;
        }
        self.is_noted = false;
        self.state = State::Stands;
        info!(rt; "port {} is registered", self.registration.port);
    }

    fn hear<R: Log>(&mut self, rt: &R, now: Instant, bytes: &[u8]) {
        let State::Talks { step, end, until } = self.state else {
            return;
        };
        match read_flag(bytes, self.xid) {
            Response::Other => {}
            Response::NoResult => self.fail(rt, now, "does not do what it is asked"),
            Response::Result(is_done) => {
                if goes_on(step, is_done) {
                    self.follow(rt, now, step, end, until);
                } else {
                    self.fail(rt, now, "refuses the port");
                }
            }
        }
    }

    // Writes and reads once. Whether there may be more to do now.
    fn exchange<R: Log>(&mut self, rt: &R, now: Instant) -> Progress {
        if self.stream.write_on() == Progress::Lost {
            return Progress::Lost;
        }
        match self.stream.read_some() {
            Ok(records) => {
                for record in &records {
                    self.hear(rt, now, record.as_slice());
                }
                Progress::GoesOn
            }
            Err(progress) => progress,
        }
    }

    // Goes on with the calls, which may take so long. Whether there may be more to do now.
    fn talk<R: Log>(&mut self, rt: &R, now: Instant, until: Instant) -> bool {
        match self.exchange(rt, now) {
            Progress::GoesOn => true,
            Progress::Lost => {
                self.fail(rt, now, "can't be reached");
                false
            }
            Progress::Waits => {
                if until <= now {
                    self.fail(rt, now, "does not answer");
                }
                false
            }
        }
    }

    // Looks whether the connection stands. Whether there may be more to do now.
    fn stand<R: Log>(&mut self, rt: &R, now: Instant) -> bool {
        match self.exchange(rt, now) {
            Progress::GoesOn => true,
            Progress::Lost => {
                self.rest(now);
                false
            }
            Progress::Waits => false,
        }
    }

    /// Does what there is to do now.
    pub fn turn<R: Net + Log>(&mut self, rt: &R, registry: &Registry, now: Instant) {
        for _ in 0..TIMES {
            let goes_on = match self.state {
                State::Rests(at) => at <= now && self.begin(rt, registry, now),
                State::Talks { until, .. } => self.talk(rt, now, until),
                State::Stands => self.stand(rt, now),
                State::Over => false,
            };
            if !goes_on {
                return;
            }
        }
    }

    /// All is to be taken back: over the connection that there is, or it is over at once.
    pub fn leave<R: Log>(&mut self, rt: &R, now: Instant) {
        if !self.stream.is_connected() {
            self.state = State::Over;
            return;
        }
        self.state = State::Talks {
            step: 0,
            end: UNSETS,
            until: Registrar::later(now, Duration::from_secs(LEAVING_SECONDS)),
        };
        if self.ask(0).is_err() {
            self.fail(rt, now, "isn't asked for want of memory");
        }
    }
}
