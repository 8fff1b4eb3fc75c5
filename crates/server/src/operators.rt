//! Connections to the status port: operators ask for pages there.
use crate::context::ConnectionTables;
use crate::settings::ServerSettings;
use crate::signals::StopSignals;
use crate::traffic::Traffic;
use event_counts::Counts;
use hosts_db::HostStore;
use job_queue::Place;
use line_loop::Signals;
use page_loop::Pages;
use program_version::VERSION;
use range_table::RangeTable;
use status_lists::{Board, Moment, OpenConnections, SectionTimes, TrafficBytes, look_at};
use status_pages::{Page, Starved};
use std::alloc::{AllocError, Global};
use std::io::{self, ErrorKind, Read, Write};
use std::net::{Shutdown, TcpStream};
use std::sync::atomic::{AtomicBool, Ordering};
use std::sync::ledger::Ledger;
use std::sync::{Mutex, Wait};
use std::thread;
use std::time::{Clock, Duration, Instant, SystemTime};
use workers::Shared;

/// How long a connection may be silent, and how long a request or an answer may take, in seconds.
const SECONDS: u64 = 30;

/// How long a write waits before it looks whether the server stops, in milliseconds.
const TURN_MILLIS: u64 = 500;

/// How many such turns a write has.
const TURNS: u32 = 60;

/// How often in a second who watches looks whether the server stops.
const TURNS_OF_A_SECOND: u64 = 10;

/// The most bytes that are written at once.
const PIECE: usize = 65_536;

/// How long what comes behind a refused request is awaited, in milliseconds.
const LINGER_MILLIS: u64 = 500;

/// How many pieces of it are read at most.
const LINGER_READS: u32 = 64;

/// How long a read waits.
pub(crate) fn idle() -> Duration {
    Duration::from_secs(SECONDS)
}

/// What the pages are made with, beside the book.
#[derive(Drop)]
pub(crate) struct Status {
    alloc: Global,
    board: Mutex<Board>,
    // None where the clock failed: time stands still then.
    started: Option<Instant>,
    // None where there is no status port.
    traffic: Option<Traffic>,
}

// The second since 1970, and 0 where the clock fails.
fn seconds_since_1970<R: Clock>(rt: &R) -> u64 {
    match SystemTime::now(rt) {
        Ok(now) => match now.duration_since(SystemTime::UNIX_EPOCH) {
            Ok(since) => since.as_secs(),
            Err(_) => 0,
        },
        Err(_) => 0,
    }
}

impl Status {
    /// The server has begun now, under this own state. Refused: there is no memory for what is counted.
    pub(crate) fn new<R: Clock>(
        rt: &R,
        alloc: Global,
        own_state: u32,
        settings: &ServerSettings,
    ) -> Result<Status, AllocError> {
        let grace = settings.calls.grace.as_secs();
        let traffic = match settings.status_port {
            Some(_) => Some(Traffic::new(alloc)?),
            None => None,
        };
        Ok(Status {
            alloc,
            board: Mutex::new(Board::new(alloc, own_state, grace, seconds_since_1970(rt))),
            started: Instant::now(rt).ok(),
            traffic,
        })
    }

    /// Where the bytes and the times of connections for calls are counted, if anybody can ask for them.
    pub(crate) fn traffic(&self) -> Option<&Traffic> {
        self.traffic.as_ref()
    }

    // How long the server runs, in seconds.
    fn now<R: Clock>(&self, rt: &R) -> u64 {
        match (self.started, Instant::now(rt)) {
            (Some(started), Ok(now)) => now.duration_since(started).as_secs(),
            _ => 0,
        }
    }
}

impl Status {
    // Looks at the book, so that it is known since when who waits waits. Without memory it is seen a moment later.
    fn look<T: RangeTable, S: HostStore, L: Ledger, R: Wait + Clock>(
        &self,
        rt: &R,
        shared: &Mutex<Shared<T, S, L>>,
    ) {
        // What is counted isn't kept.
        let mut counts = Counts::new();
        let look = look_at(self.alloc, &shared.lock(rt), Page::Status, &mut counts);
        if let Ok(look) = look {
            let now = self.now(rt);
            let _ = self.board.lock(rt).see(look, now);
        }
    }

    /// Looks at the book once a second until the server stops.
    pub(crate) fn watch<T: RangeTable, S: HostStore, L: Ledger, R: Wait + Clock>(
        &self,
        rt: &R,
        shared: &Mutex<Shared<T, S, L>>,
        stop_signals: &StopSignals,
    ) {
        for turn in 0..u64::MAX {
            if stop_signals.is_stopping() {
                return;
            }
            if turn % TURNS_OF_A_SECOND == 0 {
                self.look(rt, shared);
            }
            thread::sleep(rt, Duration::from_millis(1_000 / TURNS_OF_A_SECOND));
        }
    }
}

// The bytes and the times that were counted, if they are.
fn counted(traffic: Option<&Traffic>) -> (TrafficBytes, SectionTimes) {
    match traffic {
        Some(traffic) => (traffic.bytes(), traffic.times()),
        None => (
            TrafficBytes {
                received: 0,
                sent: 0,
            },
            SectionTimes {
                sections: 0,
                inside_nanos: 0,
                waited_nanos: 0,
            },
        ),
    }
}

/// Makes pages of the book, each of one look at it.
#[derive(Drop)]
pub(crate) struct BookPages<'a, P: Place, L: Ledger, T: RangeTable, S: HostStore, R> {
    pub(crate) rt: &'a R,
    pub(crate) status: &'a Status,
    pub(crate) shared: &'a Mutex<Shared<T, S, L>>,
    pub(crate) connection_tables: &'a ConnectionTables<P, L>,
}

impl<'a, P, L, T, S, R> Pages for BookPages<'a, P, L, T, S, R>
where
    P: Place,
    L: Ledger,
    T: RangeTable,
    S: HostStore,
    R: Wait + Clock,
{
    fn page(&mut self, page: Page) -> Result<Vec<u8>, Starved> {
        // The book's lock is free again behind the look, and no two locks are held at once.
        let mut counts = Counts::new();
        let look = look_at(
            self.status.alloc,
            &self.shared.lock(self.rt),
            page,
            &mut counts,
        )?;
        let open = OpenConnections {
            calls: self.connection_tables.callers.lock(self.rt).count() as u64,
            local: self.connection_tables.locals.lock(self.rt).count() as u64,
            status: self.connection_tables.operators.lock(self.rt).count() as u64,
        };
        let now = self.status.now(self.rt);
        let (traffic, times) = counted(self.status.traffic());
        let moment = Moment {
            now,
            open,
            traffic,
            times,
            version: VERSION,
        };
        self.status
            .board
            .lock(self.rt)
            .page(page, look, &counts, moment)
    }
}

/// What a connection's reader and its writer tell each other: an answer was written, so that another request may take its time.
#[derive(Drop)]
pub(crate) struct Turns {
    is_answered: AtomicBool,
}

impl Turns {
    pub(crate) fn new() -> Turns {
        Turns {
            is_answered: AtomicBool::new(true),
        }
    }
}

fn is_over<R: Clock>(rt: &R, until: Option<Instant>) -> bool {
    match (until, Instant::now(rt)) {
        (Some(until), Ok(now)) => until <= now,
        _ => false,
    }
}

fn until<R: Clock>(rt: &R) -> Option<Instant> {
    match Instant::now(rt) {
        Ok(now) => now.checked_add(idle()),
        Err(_) => None,
    }
}

/// What an operator sends: each request has its time, and the stream ends where the server stops.
#[derive(Drop)]
pub(crate) struct RequestBytes<'a, R> {
    rt: &'a R,
    stream: &'a TcpStream,
    turns: &'a Turns,
    stop_signals: &'a StopSignals,
    until: Option<Instant>,
}

impl<'a, R> RequestBytes<'a, R> {
    pub(crate) fn new(
        rt: &'a R,
        stream: &'a TcpStream,
        turns: &'a Turns,
        stop_signals: &'a StopSignals,
    ) -> RequestBytes<'a, R> {
        RequestBytes {
            rt,
            stream,
            turns,
            stop_signals,
            until: None,
        }
    }
}

impl<'a, R: Clock> Read for RequestBytes<'a, R> {
    fn read(&mut self, buf: &mut [u8]) -> io::Result<usize> {
        if self.stop_signals.is_stopping() {
            return Ok(0);
        }
        if self.turns.is_answered.swap(false, Ordering::SeqCst) {
            self.until = until(self.rt);
        }
        if is_over(self.rt, self.until) {
            return Err(io::Error::from(ErrorKind::TimedOut));
        }
        let mut from = self.stream;
        from.read(buf)
    }
}

/// What an operator is sent: each write has its time, and fails where the server stops.
#[derive(Drop)]
pub(crate) struct AnswerBytes<'a> {
    stream: &'a TcpStream,
    turns: &'a Turns,
    stop_signals: &'a StopSignals,
}

impl<'a> AnswerBytes<'a> {
    pub(crate) fn new(
        stream: &'a TcpStream,
        turns: &'a Turns,
        stop_signals: &'a StopSignals,
    ) -> AnswerBytes<'a> {
        AnswerBytes {
            stream,
            turns,
            stop_signals,
        }
    }
}

impl<'a> Write for AnswerBytes<'a> {
    fn write(&mut self, buf: &[u8]) -> io::Result<usize> {
        let piece = buf.get(..PIECE).unwrap_or(buf);
        let mut to = self.stream;
        for _ in 0..TURNS {
            match to.write(piece) {
                Err(error) if error.kind() == ErrorKind::WouldBlock => {}
                written => return written,
            }
            if self.stop_signals.is_stopping() {
                break;
            }
        }
        Err(io::Error::from(ErrorKind::TimedOut))
    }

    fn flush(&mut self) -> io::Result<()> {
        self.turns.is_answered.store(true, Ordering::SeqCst);
        Ok(())
    }
}

/// The writes of a connection to the status port get their time. The error is the socket's.
pub(crate) fn prepare(stream: &TcpStream) -> io::Result<()> {
    stream.set_write_timeout(Some(Duration::from_millis(TURN_MILLIS)))
}

/// Reads what comes behind a refused request for a moment, so that the answer reaches a peer that still sends.
pub(crate) fn linger(stream: &TcpStream) {
    let _ = stream.shutdown(Shutdown::Write);
    if stream
        .set_read_timeout(Some(Duration::from_millis(LINGER_MILLIS)))
        .is_err()
    {
        return;
    }
    let mut room = [0u8; 1_024];
    let mut from = stream;
    for _ in 0..LINGER_READS {
        match from.read(&mut room) {
            Ok(0) | Err(_) => return,
            Ok(_) => {}
        }
    }
}
