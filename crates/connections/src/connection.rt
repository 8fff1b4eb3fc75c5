//! A connection that is open.
ghost use Rattle.std.specs.Prelude.{◌≡◌, ◌≤◌, length, take, IfOk, OnErr};
ghost use Rattle.std.specs.Io.KnownBytes.{Appends, Keeps};
ghost use Rattle.byte_io.specs.Written.{Wrote};

use crate::patient::{Patience, Patient};
use byte_io::write_whole;
use std::io::{self, ErrorKind, Write};
use std::marker::Model;
use std::net::{Shutdown, TcpStream};
use std::sync::atomic::{AtomicBool, AtomicU64, Ordering};
use std::sync::{Mutex, MutexGuard, Wait};
use std::time::Duration;
use thiserror::Error;

/// How long a turn of a write waits for the peer, in milliseconds.
const TURN_MILLIS: u64 = 20;

/// How many turns a write has.
const TURNS: usize = 4;

/// The bytes were not all written. The connection is shut, and never written again.
#[derive(Clone, Copy, Debug, PartialEq, Eq, Error)]
#[error("its peer takes no bytes")]
pub struct Lost;

// What the connection's own lock keeps.
#[derive(Drop)]
pub(crate) struct Outgoing {
    is_lost: bool,
}

/// A connection that is open. Whoever has something for it writes it whole, one after another. Contracts see its number.
#[derive(Drop)]
pub struct Connection {
    number: u64,
    stream: TcpStream,
    outgoing: Mutex<Outgoing>,
    // How many of its jobs are done, and whether its reader waits for that.
    done: AtomicU64,
    is_awaited: AtomicBool,
}

impl Model for Connection {
    ghost use Rattle.std.specs.Prelude.{ℕ};

    ghost Value = { ℕ };

    ghost view = { λ c. c.number };
}

// One turn: how many bytes were taken, of those at the front; none where it was interrupted.
fn write_turn<W: Write>(to: &mut W, bytes: &[u8]) -> Result<usize, Lost>
    ensures ok { IfOk result (λ count. (count ≤ length bytes.now) × Appends (W.contents to.old) (W.contents to.new) (take count bytes.now)) }
    ensures err { OnErr result (Keeps (W.contents to.old) (W.contents to.new)) }
{
    match to.write(bytes) {
        Ok(count) => Ok(count),
        Err(error) if error.kind() == ErrorKind::Interrupted => Ok(0),
        Err(_) => Err(Lost),
    }
}

// Writes all, or a front of it. Each turn ends by the stream's own write timeout, so this ends, whatever the peer does.
fn write_in_turns<W: Write>(to: &mut W, bytes: &[u8]) -> Result<(), Lost>
    ensures { Wrote (W.contents to.old) (W.contents to.new) result bytes.now }
{
    let mut rest = bytes;
    for _ in 0..TURNS {
        let count = write_turn(to, rest)?;
        rest = &rest[count..];
        if rest.is_empty() {
            return Ok(());
        }
    }
    Err(Lost)
}

impl Connection {
    /// Over this stream, whose writes get their timeout. `idle` is how long a read waits for bytes; with `None` it waits on.
    /// The error is the socket's.
    pub fn new(number: u64, stream: TcpStream, idle: Option<Duration>) -> io::Result<Connection>
        ensures { IfOk result (λ c. c ≡ number) }
    {
        stream.set_nodelay(true)?;
        stream.set_write_timeout(Some(Duration::from_millis(TURN_MILLIS)))?;
        stream.set_read_timeout(idle)?;
        Ok(Connection {
            number,
            stream,
            outgoing: Mutex::new(Outgoing { is_lost: false }),
            done: AtomicU64::new(0),
            is_awaited: AtomicBool::new(false),
        })
    }

    /// Its number.
    pub fn number(&self) -> u64
        ensures { result ≡ self.now }
    {
        self.number
    }

    /// What comes in.
    pub fn stream(&self) -> &TcpStream {
        &self.stream
    }

    /// Writes the bytes whole, before or behind what others write. A turn of 20 ms that moves none of them, or the end of the
    /// fourth before all are written, loses the connection: it is shut, and this and each later call answers `Lost`.
    pub fn send<R: Wait>(&self, rt: &R, bytes: &[u8]) -> Result<(), Lost> {
        let mut outgoing = self.outgoing.lock(rt);
        self.write(&mut outgoing, bytes)
    }

    /// Writes the bytes whole, for the connection's own thread: nobody else waits for it, so it waits for its peer. Five seconds in
    /// which none of them moves, or a turn that moves none once patience is over, lose the connection as with `send`.
    pub fn send_patiently<R: Wait, E: Patience>(
        &self,
        rt: &R,
        bytes: &[u8],
        patience: &E,
    ) -> Result<(), Lost> {
        let mut outgoing = self.outgoing.lock(rt);
        if outgoing.is_lost {
            return Err(Lost);
        }
        let mut to = Patient {
            stream: &self.stream,
            patience,
        };
        if write_whole(&mut to, bytes).is_ok() {
            return Ok(());
        }
        outgoing.is_lost = true;
        self.shut();
        Err(Lost)
    }

    // For whoever writes more than one piece between those of others.
    pub(crate) fn outgoing<R: Wait>(&self, rt: &R) -> MutexGuard<'_, Outgoing> {
        self.outgoing.lock(rt)
    }

    // Under the connection's lock.
    pub(crate) fn write(&self, outgoing: &mut Outgoing, bytes: &[u8]) -> Result<(), Lost> {
        if outgoing.is_lost {
            return Err(Lost);
        }
        let mut to = &self.stream;
        let written = write_in_turns(&mut to, bytes);
        if written.is_err() {
            outgoing.is_lost = true;
            self.shut();
        }
        written
    }

    /// Nothing more is read. What was read is still answered.
    pub(crate) fn end_reading(&self) {
        let _ = self.stream.shutdown(Shutdown::Read);
    }

    /// Nothing more is read or written.
    pub fn shut(&self) {
        let _ = self.stream.shutdown(Shutdown::Both);
    }

    /// So many jobs more are done: their replies are written, or lost.
    pub fn count_done(&self, jobs: u64) {
        self.done.fetch_add(jobs, Ordering::SeqCst);
        if self.is_awaited.load(Ordering::SeqCst) {
            self.done.wake_all();
        }
    }

    /// Waits until so many of its jobs are done.
    pub fn wait_for<R: Wait>(&self, rt: &R, jobs: u64) {
        // It says that it waits before it looks, so that it is woken for what it doesn't see.
        self.is_awaited.store(true, Ordering::SeqCst);
        for _ in rt.forever() {
            let done = self.done.load(Ordering::SeqCst);
            if done >= jobs {
                break;
            }
            self.done.park(rt, (done & 0xffff_ffff) as u32);
        }
    }
}
