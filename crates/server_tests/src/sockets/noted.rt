//! What a server notes of connections that it closes.
use super::client::{dial, is_closed, read, stop, write};
use super::servers::{Ports, noted_by};
use log::kv::Source;
use log::sink::Lines;
use log::span::Spans;
use log::{Log, Metadata, Record};
use std::alloc::Global;
use std::fmt::Display;
use std::io::{self, ErrorKind};
use std::net::{Net, SocketAddr, TcpStream};
use std::sync::{Mutex, Wait};
use std::test::*;
use std::thread;
use std::time::{Clock, Duration};

/// How often a note is looked for, a hundredth of a second apart.
const TRIES: u32 = 1_000;

/// A mark of 8,193 bytes, one more than a record may have.
const TOO_LONG: &[u8] = b"\x80\x00\x20\x01";

/// The lines that are noted.
#[derive(Drop)]
pub(crate) struct Noted<'a, R> {
    rt: &'a R,
    lines: Mutex<Lines>,
}

impl<'a, R: Wait> Noted<'a, R> {
    pub(crate) fn new(rt: &'a R, alloc: Global) -> Noted<'a, R> {
        Noted {
            rt,
            lines: Mutex::new(Lines::new(alloc)),
        }
    }

    // Whether the last line ends so.
    fn ends_with(&self, text: &str) -> bool {
        let lines = self.lines.lock(self.rt);
        match lines.as_slice().last() {
            Some(line) => line.as_bytes().ends_with(text.as_bytes()),
            None => false,
        }
    }

    fn len(&self) -> usize {
        self.lines.lock(self.rt).len()
    }
}

impl<'a, R: Wait> Log for Noted<'a, R> {
    fn enabled(&self, _metadata: &Metadata<'_>) -> bool {
        true
    }

    fn log<D: Display, K: Source, S: Spans>(&self, record: &Record<'_, D, K, S>) {
        let _ = self.lines.lock(self.rt).push(record);
    }

    fn flush(&self) {}

    fn target(&self) -> &str {
        ""
    }
}

impl<'a, R: Wait + Clock> Noted<'a, R> {
    // Whether before long this stands in the last of so many lines, at its end.
    fn tells(&self, count: usize, text: &str) -> bool {
        for _ in 0..TRIES {
            if self.len() >= count {
                break;
            }
            thread::sleep(self.rt, Duration::from_millis(10));
        }
        self.len() == count && self.ends_with(text)
    }
}

/// How many lines a local program sends before it goes: more than are answered by then.
const LINES: usize = 20_000;

/// What a caller or a local program does, so that its connection is closed.
#[derive(Clone, Copy)]
enum Misdeed {
    // A caller sends too long a record.
    TooLong,
    // A caller sends nothing.
    Idle,
    // A local program asks often, and goes before it has all answers.
    TakesNothing,
    // A local program goes before it has read its answer whole, and after it came.
    Gone,
}

/// In the order in which they are done: what is noted, before its address and behind it.
const MISDEEDS: &[(Misdeed, &str, &str)] = &[
    (Misdeed::TooLong, "] ", " sent too long a record: closed"),
    (
        Misdeed::Idle,
        "] ",
        " was idle, or its connection failed: closed",
    ),
    (
        Misdeed::TakesNothing,
        "] local program ",
        " takes no bytes: closed",
    ),
    (Misdeed::Gone, "] local program ", " failed: closed"),
];

// A caller that sends this, and is closed.
fn call<R>(rt: &R, ports: Ports, bytes: &[u8]) -> io::Result<TcpStream>
where
    R: Net<Stream = TcpStream> + Clock,
{
    let caller = dial(rt, ports.rpc)?;
    write(&caller, bytes)?;
    if is_closed(&caller)? {
        Ok(caller)
    } else {
        Err(io::Error::from(ErrorKind::Other))
    }
}

// A local program that asks often.
fn ask_often<R>(rt: &R, alloc: Global, ports: Ports) -> io::Result<TcpStream>
where
    R: Net<Stream = TcpStream> + Clock,
{
    let mut lines = Vec::new(alloc);
    for _ in 0..LINES {
        lines.extend_from_slice(b"hosts\n")?;
    }
    let local = dial(rt, ports.local)?;
    write(&local, lines.as_slice())?;
    Ok(local)
}

// A local program that has the first byte of its answer.
fn ask<R>(rt: &R, ports: Ports) -> io::Result<TcpStream>
where
    R: Net<Stream = TcpStream> + Clock,
{
    let local = dial(rt, ports.local)?;
    write(&local, b"hosts\n")?;
    let _ = read::<1>(&local)?;
    Ok(local)
}

// Does it: the address of its connection, which is closed then.
fn misbehave<R>(rt: &R, alloc: Global, ports: Ports, misdeed: Misdeed) -> io::Result<SocketAddr>
where
    R: Net<Stream = TcpStream> + Clock,
{
    let connection = match misdeed {
        Misdeed::TooLong => call(rt, ports, TOO_LONG)?,
        Misdeed::Idle => call(rt, ports, b"")?,
        Misdeed::TakesNothing => ask_often(rt, alloc, ports)?,
        Misdeed::Gone => ask(rt, ports)?,
    };
    connection.local_addr()
}

// How many are noted, in order, and with nothing else, up to the first that isn't.
fn count_noted<R, N>(rt: &R, alloc: Global, ports: Ports, noted: &Noted<'_, N>) -> io::Result<usize>
where
    R: Net<Stream = TcpStream> + Clock,
    N: Wait + Clock,
{
    for (count, (misdeed, before, behind)) in MISDEEDS.iter().enumerate() {
        let from = misbehave(rt, alloc, ports, *misdeed)?;
        let text = format!(in alloc; "{before}{from}{behind}")?;
        if !noted.tells(count.wrapping_add(1), text.as_str()) {
            return Ok(count);
        }
    }
    Ok(MISDEEDS.len())
}

/// Misbehaves in each way, and has the server stop: how many misdeeds are noted, in order, and with nothing else.
pub(crate) fn misbehaves<R, N>(
    rt: &R,
    alloc: Global,
    ports: Ports,
    noted: &Noted<'_, N>,
) -> io::Result<usize>
where
    R: Net<Stream = TcpStream> + Clock,
    N: Wait + Clock,
{
    let count = count_noted(rt, alloc, ports, noted);
    let is_stopped = stop(rt, ports.local)?;
    let count = count?;
    Ok(if is_stopped && noted.len() == count {
        count
    } else {
        0
    })
}

// Of a server that notes each.
#[test]
fn misdeeds_are_noted(rt: HostRuntime) {
    assert!(rt; noted_by(&rt, rt.alloc()) == Some(MISDEEDS.len()));
}
