//! Connections that ask.
use crate::calls::{Calls, Cell};
use record_mark::Assembler;
use std::alloc::Global;
use std::io::{self, ErrorKind, Read, Write};
use std::net::{Ipv4Addr, Net, SocketAddr, SocketAddrV4, TcpStream};
use std::sync::Wait;
use std::sync::atomic::{AtomicU64, Ordering};
use std::thread;
use std::thread::Threads;
use std::time::{Clock, Instant};

/// What is asked, where, and how often.
#[derive(Clone, Copy)]
pub(crate) struct Plan {
    pub(crate) cell: Cell,
    /// A port of loopback.
    pub(crate) port: u16,
    pub(crate) connections: u32,
    /// How many calls of a connection are out at once.
    pub(crate) depth: u64,
    /// How many calls each connection makes.
    pub(crate) calls: u32,
}

/// A connection that asks.
#[derive(Drop)]
struct Asker {
    stream: TcpStream,
    calls: Calls,
    incoming: Assembler,
    out: u64,
}

impl Asker {
    fn new<R: Net<Stream = TcpStream>>(
        rt: &R,
        alloc: Global,
        plan: &Plan,
        number: u32,
    ) -> io::Result<Asker> {
        let to = SocketAddr::V4(SocketAddrV4::new(Ipv4Addr::LOCALHOST, plan.port));
        let stream = TcpStream::connect(rt, to)?;
        stream.set_nodelay(true)?;
        let calls = Calls::new(alloc, plan.cell, number)?;
        Ok(Asker {
            stream,
            calls,
            incoming: Assembler::new(alloc),
            out: 0,
        })
    }

    // Makes a call.
    fn ask(&mut self, xid: u32) -> io::Result<()> {
        let mut to = &self.stream;
        to.write_all(self.calls.next(xid))?;
        self.out = self.out.wrapping_add(1);
        Ok(())
    }

    // Takes the replies that come next.
    fn hear(&mut self) -> io::Result<()> {
        let mut room = [0u8; 4_096];
        let mut from = &self.stream;
        let count = from.read(&mut room)?;
        let piece = room.get(..count).unwrap_or_default();
        if piece.is_empty() {
            return Err(io::Error::from(ErrorKind::UnexpectedEof));
        }
        let Ok(records) = self.incoming.feed(piece) else {
            return Err(io::Error::from(ErrorKind::InvalidData));
        };
        self.out = self.out.saturating_sub(records.len() as u64);
        Ok(())
    }

    // Waits until fewer than so many calls are out.
    fn wait<R: Wait>(&mut self, rt: &R, depth: u64) -> io::Result<()> {
        for _ in rt.forever() {
            if self.out < depth {
                return Ok(());
            }
            self.hear()?;
        }
        Ok(())
    }
}

/// What all connections received.
#[derive(Drop)]
pub(crate) struct Totals {
    /// How many calls were answered.
    pub(crate) answered: AtomicU64,
    /// How long a call, or the oldest of those that were out at once, was waited for at most, in microseconds.
    pub(crate) longest: AtomicU64,
}

// One call, and what is waited for behind it.
fn ask_next<R: Wait + Clock>(
    rt: &R,
    plan: &Plan,
    asker: &mut Asker,
    call: u32,
    totals: &Totals,
) -> io::Result<()> {
    let begun = Instant::now(rt)?;
    asker.ask(call)?;
    asker.wait(rt, plan.depth)?;
    let micros = u64::try_from(begun.elapsed(rt)?.as_micros()).unwrap_or(u64::MAX);
    totals.longest.fetch_max(micros, Ordering::SeqCst);
    Ok(())
}

// All calls of a connection.
fn ask_one<R: Wait + Clock>(rt: &R, plan: &Plan, asker: Asker, totals: &Totals) -> io::Result<()> {
    let mut asker = asker;
    for call in 0..plan.calls {
        ask_next(rt, plan, &mut asker, call, totals)?;
    }
    asker.wait(rt, 1)
}

/// Connects, and asks on all connections at once.
pub(crate) fn ask_all<R>(rt: &R, alloc: Global, plan: &Plan) -> io::Result<Totals>
where
    R: Net<Stream = TcpStream> + Threads + Wait + Clock + Sync,
{
    let mut askers = Vec::new(alloc);
    for number in 0..plan.connections {
        askers.push(Asker::new(rt, alloc, plan, number)?)?;
    }
    let totals = Totals {
        answered: AtomicU64::new(0),
        longest: AtomicU64::new(0),
    };
    ask_beside(rt, plan, askers, &totals);
    Ok(totals)
}

// A thread for each connection.
fn ask_beside<R>(rt: &R, plan: &Plan, askers: Vec<Asker>, totals: &Totals)
where
    R: Threads + Wait + Clock + Sync,
{
    thread::scope(thread::scope_env(), rt, |scope| {
        for asker in askers {
            let _ = scope.spawn(move || {
                if ask_one(rt, plan, asker, totals).is_ok() {
                    totals
                        .answered
                        .fetch_add(u64::from(plan.calls), Ordering::SeqCst);
                }
            });
        }
    })
}
