//! A peer whose port mapper is asked for its port: right, mute, lying, slow, absent, over datagrams alone, and with another port
//! once the connection is lost.
use super::client::{dial, read, stop, write};
use super::servers::{Ports, loopback, served_plainly};
use super::talks::{CALLED, Response, Talk, lock_both};
use log::Log;
use std::alloc::{AllocError, Global};
use std::io::Print;
use std::net::{Net, SocketAddr, TcpListener, TcpStream, UdpSocket};
use std::sync::Wait;
use std::test::*;
use std::thread::Threads;
use std::time::{Clock, Duration};
use std::{io, thread};
use test_kit::put_plain;

/// The bytes of a question, and of a question behind its mark.
const QUESTION: usize = 56;

const MARKED: usize = 60;

/// A question behind its xid: GETPORT of the lock manager in version 4 over TCP (RFC 1833, section 3).
const ASKED: &str = "0 2 186a0 2 3 0 0 0 0 186b5 4 6 0";

/// A reply that names no port.
#[derive(Clone, Copy, PartialEq, Eq)]
pub(crate) enum Lie {
    Zero,
    PastAll,
    Refused,
    Cut,
}

/// What a port mapper does.
#[derive(Clone, Copy, PartialEq, Eq)]
pub(crate) enum Mapper {
    // It names the peer's port.
    Names,
    // The same, a byte at a time.
    Slow,
    // It takes the question, and says nothing.
    Mute,
    // What it says behind the xid names no port.
    Lies(Lie),
    // Nobody listens.
    Absent,
    // It hears datagrams alone, and names the peer's port.
    Datagrams,
    // It names the peer's port, where nothing is answered, and then the fixed one.
    Moves,
}

impl Lie {
    fn words(self) -> &'static str {
        match self {
            Lie::Zero => "1 0 0 0 0 0",
            Lie::PastAll => "1 0 0 0 0 10000",
            Lie::Refused => "1 0 0 0 1",
            Lie::Cut => "1 0 0 0 0",
        }
    }
}

impl Mapper {
    /// How long the server waits for an answer: not long where none comes.
    pub(crate) fn silence(self) -> Duration {
        match self {
            Mapper::Mute | Mapper::Moves => Duration::from_millis(200),
            _ => Duration::from_secs(5),
        }
    }
}

fn is_asked(question: &[u8], alloc: Global) -> bool {
    let mut wanted = Vec::new(alloc);
    put_plain(&mut wanted, ASKED) && question.get(4..) == Some(wanted.as_slice())
}

// What is said to a question: its xid, and these words behind it.
fn reply_to(question: &[u8], alloc: Global, words: &str) -> Result<Vec<u8>, AllocError> {
    let mut reply = Vec::new(alloc);
    reply.extend_from_slice(question.get(..4).unwrap_or_default())?;
    if put_plain(&mut reply, words) {
        Ok(reply)
    } else {
        Err(AllocError)
    }
}

fn words_of(alloc: Global, port: u16) -> Result<String, AllocError> {
    format!(in alloc; "1 0 0 0 0 {port:x}")
}

// Writes a reply behind its mark, at once or a byte at a time.
fn write_reply<R: Clock>(rt: &R, to: &TcpStream, reply: &[u8], is_slow: bool) -> io::Result<()> {
    let len = 0x8000_0000u32 | (reply.len() & 0xff) as u32;
    write(to, len.to_be_bytes().as_slice())?;
    if !is_slow {
        return write(to, reply);
    }
    for byte in reply {
        thread::sleep(rt, Duration::from_millis(5));
        write(to, &[*byte])?;
    }
    Ok(())
}

// Takes the question, and says this. Whether it is the question. The connection is kept.
fn tell<R: Clock>(
    rt: &R,
    alloc: Global,
    listener: &TcpListener,
    words: &str,
    is_slow: bool,
) -> io::Result<(bool, TcpStream)> {
    let (from, _) = listener.accept()?;
    let question = read::<MARKED>(&from)?;
    let question = question.get(4..).unwrap_or_default();
    let reply = reply_to(question, alloc, words)?;
    write_reply(rt, &from, &reply, is_slow)?;
    Ok((is_asked(question, alloc), from))
}

// The same by a datagram.
fn tell_datagram(socket: &UdpSocket, alloc: Global, words: &str) -> io::Result<bool> {
    let mut room = [0u8; QUESTION];
    let (_, from): (usize, SocketAddr) = socket.recv_from(&mut room)?;
    let reply = reply_to(room.as_slice(), alloc, words)?;
    socket.send_to(&reply, from)?;
    Ok(is_asked(room.as_slice(), alloc))
}

// Takes the question, and says nothing. The connection is kept.
fn take(alloc: Global, listener: &TcpListener) -> io::Result<(bool, TcpStream)> {
    let (from, _) = listener.accept()?;
    let question = read::<MARKED>(&from)?;
    Ok((is_asked(question.get(4..).unwrap_or_default(), alloc), from))
}

// The procedure of the call that comes.
fn procedure_at(listener: &TcpListener) -> io::Result<u8> {
    let (peer, _) = listener.accept()?;
    let call = read::<CALLED>(&peer)?;
    Ok(call[27])
}

/// Where a port mapper is asked, and where calls may come.
#[derive(Drop)]
struct Town {
    mapper: Option<TcpListener>,
    datagrams: Option<UdpSocket>,
    named: TcpListener,
    fixed: TcpListener,
}

impl Mapper {
    fn open<R>(self, rt: &R, ports: Ports) -> io::Result<Town>
    where
        R: Net<Listener = TcpListener, Stream = TcpStream>,
    {
        let at = loopback(ports.mapper);
        let mapper = match self {
            Mapper::Absent | Mapper::Datagrams => None,
            _ => Some(TcpListener::bind(rt, at)?),
        };
        let datagrams = match self {
            Mapper::Datagrams => Some(UdpSocket::bind(rt, at)?),
            _ => None,
        };
        Ok(Town {
            mapper,
            datagrams,
            named: TcpListener::bind(rt, loopback(ports.named))?,
            fixed: TcpListener::bind(rt, loopback(ports.peer))?,
        })
    }

    // What a port mapper over TCP does, and where the call comes then: whether it was asked as it should, and the procedure.
    fn answer_by<R: Clock>(
        self,
        rt: &R,
        alloc: Global,
        ports: Ports,
        town: &Town,
        mapper: &TcpListener,
    ) -> io::Result<(bool, u8)> {
        let named = words_of(alloc, ports.named)?;
        let (is_asked, kept) = match self {
            Mapper::Mute => take(alloc, mapper)?,
            Mapper::Lies(lie) => tell(rt, alloc, mapper, lie.words(), false)?,
            _ => tell(rt, alloc, mapper, named.as_str(), self == Mapper::Slow)?,
        };
        let procedure = match self {
            Mapper::Names | Mapper::Slow | Mapper::Moves => procedure_at(&town.named)?,
            _ => procedure_at(&town.fixed)?,
        };
        drop(kept);
        if self != Mapper::Moves {
            return Ok((is_asked, procedure));
        }
        let fixed = words_of(alloc, ports.peer)?;
        let (is_asked_again, _kept) = tell(rt, alloc, mapper, fixed.as_str(), false)?;
        let again = procedure_at(&town.fixed)?;
        Ok((is_asked && is_asked_again && again == procedure, procedure))
    }

    fn answer<R: Clock>(
        self,
        rt: &R,
        alloc: Global,
        ports: Ports,
        town: &Town,
    ) -> io::Result<(bool, u8)> {
        if let Some(mapper) = &town.mapper {
            return self.answer_by(rt, alloc, ports, town, mapper);
        }
        match &town.datagrams {
            Some(socket) => {
                let named = words_of(alloc, ports.named)?;
                let is_asked = tell_datagram(socket, alloc, named.as_str())?;
                Ok((is_asked, procedure_at(&town.named)?))
            }
            None => Ok((true, procedure_at(&town.fixed)?)),
        }
    }
}

/// The second owner is granted, at the port that a port mapper names, or the fixed one where it names none.
pub(crate) fn be_mapped<R>(
    rt: &R,
    alloc: Global,
    ports: Ports,
    mapper: Mapper,
) -> io::Result<Response>
where
    R: Net<Listener = TcpListener, Stream = TcpStream> + Clock,
{
    let town = mapper.open(rt, ports)?;
    let connection = dial(rt, ports.rpc)?;
    let [held, waits, freed] = lock_both(rt, alloc, &connection)?;
    let (is_asked, procedure) = mapper.answer(rt, alloc, ports, &town)?;
    let is_stopped = stop(rt, ports.local)?;
    Ok(Response {
        answered: u32::from(is_asked && is_stopped),
        statuses: [held, waits, freed, 0],
        procedure,
    })
}

const GRANTED: Response = Response {
    answered: 1,
    statuses: [0, 3, 0, 0],
    procedure: 5,
};

// The kit's borrow checker covers no call of this with `server::Runtime` as the bound.
fn tried<R>(rt: &R, alloc: Global, mapper: Mapper) -> bool
where
    R: Net<Listener = TcpListener, Stream = TcpStream>
        + Threads
        + Wait
        + Clock
        + Print
        + Log
        + Sync,
{
    let served = served_plainly(rt, alloc, Talk::Mapped(mapper));
    matches!(served, Some((_, told, _)) if told == GRANTED)
}

#[test]
fn named_port(rt: HostRuntime) {
    assert!(rt; tried(&rt, rt.alloc(), Mapper::Names));
}

#[test]
fn slow_port_mapper(rt: HostRuntime) {
    assert!(rt; tried(&rt, rt.alloc(), Mapper::Slow));
}

#[test]
fn mute_port_mapper(rt: HostRuntime) {
    assert!(rt; tried(&rt, rt.alloc(), Mapper::Mute));
}

// No port, a port that is none, a call that was not done, and a result that is cut short.
#[test]
fn lying_port_mapper(rt: HostRuntime) {
    for lie in [Lie::Zero, Lie::PastAll, Lie::Refused, Lie::Cut] {
        assert!(rt; tried(&rt, rt.alloc(), Mapper::Lies(lie)));
    }
}

#[test]
fn absent_port_mapper(rt: HostRuntime) {
    assert!(rt; tried(&rt, rt.alloc(), Mapper::Absent));
}

#[test]
fn port_mapper_by_datagrams(rt: HostRuntime) {
    assert!(rt; tried(&rt, rt.alloc(), Mapper::Datagrams));
}

#[test]
fn another_port_once_nothing_is_answered(rt: HostRuntime) {
    assert!(rt; tried(&rt, rt.alloc(), Mapper::Moves));
}
