//! Calls that come by datagram: each procedure of the status monitor, what is none of its calls, a repeat, more at once than are
//! answered one behind another, and a notice that frees a lock.
use super::client::{dial, read, stop, write};
use super::servers::{Ports, loopback, served_plainly};
use super::talks::{GRACE, Response, Talk, lock_first};
use log::Log;
use std::alloc::Global;
use std::io::{self, Print};
use std::net::{Net, TcpListener, TcpStream, UdpSocket};
use std::sync::Wait;
use std::test::*;
use std::thread::Threads;
use std::time::{Clock, Duration};
use test_kit::put_plain;

/// Datagrams, and what goes back for each; an empty text where nothing does (RFC 5531, section 9; XNFS, NSM). The own state is 1,
/// and 3 behind the restart.
const EXCHANGES: [(&str, &str); 22] = [
    // SM_NULL.
    ("1 0 2 186b8 1 0 0 0 0 0", "1 1 0 0 0 0"),
    // A reply, no bytes, one word, a cut header.
    ("2 1 0 0 0 0", ""),
    ("", ""),
    ("3", ""),
    ("4 0 2 186b8", ""),
    // NULL of the lock manager, which is not served here: PROG_UNAVAIL. Another program.
    ("5 0 2 186b5 4 0 0 0 0 0", "5 1 0 0 0 1"),
    ("6 0 2 186a3 3 0 0 0 0 0", "6 1 0 0 0 1"),
    // RPC_MISMATCH, AUTH_BADCRED.
    ("7 0 3 186b8 1 0 0 0 0 0", "7 1 1 0 2 2"),
    ("8 0 2 186b8 1 0 5 0 0 0", "8 1 1 1 1"),
    // PROG_MISMATCH, PROC_UNAVAIL, GARBAGE_ARGS.
    ("9 0 2 186b8 2 0 0 0 0 0", "9 1 0 0 0 2 1 1"),
    ("a 0 2 186b8 1 7 0 0 0 0", "a 1 0 0 0 3"),
    ("b 0 2 186b8 1 1 0 0 0 0", "b 1 0 0 0 4"),
    // SM_STAT: STAT_SUCC.
    ("c 0 2 186b8 1 1 0 0 0 0 1 61000000", "c 1 0 0 0 0 0 1"),
    // SM_MON from loopback: STAT_SUCC. SM_UNMON, SM_UNMON_ALL.
    (
        "d 0 2 186b8 1 2 0 0 0 0 1 62000000 1 61000000 186a3 1 1 0 0 0 0",
        "d 1 0 0 0 0 0 1",
    ),
    (
        "e 0 2 186b8 1 3 0 0 0 0 1 62000000 1 61000000 186a3 1 1",
        "e 1 0 0 0 0 1",
    ),
    (
        "f 0 2 186b8 1 4 0 0 0 0 1 61000000 186a3 1 1",
        "f 1 0 0 0 0 1",
    ),
    // SM_NOTIFY of a host, the same again, and of one without a row.
    ("10 0 2 186b8 1 6 0 0 0 0 1 62000000 5", "10 1 0 0 0 0"),
    ("10 0 2 186b8 1 6 0 0 0 0 1 62000000 5", "10 1 0 0 0 0"),
    ("11 0 2 186b8 1 6 0 0 0 0 1 63000000 5", "11 1 0 0 0 0"),
    // SM_SIMU_CRASH, and SM_STAT behind it. A repeat of the first SM_STAT is no repeat then.
    ("12 0 2 186b8 1 5 0 0 0 0", "12 1 0 0 0 0"),
    ("13 0 2 186b8 1 1 0 0 0 0 1 61000000", "13 1 0 0 0 0 0 3"),
    ("c 0 2 186b8 1 1 0 0 0 0 1 61000000", "c 1 0 0 0 0 0 3"),
];

/// How many of them come to the book: not what is no call, nor what asks for another program.
const TAKEN: u64 = 16;

/// SM_NOTIFY of the host `client`.
const NOTICE: (&str, &str) = (
    "20 0 2 186b8 1 6 0 0 0 0 6 636c6965 6e740000 5",
    "20 1 0 0 0 0",
);

/// SM_NULL, and its reply.
const NULL: (&str, &str) = ("30 0 2 186b8 1 0 0 0 0 0", "30 1 0 0 0 0");

/// How often it is sent at once: more often than datagrams are answered one behind another.
const AT_ONCE: u32 = 100;

/// The most bytes of a datagram that is looked at.
const MOST_BYTES: usize = 8_192;

// A socket that hears the server alone.
fn socket_to<R: Net>(rt: &R, port: u16) -> io::Result<UdpSocket> {
    let socket = UdpSocket::bind(rt, loopback(0))?;
    socket.connect(loopback(port))?;
    socket.set_read_timeout(Some(Duration::from_secs(20)))?;
    Ok(socket)
}

// Whether these words come back.
fn hears(socket: &UdpSocket, alloc: Global, told: &str) -> io::Result<bool> {
    let mut wanted = Vec::new(alloc);
    let is_put = put_plain(&mut wanted, told);
    let mut room = [0u8; 1_024];
    let count = socket.recv(&mut room)?;
    Ok(is_put && room.get(..count) == Some(wanted.as_slice()))
}

// Sends a datagram with so many bytes more.
fn send(socket: &UdpSocket, alloc: Global, asked: &str, len: usize) -> io::Result<bool> {
    let mut datagram = Vec::new(alloc);
    let is_put = put_plain(&mut datagram, asked);
    for _ in datagram.len()..len {
        datagram.push(0)?;
    }
    socket.send(&datagram)?;
    Ok(is_put)
}

// How many of these go as they should.
fn exchange_all(socket: &UdpSocket, alloc: Global, all: &[(&str, &str)]) -> io::Result<u32> {
    let mut count = 0u32;
    for (asked, told) in all {
        let is_right = send(socket, alloc, asked, 0)?
            && (told.is_empty() || hears(socket, alloc, told)?);
        count = count.wrapping_add(u32::from(is_right));
    }
    Ok(count)
}

// A datagram of as many bytes as there may be is answered, and one of more is not.
fn exchange_long(socket: &UdpSocket, alloc: Global) -> io::Result<bool> {
    let (asked, told) = NULL;
    let is_sent = send(socket, alloc, "40 0 2 186b8 1 0 0 0 0 0", MOST_BYTES + 1)?
        && send(socket, alloc, asked, MOST_BYTES)?;
    Ok(is_sent && hears(socket, alloc, told)?)
}

// Many are sent before the first answer is read. How many are answered.
fn exchange_at_once(socket: &UdpSocket, alloc: Global) -> io::Result<u32> {
    let (asked, told) = NULL;
    for _ in 0..AT_ONCE {
        send(socket, alloc, asked, 0)?;
    }
    let mut count = 0u32;
    for _ in 0..AT_ONCE {
        count = count.wrapping_add(u32::from(hears(socket, alloc, told)?));
    }
    Ok(count)
}

// A host has a lock that a local program asks for: in vain, until the host's notice came.
fn is_freed<R>(rt: &R, alloc: Global, ports: Ports, socket: &UdpSocket) -> io::Result<bool>
where
    R: Net<Stream = TcpStream> + Clock,
{
    let connection = dial(rt, ports.rpc)?;
    let held = lock_first(rt, alloc, &connection, 100, GRACE)?;
    let local = dial(rt, ports.local)?;
    write(&local, b"setlk p1 aabbccdd w 0 10\n")?;
    let is_refused = read::<6>(&local)? == *b"again\n";
    let noticed = exchange_all(socket, alloc, &[NOTICE])?;
    write(&local, b"setlk p1 aabbccdd w 0 10\n")?;
    let is_granted = read::<3>(&local)? == *b"ok\n";
    Ok(held == 0 && is_refused && noticed == 1 && is_granted)
}

/// Each of these is said to the server, and it is stopped.
pub(crate) fn send_datagrams<R>(rt: &R, alloc: Global, ports: Ports) -> io::Result<Response>
where
    R: Net<Stream = TcpStream> + Clock,
{
    // What listens behind the connections does once one of these is answered.
    let connection = dial(rt, ports.rpc)?;
    let _ = lock_first(rt, alloc, &connection, 10, GRACE)?;
    let socket = socket_to(rt, ports.named)?;
    let exchanged = exchange_all(&socket, alloc, EXCHANGES.as_slice())?;
    let is_bounded = exchange_long(&socket, alloc)?;
    let at_once = exchange_at_once(&socket, alloc)?;
    let is_freed = is_freed(rt, alloc, ports, &socket)?;
    let is_stopped = stop(rt, ports.local)?;
    let goes = exchanged == EXCHANGES.len() as u32 && is_bounded && is_freed && is_stopped;
    Ok(Response::of(if goes { at_once } else { 0 }))
}

// What all came to, and how many calls the audit found.
fn tried<R>(rt: &R, alloc: Global) -> bool
where
    R: Net<Listener = TcpListener, Stream = TcpStream>
        + Threads
        + Wait
        + Clock
        + Print
        + Log
        + Sync,
{
    match served_plainly(rt, alloc, Talk::Datagrams) {
        // Beside them there are the locks over a connection, of which those in the grace period are asked for again.
        Some((taken, told, _)) => {
            told == Response::of(AT_ONCE) && taken >= TAKEN + 1 + u64::from(AT_ONCE) + 1 + 2
        }
        None => false,
    }
}

#[test]
fn calls_by_datagram(rt: HostRuntime) {
    assert!(rt; tried(&rt, rt.alloc()));
}
