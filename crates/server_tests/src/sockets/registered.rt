//! A server that registers its port: at a port mapper that is absent at first, goes in the midst, and is restarted.
use super::client::{read, stop, write};
use super::servers::{Ports, loopback, served_plainly};
use super::talks::{Response, Talk};
use log::Log;
use std::alloc::Global;
use std::fs::Files;
use std::io::{self, Print};
use std::net::{Net, TcpListener, TcpStream};
use std::sync::Wait;
use std::test::*;
use std::thread;
use std::thread::Threads;
use std::time::{Clock, Duration};
use test_kit::put_plain;

/// A call of the server, behind its mark.
const CALL: usize = 60;

/// The calls in order, but for their xids and the port of the last four: UNSET of each program and version, and SET (RFC 1833,
/// section 3). The last is SET over UDP, of a server that takes calls by datagram.
const CALLS: [&str; 9] = [
    "2 0 0 0 0 186b5 1 6",
    "2 0 0 0 0 186b5 3 6",
    "2 0 0 0 0 186b5 4 6",
    "2 0 0 0 0 186b8 1 6",
    "1 0 0 0 0 186b5 1 6",
    "1 0 0 0 0 186b5 3 6",
    "1 0 0 0 0 186b5 4 6",
    "1 0 0 0 0 186b8 1 6",
    "1 0 0 0 0 186b8 1 11",
];

/// How many of them unset, and how many there are over TCP.
const UNSETS: usize = 4;

const OVER_TCP: usize = 8;

// Whether the bytes behind the mark and the xid are this call, with this port.
fn is_call(alloc: Global, call: &[u8], words: &str, port: u16) -> bool {
    let mut wanted = Vec::new(alloc);
    let is_put = put_plain(&mut wanted, "0 2 186a0 2")
        && put_plain(&mut wanted, words)
        && wanted
            .extend_from_slice(u32::from(port).to_be_bytes().as_slice())
            .is_ok();
    is_put && call.get(8..) == Some(wanted.as_slice())
}

// Answers a call: it was done, or not.
fn answer(alloc: Global, to: &TcpStream, call: &[u8], is_done: bool) -> io::Result<()> {
    let mut reply = Vec::new(alloc);
    reply.extend_from_slice(0x8000_001cu32.to_be_bytes().as_slice())?;
    reply.extend_from_slice(call.get(4..8).unwrap_or_default())?;
    for word in [1u32, 0, 0, 0, 0, u32::from(is_done)] {
        reply.extend_from_slice(word.to_be_bytes().as_slice())?;
    }
    write(to, &reply)
}

// The port that the call of this place names.
fn port_at(step: usize, ports: Ports) -> u16 {
    if step < UNSETS {
        0
    } else if step < OVER_TCP {
        ports.rpc
    } else {
        ports.named
    }
}

// Answers so many calls from the first on. Whether they are as they should be. An UNSET is told that nothing was there.
fn answers(alloc: Global, to: &TcpStream, count: usize, ports: Ports) -> io::Result<bool> {
    let mut are_right = true;
    for (step, words) in CALLS.iter().take(count).enumerate() {
        let is_set = step >= UNSETS;
        let call = read::<CALL>(to)?;
        let port = port_at(step, ports);
        are_right = are_right && is_call(alloc, call.as_slice(), words, port);
        answer(alloc, to, call.as_slice(), is_set)?;
    }
    Ok(are_right)
}

/// The port mapper is absent at first. Then it goes behind three calls; then all are answered, and it goes again; then all are
/// answered once more, and the server stops, and takes all back.
pub(crate) fn be_registered<R>(
    rt: &R,
    alloc: Global,
    ports: Ports,
    by_datagram: bool,
) -> io::Result<Response>
where
    R: Net<Listener = TcpListener, Stream = TcpStream> + Clock,
{
    let all = if by_datagram { CALLS.len() } else { OVER_TCP };
    thread::sleep(rt, Duration::from_millis(200));
    let listener = TcpListener::bind(rt, loopback(ports.mapper))?;
    let mut are_right = true;
    for count in [3, all] {
        let (connection, _) = listener.accept()?;
        are_right = answers(alloc, &connection, count, ports)? && are_right;
        drop(connection);
    }
    let (connection, _) = listener.accept()?;
    are_right = answers(alloc, &connection, all, ports)? && are_right;
    let is_stopped = stop(rt, ports.local)?;
    let are_taken_back = answers(alloc, &connection, UNSETS, ports)?;
    let goes = are_right && is_stopped && are_taken_back;
    Ok(Response::of(u32::from(goes)))
}

fn tried<R>(rt: &R, alloc: Global, by_datagram: bool) -> bool
where
    R: Net<Listener = TcpListener, Stream = TcpStream>
        + Threads
        + Wait
        + Clock
        + Files
        + Print
        + Log
        + Sync,
{
    let served = served_plainly(rt, alloc, Talk::Registered(by_datagram));
    matches!(served, Some((_, told, _)) if told == Response::of(1))
}

#[test]
fn server_is_registered(rt: HostRuntime) {
    assert!(rt; tried(&rt, rt.alloc(), false) && tried(&rt, rt.alloc(), true));
}
