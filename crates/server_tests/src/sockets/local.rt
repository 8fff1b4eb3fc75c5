//! What waits over loopback: a local program for a lock, a call for a peer that says nothing, a caller for the end of a grace
//! period that began anew.
use super::calls::LOCK_BY_FIRST;
use super::client::{dial, read, stop, write};
use super::servers::{Ports, loopback};
use super::talks::{CALLED, GRACE, REPLY, Response, answered, lock_both, lock_first};
use std::alloc::Global;
use std::io::{self, ErrorKind};
use std::net::{Net, TcpListener, TcpStream};
use std::time::Clock;
use test_kit::put_plain;

/// How often a line is sent until the grace period is over.
const TRIES: u32 = 900_000;

/// How often a call is sent to a peer that says nothing.
const SENDINGS: u32 = 3;

/// SM_SIMU_CRASH, behind its mark (XNFS, NSM).
const CRASH: &str = "80000028 7 0 2 186b8 1 5 0 0 0 0";

// Sends the line: whether this is its answer.
fn says<const N: usize>(local: &TcpStream, line: &[u8], answer: &[u8; N]) -> io::Result<bool> {
    write(local, line)?;
    Ok(read::<N>(local)? == *answer)
}

// Sends the line until it is answered `ok`: in the grace period it is `grace`.
fn locks(local: &TcpStream, line: &[u8]) -> io::Result<bool> {
    for _ in 0..TRIES {
        write(local, line)?;
        if read::<3>(local)? == *b"ok\n" {
            return Ok(true);
        }
        let _ = read::<3>(local)?;
    }
    Ok(false)
}

// A local program holds a lock, another waits, the first closes the file: the second is told of its lock on its own connection.
fn is_granted<R: Net<Stream = TcpStream> + Clock>(rt: &R, ports: Ports) -> io::Result<bool> {
    let holder = dial(rt, ports.local)?;
    let waiter = dial(rt, ports.local)?;
    let is_held = locks(&holder, b"setlk p1 aa w 0 1\n")?;
    let is_waiting = says(&waiter, b"setlkw d2 aa r 0 1\n", b"wait\n")?;
    let is_closed = says(&holder, b"close p1 aa\n", b"ok\n")?;
    let is_told = read::<20>(&waiter)? == *b"granted d2 aa r 0 1\n";
    Ok(is_held && is_waiting && is_closed && is_told)
}

/// A program has a lock of byte 0 of the file 0102, and another waits for it. The error: they were answered otherwise.
pub(crate) fn hold_and_wait(local: &TcpStream) -> io::Result<()> {
    if locks(local, b"setlk p1 0102 w 0 1\n")?
        && says(local, b"setlkw p2 0102 r 0 1\n", b"wait\n")?
    {
        return Ok(());
    }
    Err(io::Error::from(ErrorKind::InvalidData))
}

/// A local program waits for a lock. One answer, where it is told of it.
pub(crate) fn wait<R>(rt: &R, ports: Ports) -> io::Result<Response>
where
    R: Net<Stream = TcpStream> + Clock,
{
    let goes = is_granted(rt, ports)?;
    let is_stopped = stop(rt, ports.local)?;
    Ok(Response::of(u32::from(goes && is_stopped)))
}

// Whether as many connections to the peer bring the same call, each for itself: none is answered, so that each is closed.
fn are_same(listener: &TcpListener) -> io::Result<bool> {
    let (peer, _) = listener.accept()?;
    let first = read::<CALLED>(&peer)?;
    for _ in 1..SENDINGS {
        let (again, _) = listener.accept()?;
        if read::<CALLED>(&again)? != first {
            return Ok(false);
        }
    }
    Ok(true)
}

/// A GRANTED is sent three times to a peer that says nothing, each over a connection of its own. The lock stays: the statuses of the
/// calls, of which the last asks for it.
pub(crate) fn stay_mute<R>(rt: &R, alloc: Global, ports: Ports) -> io::Result<Response>
where
    R: Net<Listener = TcpListener, Stream = TcpStream> + Clock,
{
    let listener = TcpListener::bind(rt, loopback(ports.peer))?;
    let connection = dial(rt, ports.rpc)?;
    let [held, waits, freed] = lock_both(rt, alloc, &connection)?;
    let goes = are_same(&listener)?;
    let again = answered(&connection, alloc, 2_000, &LOCK_BY_FIRST)?;
    let is_stopped = stop(rt, ports.local)?;
    Ok(Response {
        answered: u32::from(goes && is_stopped),
        statuses: [held, waits, freed, again],
        procedure: 5,
    })
}

/// The server restarts by SM_SIMU_CRASH: its grace period begins, and ends once more. The statuses of the locks that are granted then.
pub(crate) fn begin_anew<R>(rt: &R, alloc: Global, ports: Ports) -> io::Result<Response>
where
    R: Net<Stream = TcpStream> + Clock,
{
    let connection = dial(rt, ports.rpc)?;
    let held = lock_first(rt, alloc, &connection, 100, GRACE)?;
    let mut crash = Vec::new(alloc);
    let is_put = put_plain(&mut crash, CRASH);
    write(&connection, &crash)?;
    let _ = read::<REPLY>(&connection)?;
    let again = lock_first(rt, alloc, &connection, 1_000, GRACE)?;
    let is_stopped = stop(rt, ports.local)?;
    Ok(Response {
        answered: u32::from(is_put && is_stopped),
        statuses: [held, again, 0, 0],
        procedure: 0,
    })
}
