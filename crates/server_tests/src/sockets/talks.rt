//! What is said to a server.
use super::calls::{
    Call, DENIED, LOCK_BY_FIRST, LOCK_BY_SECOND, NO_REPLY, NULL, UNLOCK_BY_FIRST, put_call,
};
use super::client::{answer, ask, dial, is_closed, read, stop, write};
use super::datagrams::send_datagrams;
use super::local::{begin_anew, stay_mute, wait};
use super::mapped::{Mapper, be_mapped};
use super::pages::{PageTalk, ask_pages};
use super::registered::be_registered;
use super::servers::{Ports, loopback};
use crate::hall::Hall;
use server::Registration;
use std::alloc::Global;
use std::net::{Net, SocketAddr, TcpListener, TcpStream};
use std::time::{Clock, Duration};
use std::{io, thread};

/// The bytes of a reply to NULL, with its mark.
pub(crate) const REPLY: usize = 28;

/// The bytes of a reply to LOCK and to UNLOCK with a cookie of one byte, with its mark.
const LOCK_REPLY: usize = 40;

/// The bytes of a call of the server's own up to its procedure, with its mark.
pub(crate) const CALLED: usize = 28;

/// The status of a lock that waits.
const BLOCKED: u8 = 3;

/// The status of a call that comes in the grace period.
pub(crate) const GRACE: u8 = 4;

/// How many connections for calls there may be.
const PLACES: u32 = 256;

/// How often a lock is asked for until it is told otherwise.
const TRIES: u32 = 900;

/// A talk, which is to stop the server.
#[derive(Clone, Copy)]
pub(crate) enum Talk {
    // Fifteen connections ask, and once their calls are held the sixteenth.
    Sixteen,
    // One connection asks as often as this in one write.
    AtOnce(u32),
    // As many connections as there are places ask, and one more comes.
    Full,
    // One owner locks, another waits, the first unlocks: the second is granted.
    Granting,
    // Then its peer sends what is no reply, and denies the grant: the first has the lock again.
    Denying,
    // Its peer says nothing.
    Mute,
    // A local program waits for the lock of another.
    Waiting,
    // The server restarts, and its grace period ends once more.
    Anew,
    // The second owner is granted, whose peer has such a port mapper.
    Mapped(Mapper),
    // The server is registered, with a port for datagrams or without.
    Registered(bool),
    // Calls come by datagram.
    Datagrams,
    // Operators ask for pages.
    Pages(PageTalk),
}

/// How many calls were answered, and of a grant the statuses of the replies, 0 where there were fewer, and the procedure of the
/// call that came.
#[derive(Clone, Copy, PartialEq, Eq)]
pub(crate) struct Response {
    pub(crate) answered: u32,
    pub(crate) statuses: [u8; 4],
    pub(crate) procedure: u8,
}

impl Response {
    /// So many answers, and no grant.
    pub(crate) fn of(answered: u32) -> Response {
        Response {
            answered,
            statuses: [0; 4],
            procedure: 0,
        }
    }
}

// Whether this is the reply to the NULL of this xid.
fn answers(reply: [u8; REPLY], xid: u32) -> bool {
    reply.get(4..8) == Some(xid.to_be_bytes().as_slice())
}

// Fifteen connections ask, and once their calls are held the sixteenth. All that have asked are in the list.
fn ask_each<R>(
    rt: &R,
    alloc: Global,
    port: u16,
    hall: &Hall<'_, R>,
    asked: &mut Vec<(u32, TcpStream)>,
) -> io::Result<()>
where
    R: Net<Stream = TcpStream> + Clock,
{
    for xid in 1..16 {
        let connection = dial(rt, port)?;
        ask(&connection, alloc, xid, &NULL)?;
        asked.push((xid, connection))?;
    }
    let last = dial(rt, port)?;
    if hall.waits(15) {
        ask(&last, alloc, 16, &NULL)?;
        asked.push((16, last))?;
    }
    Ok(())
}

fn count_answers(asked: &[(u32, TcpStream)]) -> io::Result<u32> {
    let mut count = 0u32;
    for (xid, connection) in asked {
        if answers(read::<REPLY>(connection)?, *xid) {
            count = count.wrapping_add(1);
        }
    }
    Ok(count)
}

// How many of sixteen connections are answered.
fn ask_sixteen<R>(rt: &R, alloc: Global, ports: Ports, hall: &Hall<'_, R>) -> io::Result<Response>
where
    R: Net<Stream = TcpStream> + Clock,
{
    let mut asked = Vec::new(alloc);
    ask_each(rt, alloc, ports.rpc, hall, &mut asked)?;
    let count = count_answers(&asked)?;
    let is_stopped = stop(rt, ports.local)?;
    Ok(Response::of(if is_stopped { count } else { 0 }))
}

// As many connections as there are places ask. All that have asked are in the list.
fn ask_at_each<R>(
    rt: &R,
    alloc: Global,
    port: u16,
    asked: &mut Vec<(u32, TcpStream)>,
) -> io::Result<()>
where
    R: Net<Stream = TcpStream> + Clock,
{
    for xid in 0..PLACES {
        let connection = dial(rt, port)?;
        ask(&connection, alloc, xid, &NULL)?;
        asked.push((xid, connection))?;
    }
    Ok(())
}

// Each place is taken and answered, and one more is closed. How many were answered.
fn fill<R>(rt: &R, alloc: Global, ports: Ports) -> io::Result<Response>
where
    R: Net<Stream = TcpStream> + Clock,
{
    let mut asked = Vec::new(alloc);
    ask_at_each(rt, alloc, ports.rpc, &mut asked)?;
    let count = count_answers(&asked)?;
    let is_turned_away = is_closed(&dial(rt, ports.rpc)?)?;
    let is_stopped = stop(rt, ports.local)?;
    let goes = is_turned_away && is_stopped;
    Ok(Response::of(if goes { count } else { 0 }))
}

// Sends so many calls in one write.
fn write_calls(connection: &TcpStream, alloc: Global, calls: u32) -> io::Result<()> {
    let mut all = Vec::new(alloc);
    for xid in 0..calls {
        put_call(&mut all, xid, &NULL)?;
    }
    write(connection, &all)
}

// One connection asks as often as this in one write. How many are answered.
fn ask_at_once<R>(rt: &R, alloc: Global, ports: Ports, calls: u32) -> io::Result<Response>
where
    R: Net<Stream = TcpStream> + Clock,
{
    let connection = dial(rt, ports.rpc)?;
    write_calls(&connection, alloc, calls)?;
    count_replies(rt, ports, &connection, calls)
}

// Reads so many replies, and has the server stop. How many came.
fn count_replies<R>(
    rt: &R,
    ports: Ports,
    connection: &TcpStream,
    calls: u32,
) -> io::Result<Response>
where
    R: Net<Stream = TcpStream> + Clock,
{
    let mut count = 0u32;
    for _ in 0..calls {
        let _ = read::<REPLY>(connection)?;
        count = count.wrapping_add(1);
    }
    let is_stopped = stop(rt, ports.local)?;
    Ok(Response::of(if is_stopped { count } else { 0 }))
}

// Sends the call: the status that ends its reply.
pub(crate) fn answered(
    connection: &TcpStream,
    alloc: Global,
    xid: u32,
    call: &Call,
) -> io::Result<u8> {
    ask(connection, alloc, xid, call)?;
    let reply = read::<LOCK_REPLY>(connection)?;
    Ok(reply[LOCK_REPLY - 1])
}

// Asks for the first owner's lock, under the xids from this one on, until the status is another one than this.
pub(crate) fn lock_first<R: Clock>(
    rt: &R,
    alloc: Global,
    connection: &TcpStream,
    from: u32,
    passed: u8,
) -> io::Result<u8> {
    for xid in from..from.saturating_add(TRIES) {
        let told = answered(connection, alloc, xid, &LOCK_BY_FIRST)?;
        if told != passed {
            return Ok(told);
        }
        thread::sleep(rt, Duration::from_millis(10));
    }
    Ok(passed)
}

// One owner locks, another waits, the first unlocks.
pub(crate) fn lock_both<R: Clock>(
    rt: &R,
    alloc: Global,
    connection: &TcpStream,
) -> io::Result<[u8; 3]> {
    let held = lock_first(rt, alloc, connection, 100, GRACE)?;
    let waits = answered(connection, alloc, 2, &LOCK_BY_SECOND)?;
    let freed = answered(connection, alloc, 3, &UNLOCK_BY_FIRST)?;
    Ok([held, waits, freed])
}

// The peer sends what is no reply to its call, and then denies the grant. The status of the first owner's lock, once it doesn't
// wait.
fn deny<R: Clock>(
    rt: &R,
    alloc: Global,
    connection: &TcpStream,
    peer: &TcpStream,
    call: &[u8; CALLED],
) -> io::Result<u8> {
    answer(peer, alloc, call, &NO_REPLY)?;
    answer(peer, alloc, call, &DENIED)?;
    lock_first(rt, alloc, connection, 1_000, BLOCKED)
}

// The second owner is granted, and its peer may deny it.
fn grant<R>(rt: &R, alloc: Global, ports: Ports, is_denied: bool) -> io::Result<Response>
where
    R: Net<Listener = TcpListener, Stream = TcpStream> + Clock,
{
    let listener = TcpListener::bind(rt, loopback(ports.peer))?;
    let connection = dial(rt, ports.rpc)?;
    let [held, waits, freed] = lock_both(rt, alloc, &connection)?;
    let (peer, _) = listener.accept()?;
    // Its mark, and its words up to the procedure.
    let call = read::<CALLED>(&peer)?;
    let again = if is_denied {
        deny(rt, alloc, &connection, &peer, &call)?
    } else {
        0
    };
    let _ = stop(rt, ports.local)?;
    Ok(Response {
        answered: 3,
        statuses: [held, waits, freed, again],
        procedure: call[27],
    })
}

impl Talk {
    pub(crate) fn told<R>(
        self,
        rt: &R,
        alloc: Global,
        ports: Ports,
        hall: &Hall<'_, R>,
    ) -> io::Result<Response>
    where
        R: Net<Listener = TcpListener, Stream = TcpStream> + Clock,
    {
        match self {
            Talk::Sixteen => ask_sixteen(rt, alloc, ports, hall),
            Talk::AtOnce(calls) => ask_at_once(rt, alloc, ports, calls),
            Talk::Full => fill(rt, alloc, ports),
            Talk::Granting => grant(rt, alloc, ports, false),
            Talk::Denying => grant(rt, alloc, ports, true),
            Talk::Mute => stay_mute(rt, alloc, ports),
            Talk::Waiting => wait(rt, ports),
            Talk::Anew => begin_anew(rt, alloc, ports),
            Talk::Mapped(mapper) => be_mapped(rt, alloc, ports, mapper),
            Talk::Registered(by_datagram) => be_registered(rt, alloc, ports, by_datagram),
            Talk::Datagrams => send_datagrams(rt, alloc, ports),
            Talk::Pages(talk) => ask_pages(rt, alloc, ports, talk),
        }
    }

    /// How long the server waits for an answer: not long where none comes.
    pub(crate) fn silence(self) -> Duration {
        match self {
            Talk::Mute => Duration::from_millis(100),
            Talk::Mapped(mapper) => mapper.silence(),
            _ => Duration::from_secs(5),
        }
    }

    /// What the server registers, and where.
    pub(crate) fn registration(self, ports: Ports) -> Option<Registration> {
        match self {
            Talk::Registered(by_datagram) => Some(Registration {
                port: ports.rpc,
                notify_port: if by_datagram { Some(ports.named) } else { None },
                mapper: ports.mapper,
                pause: Duration::from_millis(50),
            }),
            _ => None,
        }
    }

    /// Where calls come by datagram, if they do.
    pub(crate) fn notify(self, ports: Ports) -> Option<SocketAddr> {
        match self {
            Talk::Datagrams => Some(loopback(ports.named)),
            _ => None,
        }
    }

    /// The port at which operators ask for pages.
    pub(crate) fn status_port(self, ports: Ports) -> Option<u16> {
        match self {
            Talk::Pages(_) => Some(ports.status),
            _ => None,
        }
    }

    /// Whether the server asks port mappers.
    pub(crate) fn asks(self) -> bool {
        matches!(self, Talk::Mapped(_))
    }
}
