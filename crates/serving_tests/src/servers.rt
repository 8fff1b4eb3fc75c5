//! `lockd serve` over loopback.
use crate::files::Scratch;
use crate::runs::status;
use server::Runtime;
use std::alloc::{AllocError, Global};
use std::io::{self, ErrorKind, Read, Write};
use std::net::{Ipv4Addr, Net, SocketAddr, SocketAddrV4, TcpListener, TcpStream};
use std::process::ExitCode;
use std::time::{Clock, Duration};
use std::{fs, thread};

/// How often a connection is tried for, a hundredth of a second apart.
const TRIES: u32 = 1_000;

/// NULL of the lock manager's version 4 behind its mark, and its reply (RFC 5531, section 9).
const NULL: [u32; 11] = [0x8000_0028, 1, 0, 2, 100_021, 4, 0, 0, 0, 0, 0];

const NULL_REPLY: [u32; 7] = [0x8000_0018, 1, 1, 0, 0, 0, 0];

/// A file of peers that names none.
const NO_PEERS: &str = "/dev/null";

pub(crate) fn loopback(port: u16) -> SocketAddr {
    SocketAddr::V4(SocketAddrV4::new(Ipv4Addr::LOCALHOST, port))
}

/// A port that nobody listens on.
pub(crate) fn free_port<R>(rt: &R) -> io::Result<u16>
where
    R: Net<Listener = TcpListener, Stream = TcpStream>,
{
    Ok(TcpListener::bind(rt, loopback(0))?.local_addr()?.port())
}

// A connection to this port, once somebody listens there.
pub(crate) fn dial<R>(rt: &R, port: u16) -> io::Result<TcpStream>
where
    R: Net<Stream = TcpStream> + Clock,
{
    for _ in 0..TRIES {
        if let Ok(stream) = TcpStream::connect(rt, loopback(port)) {
            return Ok(stream);
        }
        thread::sleep(rt, Duration::from_millis(10));
    }
    Err(io::Error::from(ErrorKind::TimedOut))
}

fn write_words(mut to: &TcpStream, words: &[u32]) -> io::Result<()> {
    for word in words {
        to.write_all(word.to_be_bytes().as_slice())?;
    }
    Ok(())
}

// Whether these words come next.
fn reads_words(mut from: &TcpStream, words: &[u32]) -> io::Result<bool> {
    for word in words {
        let mut room = [0u8; 4];
        from.read_exact(&mut room)?;
        if room != word.to_be_bytes() {
            return Ok(false);
        }
    }
    Ok(true)
}

pub(crate) fn is_told_to_stop(mut local: &TcpStream) -> io::Result<bool> {
    local.write_all(b"stop\n")?;
    let mut room = [0u8; 3];
    local.read_exact(&mut room)?;
    Ok(room == *b"ok\n")
}

// Whether a call on this connection is answered.
fn is_answered(caller: &TcpStream) -> io::Result<bool> {
    write_words(caller, NULL.as_slice())?;
    reads_words(caller, NULL_REPLY.as_slice())
}

// Whether the server closes the connection, and sends nothing more.
fn is_closed(mut from: &TcpStream) -> io::Result<bool> {
    let mut room = [0u8; 1];
    Ok(from.read(&mut room)? == 0)
}

/// What is said to a server before it is told to stop.
#[derive(Clone, Copy)]
pub(crate) enum Talk {
    // A call.
    Call,
    // So many connections are open at once, and the last one has a call answered.
    Open(u32),
    // Two connections are open. A third from their address is closed, until one of them ends.
    Third,
}

// Whether the call of the last connection is answered while all others are open.
fn open_all<R>(rt: &R, alloc: Global, rpc: u16, count: u32) -> io::Result<bool>
where
    R: Net<Stream = TcpStream> + Clock,
{
    let mut others = Vec::new(alloc);
    for _ in 1..count {
        let other = dial(rt, rpc)?;
        let is_taken = is_answered(&other)?;
        others.push(other)?;
        if !is_taken {
            return Ok(false);
        }
    }
    is_answered(&dial(rt, rpc)?)
}

// Whether a further connection has a call answered after a while: the place of one that ends is free a moment later.
fn is_taken_in<R>(rt: &R, rpc: u16) -> io::Result<bool>
where
    R: Net<Stream = TcpStream> + Clock,
{
    for _ in 0..TRIES {
        if let Ok(true) = is_answered(&dial(rt, rpc)?) {
            return Ok(true);
        }
        thread::sleep(rt, Duration::from_millis(10));
    }
    Ok(false)
}

// Whether a third connection from one address is closed, and one more is taken in once the first has ended.
fn try_third<R>(rt: &R, rpc: u16) -> io::Result<bool>
where
    R: Net<Stream = TcpStream> + Clock,
{
    let first = dial(rt, rpc)?;
    let second = dial(rt, rpc)?;
    let are_taken = is_answered(&first)? && is_answered(&second)?;
    let is_turned_away = is_closed(&dial(rt, rpc)?)?;
    drop(first);
    let is_counted_again = is_taken_in(rt, rpc)?;
    Ok(is_counted_again && is_turned_away && are_taken && is_answered(&second)?)
}

// Says this, and tells the server to stop: whether it answers both.
fn told<R>(rt: &R, alloc: Global, rpc: u16, local: u16, talk: Talk) -> io::Result<bool>
where
    R: Net<Stream = TcpStream> + Clock,
{
    let goes = match talk {
        Talk::Call => is_answered(&dial(rt, rpc)?)?,
        Talk::Open(count) => open_all(rt, alloc, rpc, count)?,
        Talk::Third => try_third(rt, rpc)?,
    };
    let local = dial(rt, local)?;
    Ok(is_told_to_stop(&local)? && goes)
}

// What a server stands on: two files, and its ports.
#[derive(Clone, Copy)]
pub(crate) struct Ground<'a> {
    pub(crate) hosts: &'a str,
    pub(crate) peers: &'a str,
    pub(crate) rpc: u16,
    pub(crate) local: u16,
    // The port of its peers' lock managers and status monitors.
    pub(crate) peer: u16,
}

// Words of a server on these, and these words more.
pub(crate) fn words_of(
    alloc: Global,
    ground: Ground<'_>,
    more: &str,
) -> Result<String, AllocError> {
    let Ground {
        hosts,
        peers,
        rpc,
        local,
        peer,
    } = ground;
    format!(in alloc;
        "serve --db {hosts} --port {rpc} --local-port {local} --bind 127.0.0.1 --peers {peers} --peer-nlm-port {peer} --peer-nsm-port {peer} --watch-port 1 {more}"
    )
}

// The status of a server with these words on this ground, and whether it answered who talked to it.
fn served<R: Runtime>(
    host: &HostRuntime,
    rt: &R,
    asked: &str,
    ground: Ground<'_>,
    talk: Talk,
) -> (Option<ExitCode>, bool) {
    let Ground { rpc, local, .. } = ground;
    let alloc = host.alloc();
    let (status, talked) = thread::join(
        rt,
        move || status(host, rt, asked, &[], &mut Vec::new(alloc)),
        move || told(rt, alloc, rpc, local, talk),
    );
    (status, matches!(talked, Ok(true)))
}

/// Whether a server with these words more answers what is said to it, and ends with status 0 once it is told to stop.
pub(crate) fn serves<R: Runtime>(
    host: &HostRuntime,
    rt: &R,
    more: &str,
    talk: Talk,
) -> Option<bool> {
    let rpc = free_port(rt).ok()?;
    let local = free_port(rt).ok()?;
    let scratch = Scratch::new(host.alloc(), rpc).ok()?;
    let ground = Ground {
        hosts: scratch.path.as_str(),
        peers: NO_PEERS,
        rpc,
        local,
        peer: 1,
    };
    let asked = words_of(host.alloc(), ground, more).ok()?;
    let (status, is_answered) = served(host, rt, asked.as_str(), ground, talk);
    scratch.remove(host);
    Some(is_answered && status == Some(ExitCode::SUCCESS))
}

// The status of a server on these.
fn status_on<R: Runtime>(host: &HostRuntime, rt: &R, ground: Ground<'_>) -> Option<ExitCode> {
    let asked = words_of(host.alloc(), ground, "").ok()?;
    status(host, rt, asked.as_str(), &[], &mut Vec::new(host.alloc()))
}

/// Whether a server over this file of hosts ends with status 1.
pub(crate) fn is_unstarted<R: Runtime>(host: &HostRuntime, rt: &R, hosts: &str) -> Option<bool> {
    let ground = Ground {
        hosts,
        peers: NO_PEERS,
        rpc: free_port(rt).ok()?,
        local: free_port(rt).ok()?,
        peer: 1,
    };
    let status = status_on(host, rt, ground)?;
    Some(status == ExitCode::FAILURE)
}

/// Whether a server whose file of peers has just this text ends with status 1.
pub(crate) fn misnames_a_peer<R: Runtime>(host: &HostRuntime, rt: &R, text: &str) -> Option<bool> {
    let rpc = free_port(rt).ok()?;
    let scratch = Scratch::new(host.alloc(), rpc).ok()?;
    let peers = Scratch::new(host.alloc(), free_port(rt).ok()?).ok()?;
    let is_written = fs::write(host, peers.path.as_str(), text).is_ok();
    let ground = Ground {
        hosts: scratch.path.as_str(),
        peers: peers.path.as_str(),
        rpc,
        local: free_port(rt).ok()?,
        peer: 1,
    };
    let status = status_on(host, rt, ground);
    scratch.remove(host);
    peers.remove(host);
    Some(is_written && status == Some(ExitCode::FAILURE))
}

/// Whether a server ends with status 1 whose listeners are both to have one port.
pub(crate) fn shares_a_port<R: Runtime>(host: &HostRuntime, rt: &R) -> Option<bool> {
    let port = free_port(rt).ok()?;
    let scratch = Scratch::new(host.alloc(), port).ok()?;
    let ground = Ground {
        hosts: scratch.path.as_str(),
        peers: NO_PEERS,
        rpc: port,
        local: port,
        peer: 1,
    };
    let status = status_on(host, rt, ground);
    scratch.remove(host);
    Some(status == Some(ExitCode::FAILURE))
}
