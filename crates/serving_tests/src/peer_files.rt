//! The file of peers, changed while a server runs.
use crate::files::Scratch;
use crate::runs::status;
use crate::servers::{Ground, dial, free_port, is_told_to_stop, loopback, words_of};
use server::Runtime;
use std::alloc::Global;
use std::io::{self, ErrorKind, Read, Write};
use std::net::{IpAddr, Ipv4Addr, Net, SocketAddr, TcpListener, TcpStream};
use std::process::ExitCode;
use std::time::{Clock, Duration};
use std::{fs, thread};
use test_kit::put_plain;

/// LOCK with `block` of one byte of the file 01020304, by a process of host `client`, up to the byte's place, and behind it (RFC 1813,
/// appendix II).
const LOCK: &str =
    "80000070 2 0 2 186b5 4 2 0 0 0 0 1 1000000 1 1 6 636c6965 6e740000 4 1020304 1 41000000 7 0";

const LOCK_END: &str = "0 1 0 0";

/// The bytes of its reply, which ends with the status; that of a lock that waits.
const LOCK_REPLY: usize = 40;

const BLOCKED: u8 = 3;

/// How long a change of the file may take to be seen: it is looked at once a second.
const CHANGE_MILLIS: u64 = 2_200;

/// How often is tried what takes a while, a hundredth of a second apart.
const TRIES: u32 = 1_000;

/// Whoever changes the file, and meets the server.
#[derive(Drop)]
struct Changer<'a, R> {
    host: &'a HostRuntime,
    rt: &'a R,
    ground: Ground<'a>,
}

/// The connection that comes to this listener.
pub(crate) fn accepted<R: Clock>(rt: &R, listener: &TcpListener) -> io::Result<TcpStream> {
    listener.set_nonblocking(true)?;
    for _ in 0..TRIES {
        if let Ok((stream, _)) = listener.accept() {
            stream.set_nonblocking(false)?;
            stream.set_read_timeout(Some(Duration::from_secs(20)))?;
            return Ok(stream);
        }
        thread::sleep(rt, Duration::from_millis(10));
    }
    Err(io::Error::from(ErrorKind::TimedOut))
}

/// The procedure of the next call that comes over this connection (RFC 5531, section 9).
pub(crate) fn called(mut from: &TcpStream, alloc: Global) -> io::Result<u8> {
    let mut mark = [0u8; 4];
    from.read_exact(&mut mark)?;
    let len = (u32::from_be_bytes(mark) & 0xffff) as usize;
    let mut record = vec![in alloc; 0u8; len]?;
    from.read_exact(&mut record)?;
    record
        .get(23)
        .copied()
        .ok_or(io::Error::from(ErrorKind::InvalidData))
}

/// Sends the line until `ok` is its answer: in the grace period it is another.
pub(crate) fn says<R: Clock>(rt: &R, mut local: &TcpStream, line: &str) -> io::Result<bool> {
    for _ in 0..TRIES {
        local.write_all(line.as_bytes())?;
        let mut room = [0u8; 3];
        local.read_exact(&mut room)?;
        if room == *b"ok\n" {
            return Ok(true);
        }
        // The rest of `grace`.
        local.read_exact(&mut room)?;
        thread::sleep(rt, Duration::from_millis(10));
    }
    Ok(false)
}

/// Whether the lock of this byte waits.
pub(crate) fn waits(mut caller: &TcpStream, alloc: Global, byte: u32) -> io::Result<bool> {
    let mut record = Vec::new(alloc);
    let is_put = put_plain(&mut record, LOCK)
        && record
            .extend_from_slice(byte.to_be_bytes().as_slice())
            .is_ok()
        && put_plain(&mut record, LOCK_END);
    caller.write_all(&record)?;
    let mut reply = [0u8; LOCK_REPLY];
    caller.read_exact(&mut reply)?;
    Ok(is_put && reply[LOCK_REPLY - 1] == BLOCKED)
}

impl<'a, R> Changer<'a, R>
where
    R: Net<Listener = TcpListener, Stream = TcpStream> + Clock,
{
    // The file has this text, or is gone. The server sees that.
    fn change(&self, text: Option<&str>) -> io::Result<()> {
        let path = self.ground.peers;
        match text {
            Some(text) => fs::write(self.host, path, text)?,
            None => fs::remove_file(self.host, path)?,
        }
        thread::sleep(self.rt, Duration::from_millis(CHANGE_MILLIS));
        Ok(())
    }

    // A client waits for this byte, which a local program frees: its GRANTED is called.
    fn grant(&self, byte: u32) -> io::Result<bool> {
        let alloc = self.host.alloc();
        let local = dial(self.rt, self.ground.local)?;
        let caller = dial(self.rt, self.ground.rpc)?;
        let held = format!(in alloc; "setlk p1 01020304 w {byte} 1\n")?;
        let freed = format!(in alloc; "setlk p1 01020304 u {byte} 1\n")?;
        Ok(
            says(self.rt, &local, held.as_str())?
                && waits(&caller, alloc, byte)?
                && says(self.rt, &local, freed.as_str())?,
        )
    }

    // A bad file, and one that is gone, leave the peers as they were: calls go on over the connection that there is.
    fn stays(&self, peer: &TcpStream) -> io::Result<bool> {
        let alloc = self.host.alloc();
        self.change(Some("client 127.0.0.2\nclient\n"))?;
        let by_bad = self.grant(2)? && called(peer, alloc)? == 5;
        self.change(None)?;
        Ok(by_bad && self.grant(3)? && called(peer, alloc)? == 5)
    }

    // Whether the server calls the client where the file has it: nowhere at first, here, and then elsewhere.
    fn goes(&self) -> io::Result<bool> {
        let alloc = self.host.alloc();
        let here = TcpListener::bind(self.rt, loopback(self.ground.peer))?;
        // Another address of this machine.
        let other = IpAddr::V4(Ipv4Addr::new(127, 0, 0, 2));
        let at = SocketAddr::new(other, self.ground.peer);
        let elsewhere = TcpListener::bind(self.rt, at)?;
        self.change(Some("client 127.0.0.1\n"))?;
        let is_granted = self.grant(1)?;
        let peer = accepted(self.rt, &here)?;
        let goes = is_granted && called(&peer, alloc)? == 5 && self.stays(&peer)?;
        self.change(Some("client 127.0.0.2\n"))?;
        let is_moved = self.grant(4)?;
        Ok(goes && is_moved && called(&accepted(self.rt, &elsewhere)?, alloc)? == 5)
    }

    fn told(&self) -> io::Result<bool> {
        let goes = self.goes();
        let is_stopped = is_told_to_stop(&dial(self.rt, self.ground.local)?)?;
        Ok(goes? && is_stopped)
    }
}

// The same beside a server on this ground.
fn served<R: Runtime>(host: &HostRuntime, rt: &R, ground: Ground<'_>) -> Option<bool> {
    let alloc = host.alloc();
    let more = "--grace-seconds 1 --silence-seconds 60";
    let asked = words_of(alloc, ground, more).ok()?;
    let asked = asked.as_str();
    let (status, told) = thread::join(
        rt,
        move || status(host, rt, asked, &[], &mut Vec::new(alloc)),
        move || Changer { host, rt, ground }.told(),
    );
    Some(status == Some(ExitCode::SUCCESS) && matches!(told, Ok(true)))
}

/// Whether a server follows its file of peers: a good one that replaces the first, a bad one, none, and a good one again.
pub(crate) fn follows_its_file<R: Runtime>(host: &HostRuntime, rt: &R) -> Option<bool> {
    let rpc = free_port(rt).ok()?;
    let hosts = Scratch::new(host.alloc(), rpc).ok()?;
    let peers = Scratch::new(host.alloc(), free_port(rt).ok()?).ok()?;
    fs::write(host, peers.path.as_str(), "other 192.0.2.1\n").ok()?;
    let ground = Ground {
        hosts: hosts.path.as_str(),
        peers: peers.path.as_str(),
        rpc,
        local: free_port(rt).ok()?,
        peer: free_port(rt).ok()?,
    };
    let goes = served(host, rt, ground);
    hosts.remove(host);
    peers.remove(host);
    goes
}
