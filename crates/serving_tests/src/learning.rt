//! Hosts that no file names: they are called where their lock calls come from, and the state of these tells of a reboot.
use crate::files::Scratch;
use crate::peer_files::{accepted, called, says, waits};
use crate::runs::status;
use crate::servers::{Ground, dial, free_port, is_told_to_stop, loopback, words_of};
use server::Runtime;
use std::alloc::Global;
use std::io::{self, Read, Write};
use std::net::{Net, TcpListener, TcpStream};
use std::process::ExitCode;
use std::thread;
use std::time::Clock;
use test_kit::put_plain;

/// The procedures of GRANTED (RFC 1813, appendix II) and SM_NOTIFY (XNFS).
const GRANTED: u8 = 5;

const NOTIFY: u8 = 6;

/// What a server learns, and how it is seen.
#[derive(Clone, Copy)]
enum Learning {
    // A host that waits is called where it came from.
    Waiter,
    // The host of before is notified there.
    Restart,
    // The locks of a boot go at the first LOCK of the next, and stay when its notice comes.
    Reboot,
}

/// The longest answer to `getlk` of these tests.
const MOST_LINE_BYTES: u32 = 200;

/// LOCK of one byte of the file 01020304 by a process of host `client`: up to the byte's place, behind it, and the state last
/// (RFC 1813, appendix II).
const LOCK: &str =
    "80000070 2 0 2 186b5 4 2 0 0 0 0 1 1000000 0 1 6 636c6965 6e740000 4 1020304 1 41000000 7 0";

const LOCK_END: &str = "0 1 0";

/// The bytes of its reply, which ends with the status.
const LOCK_REPLY: usize = 40;

/// SM_NOTIFY of host `client` up to its state, and the bytes of its reply (XNFS).
const NOTICE: &str = "80000038 3 0 2 186b8 1 6 0 0 0 0 6 636c6965 6e740000";

const NOTICE_REPLY: usize = 28;

// Whether the host has the lock of this byte, which it asks for in this state.
fn locks(mut caller: &TcpStream, alloc: Global, byte: u32, state: u32) -> io::Result<bool> {
    let mut record = Vec::new(alloc);
    let is_put = put_plain(&mut record, LOCK)
        && record
            .extend_from_slice(byte.to_be_bytes().as_slice())
            .is_ok()
        && put_plain(&mut record, LOCK_END)
        && record
            .extend_from_slice(state.to_be_bytes().as_slice())
            .is_ok();
    caller.write_all(&record)?;
    let mut reply = [0u8; LOCK_REPLY];
    caller.read_exact(&mut reply)?;
    Ok(is_put && reply[LOCK_REPLY - 1] == 0)
}

// The host tells of its reboot by this state.
fn tell_reboot(mut caller: &TcpStream, alloc: Global, state: u32) -> io::Result<bool> {
    let mut record = Vec::new(alloc);
    let is_put = put_plain(&mut record, NOTICE)
        && record
            .extend_from_slice(state.to_be_bytes().as_slice())
            .is_ok();
    caller.write_all(&record)?;
    let mut reply = [0u8; NOTICE_REPLY];
    caller.read_exact(&mut reply)?;
    Ok(is_put)
}

// Whether nobody has a lock of this byte.
fn is_free(mut local: &TcpStream, alloc: Global, byte: u32) -> io::Result<bool> {
    let line = format!(in alloc; "getlk p1 01020304 w {byte} 1\n")?;
    local.write_all(line.as_bytes())?;
    let mut room = [0u8; 1];
    local.read_exact(&mut room)?;
    let is_free = room == *b"f";
    for _ in 0..MOST_LINE_BYTES {
        if room == *b"\n" {
            break;
        }
        local.read_exact(&mut room)?;
    }
    Ok(is_free)
}

// A waiter's GRANTED comes to where its LOCK came from.
fn is_granted<R>(rt: &R, alloc: Global, ground: Ground<'_>, local: &TcpStream) -> io::Result<bool>
where
    R: Net<Listener = TcpListener, Stream = TcpStream> + Clock,
{
    let here = TcpListener::bind(rt, loopback(ground.peer))?;
    let caller = dial(rt, ground.rpc)?;
    let is_waiting = says(rt, local, "setlk p1 01020304 w 1 1\n")? && waits(&caller, alloc, 1)?;
    let is_freed = says(rt, local, "setlk p1 01020304 u 1 1\n")?;
    Ok(is_waiting && is_freed && called(&accepted(rt, &here)?, alloc)? == GRANTED)
}

// The notice of a restart comes there.
fn is_notified<R>(rt: &R, alloc: Global, ground: Ground<'_>) -> io::Result<bool>
where
    R: Net<Listener = TcpListener, Stream = TcpStream> + Clock,
{
    let here = TcpListener::bind(rt, loopback(ground.peer))?;
    Ok(called(&accepted(rt, &here)?, alloc)? == NOTIFY)
}

// The first LOCK of a boot frees what the last boot held, and the notice behind it frees nothing. The next notice is of another boot.
fn reboots<R>(rt: &R, alloc: Global, ground: Ground<'_>, local: &TcpStream) -> io::Result<bool>
where
    R: Net<Listener = TcpListener, Stream = TcpStream> + Clock,
{
    // The grace period is over once this is answered.
    let is_over = says(rt, local, "setlk p1 01020304 w 9 1\n")?;
    let caller = dial(rt, ground.rpc)?;
    let first = locks(&caller, alloc, 1, 9)? && locks(&caller, alloc, 2, 9)?;
    let kept = !is_free(local, alloc, 1)?;
    let second = locks(&caller, alloc, 2, 11)?;
    let dropped = is_free(local, alloc, 1)?;
    let late = tell_reboot(&caller, alloc, 13)? && tell_reboot(&caller, alloc, 13)?;
    let stays = !is_free(local, alloc, 2)?;
    let next = tell_reboot(&caller, alloc, 15)? && is_free(local, alloc, 2)?;
    let told = locks(&caller, alloc, 3, 15)? && locks(&caller, alloc, 4, 15)?;
    Ok(is_over && first && kept && second && dropped && late && stays && next && told)
}

// Meets a server, and tells it to stop.
fn met<R>(rt: &R, alloc: Global, ground: Ground<'_>, learning: Learning) -> io::Result<bool>
where
    R: Net<Listener = TcpListener, Stream = TcpStream> + Clock,
{
    let local = dial(rt, ground.local)?;
    let goes = match learning {
        Learning::Waiter => is_granted(rt, alloc, ground, &local),
        Learning::Restart => is_notified(rt, alloc, ground),
        Learning::Reboot => reboots(rt, alloc, ground, &local),
    };
    let is_stopped = is_told_to_stop(&local)?;
    Ok(goes? && is_stopped)
}

// The same beside a server with these words more.
fn served<R: Runtime>(
    host: &HostRuntime,
    rt: &R,
    ground: Ground<'_>,
    more: &str,
    learning: Learning,
) -> Option<bool> {
    let alloc = host.alloc();
    let asked = words_of(alloc, ground, more).ok()?;
    let asked = asked.as_str();
    let (status, told) = thread::join(
        rt,
        move || status(host, rt, asked, &[], &mut Vec::new(alloc)),
        move || met(rt, alloc, ground, learning),
    );
    Some(status == Some(ExitCode::SUCCESS) && matches!(told, Ok(true)))
}

// One server behind another over one file, if the first goes.
fn served_twice<R: Runtime>(host: &HostRuntime, rt: &R, ground: Ground<'_>) -> Option<bool> {
    let more = "--grace-seconds 1 --silence-seconds 1 --learn";
    if !served(host, rt, ground, more, Learning::Waiter)? {
        return Some(false);
    }
    served(host, rt, ground, more, Learning::Restart)
}

fn ground_over<'a, R>(rt: &R, hosts: &'a Scratch, rpc: u16) -> Option<Ground<'a>>
where
    R: Net<Listener = TcpListener, Stream = TcpStream>,
{
    Some(Ground {
        hosts: hosts.path.as_str(),
        peers: "/dev/null",
        rpc,
        local: free_port(rt).ok()?,
        peer: free_port(rt).ok()?,
    })
}

/// Whether a server calls a host that no file names where its LOCK came from, and the next one notifies it there.
pub(crate) fn learns<R: Runtime>(host: &HostRuntime, rt: &R) -> Option<bool> {
    let rpc = free_port(rt).ok()?;
    let hosts = Scratch::new(host.alloc(), rpc).ok()?;
    let ground = ground_over(rt, &hosts, rpc)?;
    let goes = served_twice(host, rt, ground);
    hosts.remove(host);
    goes
}

/// Whether the state of a host's LOCKs tells of its reboot, and its notice behind them drops nothing.
pub(crate) fn tells_reboots<R: Runtime>(host: &HostRuntime, rt: &R) -> Option<bool> {
    let rpc = free_port(rt).ok()?;
    let hosts = Scratch::new(host.alloc(), rpc).ok()?;
    let ground = ground_over(rt, &hosts, rpc)?;
    let more =
        "--grace-seconds 1 --silence-seconds 1 --audit --known-hosts-only --lock-state-tells-reboot";
    let goes = served(host, rt, ground, more, Learning::Reboot);
    hosts.remove(host);
    goes
}
