//! A server, and who talks to it.
use super::noted::{Noted, misbehaves};
use super::talks::{Response, Talk};
use crate::hall::{Hall, LONG};
use callbacks::ShortBytes;
use hosts_db::MemHosts;
use log::{LevelFilter, Log, Logged};
use peers::Peers;
use server::{Backing, CallSettings, Rules, Runtime, ServerSettings, serve};
use std::alloc::Global;
use std::io::{self, Print};
use std::net::{Ipv4Addr, Net, SocketAddr, SocketAddrV4, TcpListener, TcpStream};
use std::sync::Wait;
use std::thread;
use std::thread::Threads;
use std::time::{Clock, Duration};

/// The ports of a server and of its peer.
#[derive(Clone, Copy)]
pub(crate) struct Ports {
    pub(crate) rpc: u16,
    pub(crate) local: u16,
    /// The peer's own.
    pub(crate) peer: u16,
    /// Its port mapper's, and one that this may name.
    pub(crate) mapper: u16,
    pub(crate) named: u16,
    /// For operators.
    pub(crate) status: u16,
}

/// This port of loopback.
pub(crate) fn loopback(port: u16) -> SocketAddr {
    SocketAddr::V4(SocketAddrV4::new(Ipv4Addr::LOCALHOST, port))
}

// A port that nobody listens on.
fn free_port<R: Net<Listener = TcpListener, Stream = TcpStream>>(rt: &R) -> io::Result<u16> {
    Ok(TcpListener::bind(rt, loopback(0))?.local_addr()?.port())
}

impl Ports {
    pub(crate) fn free<R>(rt: &R) -> io::Result<Ports>
    where
        R: Net<Listener = TcpListener, Stream = TcpStream>,
    {
        Ok(Ports {
            rpc: free_port(rt)?,
            local: free_port(rt)?,
            peer: free_port(rt)?,
            mapper: free_port(rt)?,
            named: free_port(rt)?,
            status: free_port(rt)?,
        })
    }

    fn settings(&self, workers: u16, silence: Duration, asks: bool) -> ServerSettings {
        ServerSettings {
            rpc: loopback(self.rpc),
            local_port: self.local,
            notify: None,
            status_port: None,
            calls: CallSettings {
                nlm_port: self.peer,
                nsm_port: self.peer,
                watch_port: self.peer,
                port_mapper: if asks { Some(self.mapper) } else { None },
                registration: None,
                grace: Duration::from_millis(1),
                silence,
            },
            idle: Duration::from_secs(60),
            workers,
            connections: 256,
            connections_per_peer: None,
            known_hosts_only: false,
            lock_state_tells_reboot: false,
            is_audited: true,
        }
    }
}

fn backing(alloc: Global) -> Option<Backing<MemHosts, Peers>> {
    let store = MemHosts::new(alloc, 0, Vec::new(alloc), Vec::new(alloc)).ok()?;
    let peers = Peers::read(alloc, b"client 127.0.0.1\n").ok()?;
    let own_name = ShortBytes::copy_of(alloc, b"server").ok()?;
    Some(Backing {
        store,
        peers,
        learned: None,
        own_name,
        rules: Rules::standard(),
    })
}

/// How many calls the server took, by its audit, what the talk came to, and whether enough jobs were inside at once.
pub(crate) type Served = (u64, Response, bool);

fn served<R: Runtime>(
    rt: &R,
    alloc: Global,
    settings: ServerSettings,
    backing: Backing<MemHosts, Peers>,
    wanted: u64,
    talk: (Ports, Talk),
) -> Option<Served> {
    let hall = Hall::new(rt, wanted, LONG);
    let gate = &hall;
    let (ports, talk) = talk;
    let (taken, told) = thread::join(
        rt,
        move || serve(rt, alloc, &settings, backing, gate),
        move || talk.told(rt, alloc, ports, gate),
    );
    match (taken, told) {
        (Ok(taken), Ok(told)) => Some((taken, told, hall.was_full())),
        _ => None,
    }
}

/// Has a server with so many workers, which holds jobs until so many are inside, talked to. None where one of both
/// fails.
pub(crate) fn served_to<R>(
    rt: &R,
    alloc: Global,
    workers: u16,
    wanted: u64,
    talk: Talk,
) -> Option<Served>
where
    R: Net<Listener = TcpListener, Stream = TcpStream>
        + Threads
        + Wait
        + Clock
        + Print
        + Log
        + Sync,
{
    match (Ports::free(rt), backing(alloc)) {
        (Ok(ports), Some(backing)) => {
            let settings = ServerSettings {
                status_port: talk.status_port(ports),
                ..ports.settings(workers, talk.silence(), talk.asks())
            };
            let noted = Noted::new(rt, alloc);
            let rt = Logged::new(rt, LevelFilter::Info, &noted);
            served(&rt, alloc, settings, backing, wanted, (ports, talk))
        }
        _ => None,
    }
}

/// The same, but that nothing is held, and that what is noted is not kept. The handle of the test reaches the server as it is: one
/// that keeps notes gives no sockets for datagrams.
pub(crate) fn served_plainly<R: Runtime>(rt: &R, alloc: Global, talk: Talk) -> Option<Served> {
    match (Ports::free(rt), backing(alloc)) {
        (Ok(ports), Some(backing)) => {
            let settings = ports.settings(2, talk.silence(), talk.asks());
            let calls = CallSettings {
                registration: talk.registration(ports),
                ..settings.calls
            };
            let notify = talk.notify(ports);
            let settings = ServerSettings {
                calls,
                notify,
                ..settings
            };
            served(rt, alloc, settings, backing, 0, (ports, talk))
        }
        _ => None,
    }
}

// The server, and who misbehaves.
fn noted_of<R: Runtime, N: Wait + Clock + Sync>(
    rt: &R,
    alloc: Global,
    settings: ServerSettings,
    backing: Backing<MemHosts, Peers>,
    ports: Ports,
    noted: &Noted<'_, N>,
) -> Option<usize> {
    let hall = Hall::new(rt, 0, LONG);
    let gate = &hall;
    let (taken, count) = thread::join(
        rt,
        move || serve(rt, alloc, &settings, backing, gate),
        move || misbehaves(rt, alloc, ports, noted),
    );
    match (taken, count) {
        (Ok(_), Ok(count)) => Some(count),
        _ => None,
    }
}

/// How many misdeeds a server notes, each with why it closes the connection, and with nothing else. None where one of both fails.
pub(crate) fn noted_by<R>(rt: &R, alloc: Global) -> Option<usize>
where
    R: Net<Listener = TcpListener, Stream = TcpStream>
        + Threads
        + Wait
        + Clock
        + Print
        + Log
        + Sync,
{
    match (Ports::free(rt), backing(alloc)) {
        (Ok(ports), Some(backing)) => {
            let settings = ServerSettings {
                idle: Duration::from_millis(100),
                ..ports.settings(2, Duration::from_secs(5), false)
            };
            let noted = Noted::new(rt, alloc);
            let rt = Logged::new(rt, LevelFilter::Info, &noted);
            noted_of(&rt, alloc, settings, backing, ports, &noted)
        }
        _ => None,
    }
}
