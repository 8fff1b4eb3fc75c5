//! A server on sockets.
ghost use Rattle.std.specs.Prelude.{◌≡◌, if◌then◌else◌, Some, None, IfOk};
ghost use Rattle.std.specs.Net.Socket.{socket_ip, socket_port};
ghost use Rattle.lockd_serving.specs.Times.{Lasts, IsAt, IsRegistered};

use crate::notes::{StartFailure, tell};
use crate::streams::own_name;
use config::ServeConfig;
use hosts_db::HostStore;
use peers::{Peers, PeersFault};
use peers_file::{PeersFile, WatchedPeers, seen_at};
use port_mapper::PORT as PORT_MAPPER;
use server::{
    Addresses, Backing, CallSettings, LearnedAddresses, OpenGate, Registration, Rules, Runtime,
    ServerSettings, serve,
};
use std::alloc::Global;
use std::fs;
use std::net::SocketAddr;
use std::time::Duration;
use thiserror::Error;

/// What ends `serve` before it is told to stop. It is printed by number and name.
#[derive(Clone, Copy, Debug, Error)]
pub(crate) enum ServeFault {
    /// There was no memory.
    #[error("1 Starved")]
    Starved,
    /// A line of the file of peers is wrong.
    #[error("20 BadLine")]
    BadLine,
    /// The file of peers can't be read.
    #[error("23 ReadFault")]
    ReadFault,
    /// The server ended.
    #[error("{0}")]
    Server(server::ServerFault),
}

/// Where hosts are: as the file of peers has it, and as the store has it, if it is learned.
#[derive(Drop)]
pub(crate) struct Whereabouts<A> {
    pub(crate) peers: A,
    pub(crate) learned: Option<LearnedAddresses>,
}

/// The peers of a file, over the files of the program.
pub(crate) type FilePeers<'a> = WatchedPeers<'a, HostRuntime>;

/// The peers that a file names, which is read again where it changes. Where they can't be had a note says which line is wrong, or
/// what the system says.
pub(crate) fn watch_peers<'a>(
    host: &'a HostRuntime,
    path: &str,
) -> Result<FilePeers<'a>, ServeFault> {
    // A change from here on is seen, also where what is read next has it already.
    let seen = seen_at(host, path);
    let peers = read_peers(host, path)?;
    let Ok(path) = String::from_str(host.alloc(), path) else {
        return Err(ServeFault::Starved);
    };
    let file = PeersFile::watched(host.alloc(), peers, path, seen);
    Ok(WatchedPeers::new(host, file))
}

fn read_peers(host: &HostRuntime, path: &str) -> Result<Peers, ServeFault> {
    match fs::read(host, path) {
        Ok(bytes) => peers_of(host, path, bytes.as_slice()),
        Err(error) => {
            tell(host, StartFailure::Unread { path, error });
            Err(ServeFault::ReadFault)
        }
    }
}

fn peers_of(host: &HostRuntime, path: &str, bytes: &[u8]) -> Result<Peers, ServeFault> {
    match Peers::read(host.alloc(), bytes) {
        Ok(peers) => Ok(peers),
        Err(PeersFault::Starved) => Err(ServeFault::Starved),
        Err(PeersFault::BadLine(number)) => {
            tell(host, StartFailure::BadLine { path, number });
            Err(ServeFault::BadLine)
        }
    }
}

// The port at which port mappers are asked, where they are.
fn port_mapper_of(asked: &ServeConfig) -> Option<u16>
    ensures { result ≡ (if asked.now.ask_port_mapper then Some 111 else None) }
{
    if asked.ask_port_mapper {
        Some(PORT_MAPPER)
    } else {
        None
    }
}

// What is registered at the port mapper of this machine, where that is to be.
fn registration_of(asked: &ServeConfig) -> Option<Registration>
    ensures { IsRegistered asked.now.register asked.now.ports.rpc asked.now.notify_port result }
{
    if asked.register {
        Some(Registration {
            port: asked.ports.rpc.get(),
            notify_port: match asked.notify_port {
                Some(port) => Some(port.get()),
                None => None,
            },
            mapper: PORT_MAPPER,
            pause: Duration::from_secs(10),
        })
    } else {
        None
    }
}

// Where calls by datagram come in, where they do.
fn notify_of(asked: &ServeConfig) -> Option<SocketAddr>
    ensures { IsAt asked.now.bind asked.now.notify_port result }
{
    match asked.notify_port {
        Some(port) => Some(SocketAddr::new(asked.bind, port.get())),
        None => None,
    }
}

fn settings_of(asked: &ServeConfig) -> ServerSettings
    ensures calls { (socket_ip result.rpc ≡ asked.now.bind) × (socket_port result.rpc ≡ asked.now.ports.rpc) }
    ensures own { result.local_port ≡ asked.now.ports.local }
    ensures status { result.status_port ≡ asked.now.status_port }
    ensures peers { (result.calls.nlm_port ≡ asked.now.ports.peer_nlm) × (result.calls.nsm_port ≡ asked.now.ports.peer_nsm) }
    ensures watchers { result.calls.watch_port ≡ asked.now.ports.watch }
    ensures registered { IsRegistered asked.now.register asked.now.ports.rpc asked.now.notify_port result.calls.registration }
    ensures notify { IsAt asked.now.bind asked.now.notify_port result.notify }
    ensures mappers { result.calls.port_mapper ≡ (if asked.now.ask_port_mapper then Some 111 else None) }
    ensures times { Lasts asked.now.times.grace result.calls.grace × Lasts asked.now.times.silence result.calls.silence × Lasts asked.now.times.idle result.idle }
    ensures workers { (result.workers ≡ asked.now.workers) × (result.is_audited ≡ asked.now.audit) }
    ensures connections { (result.connections ≡ asked.now.connections) × (result.connections_per_peer ≡ asked.now.connections_per_peer) }
    ensures hosts { (result.known_hosts_only ≡ asked.now.known_hosts_only) × (result.lock_state_tells_reboot ≡ asked.now.lock_state_tells_reboot) }
{
    ServerSettings {
        rpc: SocketAddr::new(asked.bind, asked.ports.rpc.get()),
        local_port: asked.ports.local.get(),
        notify: notify_of(asked),
        status_port: match asked.status_port {
            Some(port) => Some(port.get()),
            None => None,
        },
        calls: CallSettings {
            nlm_port: asked.ports.peer_nlm.get(),
            nsm_port: asked.ports.peer_nsm.get(),
            watch_port: asked.ports.watch.get(),
            port_mapper: port_mapper_of(asked),
            registration: registration_of(asked),
            grace: Duration::from_secs(u64::from(asked.times.grace.get())),
            silence: Duration::from_secs(u64::from(asked.times.silence.get())),
        },
        idle: Duration::from_secs(u64::from(asked.times.idle.get())),
        workers: asked.workers.get() as u16,
        connections: asked.connections.get(),
        connections_per_peer: match asked.connections_per_peer {
            Some(connections) => Some(connections.get()),
            None => None,
        },
        known_hosts_only: asked.known_hosts_only,
        lock_state_tells_reboot: asked.lock_state_tells_reboot,
        is_audited: asked.audit,
    }
}

fn backing_of<S: HostStore + Drop, A: Drop>(
    alloc: Global,
    asked: &ServeConfig,
    whereabouts: Whereabouts<A>,
    store: S,
) -> Result<Backing<S, A>, ServeFault>
    ensures backing { IfOk result (λ backing. (backing.own_name ≡ asked.now.name) × (backing.store ≡ store)) }
    ensures rules { IfOk result (λ backing. backing.rules.polls_end_grants ≡ asked.now.poll_ends_grant) }
{
    let Whereabouts { peers, learned } = whereabouts;
    match own_name(alloc, &asked.name) {
        Ok(own_name) => Ok(Backing {
            store,
            peers,
            learned,
            own_name,
            rules: Rules {
                polls_end_grants: asked.poll_ends_grant,
            },
        }),
        Err(_) => Err(ServeFault::Starved),
    }
}

/// Serves over the store until a local program says `stop`: how many calls were taken, where that was kept.
pub(crate) fn serve_sockets<S, R, A>(
    rt: &R,
    alloc: Global,
    asked: &ServeConfig,
    whereabouts: Whereabouts<A>,
    store: S,
) -> Result<u64, ServeFault>
where
    S: HostStore + Drop + Send,
    R: Runtime,
    A: Addresses + Drop,
{
    match backing_of(alloc, asked, whereabouts, store) {
        Ok(backing) => {
            serve(rt, alloc, &settings_of(asked), backing, &OpenGate).map_err(ServeFault::Server)
        }
        Err(fault) => Err(fault),
    }
}
