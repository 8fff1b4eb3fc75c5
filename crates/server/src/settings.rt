//! What a server is told.
use book::Rules;
use callbacks::ShortBytes;
use learned_addresses::LearnedAddresses;
use std::net::SocketAddr;
use std::time::Duration;

/// What a server is told.
#[derive(Clone, Copy)]
pub struct ServerSettings {
    /// Where calls by record come in.
    pub rpc: SocketAddr,
    /// The port of loopback on which the lines of local programs come in.
    pub local_port: u16,
    /// Where calls to the status monitor come in by datagram. None: none do.
    pub notify: Option<SocketAddr>,
    /// The port of loopback on which operators ask for pages. None: there is none.
    pub status_port: Option<u16>,
    /// The ports of its peers, and how long it waits for them.
    pub calls: callback_sender::CallSettings,
    /// How long a connection for calls by record may be idle. A zero refuses each.
    pub idle: Duration,
    /// How many workers there are beside the connections' own threads.
    pub workers: u16,
    /// How many connections for calls by record may be open. A further one is closed at once.
    pub connections: u16,
    /// How many of them may come from one address; with `None` all. A further one from it is closed at once.
    pub connections_per_peer: Option<u16>,
    /// Whether connections for calls and calls by datagram come in from the addresses of the file of peers and from loopback alone.
    pub known_hosts_only: bool,
    /// Whether a new state in a host's lock calls tells of its reboot, as a notice does.
    pub lock_state_tells_reboot: bool,
    /// Whether the journal is kept and checked at the end.
    pub is_audited: bool,
}

/// What a server stands on.
#[derive(Drop)]
pub struct Backing<S, A> {
    /// Where its hosts are stored.
    pub store: S,
    /// The addresses of the hosts that it calls. One thread alone asks them.
    pub peers: A,
    /// Where hosts are that these don't name, as the store has it. It is learned from their lock calls; with `None` it isn't.
    pub learned: Option<LearnedAddresses>,
    /// The name under which it monitors and notifies.
    pub own_name: ShortBytes,
    /// What an option changes of the rules by which it answers.
    pub rules: Rules,
}
