//! Peers, and the file that names them.

ghost use Rattle.std.specs.Prelude.{◌≡◌, Ok, Err, IfErr, IfOk, OnOk, map};
ghost use Rattle.peers.specs.File.{Peer as SaidPeer, address_of};
ghost use Rattle.peers.specs.Readings.{Reads};
ghost use Rattle.peers_file.specs.Takings.{IsKeptOrRead};

use crate::seen::{Seen, seen_at};
use log::{Log, error, info, warn};
use peers::{Peers, PeersFault};
use std::alloc::{AllocError, Global};
use std::fs;
use std::fs::Files;
use std::io::{self, Read};
use std::marker::Model;
use std::net::IpAddr;
use std::time::{Duration, Instant};

/// How long the file isn't looked at again, in milliseconds.
const PAUSE_MILLIS: u64 = 1_000;

/// The hosts that the server calls, with their addresses, as their file had them when it was good last. Contracts see them in the
/// order of their lines.
#[derive(Drop)]
pub struct PeersFile {
    alloc: Global,
    peers: Peers,
    // Where the file is. None while it is looked at.
    path: Option<String>,
    // What was seen of it when it was read. None where there was none.
    seen: Option<Seen>,
    // When it was looked at.
    looked: Option<Instant>,
    // How often a good file took the place of another.
    version: u64,
}

impl Model for PeersFile {
    ghost use Rattle.std.specs.Prelude.{List};
    ghost use Rattle.peers.specs.File.{Peer};

    ghost Value = { List Peer };

    ghost view = { λ f. f.peers };
}

fn read_file<R: Files>(rt: &R, alloc: Global, path: &str) -> io::Result<Vec<u8>> {
    let mut file = fs::open(rt, path)?;
    let mut bytes = Vec::new(alloc);
    file.read_to_end(&mut bytes)?;
    Ok(bytes)
}

impl PeersFile {
    /// The peers that were read of the file at this path, of which this was seen before it was read.
    pub fn watched(alloc: Global, peers: Peers, path: String, seen: Option<Seen>) -> PeersFile
        ensures { result ≡ peers }
    {
        PeersFile {
            alloc,
            peers,
            path: Some(path),
            seen,
            looked: None,
            version: 0,
        }
    }

    /// The addresses of all hosts, in the order of their lines.
    pub fn addresses(&self, alloc: Global) -> Result<Vec<IpAddr>, AllocError>
        ensures { IfOk result (λ addresses. addresses.items ≡ map (λ (p : SaidPeer). p.address) self.now) }
    {
        self.peers.addresses(alloc)
    }

    /// How often a good file took the place of another.
    pub fn version(&self) -> u64 {
        self.version
    }

    /// Where the host is; None where no line names it.
    pub fn address(&self, name: &[u8]) -> Option<IpAddr>
        ensures { result ≡ address_of name.now self.now }
    {
        self.peers.address(name)
    }

    /// The file has these bytes now. The peers are theirs, where they are a good file; else they are those of before, and the error
    /// says why.
    pub fn take(&mut self, bytes: &[u8]) -> Result<(), PeersFault>
        ensures ok { OnOk result (Reads bytes.now (Ok self.new)) }
        ensures refused { IfErr result (λ fault. Reads bytes.now (Err fault)) }
        ensures stays { IfErr result (λ _. self.new ≡ self.old) }
    {
        match Peers::read(self.alloc, bytes) {
            Ok(peers) => {
                self.peers = peers;
                self.version = self.version.wrapping_add(1);
                Ok(())
            }
            Err(fault) => Err(fault),
        }
    }

    // Whether it is to be looked at now: it was not in the last second.
    fn is_due(&mut self, now: Instant) -> bool
        ensures { self.new ≡ self.old }
    {
        let pause = Duration::from_millis(PAUSE_MILLIS);
        let is_due = match self.looked {
            Some(looked) => looked.checked_add(pause).is_some_and(|next| next <= now),
            None => true,
        };
        if is_due {
            self.looked = Some(now);
        }
        is_due
    }

    // Reads the file at this path, and notes what came of it. Whether it needn't be read again until it changes.
    fn read<R: Files + Log>(&mut self, rt: &R, path: &str) -> bool
        ensures { IsKeptOrRead self.old self.new }
    {
        let bytes = match read_file(rt, self.alloc, path) {
            Ok(bytes) => bytes,
            Err(error) => {
                warn!(rt; "{path}: {error}: the peers stay as they were");
                return true;
            }
        };
        match self.take(&bytes) {
            Ok(()) => {
                info!(rt; "{path}: read again");
                true
            }
            Err(PeersFault::BadLine(number)) => {
                warn!(rt; "{path}: line {number} is no name, a space and an IP address, names a host again, or comes behind 4096 others: the peers stay as they were");
                true
            }
            Err(PeersFault::Starved) => {
                error!(rt; "{path}: no memory to read it again");
                false
            }
        }
    }

    // Looks at the file at this path.
    fn look_at<R: Files + Log>(&mut self, rt: &R, path: &str)
        ensures { IsKeptOrRead self.old self.new }
    {
        let seen = seen_at(rt, path);
        if seen == self.seen {
            return;
        }
        let is_read = match seen {
            Some(_) => self.read(rt, path),
            None => {
                warn!(rt; "{path}: there is no such file: the peers stay as they were");
                true
            }
        };
        if is_read {
            self.seen = seen;
        }
    }

    /// It is this late: once a second the file is looked at, and read again where its size or its time is another one. What came of
    /// that is noted. A bad file, and one that can't be read, leave the peers as they were.
    pub fn look<R: Files + Log>(&mut self, rt: &R, now: Instant)
        ensures { IsKeptOrRead self.old self.new }
    {
        if !self.is_due(now) {
            return;
        }
        let Some(path) = self.path.take() else {
            return;
        };
        self.look_at(rt, path.as_str());
        self.path = Some(path);
    }
}
