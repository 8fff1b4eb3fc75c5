//! Peers by name.

ghost use Rattle.std.specs.Prelude.{◌≡◌, ◌≤◌, List, [], length, map, IfOk};
ghost use Rattle.peers.specs.File.{Peer as SaidPeer, address_of};
ghost use Rattle.peers.specs.Readings.{Adds, Reads};

use crate::fault::PeersFault;
use crate::lines::{read_line, split_line};
use std::alloc::{AllocError, Global};
use std::marker::Model;
use std::net::IpAddr;

/// The most lines of the file.
const MOST_LINES: usize = 4_096;

/// A host, and where it is.
#[derive(Drop)]
struct PeerLine {
    name: Vec<u8>,
    address: IpAddr,
}

impl Model for PeerLine {
    ghost Value = { SaidPeer };

    ghost view = { λ p. record { name = p.name.items; address = p.address } };
}

/// The hosts that the server calls, with their addresses. Contracts see them in the order of their lines.
#[derive(Drop)]
pub struct Peers {
    peers: Vec<PeerLine>,
}

impl Model for Peers {
    ghost Value = { List SaidPeer };

    ghost view = { λ p. p.peers.items };

    ghost invariant = { λ p. length p.peers.items ≤ 4096 };
}

impl Peers {
    fn new(alloc: Global) -> Peers
        ensures { result ≡ [] }
    {
        Peers {
            peers: Vec::new(alloc),
        }
    }

    /// Reads a file of peers: a line for each, which is a name of 1 to 1,024 bytes without space, line feed and carriage
    /// return, a space, an IP address of version 4 or 6, and a line feed, which the last line may lack.
    ///
    /// `BadLine` names the first line that isn't such a one, or whose name a line before it has, or that comes behind 4,096
    /// others. It takes time by the number of lines and the number of names before each.
    pub fn read(alloc: Global, bytes: &[u8]) -> Result<Peers, PeersFault>
        ensures { Reads bytes.now result }
    {
        let mut peers = Peers::new(alloc);
        let mut rest = bytes;
        while !rest.is_empty() {
            let (line, behind) = split_line(rest);
            peers.add(alloc, line)?;
            rest = behind;
        }
        Ok(peers)
    }

    /// Takes the next line's peer in. `BadLine` has its number; no peer is taken in then.
    fn add(&mut self, alloc: Global, line: &[u8]) -> Result<(), PeersFault>
        ensures { Adds self.old line.now result self.new }
    {
        let number = self.peers.len() as u32 + 1;
        let Some((name, address)) = read_line(line) else {
            return Err(PeersFault::BadLine(number));
        };
        if self.peers.len() >= MOST_LINES || self.address(name).is_some() {
            return Err(PeersFault::BadLine(number));
        }
        let name = Vec::from_slice(alloc, name)?;
        match self.peers.push(PeerLine { name, address }) {
            Ok(()) => Ok(()),
            Err(_) => Err(PeersFault::Starved),
        }
    }

    /// The addresses of all hosts, in the order of their lines; one that two hosts have stands twice.
    pub fn addresses(&self, alloc: Global) -> Result<Vec<IpAddr>, AllocError>
        ensures { IfOk result (λ addresses. addresses.items ≡ map (λ (p : SaidPeer). p.address) self.now) }
    {
        self.peers.iter().map(|peer| peer.address).collect(alloc)
    }

    /// Where the host is; None where no line names it.
    pub fn address(&self, name: &[u8]) -> Option<IpAddr>
        ensures { result ≡ address_of name.now self.now }
    {
        match self.peers.iter().find(|peer| peer.name.as_slice() == name) {
            Some(peer) => Some(peer.address),
            None => None,
        }
    }
}
