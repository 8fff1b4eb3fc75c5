//! Where hosts are, for whoever calls them.
ghost use Rattle.std.specs.Prelude.{◌≡◌, ℕ, List, Option, map, IfOk};
ghost use Rattle.std.specs.declared.net.ip_addr.IpAddr.{IpAddr as SaidAddress};
ghost use Rattle.peers.specs.File.{Peer, address_of};
ghost use Rattle.peers_file.specs.Takings.{IsKeptOrRead};

use crate::peers_file::PeersFile;
use log::Log;
use peers::Peers;
use std::alloc::{AllocError, Global};
use std::fs::Files;
use std::net::IpAddr;
use std::time::Instant;

/// Knows where hosts are.
pub trait Addresses {
    /// The hosts that are named with their addresses, as in the file of peers.
    ghost peers: { Self → List Peer };

    /// What may be answered where the host of this name is asked for.
    ghost finds: { Self → List ℕ → Option SaidAddress → Type 0 };

    /// Where the host is; None where it isn't known.
    fn address(&self, name: &[u8]) -> Option<IpAddr>
        ensures { finds self.now name.now result };

    /// The addresses of all hosts that are named.
    fn addresses(&self, alloc: Global) -> Result<Vec<IpAddr>, AllocError>
        ensures { IfOk result (λ addresses. addresses.items ≡ map (λ (p : Peer). p.address) (peers self.now)) };

    /// Another number whenever the hosts that are named may be others.
    fn version(&self) -> u64;

    /// It is this late. Where the hosts come from may be looked at again: they are those of before, or all those of a good file.
    fn look(&mut self, now: Instant)
        ensures { IsKeptOrRead (peers self.old) (peers self.new) };
}

/// Peers that stay as they are.
impl Addresses for Peers {
    ghost use Rattle.std.specs.Prelude.{◌≡◌};
    ghost use Rattle.peers.specs.File.{address_of};

    ghost peers = { λ peers. peers };

    ghost finds = { λ peers name found. found ≡ address_of name peers };

    fn address(&self, name: &[u8]) -> Option<IpAddr> {
        Peers::address(self, name)
    }

    fn addresses(&self, alloc: Global) -> Result<Vec<IpAddr>, AllocError> {
        Peers::addresses(self, alloc)
    }

    fn version(&self) -> u64 {
        0
    }

    fn look(&mut self, _now: Instant) {}
}

/// The peers of a file, with what it takes to read it again.
#[derive(Drop)]
pub struct WatchedPeers<'a, R> {
    rt: &'a R,
    file: PeersFile,
}

impl<'a, R> WatchedPeers<'a, R> {
    /// Those of this file, which is read again over `rt`.
    pub fn new(rt: &'a R, file: PeersFile) -> WatchedPeers<'a, R> {
        WatchedPeers { rt, file }
    }
}

impl<'a, R: Files + Log> Addresses for WatchedPeers<'a, R> {
    ghost use Rattle.std.specs.Prelude.{◌≡◌};
    ghost use Rattle.peers.specs.File.{address_of};

    ghost peers = { λ watched. watched.file };

    ghost finds = { λ watched name found. found ≡ address_of name watched.file };

    fn address(&self, name: &[u8]) -> Option<IpAddr> {
        self.file.address(name)
    }

    fn addresses(&self, alloc: Global) -> Result<Vec<IpAddr>, AllocError> {
        self.file.addresses(alloc)
    }

    fn version(&self) -> u64 {
        self.file.version()
    }

    fn look(&mut self, now: Instant) {
        self.file.look(self.rt, now);
    }
}
