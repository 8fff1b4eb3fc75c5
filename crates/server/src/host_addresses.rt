//! Where hosts are, and from where they may call.
use callback_sender::Addresses;
use learned_addresses::LearnedAddresses;
use log::{Log, error};
use peers_file::KnownAddresses;
use std::alloc::{AllocError, Global};
use std::net::IpAddr;
use std::sync::{Mutex, Wait};
use std::time::Instant;

/// Whether a connection may come from there, where that is limited.
pub(crate) fn is_known<R: Wait>(
    rt: &R,
    known: Option<&Mutex<KnownAddresses>>,
    address: IpAddr,
) -> bool {
    match known {
        Some(known) => known.lock(rt).has(address),
        None => true,
    }
}

/// Where hosts are: where the file of peers has them; else where they were learned, if that is asked for.
#[derive(Drop)]
pub(crate) struct HostAddresses<'a, R, A> {
    rt: &'a R,
    alloc: Global,
    peers: A,
    learned: Option<&'a Mutex<LearnedAddresses>>,
    known: Option<&'a Mutex<KnownAddresses>>,
    // Of the peers whose addresses are known.
    version: u64,
}

impl<'a, R: Wait + Log, A: Addresses> HostAddresses<'a, R, A> {
    /// The addresses of these peers are known from now on, where that is asked for.
    pub(crate) fn new(
        rt: &'a R,
        alloc: Global,
        peers: A,
        learned: Option<&'a Mutex<LearnedAddresses>>,
        known: Option<&'a Mutex<KnownAddresses>>,
    ) -> HostAddresses<'a, R, A> {
        let version = peers.version();
        let hosts = HostAddresses {
            rt,
            alloc,
            peers,
            learned,
            known,
            version,
        };
        hosts.make_known();
        hosts
    }

    // Where the host was learned to be.
    fn learned_address(&self, name: &[u8]) -> Option<IpAddr> {
        let learned = self.learned?.lock(self.rt).look(name)?;
        Some(IpAddr::from(learned.address).to_canonical())
    }

    // The addresses of the file of peers are those from which connections may come. Without memory those of before stay.
    fn make_known(&self) {
        let Some(known) = self.known else {
            return;
        };
        match self.peers.addresses(self.alloc) {
            Ok(addresses) => *known.lock(self.rt) = KnownAddresses::new(addresses),
            Err(_) =>
                error!(self.rt; "no memory for the addresses of the peers: those that may call stay as they were"),
        }
    }
}

impl<'a, R: Wait + Log, A: Addresses> Addresses for HostAddresses<'a, R, A> {
    ghost use Rattle.std.specs.Prelude.{Option};
    ghost use Rattle.std.specs.declared.net.ip_addr.IpAddr.{IpAddr as SaidAddress};
    ghost use Rattle.server.specs.Finding.{IsFirstOf};

    ghost peers = { λ hosts. A.peers hosts.peers };

    // The file of peers goes before what was learned.
    ghost finds = { λ hosts name found. (named : Option SaidAddress) × A.finds hosts.peers name named × IsFirstOf named found };

    fn address(&self, name: &[u8]) -> Option<IpAddr> {
        match self.peers.address(name) {
            Some(address) => Some(address),
            None => self.learned_address(name),
        }
    }

    fn addresses(&self, alloc: Global) -> Result<Vec<IpAddr>, AllocError> {
        self.peers.addresses(alloc)
    }

    fn version(&self) -> u64 {
        self.peers.version()
    }

    fn look(&mut self, now: Instant) {
        self.peers.look(now);
        if self.version != self.peers.version() {
            self.version = self.peers.version();
            self.make_known();
        }
    }
}
