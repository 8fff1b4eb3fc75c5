//! From where hosts may call.
use std::net::IpAddr;

/// The addresses from which calls may come: those of the file of peers, and loopback.
#[derive(Drop)]
pub struct KnownAddresses {
    addresses: Vec<IpAddr>,
}

impl KnownAddresses {
    /// These, and loopback.
    pub fn new(addresses: Vec<IpAddr>) -> KnownAddresses {
        KnownAddresses { addresses }
    }

    /// Whether a call may come from there. An IPv4 address is the one that it is mapped to (RFC 4291, section 2.5.5.2).
    pub fn has(&self, address: IpAddr) -> bool {
        let address = address.to_canonical();
        address.is_loopback()
            || self
                .addresses
                .iter()
                .any(|known| known.to_canonical() == address)
    }
}
