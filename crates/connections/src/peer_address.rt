//! The address of a peer.
ghost use Rattle.std.specs.Prelude.{◌≡◌};
ghost use Rattle.connections.specs.Seats.{AreBitsOf};

use std::marker::Model;
use std::net::IpAddr;

/// The address of a connection's peer, without its port. An IPv4 address is the same as the IPv6 address that it is mapped to
/// (RFC 4291, section 2.5.5.2). Contracts see its 128 bits.
#[derive(Clone, Copy, Debug)]
pub struct PeerAddress {
    bits: u128,
}

impl Model for PeerAddress {
    ghost use Rattle.std.specs.Prelude.{ℕ};

    ghost Value = { ℕ };

    ghost view = { λ a. a.bits };

    ghost inverse = { λ n. record { bits = n } };
}

impl PeerAddress {
    /// Of a peer at this address.
    pub fn new(ip: IpAddr) -> PeerAddress
        ensures { AreBitsOf ip result }
    {
        let ip = match ip {
            IpAddr::V4(ip) => ip.to_ipv6_mapped(),
            IpAddr::V6(ip) => ip,
        };
        PeerAddress { bits: ip.to_bits() }
    }

    /// Its 128 bits.
    pub fn bits(self) -> u128
        ensures { result ≡ self }
    {
        self.bits
    }
}
