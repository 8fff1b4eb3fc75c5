//! Who asks.
use kept_replies::Peer;
use std::net::{IpAddr, SocketAddr};

/// Whose address this is, without its port. Loopback is local.
pub(crate) fn peer_at(from: SocketAddr) -> Peer {
    let ip = from.ip().to_canonical();
    let address = match ip {
        IpAddr::V4(ip) => ip.to_ipv6_mapped().octets(),
        IpAddr::V6(ip) => ip.octets(),
    };
    Peer {
        address,
        is_local: ip.is_loopback(),
    }
}
