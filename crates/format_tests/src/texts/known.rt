//! From where calls may come, by a file of peers.
use peers::{Peers, PeersFault};
use peers_file::KnownAddresses;
use std::net::IpAddr;
use std::test::Fail;

const FILE: &[u8] = b"a 192.0.2.1\nb ::ffff:192.0.2.2\nc 2001:db8::3\n";

/// Those that may call: the addresses of the file, an IPv4 address in either form, and loopback.
const KNOWN: &[&str] = &[
    "192.0.2.1",
    "::ffff:192.0.2.1",
    "192.0.2.2",
    "2001:db8::3",
    "127.0.0.1",
    "127.1.2.3",
    "::1",
    "::ffff:127.0.0.1",
];

const UNKNOWN: &[&str] = &["192.0.2.3", "2001:db8::4", "::ffff:192.0.2.3", "0.0.0.0"];

fn has(known: &KnownAddresses, text: &str) -> Option<bool> {
    let address: IpAddr = text.parse().ok()?;
    Some(known.has(address))
}

#[test]
fn known_addresses(rt: HostRuntime) -> Result<(), Fail> {
    let alloc = rt.alloc();
    let peers: Result<Peers, PeersFault> = Peers::read(alloc, FILE);
    let known = KnownAddresses::new(peers?.addresses(alloc)?);
    assert!(rt; KNOWN.iter().all(|text| has(&known, text) == Some(true)));
    assert!(rt; UNKNOWN.iter().all(|text| has(&known, text) == Some(false)));
    Ok(())
}
