//! Which connections a table takes in, by the addresses of their peers.
use super::servers::loopback;
use connections::{ConnectionTable, PeerAddress};
use std::alloc::Global;
use std::io;
use std::net::{IpAddr, Ipv4Addr, Net, TcpListener, TcpStream};
use std::test::*;

// Two peers: 127.0.0.1 and 127.0.0.2.
fn one() -> PeerAddress {
    PeerAddress::new(IpAddr::V4(Ipv4Addr::LOCALHOST))
}

fn other() -> PeerAddress {
    PeerAddress::new(IpAddr::V4(Ipv4Addr::new(127, 0, 0, 2)))
}

// The first as an IPv6 address.
fn mapped() -> PeerAddress {
    PeerAddress::new(IpAddr::V6(Ipv4Addr::LOCALHOST.to_ipv6_mapped()))
}

// The numbers of the connections that are taken in, one for each of these peers.
fn admit_each<R>(
    rt: &R,
    table: &mut ConnectionTable<()>,
    peers: &[PeerAddress],
    numbers: &mut Vec<Option<u64>>,
) -> io::Result<()>
where
    R: Net<Listener = TcpListener, Stream = TcpStream>,
{
    let listener = TcpListener::bind(rt, loopback(0))?;
    for peer in peers {
        let stream = TcpStream::connect(rt, listener.local_addr()?)?;
        let number = match table.admit(stream, *peer, None) {
            Some(connection) => Some(connection.number()),
            None => None,
        };
        numbers.push(number)?;
    }
    Ok(())
}

// A table of five places, of which a peer may have two.
fn table(alloc: Global) -> io::Result<ConnectionTable<()>> {
    let mut nothing = Vec::new(alloc);
    for _ in 0..5 {
        nothing.push(())?;
    }
    Ok(ConnectionTable::new(alloc, nothing, Some(2))?)
}

// Whether the third of one peer is turned away, another is taken in, and a place counts again once its connection left it.
fn is_shared<R>(rt: &R, alloc: Global) -> io::Result<bool>
where
    R: Net<Listener = TcpListener, Stream = TcpStream>,
{
    let mut table = table(alloc)?;
    let mut numbers = Vec::new(alloc);
    admit_each(
        rt,
        &mut table,
        &[one(), mapped(), one(), other()],
        &mut numbers,
    )?;
    let count = table.count_from(one());
    table.leave(0);
    let fewer = table.count_from(one());
    admit_each(rt, &mut table, &[one(), one()], &mut numbers)?;
    Ok(
        numbers.as_slice() == [Some(0), Some(6), None, Some(12), Some(15), None].as_slice()
            && (count, fewer, table.count_from(one())) == (2, 1, 2)
            && table.count_from(other()) == 1
            && table.places() == 5,
    )
}

#[test]
fn places_are_shared(rt: HostRuntime) {
    let goes = is_shared(&rt, rt.alloc());
    assert!(rt; matches!(goes, Ok(true)));
}
