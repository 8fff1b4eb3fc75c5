//! The question in a datagram.
use mio::net::UdpSocket;
use record_stream::{Progress, progress_of};
use std::io;
use std::net::{IpAddr, Ipv4Addr, Ipv6Addr, Net, SocketAddr};

/// The bytes of a datagram that are looked at. A reply has fewer.
const ROOM: usize = 1_024;

// Any port of this machine, of the same version as the address.
fn any_port(to: SocketAddr) -> SocketAddr {
    match to.ip() {
        IpAddr::V4(_) => SocketAddr::new(IpAddr::V4(Ipv4Addr::UNSPECIFIED), 0),
        IpAddr::V6(_) => SocketAddr::new(IpAddr::V6(Ipv6Addr::UNSPECIFIED), 0),
    }
}

/// A socket that sends to this address, and hears nobody else.
pub(crate) fn socket_to<R: Net>(rt: &R, to: SocketAddr) -> io::Result<UdpSocket> {
    let socket = UdpSocket::bind(rt, any_port(to))?;
    socket.connect(to)?;
    Ok(socket)
}

/// A datagram that came, and how many bytes of it.
#[derive(Drop)]
pub(crate) struct Datagram {
    room: [u8; ROOM],
    count: usize,
}

impl Datagram {
    pub(crate) fn as_slice(&self) -> &[u8] {
        self.room.get(..self.count).unwrap_or_default()
    }
}

/// The next datagram.
pub(crate) fn receive(socket: &UdpSocket) -> Result<Datagram, Progress> {
    let mut room = [0u8; ROOM];
    match socket.recv(&mut room) {
        Ok(count) => Ok(Datagram { room, count }),
        Err(error) => Err(progress_of(error)),
    }
}
