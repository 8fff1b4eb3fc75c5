//! Where a server listens.
use crate::context::ShutdownHandles;
use crate::fault::NoListener;
use crate::settings::ServerSettings;
use connections::{Listener, Listeners, ShutdownHandle};
use mio::net::{TcpListener as LongListener, UdpSocket};
use std::io;
use std::net::{Ipv4Addr, Net, SocketAddr, SocketAddrV4, TcpListener};

/// All listeners, and what shuts them.
#[derive(Drop)]
pub(crate) struct Listening {
    pub(crate) listeners: Listeners,
    pub(crate) shutdown_handles: ShutdownHandles,
    /// For calls by datagram, where they are asked for.
    pub(crate) datagrams: Option<UdpSocket>,
}

fn loopback(port: u16) -> SocketAddr {
    SocketAddr::V4(SocketAddrV4::new(Ipv4Addr::LOCALHOST, port))
}

// Listens at this address. As many connections as the system allows may wait until they are accepted: with the 128 of
// `std::net::TcpListener::bind` the system drops some where hundreds of hosts connect at once, and these try again after a second.
fn bind<R: Net>(rt: &R, at: SocketAddr) -> io::Result<TcpListener> {
    let listener = TcpListener::from(LongListener::bind(rt, at)?);
    listener.set_nonblocking(false)?;
    Ok(listener)
}

// A listener at this address, and what shuts it.
fn open_listener<R: Net>(rt: &R, at: SocketAddr) -> Result<(Listener, ShutdownHandle), NoListener> {
    let opened = match bind(rt, at) {
        Ok(listener) => Listener::new(listener),
        Err(error) => Err(error),
    };
    match opened {
        Ok(listener) => Ok(listener),
        Err(error) => Err(NoListener { at, error }),
    }
}

// A socket for datagrams at this address, if there is one.
fn open_datagrams<R: Net>(rt: &R, at: Option<SocketAddr>) -> Result<Option<UdpSocket>, NoListener> {
    let Some(at) = at else {
        return Ok(None);
    };
    match UdpSocket::bind(rt, at) {
        Ok(socket) => Ok(Some(socket)),
        Err(error) => Err(NoListener { at, error }),
    }
}

// A listener for operators, where they have a port.
fn open_status<R: Net>(
    rt: &R,
    port: Option<u16>,
) -> Result<(Option<Listener>, Option<ShutdownHandle>), NoListener> {
    match port {
        Some(port) => {
            let (listener, shutdown_handle) = open_listener(rt, loopback(port))?;
            Ok((Some(listener), Some(shutdown_handle)))
        }
        None => Ok((None, None)),
    }
}

/// Listens for calls by record, for calls by datagram where they are asked for, and on loopback for local programs and, where they
/// have a port, for operators. The error says which of these can't be had; none is open then.
pub(crate) fn listen<R: Net>(rt: &R, settings: &ServerSettings) -> Result<Listening, NoListener> {
    let (callers, callers_shutdown_handle) = open_listener(rt, settings.rpc)?;
    let (locals, locals_shutdown_handle) = open_listener(rt, loopback(settings.local_port))?;
    let datagrams = open_datagrams(rt, settings.notify)?;
    let (operators, operators_shutdown_handle) = open_status(rt, settings.status_port)?;
    Ok(Listening {
        listeners: Listeners {
            callers,
            locals,
            operators,
        },
        shutdown_handles: ShutdownHandles {
            callers: callers_shutdown_handle,
            locals: locals_shutdown_handle,
            operators: operators_shutdown_handle,
        },
        datagrams,
    })
}
