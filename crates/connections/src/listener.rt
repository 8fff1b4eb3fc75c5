//! Where connections come in.
use std::io;
use std::net::{Shutdown, SocketAddr, TcpListener, TcpStream};
use std::os::fd::OwnedFd;

/// A listener that can be shut from another thread.
#[derive(Drop)]
pub struct Listener {
    listener: TcpListener,
}

/// Shuts a listener.
#[derive(Drop)]
pub struct ShutdownHandle {
    // A second handle on the listener's socket, as which alone a socket can be shut down.
    socket: TcpStream,
}

impl Listener {
    /// A listener that can be shut, and what shuts it. The error is that of a second handle on the socket.
    pub fn new(listener: TcpListener) -> io::Result<(Listener, ShutdownHandle)> {
        let socket = TcpStream::from(OwnedFd::from(listener.try_clone()?));
        Ok((Listener { listener }, ShutdownHandle { socket }))
    }

    /// The next connection. Once the listener is shut this and each later call fails at once.
    pub fn accept(&self) -> io::Result<(TcpStream, SocketAddr)> {
        self.listener.accept()
    }
}

impl ShutdownHandle {
    /// No connection is accepted any more, and an `accept` that waits fails.
    pub fn shut(&self) {
        let _ = self.socket.shutdown(Shutdown::Both);
    }
}
