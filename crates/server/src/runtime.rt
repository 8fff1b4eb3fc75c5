//! What a server asks of the system.
use log::Log;
use std::io::Print;
use std::net::{Net, TcpListener, TcpStream};
use std::sync::Wait;
use std::thread::Threads;
use std::time::Clock;

/// What a server asks of the system: sockets, threads and waiting for them, a clock, standard output, and a log. Whatever gives all of
/// them is one, as the runtime of `main` is.
pub trait Runtime: Net<Listener = TcpListener, Stream = TcpStream>
    + Threads
    + Wait
    + Clock
    + Print
    + Log
    + Sync {}

impl<R> Runtime for R
where
    R: Net<Listener = TcpListener, Stream = TcpStream>
        + Threads
        + Wait
        + Clock
        + Print
        + Log
        + Sync,
{}
