//! What the threads do.
use crate::connection::Connection;
use std::alloc::Global;
use std::net::{SocketAddr, TcpStream};
use std::sync::Arc;

/// Which listener a connection came in by.
#[derive(Clone, Copy, PartialEq, Eq)]
pub enum Side {
    /// Calls by record.
    Callers,
    /// Lines of local programs.
    Locals,
    /// Requests of operators for pages.
    Operators,
}

/// A connection that was taken in.
#[derive(Drop)]
pub struct Accepted {
    /// By which listener it came.
    pub side: Side,
    pub connection: Arc<Connection, Global>,
    /// Where its peer is.
    pub from: SocketAddr,
}

/// What the threads of a server do. `W` is what a worker has.
pub trait Service<R, W> {
    /// Takes a connection in. `None`: there is no place for it, and it is closed.
    fn admit(&self, rt: &R, side: Side, stream: TcpStream, from: SocketAddr) -> Option<Accepted>;

    /// All that the thread of a connection does, to its end. It leaves its place.
    fn attend(&self, rt: &R, accepted: Accepted);

    /// There is no thread for the connection of this number: it leaves its place.
    fn dismiss(&self, rt: &R, side: Side, number: u64);

    /// All that a worker's thread does, to its end.
    fn work(&self, rt: &R, worker: W) -> W;

    /// All that is done beside them where operators have a listener, by a thread of its own, to the end.
    fn watch(&self, rt: &R);

    /// Ends reading on every connection, and shuts the listeners.
    fn stop(&self, rt: &R);

    /// Whether it was stopped.
    fn is_stopping(&self) -> bool;

    /// Nobody gives work any more: workers do what is left, and end.
    fn close(&self);
}

/// What the thread that started all others does meanwhile.
pub trait MainLoop<R> {
    /// It comes back once the server is stopped, or stops it.
    fn run(&mut self, rt: &R);
}
