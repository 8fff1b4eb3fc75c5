//! What the threads of a server tell one another.

/// The signals between the threads of a server.
pub trait Signals {
    /// Whether the server is to stop.
    fn is_stopping(&self) -> bool;

    /// A call of the server's own is due: whoever sends them is woken.
    fn call_is_due(&self);

    /// The server is to stop.
    fn stop(&self);
}
