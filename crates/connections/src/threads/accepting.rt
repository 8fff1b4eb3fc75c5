//! The thread of a listener.
use super::service::{Accepted, Service, Side};
use crate::listener::Listener;
use std::net::{SocketAddr, TcpStream};
use std::thread;
use std::thread::{Builder, Scope, Threads};
use std::time::{Clock, Duration};

/// The pause after a connection that could not be taken, in milliseconds.
const PAUSE_MILLIS: u64 = 10;

// What a listener leads to.
#[derive(Clone, Copy)]
pub(crate) struct Post {
    pub(crate) side: Side,
    pub(crate) stack: usize,
}

// A thread of its own for the connection. Whether there is one.
fn start<'s, E, R, W, C>(
    rt: &'s R,
    scope: &'s Scope<'s, E>,
    service: &'s C,
    stack: usize,
    accepted: Accepted,
) -> bool
where
    R: Threads + Sync,
    W: 's,
    C: Service<R, W> + Sync,
{
    Builder::new()
        .stack_size(stack)
        .spawn_scoped(scope, move || service.attend(rt, accepted))
        .is_ok()
}

// Without a place or a thread the connection is closed.
fn welcome<'s, E, R, W, C>(
    rt: &'s R,
    scope: &'s Scope<'s, E>,
    service: &'s C,
    post: Post,
    stream: TcpStream,
    from: SocketAddr,
)
where
    R: Threads + Sync,
    W: 's,
    C: Service<R, W> + Sync,
{
    let Some(accepted) = service.admit(rt, post.side, stream, from) else {
        return;
    };
    let number = accepted.connection.number();
    if !start::<E, R, W, C>(rt, scope, service, post.stack, accepted) {
        service.dismiss(rt, post.side, number);
    }
}

/// Takes connections in until the server is stopped. Where none can be had it pauses.
pub(crate) fn accept<'s, E, R, W, C>(
    rt: &'s R,
    scope: &'s Scope<'s, E>,
    service: &'s C,
    post: Post,
    listener: &Listener,
)
where
    R: Threads + Clock + Sync,
    W: 's,
    C: Service<R, W> + Sync,
{
    for _ in 0..u64::MAX {
        let accepted = listener.accept();
        if service.is_stopping() {
            return;
        }
        match accepted {
            Ok((stream, from)) => welcome::<E, R, W, C>(rt, scope, service, post, stream, from),
            Err(_) => thread::sleep(rt, Duration::from_millis(PAUSE_MILLIS)),
        }
    }
}
