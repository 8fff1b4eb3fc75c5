//! Clients that make calls and read no reply.
use crate::calls::{Calls, Cell};
use std::alloc::Global;
use std::io::{self, Write};
use std::net::{Ipv4Addr, Net, SocketAddr, SocketAddrV4, TcpStream};
use std::sync::Wait;
use std::thread;
use std::thread::Threads;

// Makes calls on one connection until it is cut off.
fn ask_on<R: Wait>(rt: &R, alloc: Global, stream: &TcpStream) -> io::Result<()> {
    let mut calls = Calls::new(alloc, Cell::Null, 0)?;
    let mut to = stream;
    for _ in rt.forever() {
        to.write_all(calls.next(0))?;
    }
    Ok(())
}

// A thread for each connection, until all are cut off.
fn ask_beside<R>(rt: &R, alloc: Global, streams: Vec<TcpStream>)
where
    R: Threads + Wait + Sync,
{
    thread::scope(thread::scope_env(), rt, |scope| {
        for stream in streams {
            let _ = scope.spawn(move || {
                let _ = ask_on(rt, alloc, &stream);
            });
        }
    })
}

fn connect<R>(rt: &R, alloc: Global, port: u16, connections: u32) -> io::Result<Vec<TcpStream>>
where
    R: Net<Stream = TcpStream>,
{
    let to = SocketAddr::V4(SocketAddrV4::new(Ipv4Addr::LOCALHOST, port));
    let mut streams = Vec::new(alloc);
    for _ in 0..connections {
        streams.push(TcpStream::connect(rt, to)?)?;
    }
    Ok(streams)
}

/// Asks on so many connections to a port of loopback, a thread for each, and begins anew once all are cut off, until it is killed or
/// can't connect.
pub(crate) fn ask<R>(rt: &R, alloc: Global, port: u16, connections: u32) -> io::Result<()>
where
    R: Net<Stream = TcpStream> + Threads + Wait + Sync,
{
    for _ in rt.forever() {
        let streams = connect(rt, alloc, port, connections)?;
        ask_beside(rt, alloc, streams);
    }
    Ok(())
}
