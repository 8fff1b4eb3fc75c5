//! The least that a server of records does.
use record_mark::Assembler;
use std::alloc::Global;
use std::io::{self, Read, Write};
use std::net::{Ipv4Addr, Net, SocketAddr, SocketAddrV4, TcpListener, TcpStream};
use std::sync::Wait;
use std::thread;
use std::thread::Threads;

/// A reply to NULL, behind its mark (RFC 5531, section 9).
const REPLY: [u8; 28] = *b"\x80\0\0\x18\0\0\0\0\0\0\0\x01\0\0\0\0\0\0\0\0\0\0\0\0\0\0\0\0";

// Answers the records of one piece.
fn answer(stream: &TcpStream, incoming: &mut Assembler) -> io::Result<bool> {
    let mut room = [0u8; 4_096];
    let mut from = stream;
    let count = from.read(&mut room)?;
    let piece = room.get(..count).unwrap_or_default();
    let Ok(records) = incoming.feed(piece) else {
        return Ok(false);
    };
    let mut to = stream;
    for _ in records.iter() {
        to.write_all(&REPLY)?;
    }
    Ok(!piece.is_empty())
}

fn attend<R: Wait>(rt: &R, alloc: Global, stream: TcpStream) {
    let _ = stream.set_nodelay(true);
    let mut incoming = Assembler::new(alloc);
    for _ in rt.forever() {
        if !answer(&stream, &mut incoming).is_ok_and(|goes_on| goes_on) {
            break;
        }
    }
}

/// Serves until it is killed.
pub(crate) fn serve<R>(rt: &R, alloc: Global, port: u16) -> io::Result<()>
where
    R: Net<Listener = TcpListener, Stream = TcpStream> + Threads + Wait + Sync,
{
    let at = SocketAddr::V4(SocketAddrV4::new(Ipv4Addr::LOCALHOST, port));
    let listener = TcpListener::bind(rt, at)?;
    accept(rt, alloc, &listener);
    Ok(())
}

fn accept<R>(rt: &R, alloc: Global, listener: &TcpListener)
where
    R: Threads + Wait + Sync,
{
    thread::scope(thread::scope_env(), rt, |scope| {
        for _ in rt.forever() {
            if let Ok((stream, _)) = listener.accept() {
                let _ = scope.spawn(move || attend(rt, alloc, stream));
            }
        }
    })
}
