//! Who asks.
use super::calls::{Answer, Call, put_answer, put_call};
use super::servers::loopback;
use std::alloc::Global;
use std::io::{self, ErrorKind, Read, Write};
use std::net::{Net, TcpStream};
use std::thread;
use std::time::{Clock, Duration};

/// How often a connection is tried for, a hundredth of a second apart.
const TRIES: u32 = 1_000;

/// A connection to this port, once somebody listens there.
pub(crate) fn dial<R>(rt: &R, port: u16) -> io::Result<TcpStream>
where
    R: Net<Stream = TcpStream> + Clock,
{
    for _ in 0..TRIES {
        if let Ok(stream) = TcpStream::connect(rt, loopback(port)) {
            return Ok(stream);
        }
        thread::sleep(rt, Duration::from_millis(10));
    }
    Err(io::Error::from(ErrorKind::TimedOut))
}

/// The first `N` bytes that come.
pub(crate) fn read<const N: usize>(mut from: &TcpStream) -> io::Result<[u8; N]> {
    let mut room = [0u8; N];
    from.read_exact(&mut room)?;
    Ok(room)
}

/// Whether the server closes the connection, and sends nothing more.
pub(crate) fn is_closed(mut from: &TcpStream) -> io::Result<bool> {
    let mut room = [0u8; 1];
    Ok(from.read(&mut room)? == 0)
}

/// Sends bytes.
pub(crate) fn write(mut to: &TcpStream, bytes: &[u8]) -> io::Result<()> {
    to.write_all(bytes)
}

/// Sends the call under this xid.
pub(crate) fn ask(to: &TcpStream, alloc: Global, xid: u32, call: &Call) -> io::Result<()> {
    let mut record = Vec::new(alloc);
    put_call(&mut record, xid, call)?;
    write(to, &record)
}

/// Says this to the call that begins so, its mark in front.
pub(crate) fn answer(
    to: &TcpStream,
    alloc: Global,
    call: &[u8],
    answer: &Answer,
) -> io::Result<()> {
    let mut record = Vec::new(alloc);
    put_answer(&mut record, call.get(4..8).unwrap_or_default(), answer)?;
    write(to, &record)
}

/// Has the server stop: whether it said `ok`.
pub(crate) fn stop<R>(rt: &R, port: u16) -> io::Result<bool>
where
    R: Net<Stream = TcpStream> + Clock,
{
    let local = dial(rt, port)?;
    write(&local, b"stop\n")?;
    Ok(read::<3>(&local)? == *b"ok\n")
}
