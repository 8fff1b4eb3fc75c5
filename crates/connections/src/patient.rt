//! Writes that wait for a slow peer.
use std::io::{self, ErrorKind, Write};
use std::net::TcpStream;

/// How many turns of a write may move nothing, one behind the other: with turns of 20 ms these are five seconds.
const PATIENT_TURNS: u32 = 250;

/// Says how long whoever writes waits for a peer that takes nothing.
pub trait Patience {
    /// Whether it waits no longer.
    fn is_over(&self) -> bool;
}

/// A stream whose writes wait while its peer takes nothing, until patience is over. `TimedOut`: it was over, or the peer took nothing
/// for all turns.
#[derive(Drop)]
pub(crate) struct Patient<'a, E> {
    pub(crate) stream: &'a TcpStream,
    pub(crate) patience: &'a E,
}

impl<'a, E: Patience> Write for Patient<'a, E> {
    fn write(&mut self, buf: &[u8]) -> io::Result<usize> {
        let mut to = self.stream;
        for _ in 0..PATIENT_TURNS {
            match to.write(buf) {
                Err(error) if error.kind() == ErrorKind::WouldBlock => {}
                Err(error) if error.kind() == ErrorKind::Interrupted => {}
                written => return written,
            }
            if self.patience.is_over() {
                break;
            }
        }
        Err(io::Error::from(ErrorKind::TimedOut))
    }

    fn flush(&mut self) -> io::Result<()> {
        Ok(())
    }
}
