//! A writer in memory.
use std::io::{self, Error, ErrorKind, Write};

/// Holds so many bytes, and takes no more.
#[derive(Drop)]
pub struct Sink {
    pub held: Vec<u8>,
    pub room: usize,
}

impl Write for Sink {
    fn write(&mut self, buf: &[u8]) -> io::Result<usize> {
        let count = buf.len().min(self.room.saturating_sub(self.held.len()));
        if count == 0 {
            return Err(Error::from(ErrorKind::Other));
        }
        match self.held.extend_from_slice(&buf[..count]) {
            Ok(()) => Ok(count),
            Err(_) => Err(Error::from(ErrorKind::OutOfMemory)),
        }
    }

    fn flush(&mut self) -> io::Result<()> {
        Ok(())
    }
}
