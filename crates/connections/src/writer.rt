//! What is written to a connection in pieces.
use crate::JOINED;
use crate::connection::{Connection, Lost, Outgoing};
use std::alloc::Global;
use std::io::{self, ErrorKind, Write};
use std::sync::{MutexGuard, Wait};

/// Writes to a connection. What is written between two flushes stays together, whatever others write to it.
#[derive(Drop)]
pub struct Writer<'a, R> {
    rt: &'a R,
    connection: &'a Connection,
    bytes: Vec<u8>,
    // From the first piece that is too long for the bytes to the flush.
    held: Option<MutexGuard<'a, Outgoing>>,
}

fn broken(_lost: Lost) -> io::Error {
    io::Error::from(ErrorKind::BrokenPipe)
}

impl<'a, R: Wait> Writer<'a, R> {
    /// With nothing to write yet.
    pub fn new(alloc: Global, rt: &'a R, connection: &'a Connection) -> Writer<'a, R> {
        Writer {
            rt,
            connection,
            bytes: Vec::new(alloc),
            held: None,
        }
    }

    // Writes what there is, and keeps the others out until the flush.
    fn push_out(&mut self) -> Result<(), Lost> {
        let mut outgoing = match self.held.take() {
            Some(outgoing) => outgoing,
            None => self.connection.outgoing(self.rt),
        };
        let written = self.connection.write(&mut outgoing, self.bytes.as_slice());
        self.bytes.clear();
        self.held = Some(outgoing);
        written
    }
}

impl<'a, R: Wait> Write for Writer<'a, R> {
    fn write(&mut self, bytes: &[u8]) -> io::Result<usize> {
        if self.bytes.len() > JOINED {
            self.push_out().map_err(broken)?;
        }
        self.bytes.extend_from_slice(bytes)?;
        Ok(bytes.len())
    }

    fn flush(&mut self) -> io::Result<()> {
        let written = if self.bytes.is_empty() {
            Ok(())
        } else {
            self.push_out()
        };
        self.held = None;
        written.map_err(broken)
    }
}
