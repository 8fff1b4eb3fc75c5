//! Records over one connection.
use crate::progress::{Progress, progress_of};
use mio::net::TcpStream;
use record_mark::{Assembler, Records, last_mark};
use std::alloc::{AllocError, Global};
use std::io::{Read, Write};

/// The most bytes that are read at once.
const PIECE: usize = 4_096;

/// The most reads and writes of a turn.
pub const TIMES: usize = 16;

/// A connection, if there is one, what is to be written to it, and what was read from it.
#[derive(Drop)]
pub struct RecordStream {
    alloc: Global,
    stream: Option<TcpStream>,
    outgoing: Vec<u8>,
    incoming: Assembler,
}

fn written(stream: &TcpStream, bytes: &[u8]) -> Result<usize, Progress> {
    let mut to = stream;
    match to.write(bytes) {
        Ok(count) => Ok(count),
        Err(error) => Err(progress_of(error)),
    }
}

fn read(stream: &TcpStream, room: &mut [u8]) -> Result<usize, Progress> {
    let mut from = stream;
    match from.read(room) {
        Ok(0) => Err(Progress::Lost),
        Ok(count) => Ok(count),
        Err(error) => Err(progress_of(error)),
    }
}

impl RecordStream {
    /// Without a connection.
    pub fn new(alloc: Global) -> RecordStream {
        RecordStream {
            alloc,
            stream: None,
            outgoing: Vec::new(alloc),
            incoming: Assembler::new(alloc),
        }
    }

    /// Whether it has a connection, or is being connected.
    pub fn is_connected(&self) -> bool {
        self.stream.is_some()
    }

    /// Whether bytes wait to be written.
    pub fn has_bytes(&self) -> bool {
        !self.outgoing.is_empty()
    }

    /// It has this connection now. What waits to be written goes out over it.
    pub fn connect(&mut self, stream: TcpStream) {
        // A record is to go out at once. Where this fails it goes out later.
        let _ = stream.set_nodelay(true);
        self.stream = Some(stream);
    }

    /// The connection is closed, and what was not written is dropped.
    pub fn close(&mut self) {
        self.stream = None;
        self.outgoing = Vec::new(self.alloc);
        self.incoming = Assembler::new(self.alloc);
    }

    /// A record is to be written, behind its mark. Refused: there is no memory for it. One of more than 65,535 bytes is dropped.
    pub fn put(&mut self, record: &[u8]) -> Result<(), AllocError> {
        let Ok(len) = u16::try_from(record.len()) else {
            return Ok(());
        };
        let mark = last_mark(u32::from(len));
        self.outgoing.reserve(4_104)?;
        self.outgoing.extend_from_slice(mark.as_slice())?;
        self.outgoing.extend_from_slice(record)
    }

    // Writes once.
    fn write_some(&mut self) -> Progress {
        let Some(stream) = &self.stream else {
            return Progress::Waits;
        };
        if self.outgoing.is_empty() {
            return Progress::Waits;
        }
        match written(stream, self.outgoing.as_slice()) {
            Ok(count) => {
                let count = count.min(self.outgoing.len());
                self.outgoing.drain(..count);
                Progress::GoesOn
            }
            Err(progress) => progress,
        }
    }

    /// Writes what the socket takes, at most `TIMES` pieces.
    pub fn write_on(&mut self) -> Progress {
        for _ in 0..TIMES {
            let progress = self.write_some();
            if progress != Progress::GoesOn {
                return progress;
            }
        }
        Progress::GoesOn
    }

    /// Reads once, and gives the records that end in it. `Lost` also where a record is too long, or there is no memory for it.
    pub fn read_some(&mut self) -> Result<Records, Progress> {
        let Some(stream) = &self.stream else {
            return Err(Progress::Waits);
        };
        let mut room = [0u8; PIECE];
        let count = read(stream, &mut room)?;
        let Some(piece) = room.get(..count) else {
            return Err(Progress::Lost);
        };
        self.incoming.feed(piece).map_err(|_| Progress::Lost)
    }
}
