//! A reader in memory, which fails where it is told to.
use std::io::{self, Error, ErrorKind, Read};

/// How a reader gives its bytes.
#[derive(Clone, Copy)]
pub struct Pace {
    /// The most bytes that one read gives.
    pub most: usize,
    /// How often each read is interrupted first.
    pub interruptions: u32,
    /// How many reads go well. Those behind them fail.
    pub reads: usize,
}

/// All at once.
pub const AT_ONCE: Pace = Pace {
    most: usize::MAX,
    interruptions: 0,
    reads: usize::MAX,
};

/// Gives its bytes at this pace.
#[derive(Drop)]
pub struct Source<'a> {
    rest: &'a [u8],
    pace: Pace,
    interruptions_left: u32,
}

impl<'a> Source<'a> {
    /// From the first byte on.
    pub fn new(bytes: &'a [u8], pace: Pace) -> Source<'a> {
        Source {
            rest: bytes,
            pace,
            interruptions_left: pace.interruptions,
        }
    }
}

impl<'a> Read for Source<'a> {
    fn read(&mut self, buf: &mut [u8]) -> io::Result<usize> {
        if self.interruptions_left > 0 {
            self.interruptions_left -= 1;
            return Err(Error::from(ErrorKind::Interrupted));
        }
        if self.pace.reads == 0 {
            return Err(Error::from(ErrorKind::ConnectionReset));
        }
        self.interruptions_left = self.pace.interruptions;
        self.pace.reads -= 1;
        let count = self.rest.len().min(self.pace.most).min(buf.len());
        buf[..count].copy_from_slice(&self.rest[..count]);
        self.rest = &self.rest[count..];
        Ok(count)
    }
}
