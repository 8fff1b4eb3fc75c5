//! Calls, byte for byte (RFC 5531, section 9; RFC 1813, appendix II).
use std::alloc::{AllocError, Global};

/// What is asked.
#[derive(Clone, Copy, PartialEq, Eq)]
pub(crate) enum Cell {
    Null,
    Test,
    /// A LOCK and an UNLOCK by turns.
    Lock,
}

impl Cell {
    pub(crate) fn named(name: &str) -> Option<Cell> {
        match name {
            "null" => Some(Cell::Null),
            "test" => Some(Cell::Test),
            "lock" => Some(Cell::Lock),
            _ => None,
        }
    }

    // What a connection calls by turns.
    fn procedures(self) -> (Procedure, Procedure) {
        match self {
            Cell::Null => (Procedure::Null, Procedure::Null),
            Cell::Test => (Procedure::Test, Procedure::Test),
            Cell::Lock => (Procedure::Lock, Procedure::Unlock),
        }
    }
}

/// The records that a connection sends by turns, each behind its mark.
#[derive(Drop)]
pub(crate) struct Calls {
    even: Vec<u8>,
    odd: Vec<u8>,
}

/// A procedure of version 4 that is called.
#[derive(Clone, Copy)]
enum Procedure {
    Null,
    Test,
    Lock,
    Unlock,
}

impl Procedure {
    fn number(self) -> u32 {
        match self {
            Procedure::Null => 0,
            Procedure::Test => 1,
            Procedure::Lock => 2,
            Procedure::Unlock => 4,
        }
    }
}

// The byte of this number of a file, exclusive, for the owner of the same number on the host `load`.
fn put_lock(to: &mut Vec<u8>, number: u32) -> Result<(), AllocError> {
    to.extend_from_slice(b"\0\0\0\x04load\0\0\0\x04\xaa\xbb\xcc\xdd\0\0\0\x04")?;
    for word in [number, number, 0, number, 0, 1] {
        to.extend_from_slice(word.to_be_bytes().as_slice())?;
    }
    Ok(())
}

// The arguments of a call with this cookie, these flags, and this behind the lock.
fn put_arguments(
    to: &mut Vec<u8>,
    flags: &[u8],
    number: u32,
    tail: &[u8],
) -> Result<(), AllocError> {
    to.extend_from_slice(b"\0\0\0\x04load")?;
    to.extend_from_slice(flags)?;
    put_lock(to, number)?;
    to.extend_from_slice(tail)
}

// A call without credentials, behind four bytes for its mark.
fn put_call(to: &mut Vec<u8>, procedure: Procedure, number: u32) -> Result<(), AllocError> {
    for word in [0, 0, 0, 2, 100_021, 4, procedure.number(), 0, 0, 0, 0] {
        to.extend_from_slice(word.to_be_bytes().as_slice())?;
    }
    match procedure {
        Procedure::Null => Ok(()),
        Procedure::Test => put_arguments(to, &[0, 0, 0, 1], number, &[]),
        Procedure::Lock => put_arguments(to, &[0, 0, 0, 0, 0, 0, 0, 1], number, &[0; 8]),
        Procedure::Unlock => put_arguments(to, &[], number, &[]),
    }
}

// Sets the mark of a record of one fragment, in the first four bytes.
fn set_mark(record: &mut [u8]) {
    let size = u32::try_from(record.len().saturating_sub(4)).unwrap_or(0);
    if let Some(place) = record.get_mut(..4) {
        place.copy_from_slice(&(size | 0x8000_0000).to_be_bytes());
    }
}

fn record(alloc: Global, procedure: Procedure, number: u32) -> Result<Vec<u8>, AllocError> {
    let mut record = Vec::new(alloc);
    put_call(&mut record, procedure, number)?;
    set_mark(record.as_mut_slice());
    Ok(record)
}

impl Calls {
    /// The calls of the connection of this number.
    pub(crate) fn new(alloc: Global, cell: Cell, number: u32) -> Result<Calls, AllocError> {
        let (even, odd) = cell.procedures();
        let even = record(alloc, even, number)?;
        let odd = record(alloc, odd, number)?;
        Ok(Calls { even, odd })
    }

    /// The call of this number, under its xid.
    pub(crate) fn next(&mut self, xid: u32) -> &[u8] {
        let call = if xid & 1 == 0 {
            &mut self.even
        } else {
            &mut self.odd
        };
        if let Some(place) = call.as_mut_slice().get_mut(4..8) {
            place.copy_from_slice(&xid.to_be_bytes());
        }
        call.as_slice()
    }
}
