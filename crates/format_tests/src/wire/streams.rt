//! Record marking (RFC 5531, section 11).
use crate::words::reads;
use record_mark::{Assembler, MarkError, Records, last_mark, one_reading, sent_is_one_record};
use std::alloc::Global;

/// The records 61 62 in two fragments and an empty one between them, and 63.
const STREAM: &[u8] = b"\0\0\0\x01a\0\0\0\0\x80\0\0\x01b\x80\0\0\x01c";

// Appends the records, each with a zero byte behind it. Whether there was no fault, and memory.
fn append(text: &mut Vec<u8>, fed: Result<Records, MarkError>) -> bool {
    let Ok(records) = fed else {
        return false;
    };
    let mut fits = true;
    for record in records {
        fits = fits && text.extend_from_slice(record.as_slice()).is_ok() && text.push(0).is_ok();
    }
    fits
}

// Whether the stream cut there is these records.
fn is_cut(alloc: Global, stream: &[u8], at: usize, want: &[u8]) -> bool {
    let mut assembler = Assembler::new(alloc);
    let mut text = Vec::new(alloc);
    let (front, rest) = stream.split_at(at.min(stream.len()));
    append(&mut text, assembler.feed(front))
        && append(&mut text, assembler.feed(rest))
        && text.as_slice() == want
}

// The place of a cut is the error.
#[test]
fn pieces(rt: HostRuntime) -> Result<(), usize> {
    for at in 0..STREAM.len() + 1 {
        if !is_cut(rt.alloc(), STREAM, at, b"ab\0c\0") {
            return Err(at);
        }
    }
    Ok(())
}

#[test]
fn marks(rt: HostRuntime) {
    one_reading();
    sent_is_one_record();
    assert!(rt; last_mark(24) == [0x80, 0, 0, 24]);
}

/// How many records there are, and whether a fault is told with them.
fn told(fed: Result<Records, MarkError>) -> Option<(usize, bool)> {
    match fed {
        Ok(records) => Some((records.len(), false)),
        Err(MarkError::RecordTooLong(records)) => Some((records.len(), true)),
        Err(MarkError::Starved) => None,
    }
}

// The longest record is no fault.
fn longest_is_taken(alloc: Global) -> bool {
    let mut assembler = Assembler::new(alloc);
    told(assembler.feed(&[0x80, 0, 0x20, 0])) == Some((0, false))
}

// The records before the fault are given with it, and none after it.
fn longer_is_refused(alloc: Global) -> bool {
    let mut assembler = Assembler::new(alloc);
    told(assembler.feed(&[0x80, 0, 0, 1, 0x61, 0x80, 0, 0x20, 1])) == Some((1, true))
        && told(assembler.feed(&[0x80, 0, 0, 1, 0x61])) == Some((0, true))
}

fn faults_read(alloc: Global) -> bool {
    let too_long = MarkError::RecordTooLong(Records::new(alloc));
    let is_read = reads(alloc, too_long, "10 RecordTooLong");
    is_read && reads(alloc, MarkError::Starved, "1 Starved")
}

#[test]
fn record_too_long(rt: HostRuntime) {
    assert!(rt; longest_is_taken(rt.alloc()));
    assert!(rt; longer_is_refused(rt.alloc()));
    assert!(rt; faults_read(rt.alloc()));
}
