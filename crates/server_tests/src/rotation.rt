//! Segments of the journal.
ghost use Rattle.std.specs.Prelude.{◌≡◌, ◌<◌};
ghost use Rattle.book.specs.Journal.{room_of};

use super::threads::parts::{begun, null};
use book::{
    Book, BookEvent, ClosedSegment, Peer, Receipt, SEGMENT, Segment, Taken, newest_entered,
};
use bytes::Bytes;
use hosts_db::{HostStore, MemHosts};
use range_arena::ArenaTable;
use std::alloc::Global;
use std::test::*;
use xdr_core::Frame;

/// A book over memory, and a segment of one.
pub(crate) type MemBook = Book<ArenaTable, MemHosts>;

pub(crate) type MemSegment = ClosedSegment<ArenaTable, MemHosts>;

// Whether the receipt has a SUCCESS of this xid.
fn is_success(receipt: &Receipt, xid: u32) -> bool {
    let mut reply = Frame::new();
    let put = receipt.reply().put(&mut reply).is_ok();
    let mut told = Frame::new();
    for word in [xid, 1, 0, 0, 0, 0] {
        let _ = told.append(&word.to_be_bytes());
    }
    put && reply.as_slice() == told.as_slice()
}

// Takes the record, and gives the receipt of its entry.
fn taken(book: &mut MemBook, call: Bytes, same: Bytes) -> Receipt
    requires room { 0 < room_of book.old.journal }
    requires same { same ≡ call }
{
    let peer = Peer::PIPE;
    let step_result = book.apply(BookEvent::Take { peer, record: call });
    newest_entered();
    book.receipt(Taken { peer, record: same }, step_result.reply)
}

/// Takes a NULL of this xid, and keeps its receipt: whether that is the one of its SUCCESS.
pub(crate) fn is_noted(
    alloc: Global,
    book: &mut MemBook,
    xid: u32,
    receipts: &mut Vec<Receipt>,
) -> bool {
    if book.room() == 0 {
        return false;
    }
    let Some(call) = null(alloc, xid) else {
        return false;
    };
    let Ok(same) = call.clone() else {
        return false;
    };
    let receipt = taken(book, call, same);
    let is_right = is_success(&receipt, xid);
    receipts.push(receipt).is_ok() && is_right
}

// The same of as many NULLs as a segment has entries.
fn is_filled(alloc: Global, book: &mut MemBook, receipts: &mut Vec<Receipt>) -> bool {
    for xid in 1..=1_024 {
        if !is_noted(alloc, book, xid, receipts) {
            return false;
        }
    }
    true
}

// Whether the segment is full of entries, with numbers from 1 on.
fn is_full(closed: &MemSegment) -> bool {
    for (entry, number) in closed.entries().iter().zip(1u64..) {
        if entry.number != number {
            return false;
        }
    }
    closed.first() == Some(1) && closed.entries().len() == SEGMENT
}

// Begins a new segment: whether the old one is full.
fn is_closed(alloc: Global, book: &mut MemBook) -> bool {
    match Segment::new(alloc) {
        Ok(fresh) => is_full(&book.rotate(fresh)),
        Err(_) => false,
    }
}

// The number of this receipt, and whether it is of the book's segment.
fn check(book: &MemBook, receipts: &[Receipt], place: usize) -> Option<(u64, bool)> {
    let receipt = receipts.get(place)?;
    Some((receipt.number(), book.check(receipt)))
}

fn rotates(alloc: Global, book: &mut MemBook) -> bool {
    let mut receipts = Vec::new(alloc);
    let was_filled = is_filled(alloc, book, &mut receipts);
    let was_checked = check(book, &receipts, 1_023);
    let was_full = book.room() == 0;
    let was_closed = is_closed(alloc, book);
    let is_noted = is_noted(alloc, book, 1_025, &mut receipts);
    was_filled
        && was_checked == Some((1_024, true))
        && was_full
        && was_closed
        && is_noted
        && book.room() == 1_023
        && check(book, &receipts, 1_023) == Some((1_024, false))
        && check(book, &receipts, 1_024) == Some((1_025, true))
        && book.store().hosts().is_empty()
}

// A book that is closed drops less than the book would.
fn is_rotated(alloc: Global) -> bool {
    match begun(alloc) {
        Some(mut book) => {
            let went = rotates(alloc, &mut book);
            drop(book.close());
            went
        }
        None => false,
    }
}

#[test]
fn journal_rotation(rt: HostRuntime) {
    assert!(rt; is_rotated(rt.alloc()));
}
