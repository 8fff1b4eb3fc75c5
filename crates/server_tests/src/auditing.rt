//! The audit, of segments and receipts that belong together and of others.
use super::rotation::{MemBook, MemSegment, is_noted};
use super::threads::parts::begun;
use book::Receipt;
use journal_audit::audit;
use std::alloc::Global;
use std::test::*;

/// The segments of a book, and the receipts of what it took.
#[derive(Drop)]
struct Evidence {
    segments: Vec<MemSegment>,
    receipts: Vec<Receipt>,
}

fn are_noted(alloc: Global, book: &mut MemBook, xids: &[u32], receipts: &mut Vec<Receipt>) -> bool {
    for xid in xids {
        if !is_noted(alloc, book, *xid, receipts) {
            return false;
        }
    }
    true
}

impl Evidence {
    fn new(alloc: Global) -> Evidence {
        Evidence {
            segments: Vec::new(alloc),
            receipts: Vec::new(alloc),
        }
    }

    // A book notes NULLs of these xids, and is closed.
    fn fill(&mut self, alloc: Global, xids: &[u32]) -> bool {
        match begun(alloc) {
            Some(mut book) => {
                let are_noted = are_noted(alloc, &mut book, xids, &mut self.receipts);
                self.segments.push(book.close()).is_ok() && are_noted
            }
            None => false,
        }
    }
}

// Whether the receipts are those of the segments.
fn agrees(segments: &[MemSegment], receipts: &mut [Receipt]) -> bool {
    audit(segments, receipts).is_ok()
}

// Whether the audit takes all three receipts, and misses the one that is taken away.
fn is_missed(alloc: Global) -> bool {
    let mut evidence = Evidence::new(alloc);
    let are_noted = evidence.fill(alloc, &[1, 2, 3]);
    let are_three = evidence.receipts.len() == 3;
    let agreed = agrees(&evidence.segments, &mut evidence.receipts);
    evidence.receipts.truncate(2);
    let agrees = agrees(&evidence.segments, &mut evidence.receipts);
    are_noted && are_three && agreed && !agrees
}

// Whether it takes neither the receipts of another book nor those of both.
fn are_apart(one: &mut Evidence, two: &mut Evidence) -> bool {
    let takes_other = agrees(&one.segments, &mut two.receipts);
    let is_taken_by_other = agrees(&two.segments, &mut one.receipts);
    let takes_own = agrees(&one.segments, &mut one.receipts);
    let is_joined = one.receipts.append(&mut two.receipts).is_ok();
    let takes_both = agrees(&one.segments, &mut one.receipts);
    takes_own && is_joined && !takes_other && !is_taken_by_other && !takes_both
}

fn are_told_apart(alloc: Global) -> bool {
    let mut one = Evidence::new(alloc);
    let mut two = Evidence::new(alloc);
    one.fill(alloc, &[1, 2]) && two.fill(alloc, &[1, 9]) && are_apart(&mut one, &mut two)
}

#[test]
fn audit_mismatch(rt: HostRuntime) {
    assert!(rt; is_missed(rt.alloc()));
    assert!(rt; are_told_apart(rt.alloc()));
}
