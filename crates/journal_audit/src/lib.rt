//! Whether receipts and segments agree: each entry that took a record has one receipt, which stands at its number with its call
//! and its reply.
#![tactic(auto)]

ghost use Rattle.std.specs.Prelude.{◌≡◌, Some, None, map, IfSome, IfNone, MatchResult, IsPermutation};
ghost use Rattle.std.specs.List.Sorted.{IsNonDecreasingBy};
ghost use Rattle.book.specs.Notes.{is_take, view_of_entry};
ghost use Rattle.book.specs.Histories.{notes_of};
ghost use Rattle.journal_audit.specs.Audits.{Agrees, meet, meet_all};

use book::{BookEvent, ClosedSegment, Entry, Operation, Receipt};
use hosts_db::HostStore;
use range_table::RangeTable;
use thiserror::Error;

/// An entry that took a record lacks its receipt, a receipt is none of such an entry, or the numbers don't run on.
#[derive(Clone, Copy, Debug, PartialEq, Eq, Error)]
#[error("22 AuditMismatch")]
pub struct AuditMismatch;

/// Whether the numbers of the segments' entries begin with 1 and run on, each entry that took a record has one receipt, and each
/// receipt stands at its number with its call and its reply. The receipts are in order of number afterwards. It takes no memory,
/// and time by the number of entries, and of receipts times its logarithm.
pub fn audit<R: RangeTable, S: HostStore>(
    segments: &[ClosedSegment<R, S>],
    receipts: &mut [Receipt],
) -> Result<(), AuditMismatch>
    ensures permutation { IsPermutation receipts.old receipts.new }
    ensures sorted { IsNonDecreasingBy (λ r. r.number) receipts.new }
    ensures agrees { MatchResult result (λ _. Agrees segments.now receipts.new) (λ _. Agrees segments.now receipts.new → ⊥) }
{
    put_in_order(receipts);
    let Some((_, left)) = follow(receipts, segments) else {
        return Err(AuditMismatch);
    };
    if left.is_empty() {
        Ok(())
    } else {
        Err(AuditMismatch)
    }
}

// By number.
fn put_in_order(receipts: &mut [Receipt])
    ensures permutation { IsPermutation receipts.old receipts.new }
    ensures sorted { IsNonDecreasingBy (λ r. r.number) receipts.new }
{
    receipts.sort_unstable_by_key(|receipt| receipt.number());
}

// Meets the entries of all segments: the last number, and the receipts that are left.
fn follow<'a, R: RangeTable, S: HostStore>(
    receipts: &'a [Receipt],
    segments: &[ClosedSegment<R, S>],
) -> Option<(u64, &'a [Receipt])>
    ensures some { IfSome result (λ r. meet_all 0 receipts.now (notes_of segments.now) ≡ Some (r.0, r.1.now)) }
    ensures none { IfNone result (meet_all 0 receipts.now (notes_of segments.now) ≡ None) }
{
    let mut last = 0;
    let mut left = receipts;
    for segment in segments {
        (last, left) = met_all(last, left, segment.entries())?;
    }
    Some((last, left))
}

// Meets these entries behind the last number.
fn met_all<'a>(
    from: u64,
    receipts: &'a [Receipt],
    entries: &[Entry],
) -> Option<(u64, &'a [Receipt])>
    ensures some { IfSome result (λ r. meet_all from receipts.now (map view_of_entry entries.now) ≡ Some (r.0, r.1.now)) }
    ensures none { IfNone result (meet_all from receipts.now (map view_of_entry entries.now) ≡ None) }
{
    let mut last = from;
    let mut left = receipts;
    for entry in entries {
        (last, left) = met(last, left, entry)?;
    }
    Some((last, left))
}

// Meets the entry that follows the last number: where it took a record, the first receipt that is left is its own.
fn met<'a>(last: u64, left: &'a [Receipt], entry: &Entry) -> Option<(u64, &'a [Receipt])>
    ensures some { IfSome result (λ r. meet last left.now (view_of_entry entry.now) ≡ Some (r.0, r.1.now)) }
    ensures none { IfNone result (meet last left.now (view_of_entry entry.now) ≡ None) }
{
    if entry.number == 0 || entry.number - 1 != last {
        return None;
    }
    if !took(entry) {
        return Some((entry.number, left));
    }
    match left.split_first() {
        Some((receipt, rest)) if receipt.is_of(entry) => Some((entry.number, rest)),
        _ => None,
    }
}

// Whether the entry took a record.
fn took(entry: &Entry) -> bool
    ensures { result ≡ is_take (view_of_entry entry.now).event }
{
    match &entry.operation {
        Operation::Event { event, .. } => matches!(event, BookEvent::Take { .. }),
        Operation::Line { .. } | Operation::Sent { .. } => false,
    }
}
