//! The whole table: what acts in grace, and what acts after it.
use crate::wrong::{Wrong, nowhere};
use grace::{CallKind, Phase, admits};
use std::test::*;

/// A kind of call, whether it acts in grace, and whether afterwards.
const TABLE: [(CallKind, bool, bool); 10] = [
    (CallKind::Testing, false, true),
    (CallKind::Locking { reclaim: false }, false, true),
    (CallKind::Locking { reclaim: true }, true, false),
    (CallKind::Sharing { reclaim: false }, false, true),
    (CallKind::Sharing { reclaim: true }, true, false),
    (CallKind::Cancelling, false, true),
    (CallKind::Unlocking, false, true),
    (CallKind::Unsharing, false, true),
    (CallKind::LocalLocking, false, true),
    (CallKind::Always, true, true),
];

/// The place of the first kind that acts otherwise.
fn wrong_kind() -> Option<usize> {
    for (place, (kind, in_grace, afterwards)) in TABLE.iter().enumerate() {
        if admits(Phase::Grace, kind) != *in_grace || admits(Phase::Normal, kind) != *afterwards {
            return Some(place);
        }
    }
    None
}

#[test]
fn whole_table(_rt: HostRuntime) -> Result<(), Wrong> {
    nowhere("a kind of call", wrong_kind())
}
