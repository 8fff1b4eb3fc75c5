//! Calls that come again, and a server that begins anew.
use daemon_scripts::{Misplayed, Row, Way, play_rows};

/// A stream comes by 64 bytes.
const ROWS: &[Row] = &[
    // A repeat gets the kept reply and does nothing. One from elsewhere is no repeat.
    (
        "kept_reply",
        &[
            "begins",
            "20 lock a 0 10 = granted",
            "21 unlock a 0 10 = granted",
            "20 lock a 0 10 = granted",
            "22 test b 0 0 = granted",
            "disconnect",
            "connect afar",
            "20 lock a 0 10 = granted",
            "23 test b 0 0 = held a 0 10",
        ],
    ),
    // The lock and its kept reply are gone.
    (
        "restart",
        &[
            "begins",
            "20 lock a 0 10 = granted",
            "begins",
            "24 test b 0 0 = granted",
            "20 lock a 0 10 = granted",
            "25 test b 0 0 = held a 0 10",
        ],
    ),
    // One call more than a segment of the journal has entries, with no event before them.
    (
        "journal_rotation",
        &["connect pipe", "times 1025 1 null = done"],
    ),
];

#[test]
fn repeats(rt: HostRuntime) -> Result<(), (&'static str, Misplayed)> {
    play_rows(rt.alloc(), Way::Pieces, ROWS)
}

/// It comes whole, and once more by five bytes.
const CUT_ROWS: &[Row] = &[
    (
        "same_xid_other_bytes: longer",
        &[
            "begins",
            "140 lock a 0 1 = granted",
            "140 lock a 0 2 = granted",
            "141 test b 1 1 = held a 0 2",
        ],
    ),
    (
        "same_xid_other_bytes: elsewhere",
        &[
            "begins",
            "20 lock a 0 10 = granted",
            "21 unlock a 0 10 = granted",
            "20 lock a 20 1 = granted",
            "24 test b 0 0 = held a 20 1",
        ],
    ),
    // As many replies are kept as there are calls from the lock to its repeat.
    (
        "kept_limit",
        &[
            "begins",
            "20 lock a 0 10 = granted",
            "21 unlock a 0 10 = granted",
            "times 1022 100 unlock a 0 10 = granted",
            "20 lock a 0 10 = granted",
            "25 test b 0 0 = granted",
        ],
    ),
    // With one call more the lock's reply is dropped.
    (
        "kept_limit: one call more",
        &[
            "begins",
            "20 lock a 0 10 = granted",
            "21 unlock a 0 10 = granted",
            "times 1023 100 unlock a 0 10 = granted",
            "20 lock a 0 10 = granted",
            "25 test b 0 0 = held a 0 10",
        ],
    ),
];

#[test]
fn repeats_cut(rt: HostRuntime) -> Result<(), (&'static str, Misplayed)> {
    play_rows(rt.alloc(), Way::Cut, CUT_ROWS)
}
