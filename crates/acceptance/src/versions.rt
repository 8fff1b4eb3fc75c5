//! Calls of versions 1 and 3: what they are answered, and in which version the server calls back (XNFS, NLM).
use daemon_scripts::{Misplayed, Row, Way, play_rows};

/// Calls of both versions, beside those of version 4.
const ROWS: &[Row] = &[
    (
        "version_3_lock",
        &[
            "begins",
            "2 v3-lock a 0 10 = granted",
            "3 test b 0 0 = held a 0 10",
        ],
    ),
    // How a TEST of version 3 shows a lock of version 4: of a byte behind 2^32.
    (
        "clamped_holder: far",
        &[
            "begins",
            "170 lock a 4294967296 1 = granted",
            "171 v3-test b 0 0 = held-narrow a 4294967295 0",
        ],
    ),
    // Of 2^32 bytes.
    (
        "clamped_holder: long",
        &[
            "begins",
            "170 lock a 0 4294967296 = granted",
            "171 v3-test b 0 0 = held-narrow a 0 0",
        ],
    ),
    // Of few.
    (
        "clamped_holder: near",
        &[
            "begins",
            "170 lock a 10 10 = granted",
            "171 v3-test b 0 0 = held-narrow a 10 10",
        ],
    ),
    // DEADLCK and STALE_FH are DENIED, a TEST with nobody as holder; version 1 has no SHARE.
    (
        "mapped_statuses",
        &[
            "begins",
            "15 lock a 1 1 = granted",
            "16 lock b 2 1 = granted",
            "17 block a 2 1 = blocked",
            "18 v3-block b 1 1 = denied",
            "19 v3-lock-long a = denied",
            "20 v3-test-long a = held-by-nobody",
            "21 v1-share a = refused 3",
            "22 v3-share a = shared",
            "23 v3-lock-cut a 0 1 = garbage-args",
            "quiet",
        ],
    ),
    // The first of two that wait is told in its own version; who asks again in another is the same waiter.
    (
        "version_1_granted",
        &[
            "begins",
            "36 lock a 0 10 = granted",
            "37 v1-block b 0 10 = blocked",
            "38 block c 0 10 = blocked",
            "39 block b 0 10 = blocked",
            "40 unlock a 0 10 = granted",
            "sends b 1 grant-v1 b 1 0 10",
            "quiet",
        ],
    ),
    // A message form is told in its call's version.
    (
        "version_3_result",
        &[
            "begins",
            "41 lock a 0 10 = granted",
            "42 v3-block-msg b 0 10 = done",
            "sends b 1 lock-res-v3 42 3",
            "quiet",
        ],
    ),
];

#[test]
fn older_versions(rt: HostRuntime) -> Result<(), (&'static str, Misplayed)> {
    play_rows(rt.alloc(), Way::Pieces, ROWS)
}
