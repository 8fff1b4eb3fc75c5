//! A client that waits for a lock and asks for it again, and a GRANTED that comes late, from bytes to bytes (RFC 1813, appendix II,
//! NLM_GRANTED): where polls end grants, and by the public standards.
use daemon_scripts::{Misplayed, Row, Way, play_rows};

/// Where polls end grants.
const POLLING_ROWS: &[Row] = &[
    // The question comes before the GRANTED is sent: it never is.
    (
        "polled_then_sent",
        &[
            "begins",
            "300 lock a 0 10 = granted",
            "301 block b 0 10 = blocked",
            "302 unlock a 0 10 = granted",
            "303 block b 0 10 = granted",
            "quiet",
            "304 test c 0 0 = held b 0 10",
        ],
    ),
    // It comes between the GRANTED and its answer, which then finds no call. Nor does a silence.
    (
        "sent_then_polled_then_refused",
        &[
            "begins",
            "300 lock a 0 10 = granted",
            "301 block b 0 10 = blocked",
            "302 unlock a 0 10 = granted",
            "sends b 1 grant b 1 0 10",
            "303 block b 0 10 = granted",
            "answer 1 said 1",
            "stored not-asked",
            "304 test c 0 0 = held b 0 10",
            "silent 1 1",
            "quiet",
            "305 unlock b 0 10 = granted",
            "306 test c 0 0 = granted",
        ],
    ),
    // It comes behind the answer, which unlocked the range: the lock is a new one.
    (
        "refused_then_polled",
        &[
            "begins",
            "300 lock a 0 10 = granted",
            "301 block b 0 10 = blocked",
            "302 unlock a 0 10 = granted",
            "sends b 1 grant b 1 0 10",
            "answer 1 said 1",
            "303 test c 0 0 = granted",
            "304 block b 0 10 = granted",
            "quiet",
            "305 test c 0 0 = held b 0 10",
        ],
    ),
    // A GRANTED that was sent and fell silent is due again no more.
    (
        "silent_then_polled",
        &[
            "begins",
            "300 lock a 0 10 = granted",
            "301 block b 0 10 = blocked",
            "302 unlock a 0 10 = granted",
            "sends b 1 grant b 1 0 10",
            "silent 1 1",
            "303 nm-lock b 0 10 = granted",
            "quiet",
            "304 test c 0 0 = held b 0 10",
        ],
    ),
    // GRANTED_MSG likewise, whose answer comes by its cookie. The LOCK_RES of the question is behind it.
    (
        "message_polled",
        &[
            "begins",
            "300 lock a 0 10 = granted",
            "301 block-msg b 0 10 = done",
            "sends b 1 lock-res 301 3",
            "answer 1 done",
            "302 unlock a 0 10 = granted",
            "sends b 2 grant-msg b 1 0 10",
            "answer 2 done",
            "303 block-msg b 0 10 = done",
            "sends b 3 lock-res 303 0",
            "304 granted-res 1 2 1 = done",
            "305 test c 0 0 = held b 0 10",
            "quiet",
        ],
    ),
    // A lock of another range or mode, or of another owner, ends nothing, and the answer unlocks what its GRANTED was for.
    (
        "polled_for_another_lock",
        &[
            "begins",
            "300 lock a 0 10 = granted",
            "301 block b 0 10 = blocked",
            "302 unlock a 0 10 = granted",
            "sends b 1 grant b 1 0 10",
            "303 lock b 0 9 = granted",
            "304 lock c 20 1 = granted",
            "answer 1 said 1",
            "305 test c 0 0 = granted",
        ],
    ),
    // What isn't granted ends nothing: the question is denied, the GRANTED is sent.
    (
        "polled_in_vain",
        &[
            "begins",
            "300 lock a 0 10 = granted",
            "301 block b 0 10 = blocked",
            "302 unlock a 0 10 = granted",
            "303 lock c 0 10 = denied",
            "sends b 1 grant b 1 0 10",
            "answer 1 said 0",
            "quiet",
        ],
    ),
];

/// By the public standards: the answer unlocks what the question was told to be granted.
const ROWS: &[Row] = &[(
    "sent_then_polled_then_refused: by the standards",
    &[
        "begins",
        "300 lock a 0 10 = granted",
        "301 block b 0 10 = blocked",
        "302 unlock a 0 10 = granted",
        "sends b 1 grant b 1 0 10",
        "303 block b 0 10 = granted",
        "answer 1 said 1",
        "stored not-asked",
        "304 test c 0 0 = granted",
    ],
)];

#[test]
fn polls(rt: HostRuntime) -> Result<(), (&'static str, Misplayed)> {
    play_rows(rt.alloc(), Way::Polling, POLLING_ROWS)
}

#[test]
fn polls_by_the_standards(rt: HostRuntime) -> Result<(), (&'static str, Misplayed)> {
    play_rows(rt.alloc(), Way::Pieces, ROWS)
}
