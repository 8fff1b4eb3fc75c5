//! The message forms: an empty reply at once, and the result in a call of the server's own (XNFS, NLM_TEST_MSG and NLM_LOCK_MSG).
use daemon_scripts::{Misplayed, Row, Way, play_rows};

/// What is told by a call of the server's own, and when.
const ROWS: &[Row] = &[
    (
        "test_message",
        &[
            "begins",
            "2 lock a 0 10 = granted",
            "3 test-msg b 0 0 = done",
            "sends b 1 test-res a 3 0 10",
            "quiet",
        ],
    ),
    // The result is told, and once the server begins anew each host is told of that.
    (
        "message_lock_and_restart",
        &[
            "begins",
            "7 lock-msg a 0 10 = done",
            "sends a 1 lock-res 7 0",
            "quiet",
            "8 lock b 20 1 = granted",
            "restarts",
            "sends a 1 notice 3",
            "sends b 2 notice 3",
            "quiet",
            "rows a 1 3 b 1 3",
        ],
    ),
    // A repeat gets the kept reply, and the kept result in a call under the next number.
    (
        "message_lock_repeated",
        &[
            "begins",
            "7 lock-msg a 0 10 = done",
            "sends a 1 lock-res 7 0",
            "7 lock-msg a 0 10 = done",
            "sends a 2 lock-res 7 0",
            "quiet",
            "8 test b 0 0 = held a 0 10",
        ],
    ),
    // How many owners have a number after each.
    (
        "known_by_message",
        &[
            "begins",
            "220 test-msg a 0 10 = done",
            "221 cancel-msg a 0 10 = done",
            "222 unlock-msg a 0 10 = done",
            "known 0",
            "223 lock-msg a 0 10 = done",
            "known 1",
            "224 lock-msg b 0 10 = done",
            "known 1",
            "225 block-msg b 0 10 = done",
            "known 2",
            "226 cancel-msg b 0 10 = done",
            "known 1",
            "227 unlock-msg a 0 10 = done",
            "known 0",
        ],
    ),
];

#[test]
fn message_forms(rt: HostRuntime) -> Result<(), (&'static str, Misplayed)> {
    play_rows(rt.alloc(), Way::Pieces, ROWS)
}
