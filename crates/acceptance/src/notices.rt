//! What the server itself calls once it has begun anew.
use daemon_scripts::{Misplayed, play, play_with_hosts};

/// Each host is told once, in order of name, and then nothing is due. A notice that nobody answers is sent three times, with
/// the same bytes, and then forgotten. A silence of no call changes nothing.
const NOTICES: &[&str] = &[
    "restart",
    "sends a 1 notice 3",
    "sends b 2 notice 3",
    "quiet",
    "silent 3 8",
    "silent 3 1",
    "silent 3 1",
    "sends a 1 notice 3",
    "silent 3 1",
    "sends a 1 notice 3",
    "silent 3 1",
    "quiet",
];

#[test]
fn notices(rt: HostRuntime) -> Result<(), Misplayed> {
    play_with_hosts(rt.alloc(), 1, b"ab", NOTICES)
}

/// An answer that belongs to no call that was sent changes nothing; one that does ends its call.
const ANSWERS: &[&str] = &[
    "restart",
    "sends a 1 notice 3",
    "answer 9 done",
    "stored not-asked",
    "answer-cut 1 done",
    "stored not-asked",
    "answer 1 done",
    "stored yes",
    "silent 3 1",
    "sends b 2 notice 3",
    "quiet",
];

#[test]
fn answers(rt: HostRuntime) -> Result<(), Misplayed> {
    play_with_hosts(rt.alloc(), 1, b"ab", ANSWERS)
}

/// An answer to no call, one of 3 bytes, and the silence of a call that isn't there: nothing, three times.
const STRAY_ANSWERS: &[&str] = &[
    "begins",
    "answer 9 done",
    "stored not-asked",
    "answer-cut 9 done",
    "stored not-asked",
    "silent 1 9",
    "stored not-asked",
    "quiet",
];

#[test]
fn stray_answers(rt: HostRuntime) -> Result<(), Misplayed> {
    play(rt.alloc(), STRAY_ANSWERS)
}

/// A call that was not sent yet can't be answered. Who answers has the new own state as its epoch, who refuses has not.
const NOTICE_ANSWERED: &[&str] = &[
    "restart",
    "answer 1 done",
    "stored not-asked",
    "sends a 1 notice 3",
    "answer-cut 2 done",
    "stored not-asked",
    "answer 7 done",
    "stored not-asked",
    "rows a 1 3 b 1 3",
    "answer 1 done",
    "stored yes",
    "rows a 3 3 b 1 3",
    "sends b 2 notice 3",
    "answer 2 refused 1",
    "stored not-asked",
    "rows a 3 3 b 1 3",
    "silent 3 1",
    "silent 3 2",
    "quiet",
];

#[test]
fn notice_answered(rt: HostRuntime) -> Result<(), Misplayed> {
    play_with_hosts(rt.alloc(), 1, b"ab", NOTICE_ANSWERED)
}
