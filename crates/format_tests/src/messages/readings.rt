//! What records and answers are read as: headers and arguments in turn.
use crate::words::words;
use call_codec::{AnswerReading, Call, Reading, Refusal, one_answer_reading, one_reading};
use nlm4_types::{NlmCall, Stat, Version};
use nsm_types::NsmCall;

/// Whether the record of the call 7 is refused so.
fn is_refused(text: &str, expected: Refusal) -> bool {
    let record = words(text);
    match Reading::read(record.as_slice()) {
        Reading::Turned { xid, refusal } => xid == 7 && refusal == expected,
        Reading::Ignored | Reading::Asks { .. } => false,
    }
}

const MISMATCH: Refusal = Refusal::ProgMismatch { low: 1, high: 4 };

const MONITOR_MISMATCH: Refusal = Refusal::ProgMismatch { low: 1, high: 1 };

const REFUSED: &[(&str, Refusal)] = &[
    ("7 0 3 1 1 1 9 9 9 9", Refusal::RpcMismatch),
    ("7 0 2 1 1 1 6 0 0 0", Refusal::BadCredential),
    ("7 0 2 186a3 4 0 0 0 0 0", Refusal::ProgUnavail),
    ("7 0 2 186b5 0 0 0 0 0 0", MISMATCH),
    ("7 0 2 186b5 2 0 0 0 0 0", MISMATCH),
    ("7 0 2 186b5 5 0 0 0 0 0", MISMATCH),
    ("7 0 2 186b8 2 0 0 0 0 0", MONITOR_MISMATCH),
    ("7 0 2 186b5 4 5 0 0 0 0", Refusal::ProcUnavail),
    ("7 0 2 186b5 1 14 0 0 0 0", Refusal::ProcUnavail),
    ("7 0 2 186b5 3 14 0 0 0 0", Refusal::GarbageArgs),
    ("7 0 2 186b8 1 7 0 0 0 0", Refusal::ProcUnavail),
    ("7 0 2 186b5 4 2 0 0 0 0", Refusal::GarbageArgs),
    ("7 0 2 186b8 1 1 0 0 0 0", Refusal::GarbageArgs),
];

#[test]
fn refusals_in_their_order() -> Result<(), &'static str> {
    for (text, expected) in REFUSED {
        if !is_refused(text, *expected) {
            return Err(*text);
        }
    }
    Ok(())
}

/// What a record asks: it is no call, or NULL, or FREE_ALL of `h5` in state 3.
#[derive(Clone, Copy, PartialEq)]
enum Kind {
    Ignored,
    Null,
    FreeAll,
    Other,
}

fn kind_of(text: &str) -> Kind {
    let record = words(text);
    match &Reading::read(record.as_slice()) {
        Reading::Ignored => Kind::Ignored,
        Reading::Asks {
            xid: 7,
            call: Call::Nlm(Version::V4, NlmCall::Null) | Call::Nsm(NsmCall::Null),
        } => Kind::Null,
        Reading::Asks {
            xid: 8,
            call: Call::Nlm(Version::V4, NlmCall::FreeAll(notify)),
        } if notify.name.bytes == b"h5".as_slice() && notify.state == 3 => Kind::FreeAll,
        Reading::Turned { .. } | Reading::Asks { .. } => Kind::Other,
    }
}

const IGNORED: &[&str] = &[
    "",
    "7 0",
    "7 1 2 186b5 4 0 0 0 0 0",
    "7 0 2 186b5 4 0 0 0 0",
];

#[test]
fn what_is_no_call_is_ignored() -> Result<(), &'static str> {
    for text in IGNORED {
        if kind_of(text) != Kind::Ignored {
            return Err(*text);
        }
    }
    Ok(())
}

#[test]
fn calls_with_bytes_behind_them(rt: HostRuntime) {
    assert!(rt; kind_of("7 0 2 186b5 4 0 0 0 0 0 1 2") == Kind::Null);
    assert!(rt; kind_of("7 0 2 186b8 1 0 0 0 0 0 1 2") == Kind::Null);
    assert!(rt; kind_of("8 0 2 186b5 4 17 0 0 0 0 2 68350000 3 1") == Kind::FreeAll);
}

const fn done(stat: Option<Stat>) -> AnswerReading {
    AnswerReading::AcceptedSuccess { xid: 5, stat }
}

fn is_answer(text: &str, expected: AnswerReading) -> bool {
    AnswerReading::read(words(text).as_slice()) == expected
}

const OTHER: AnswerReading = AnswerReading::OtherAnswer { xid: 5 };

// No status has the word 10. The others are PROG_UNAVAIL, PROG_MISMATCH without its bounds, and MSG_DENIED.
#[test]
fn answers_by_what_they_say() -> Result<(), &'static str> {
    for (text, expected) in [
        ("5 1 0 0 0 0 2 08090000 0", done(Some(Stat::Granted))),
        ("5 1 0 0 0 0 0 1 7", done(Some(Stat::Denied))),
        ("5 1 0 0 0 0 0 4", done(Some(Stat::DeniedGracePeriod))),
        ("5 1 0 0 0 0 0 a", done(None)),
        ("5 1 0 0 0 0", done(None)),
        ("5 1 0 0 0 1", OTHER),
        ("5 1 0 0 0 2", OTHER),
        ("5 1 1 1", OTHER),
        ("5 0 2 186b5 4 0", AnswerReading::Unreadable),
    ] {
        if !is_answer(text, expected) {
            return Err(text);
        }
    }
    Ok(())
}

#[test]
fn three_bytes_are_no_answer(rt: HostRuntime) {
    one_answer_reading();
    one_reading();
    assert!(rt; AnswerReading::read(&[0, 0, 0]) == AnswerReading::Unreadable);
}
