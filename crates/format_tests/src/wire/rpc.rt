//! Headers, replies, calls and answers of ONC RPC (RFC 5531).
use crate::words::{is_words, words};
use rpc_msg::{
    AcceptError, Answer, AnswerOutcome, Denial, Header, HeaderError, ReplyStatus, one_answer,
    one_verdict, put_call,
};
use xdr_core::Frame;

/// The header of NULL of program 100021 version 4.
const NULL: Header = Header {
    xid: 1,
    prog: 100021,
    vers: 4,
    proc: 0,
};

// Whether the words are read as this header, and how many bytes of arguments there are behind it.
fn is_read_as(text: &str, want: Result<(Header, usize), HeaderError>) -> bool {
    let f = words(text);
    let verdict = match Header::read(f.as_slice()) {
        Ok((header, arguments)) => Ok((header, arguments.len())),
        Err(error) => Err(error),
    };
    verdict == want
}

const WHOLE: Result<(Header, usize), HeaderError> = Ok((NULL, 0));

const BAD_CRED: Result<(Header, usize), HeaderError> = Err(HeaderError::BadCred { xid: 1 });

// The body of AUTH_NONE is not looked at, nor what follows an AUTH_SYS value. There are 17 groups in the first of those refused,
// and in the last line a credential of 401 bytes.
const HEADERS: &[(&str, Result<(Header, usize), HeaderError>)] = &[
    ("1 0 2 186b5 4 0 0 0 0 0", WHOLE),
    ("1 0 2 186b5 4 0 0 4 7 0 0", WHOLE),
    ("1 0 2 186b5 4 0 1 18 0 1 61000000 0 0 0 0 0", WHOLE),
    ("1 0 2 186b5 4 0 1 1c 0 1 61000000 0 0 0 9 0 0", WHOLE),
    ("1 0 2 186b5 4 0 1 18 0 1 61000000 0 0 11 0 0", BAD_CRED),
    ("1 0 2 186b5 4 0 6 0 0 0", BAD_CRED),
    (
        "1 0 3 186b5 4 0 6 0 0 0",
        Err(HeaderError::RpcVersion { xid: 1 }),
    ),
    ("1 1 2", Err(HeaderError::NotACall)),
    ("1 0", Err(HeaderError::NotACall)),
    ("1 0 2 186b5", Err(HeaderError::BadHeader)),
    ("1 0 2 186b5 4 0 0 191", Err(HeaderError::BadHeader)),
];

#[test]
fn headers() -> Result<(), &'static str> {
    one_verdict();
    for (text, want) in HEADERS {
        if !is_read_as(text, *want) {
            return Err(*text);
        }
    }
    Ok(())
}

// The xid of an answer, and how many bytes of a result it has where it is a success.
fn told(text: &str) -> Option<(u32, Option<usize>)> {
    let f = words(text);
    let Answer { xid, outcome } = Answer::read(f.as_slice())?;
    Some(match outcome {
        AnswerOutcome::Success(told) => (xid, Some(told.len())),
        AnswerOutcome::Failure => (xid, None),
    })
}

// Whether the reply is these words. It is an answer, and succeeds exactly where it is a Success.
fn is_reply(reply: ReplyStatus, text: &str, rest: Option<usize>) -> bool {
    let mut f = Frame::new();
    reply.put(&mut f).is_ok() && is_words(&f, text) && told(text) == Some((1, rest))
}

const fn error(error: AcceptError) -> ReplyStatus {
    ReplyStatus::AcceptFailure { xid: 1, error }
}

const fn denied(denial: Denial) -> ReplyStatus {
    ReplyStatus::Denied { xid: 1, denial }
}

const MISMATCH: ReplyStatus = ReplyStatus::Mismatch {
    xid: 1,
    low: 4,
    high: 4,
};

const RPC_MISMATCH: Denial = Denial::RpcMismatch { low: 2, high: 2 };

#[test]
fn replies() -> Result<(), &'static str> {
    for (reply, text, rest) in [
        (ReplyStatus::Success { xid: 1 }, "1 1 0 0 0 0", Some(0)),
        (error(AcceptError::ProgUnavail), "1 1 0 0 0 1", None),
        (MISMATCH, "1 1 0 0 0 2 4 4", None),
        (error(AcceptError::ProcUnavail), "1 1 0 0 0 3", None),
        (error(AcceptError::GarbageArgs), "1 1 0 0 0 4", None),
        (error(AcceptError::SystemErr), "1 1 0 0 0 5", None),
        (denied(RPC_MISMATCH), "1 1 1 0 2 2", None),
        (denied(Denial::BadCred), "1 1 1 1 1", None),
    ] {
        if !is_reply(reply, text, rest) {
            return Err(text);
        }
    }
    Ok(())
}

fn notify_is_sent(text: &str) -> bool {
    let mut f = Frame::new();
    put_call(&mut f, 1, 100024, 1, 6).is_ok()
        && is_words(&f, text)
        && Header::read(f.as_slice()).is_ok()
}

#[test]
fn calls_that_are_sent(rt: HostRuntime) {
    assert!(rt; notify_is_sent("1 0 2 186b8 1 6 0 0 0 0"));
}

const NO_ANSWERS: &[&str] = &[
    "7 1",
    "7 0 0 0 0 0",
    "7 1 2 0 0 0",
    "7 1 0 0 0 6",
    "7 1 0 0 0",
    "7 1 1 2",
];

// A result of one word, behind a verifier of four bytes.
#[test]
fn an_answer(rt: HostRuntime) {
    one_answer();
    assert!(rt; told("7 1 0 5 4 9 0 3") == Some((7, Some(4))));
}

#[test]
fn no_answers() -> Result<(), &'static str> {
    for text in NO_ANSWERS {
        if told(text).is_some() {
            return Err(*text);
        }
    }
    Ok(())
}
