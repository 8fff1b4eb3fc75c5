//! Calls to a port mapper, and its replies (RFC 1833, section 3).
use crate::words::{is_words, words};
use port_lookup::{Action, PortLookup, has_a_deadline, is_asked_once, names_what_was_given};
use port_mapper::{Mapping, Procedure, Response, TCP, put_call, read_flag, read_port};
use std::time::{Duration, Instant};
use xdr_core::Frame;

/// The lock manager in version 4 over TCP, at a port.
const fn lock_manager(port: u32) -> Mapping {
    Mapping {
        prog: 100_021,
        vers: 4,
        prot: TCP,
        port,
    }
}

// Calls in words: the header (RFC 5531, section 9), then the mapping (RFC 1833, section 3.1).
const CALLS: &[(Procedure, u32, &str)] = &[
    (Procedure::GetPort, 0, "7 0 2 186a0 2 3 0 0 0 0 186b5 4 6 0"),
    (
        Procedure::Set,
        4_045,
        "7 0 2 186a0 2 1 0 0 0 0 186b5 4 6 fcd",
    ),
    (Procedure::Unset, 0, "7 0 2 186a0 2 2 0 0 0 0 186b5 4 6 0"),
];

#[test]
fn calls() -> Result<(), &'static str> {
    for (procedure, port, want) in CALLS {
        let mut f = Frame::new();
        let is_put = put_call(&mut f, 7, *procedure, &lock_manager(*port)).is_ok();
        if !is_put || !is_words(&f, want) {
            return Err(*want);
        }
    }
    Ok(())
}

// A port, or why there is none. The verifier of the second reply has a body of 4 bytes. In the others the port is 0 or too large,
// cut short or followed by a word, the call was not done, or it was denied; and the last are no reply to it.
const PORTS: &[(&str, Response<u16>)] = &[
    ("7 1 0 0 0 0 fcd", Response::Result(4_045)),
    ("7 1 0 1 4 9 0 ffff", Response::Result(65_535)),
    ("7 1 0 0 0 0 1", Response::Result(1)),
    ("7 1 0 0 0 0 0", Response::NoResult),
    ("7 1 0 0 0 0 10000", Response::NoResult),
    ("7 1 0 0 0 0", Response::NoResult),
    ("7 1 0 0 0 0 fcd 0", Response::NoResult),
    ("7 1 0 0 0 1", Response::NoResult),
    ("7 1 0 0 0 2 2 4", Response::NoResult),
    ("7 1 1 1 1", Response::NoResult),
    ("8 1 0 0 0 0 fcd", Response::Other),
    ("7 0 2 186a0 2 3 0 0 0 0 186b5 4 6 0", Response::Other),
    ("7 1", Response::Other),
    ("", Response::Other),
];

fn port_in(text: &str) -> Response<u16> {
    let f = words(text);
    match read_port(f.as_slice(), 7) {
        Response::Result(port) => Response::Result(port.number),
        Response::NoResult => Response::NoResult,
        Response::Other => Response::Other,
    }
}

#[test]
fn ports() -> Result<(), &'static str> {
    for (text, want) in PORTS {
        if port_in(text) != *want {
            return Err(*text);
        }
    }
    Ok(())
}

const FLAGS: &[(&str, Response<bool>)] = &[
    ("7 1 0 0 0 0 1", Response::Result(true)),
    ("7 1 0 0 0 0 0", Response::Result(false)),
    ("7 1 0 0 0 0 2", Response::NoResult),
    ("7 1 1 1 5", Response::NoResult),
    ("6 1 0 0 0 0 1", Response::Other),
];

#[test]
fn flags() -> Result<(), &'static str> {
    for (text, want) in FLAGS {
        let f = words(text);
        if read_flag(f.as_slice(), 7) != *want {
            return Err(*text);
        }
    }
    Ok(())
}

// ---- the question to one host

/// What happens to a question.
#[derive(Clone, Copy)]
enum Event<'a> {
    Needed,
    Refused,
    Came(&'a str),
    /// So many seconds went by since the beginning.
    Passed(u64),
    Lost,
}

fn step(lookup: &mut PortLookup, event: Event<'_>, begun: Instant) -> Option<Action> {
    Some(match event {
        Event::Needed => lookup.need(7, begun.checked_add(Duration::from_secs(5))?),
        Event::Refused => lookup.refuse(),
        Event::Came(text) => lookup.hear(words(text).as_slice()),
        Event::Passed(seconds) => { lookup.pass(begun.checked_add(Duration::from_secs(seconds))?) }
        Event::Lost => {
            lookup.lose();
            Action::Nothing
        }
    })
}

// The events of a question, with what is to be done for each and the port that is named then.
const LOOKUP: &[(Event<'static>, Action, Option<u16>)] = &[
    (Event::Came("7 1 0 0 0 0 fcd"), Action::Nothing, None),
    (Event::Needed, Action::Connect, None),
    (Event::Needed, Action::Nothing, None),
    (Event::Came("8 1 0 0 0 0 fcd"), Action::Nothing, None),
    (Event::Passed(4), Action::Nothing, None),
    (Event::Came("7 1 0 0 0 0 fcd"), Action::Close, Some(4_045)),
    (Event::Needed, Action::Nothing, Some(4_045)),
    (Event::Passed(9), Action::Nothing, Some(4_045)),
    (Event::Lost, Action::Nothing, None),
    (Event::Needed, Action::Connect, None),
    (Event::Refused, Action::SendDatagram, None),
    (Event::Refused, Action::Close, None),
    (Event::Needed, Action::Nothing, None),
    (Event::Lost, Action::Nothing, None),
    (Event::Needed, Action::Connect, None),
    (Event::Refused, Action::SendDatagram, None),
    (Event::Passed(5), Action::Close, None),
    (Event::Lost, Action::Nothing, None),
    (Event::Needed, Action::Connect, None),
    (Event::Came("7 1 0 0 0 0 0"), Action::Close, None),
];

#[test]
fn lookups(rt: HostRuntime) -> Result<(), &'static str> {
    is_asked_once();
    has_a_deadline();
    names_what_was_given();
    let begun = Instant::now(&rt).map_err(|_| "no clock")?;
    let mut lookup = PortLookup::new();
    for (event, want, port) in LOOKUP {
        let action = step(&mut lookup, *event, begun).ok_or("no time")?;
        if action != *want || lookup.port() != *port {
            return Err("another step");
        }
    }
    Ok(())
}
