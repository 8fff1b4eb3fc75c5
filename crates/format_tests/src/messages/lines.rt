//! Lines of local programs, read and written, and the text of each answer.
//!
//! A row is `LINE = WHAT`: what the line asks, but for its lock, or the line that grants what it asks. With no answer the line
//! is bad.
ghost use Rattle.std.specs.Prelude.{◌≤◌, length};

use crate::words::reads;
use local_ops::{BadLine, LocalAnswer, LocalCall, WriteFault, put_granted};
use owner_ids::Owner;
use range_table::Mode;
use std::alloc::Global;
use std::process::Abort;
use xdr_core::Frame;

/// What a line asks, but for its lock.
fn kind_of(line: &[u8]) -> &'static str {
    let read = LocalCall::read(line);
    let kind = kind(&read);
    drop(read);
    kind
}

fn kind(read: &Result<LocalCall, BadLine>) -> &'static str {
    match read {
        Ok(LocalCall::GetLock { .. }) => "getlk",
        Ok(LocalCall::SetLock { .. }) => "setlk",
        Ok(LocalCall::SetLockWait { .. }) => "setlkw",
        Ok(LocalCall::Close { .. }) => "close",
        Ok(LocalCall::Quota(_)) => "quota",
        Ok(LocalCall::Table) => "table",
        Ok(LocalCall::Hosts) => "hosts",
        Ok(LocalCall::Stop) => "stop",
        Err(BadLine) => "bad",
    }
}

fn put_grant(read: &Result<LocalCall, BadLine>, f: &mut Frame) {
    if let Ok(
        LocalCall::SetLock {
            mode: Some(mode),
            lock,
        },
    ) = read
    {
        let _ = put_granted(*mode, lock, f);
    }
}

/// Whether the line grants what `setlk` asks, or there is none where it asks no lock.
fn is_granted(line: &[u8], want: &str) -> bool {
    let mut f = Frame::new();
    let read = LocalCall::read(line);
    put_grant(&read, &mut f);
    drop(read);
    match f.as_slice() {
        [granted @ .., b'\n'] => granted == want.as_bytes(),
        [] => want == "granted nothing",
        _ => false,
    }
}

fn holds(row: &str) -> bool {
    let (line, want) = row.split_once(" = ").unwrap_or((row, "bad"));
    let line = line.as_bytes();
    if want.starts_with("granted") {
        is_granted(line, want)
    } else {
        kind_of(line) == want
    }
}

// The first row that doesn't hold is the error.
fn check(script: &'static str) -> Result<(), &'static str> {
    for row in script.split('\n') {
        if !holds(row) {
            return Err(row);
        }
    }
    Ok(())
}

const EACH_KIND: &str = "getlk d1 AA r 0 0 = getlk
setlk p1 aa w 5 0 = setlk
setlk p1 aa u 6 1 = setlk
setlkw p9 01020304 w 0 1 = setlkw
setlkw d0 01020304 u 0 1 = setlkw
close d1 aa = close
table = table
hosts = hosts
stop = stop
stop  = bad
quota 61 65536 = quota
quota 61 65537 = bad
quota 61 01 = bad
quota 6 1 = bad";

#[test]
fn each_kind() -> Result<(), &'static str> {
    check(EACH_KIND)
}

const LOCKS: &str = "setlk p1 aa w 5 0 = granted p1 aa w 5 0
setlk p1 aa w 5 1 = granted p1 aa w 5 1
setlk p2147483647 00fF r 0 18446744073709551615 = granted p2147483647 00ff r 0 18446744073709551615
setlk d18446744073709551615 AbCdEf w 9223372036854775807 2 = granted d18446744073709551615 abcdef w 9223372036854775807 2
setlk d0 0A r 10 0 = granted d0 0a r 10 0
setlk p1 aa u 6 1 = granted nothing";

#[test]
fn locks_read_and_granted() -> Result<(), &'static str> {
    check(LOCKS)
}

// Of the first two the one is empty, and the other a space.
const BAD_LINES: &str = "
 \nlock p1 aa w 0 1
SETLK p1 aa w 0 1
setlk p01 aa w 0 1
setlk p aa w 0 1
setlk q1 aa w 0 1
setlk 1 aa w 0 1
setlk p2147483648 aa w 0 1
setlk p+1 aa w 0 1
setlk d18446744073709551616 aa w 0 1
setlk h61/7/41 aa w 0 1
setlk p1 a w 0 1
setlk p1 aaa w 0 1
setlk p1 ag w 0 1
setlk p1  w 0 1
setlk p1 aa x 0 1
setlk p1 aa rw 0 1
getlk p1 aa u 0 1
setlk p1 aa w 00 1
setlk p1 aa w 0 01
setlk p1 aa w -1 1
setlk p1 aa w 0 18446744073709551616
setlk p1 aa w  0 1
setlk p1 aa w 0 1 \n setlk p1 aa w 0 1
setlk p1 aa w 0 1\r
setlk p1 aa w 0
setlk p1 aa w 0 1 2
close p1 aa 0";

#[test]
fn bad_lines(rt: HostRuntime) -> Result<(), &'static str> {
    assert!(rt; reads(rt.alloc(), BadLine, "20 BadLine"));
    check(BAD_LINES)
}

/// The kind of the line `close p1` and so many digits.
fn kind_of_long(alloc: Global, digits: usize) -> &'static str {
    let mut line = String::new(alloc);
    let _ = line.push_str("close p1 ");
    for _ in 0..digits {
        let _ = line.push('a');
    }
    kind_of(line.as_bytes())
}

const LONG_LINES: &[(usize, &str)] = &[
    (0, "bad"),
    (1, "bad"),
    (2, "close"),
    (127, "bad"),
    (128, "close"),
    (129, "bad"),
    (130, "bad"),
    (504, "bad"),
    (5000, "bad"),
];

// The number of digits is the error.
#[test]
fn long_lines(rt: HostRuntime) -> Result<(), usize> {
    for (digits, kind) in LONG_LINES {
        if kind_of_long(rt.alloc(), *digits) != *kind {
            return Err(*digits);
        }
    }
    Ok(())
}

fn held(owner: Owner) -> LocalAnswer {
    LocalAnswer::Held {
        mode: Mode::Exclusive,
        first: 8,
        len: 0,
        owner,
    }
}

/// A client's owner holds it.
fn held_by(rt: &impl Abort, alloc: Global, name: &[u8], svid: i32, oh: &[u8]) -> LocalAnswer {
    held(Owner::Remote {
        name: Vec::from_slice(alloc, name).expect(rt, "memory"),
        svid,
        oh: Vec::from_slice(alloc, oh).expect(rt, "memory"),
    })
}

fn is_written(alloc: Global, answer: LocalAnswer, want: &str) -> bool {
    let mut text = Vec::new(alloc);
    answer.write(&mut text).is_ok() && text.as_slice() == want.as_bytes()
}

// Those that are one word.
fn word_is(alloc: Global, want: &str) -> bool {
    let answer = match want {
        "ok\n" => LocalAnswer::Done,
        "again\n" => LocalAnswer::Again,
        "wait\n" => LocalAnswer::Wait,
        "deadlk\n" => LocalAnswer::Deadlock,
        "nolck\n" => LocalAnswer::NoLocks,
        "fbig\n" => LocalAnswer::TooFar,
        "grace\n" => LocalAnswer::Grace,
        "free\n" => LocalAnswer::Free,
        "bad\n" => LocalAnswer::Bad,
        _ => LocalAnswer::Starved,
    };
    is_written(alloc, answer, want)
}

const WORDS: &[&str] = &[
    "ok\n",
    "again\n",
    "wait\n",
    "deadlk\n",
    "nolck\n",
    "fbig\n",
    "grace\n",
    "free\n",
    "bad\n",
    "starved\n",
];

#[test]
fn answers_of_a_word(rt: HostRuntime) -> Result<(), &'static str> {
    for word in WORDS {
        if !word_is(rt.alloc(), word) {
            return Err(*word);
        }
    }
    Ok(())
}

#[test]
fn who_holds_it(rt: HostRuntime) {
    let alloc = rt.alloc();
    assert!(rt; is_written(alloc, held(Owner::Process(1)), "held w 8 0 p1\n"));
    assert!(rt; is_written(alloc, held(Owner::Description(7)), "held w 8 0 d7\n"));
    let client = held_by(&rt, alloc, b"a", 7, b"A");
    assert!(rt; is_written(alloc, client, "held w 8 0 h61/7/41\n"));
    let nameless = held_by(&rt, alloc, b"", -2147483648, b"");
    assert!(rt; is_written(alloc, nameless, "held w 8 0 h/-2147483648/\n"));
}

fn length_of(alloc: Global, answer: LocalAnswer) -> usize {
    let mut text = Vec::new(alloc);
    match answer.write(&mut text) {
        Ok(()) => text.len(),
        Err(WriteFault) => 0,
    }
}

#[test]
fn a_long_name(rt: HostRuntime) {
    let answer = held_by(&rt, rt.alloc(), &[255; 1024], 7, &[255; 1024]);
    assert!(rt; length_of(rt.alloc(), answer) == 12 + 2048 + 3 + 2048 + 1);
}

// Whether a writer of so much room gets as much of the line, and a fault is told where that isn't all.
fn fills(answer: &LocalAnswer, want: &[u8], room: usize) -> bool
    requires { room ≤ length want.now }
{
    let mut bytes = [0; 100];
    if room > 100 {
        return false;
    }
    let mut rest = &mut bytes[..room];
    let is_whole = answer.write(&mut rest).is_ok();
    is_whole == (room == want.len()) && &bytes[..room] == &want[..room]
}

fn is_cut(answer: LocalAnswer, want: &[u8]) -> bool {
    for room in 0..want.len() + 1 {
        if !fills(&answer, want, room) {
            return false;
        }
    }
    true
}

#[test]
fn a_writer_that_fails(rt: HostRuntime) {
    let answer = held_by(&rt, rt.alloc(), b"ab", 7, b"A");
    assert!(rt; is_cut(answer, b"held w 8 0 h6162/7/41\n"));
    assert!(rt; reads(rt.alloc(), WriteFault, "24 WriteFault"));
}
