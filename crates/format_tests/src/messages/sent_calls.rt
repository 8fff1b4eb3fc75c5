//! Records of the server's own calls, word by word.
use super::memory::Memory;
use crate::words::is_words;
use call_codec::{Dest, put_record};
use callbacks::{Callback, Destination, Message};
use std::alloc::Global;
use xdr_core::Frame;

/// Whether the record of the call of this number, in an empty frame, is these words.
fn is_record(number: u64, message: &Message, text: &str) -> bool {
    let mut f = Frame::new();
    put_record(number, message, &mut f).is_ok() && is_words(&f, text)
}

/// Whether the record of the call of this number is these words, and so is that of its callback's copy.
fn tells(alloc: Global, number: u64, message: Message, text: &str) -> bool {
    let callback = Callback::new(Destination::Connection(1), message);
    let copy = callback.copy(alloc);
    let is_so = is_record(number, callback.message(), text);
    drop(callback);
    match copy {
        Ok(copy) => {
            let is_copied = is_record(number, copy.message(), text);
            drop(copy);
            is_copied && is_so
        }
        Err(_) => false,
    }
}

const GRANTED: &str = "1 0 2 186b5 4 5 0 0 0 0 8 1 1 1 1 62000000 4 01020304 1 42000000 8 0 0 0 a";

#[test]
fn granted(rt: HostRuntime) {
    let memory = Memory::new(&rt, rt.alloc());
    assert!(rt; tells(rt.alloc(), 0x1_0000_0001, memory.granted(), GRANTED));
}

const LOCK_RESULT: &str = "1 0 2 186b5 4 c 0 0 0 0 4 7 0";

const TEST_RESULT: &str = "2 0 2 186b5 4 b 0 0 0 0 4 3 1 1 7 1 41000000 0 0 0 a";

#[test]
fn results(rt: HostRuntime) {
    let memory = Memory::new(&rt, rt.alloc());
    assert!(rt; tells(rt.alloc(), 0x1_0000_0001, memory.lock_result(), LOCK_RESULT));
    assert!(rt; tells(rt.alloc(), 0x1_0000_0002, memory.test_result(), TEST_RESULT));
}

const NOTICE: &str = "1 0 2 186b8 1 6 0 0 0 0 6 73657276 65720000 3";

const STATUS: &str =
    "9 0 2 30d40 1 ffffffff 0 0 0 0 1 61000000 5 00010203 04050607 08090a0b 0c0d0e0f";

#[test]
fn notices(rt: HostRuntime) {
    let memory = Memory::new(&rt, rt.alloc());
    assert!(rt; tells(rt.alloc(), 0x3_0000_0001, memory.notice(), NOTICE));
    assert!(rt; tells(rt.alloc(), 9, memory.status_of_a(), STATUS));
}

// Whether a record that doesn't fit into the frame leaves it as it was.
fn stays_full(message: &Message) -> bool {
    let mut f = Frame::new();
    let _ = f.append(&[7; 4050]);
    put_record(1, message, &mut f).is_err() && f.len() == 4050
}

#[test]
fn a_full_frame_stays(rt: HostRuntime) {
    let memory = Memory::new(&rt, rt.alloc());
    let notice = memory.notice();
    let stays_full = stays_full(&notice);
    drop(notice);
    assert!(rt; stays_full);
}

fn is_for_host(to: Destination, host: &[u8]) -> bool {
    match Dest::of(&to) {
        Dest::Host(name) => name.as_slice() == host,
        Dest::Connection(_) => false,
    }
}

#[test]
fn whom_it_is_for(rt: HostRuntime) {
    let memory = Memory::new(&rt, rt.alloc());
    assert!(rt; is_for_host(Destination::Host(memory.short(b"b")), b"b"));
    let line = Dest::of(&Destination::Connection(5));
    assert!(rt; matches!(line, Dest::Connection(5)));
}
