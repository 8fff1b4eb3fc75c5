//! Callbacks: each kind of message, once on its happy path.
use super::memory::{Memory, granted_line};
use callbacks::{Callback, Destination, OwnedLock};
use std::alloc::Global;

// Whether it is a grant, whether it is one to the host `b`, a GRANTED_MSG, and done when it is sent.
fn told(callback: &Callback) -> (bool, bool, bool, bool) {
    let message = callback.message();
    (
        message.is_grant(),
        callback.is_grant_to(b"b") && callback.to().is_host(b"b") && !callback.is_grant_to(b"a"),
        message.is_granted_msg(),
        message.ends_when_sent(),
    )
}

/// What a callback tells, the host that it names, and the owner handle of the lock that it grants.
#[derive(Clone, Copy)]
struct Wanted<'a> {
    told: (bool, bool, bool, bool),
    host: Option<&'a [u8]>,
    handle: Option<&'a [u8]>,
}

fn handle(callback: &Callback) -> Option<&[u8]> {
    match callback.message().granted_lock() {
        Some(lock) => Some(lock.caller.oh()),
        None => None,
    }
}

fn is_so(callback: &Callback, want: Wanted<'_>) -> bool {
    let is_told = told(callback) == want.told;
    is_told && callback.to().host() == want.host && handle(callback) == want.handle
}

// Whether the copy of a callback is so.
fn tells(alloc: Global, callback: Callback, want: Wanted<'_>) -> bool {
    let copy = callback.copy(alloc);
    drop(callback);
    match copy {
        Ok(copy) => {
            let is_so = is_so(&copy, want);
            drop(copy);
            is_so
        }
        Err(_) => false,
    }
}

#[test]
fn a_granted_msg(rt: HostRuntime) {
    let memory = Memory::new(&rt, rt.alloc());
    let callback = Callback::new(Destination::Host(memory.short(b"b")), memory.granted_msg());
    let want = Wanted {
        told: (true, true, true, false),
        host: Some(b"b"),
        handle: Some(b"B"),
    };
    assert!(rt; tells(rt.alloc(), callback, want));
}

// Whether the same lock from byte 5 on, with no length, goes to the end of the file.
fn ends_with_the_file(mut some: OwnedLock) -> bool {
    some.l_offset = 5;
    some.l_len = 0;
    some.range().last == 0x7fff_ffff_ffff_ffff
}

fn is_of_b(some: &OwnedLock) -> bool {
    some.caller.name() == b"b".as_slice()
        && some.caller.svid() == 8
        && some.caller.owner().is_of_host(b"b")
        && some.file().as_bytes() == [1, 2, 3, 4].as_slice()
        && some.range().last == 9
}

#[test]
fn a_lock(rt: HostRuntime) {
    let memory = Memory::new(&rt, rt.alloc());
    let some = memory.lock();
    let is_of_b = is_of_b(&some);
    assert!(rt; ends_with_the_file(some) && is_of_b);
}

#[test]
fn a_result(rt: HostRuntime) {
    let memory = Memory::new(&rt, rt.alloc());
    let callback = Callback::new(Destination::Host(memory.short(b"b")), memory.lock_result());
    let want = Wanted {
        told: (false, false, false, false),
        host: Some(b"b"),
        handle: None,
    };
    assert!(rt; tells(rt.alloc(), callback, want));
}

#[test]
fn a_line(rt: HostRuntime) {
    let callback = Callback::new(Destination::Connection(3), granted_line());
    let want = Wanted {
        told: (false, false, false, true),
        host: None,
        handle: None,
    };
    assert!(rt; tells(rt.alloc(), callback, want));
}
