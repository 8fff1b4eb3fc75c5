//! A GRANTED that reaches its peer, and what the peer says to it.
use super::servers::served_to;
use super::talks::{Response, Talk};
use std::test::*;

const GRANTED: Response = Response {
    answered: 3,
    statuses: [0, 3, 0, 0],
    procedure: 5,
};

// The first has the lock, the second waits, the first is rid of it: GRANTED is called.
#[test]
fn granted_goes_to_its_peer(rt: HostRuntime) {
    let served = served_to(&rt, rt.alloc(), 2, 0, Talk::Granting);
    assert!(rt; matches!(served, Some((_, told, _)) if told == GRANTED));
}

// What is no reply ends no wait for one: the denial behind it is heard, so the second loses the lock that it was granted, and the
// first, who waited for it, has it.
#[test]
fn no_reply_leaves_its_call_waiting(rt: HostRuntime) {
    let served = served_to(&rt, rt.alloc(), 2, 0, Talk::Denying);
    assert!(rt; matches!(served, Some((_, told, _)) if told == GRANTED));
}

// Three sendings, over three connections, and the lock stays with the second owner.
#[test]
fn mute_peer(rt: HostRuntime) {
    let served = served_to(&rt, rt.alloc(), 2, 0, Talk::Mute);
    let told = Response {
        answered: 1,
        statuses: [0, 3, 0, 3],
        procedure: 5,
    };
    assert!(rt; matches!(served, Some((_, found, _)) if found == told));
}

#[test]
fn granted_goes_to_its_local_program(rt: HostRuntime) {
    let served = served_to(&rt, rt.alloc(), 2, 0, Talk::Waiting);
    assert!(rt; matches!(served, Some((0, found, _)) if found == Response::of(1)));
}

// Both locks are granted, each behind a grace period.
#[test]
fn grace_begins_anew(rt: HostRuntime) {
    let served = served_to(&rt, rt.alloc(), 2, 0, Talk::Anew);
    assert!(rt; matches!(served, Some((_, found, _)) if found == Response::of(1)));
}
