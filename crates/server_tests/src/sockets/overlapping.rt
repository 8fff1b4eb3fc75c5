//! Workers that are inside at once.
use super::servers::served_to;
use super::talks::{Response, Talk};
use std::test::*;

#[test]
fn overlapping_connections(rt: HostRuntime) {
    let served = served_to(&rt, rt.alloc(), 16, 16, Talk::Sixteen);
    assert!(rt; served == Some((16, Response::of(16), true)));
}

// One connection, whose own thread is inside beside the workers. All calls come in one read: what it reads later waits until it is out.
#[test]
fn overlapping_workers(rt: HostRuntime) {
    let few = served_to(&rt, rt.alloc(), 2, 3, Talk::AtOnce(3));
    assert!(rt; few == Some((3, Response::of(3), true)));
    let many = served_to(&rt, rt.alloc(), 16, 17, Talk::AtOnce(17));
    assert!(rt; many == Some((17, Response::of(17), true)));
}

// More calls in one write than wait for a worker, so that whoever reads them can't put them all before one is taken.
#[test]
fn more_calls_at_once_than_wait(rt: HostRuntime) {
    let served = served_to(&rt, rt.alloc(), 2, 0, Talk::AtOnce(600));
    assert!(rt; served == Some((600, Response::of(600), true)));
}

// The 257th connection is closed, and the others are answered.
#[test]
fn more_connections_than_places(rt: HostRuntime) {
    let served = served_to(&rt, rt.alloc(), 2, 0, Talk::Full);
    assert!(rt; served == Some((256, Response::of(256), true)));
}
