//! Stores that are lent: which rows they hold behind a server, and how often they are asked. `store_tests` has the same over a
//! database, and over one that refuses.
use crate::rows::{REFUSED_HOST, SHARE_CONFLICT};
use daemon_scripts::{PIECE, all_hosts, are_rows, memory, played};
use hosts_db::HostStore;
use std::alloc::Global;
use std::test::*;

/// The first LOCK of a host stores its row, and no other call does.
const FIRST_HOST: &[&str] = &[
    "restart",
    "stored yes",
    "grace-over",
    "stored not-asked",
    "connect pipe",
    "2 lock a 0 10 = granted",
    "stored yes",
    "3 lock a 20 1 = granted",
    "stored not-asked",
    "4 nm-lock b 30 1 = granted",
    "stored not-asked",
    "5 lock b 0 1 = denied",
    "stored not-asked",
];

/// After a restart the first host is still known, and the locks are gone.
const SECOND_HOST: &[&str] = &[
    "restart",
    "stored yes",
    "grace-over",
    "stored not-asked",
    "connect pipe",
    "6 test b 0 0 = granted",
    "stored not-asked",
    "7 lock a 0 10 = granted",
    "stored not-asked",
    "8 lock b 10 1 = granted",
    "stored yes",
];

/// Both, of one server that begins anew.
const BOTH_HOSTS: &[&str] = &[
    "restart",
    "stored yes",
    "grace-over",
    "connect pipe",
    "2 lock a 0 10 = granted",
    "stored yes",
    "3 lock a 20 1 = granted",
    "stored not-asked",
    "4 nm-lock b 30 1 = granted",
    "stored not-asked",
    "5 lock b 0 1 = denied",
    "stored not-asked",
    "restart",
    "stored yes",
    "grace-over",
    "connect pipe",
    "6 test b 0 0 = granted",
    "stored not-asked",
    "7 lock a 0 10 = granted",
    "stored not-asked",
    "8 lock b 10 1 = granted",
    "stored yes",
];

/// A server's script, how often it asks the store, and what that holds behind it: the own state, and the rows.
type Server<'a> = (&'a [&'a str], usize, u32, &'a str);

/// The rows are those of the hosts that had a LOCK granted, and a new server keeps them.
const TWO_SERVERS: &[Server<'static>] = &[
    (FIRST_HOST, 2, 1, "a 1 3"),
    (SECOND_HOST, 2, 3, "a 1 3 b 3 3"),
];

/// The same of one server that begins anew.
const ONE_SERVER: &[Server<'static>] = &[(BOTH_HOSTS, 4, 3, "a 1 3 b 3 3")];

/// A restart is all that a server asks for where no host locks.
const NO_LOCK: &[Server<'static>] = &[(SHARE_CONFLICT, 1, 1, "")];

// Whether it goes so with these servers, one after the other.
fn goes<S: HostStore>(alloc: Global, store: &mut S, servers: &[Server<'_>]) -> bool {
    for (lines, asked, own, rows) in servers {
        if played(alloc, store, PIECE, lines) != (Ok(()), *asked)
            || store.own() != *own
            || !are_rows(store, rows)
        {
            return false;
        }
    }
    true
}

// The same over a fresh store.
fn goes_in_memory(alloc: Global, servers: &[Server<'_>]) -> bool {
    match memory(alloc, 0, Vec::new(alloc)) {
        Some(mut store) => goes(alloc, &mut store, servers),
        None => false,
    }
}

#[test]
fn hosts_of_locks(rt: HostRuntime) {
    assert!(rt; goes_in_memory(rt.alloc(), TWO_SERVERS));
}

#[test]
fn hosts_after_a_restart(rt: HostRuntime) {
    assert!(rt; goes_in_memory(rt.alloc(), ONE_SERVER));
}

// A full store is asked for one row, and stays.
fn stays_full(alloc: Global) -> Option<bool> {
    let mut full = memory(alloc, 0, all_hosts(alloc)?)?;
    let told = played(alloc, &mut full, PIECE, REFUSED_HOST);
    Some(told == (Ok(()), 2) && full.hosts().len() == 4_096)
}

#[test]
fn share_conflict(rt: HostRuntime) {
    assert!(rt; goes_in_memory(rt.alloc(), NO_LOCK));
    assert!(rt; stays_full(rt.alloc()) == Some(true));
}
