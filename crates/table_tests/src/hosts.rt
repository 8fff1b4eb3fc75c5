//! The store of hosts in memory at its ends: more hosts than there is room for, and the wrap of the own state. Scripts of its calls,
//! up to its limits, are played in `store_tests`, beside the store over a database.
ghost use Rattle.std.specs.Prelude.{◌<◌};

use crate::wrong::{Wrong, all_hold};
use hosts_db::{FULL_QUOTA, HostRow, HostStore, MemHosts, StoreError};
use std::alloc::{AllocError, Global};
use std::test::*;

fn rows(alloc: Global, count: u16) -> Result<Vec<HostRow>, AllocError> {
    let mut hosts = Vec::new(alloc);
    for number in 0..count {
        let name = Vec::from_slice(alloc, &number.to_be_bytes())?;
        hosts.push(HostRow::new(name, 1, 0, FULL_QUOTA))?;
    }
    Ok(hosts)
}

/// A store of so many hosts, with this own state.
fn store_of(alloc: Global, own: u32, hosts: u16) -> Result<MemHosts, StoreError>
    requires { own < 2147483648 }
{
    let hosts = rows(alloc, hosts)?;
    MemHosts::new(alloc, own, hosts, Vec::new(alloc))
}

/// How many hosts it has, where it could be had.
fn count_of(alloc: Global, hosts: u16) -> Result<usize, StoreError> {
    let store = store_of(alloc, 1, hosts)?;
    Ok(store.hosts().len())
}

#[test]
fn too_many_hosts(rt: HostRuntime) {
    assert!(rt; count_of(rt.alloc(), 4_096) == Ok(4_096));
    assert!(rt; count_of(rt.alloc(), 4_097) == Err(StoreError::StoreRefused));
}

/// The own state after a start of a store that had this one.
fn next_of(alloc: Global, own: u32) -> Result<u32, StoreError>
    requires { own < 2147483648 }
{
    let mut store = store_of(alloc, own, 0)?;
    let told = store.start();
    if told == Ok(store.own()) {
        told
    } else {
        Err(StoreError::StoreRefused)
    }
}

#[test]
fn state_wraps(rt: HostRuntime) -> Result<(), Wrong> {
    let alloc = rt.alloc();
    let are_next = next_of(alloc, 0) == Ok(1)
        && next_of(alloc, 2_147_483_646) == Ok(2_147_483_647)
        && next_of(alloc, 2_147_483_647) == Ok(1);
    all_hold(&[("the own state is next", are_next)])
}
