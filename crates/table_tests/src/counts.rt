//! How many runs hosts have.
use crate::owner::read_owner;
use held_locks::HostRuns;
use std::alloc::Global;
use std::test::*;

// An owner changes, and with it all runs from so many to so many. Whether there was memory for the owner.
fn recount(alloc: Global, hosts: &mut HostRuns, who: &str, (all, after): (u32, u32)) -> bool {
    match read_owner(alloc, who) {
        Some(owner) => {
            hosts.recount(&owner, all, after);
            true
        }
        None => false,
    }
}

fn are_emptied(hosts: &mut HostRuns) -> bool {
    hosts.put(b"a", 0);
    hosts.get(b"a") == 0 && hosts.get(b"b") == 0 && hosts.is_whole()
}

// Whether each host has what its owners' changes make of all runs.
fn follow(alloc: Global, hosts: &mut HostRuns) -> bool {
    recount(alloc, hosts, "a/1/A", (0, 2))
        && recount(alloc, hosts, "b/1/B", (2, 5))
        && recount(alloc, hosts, "a/1/A", (5, 4))
        && recount(alloc, hosts, "p7", (4, 9))
        && [hosts.get(b"a"), hosts.get(b"b"), hosts.get(b"c")] == [1, 3, 0]
        && recount(alloc, hosts, "b/1/B", (9, 6))
        && are_emptied(hosts)
}

fn are_counted(alloc: Global) -> bool {
    let mut hosts = HostRuns::new(alloc);
    follow(alloc, &mut hosts)
}

#[test]
fn hosts_are_counted(rt: HostRuntime) {
    assert!(rt; are_counted(rt.alloc()));
}
