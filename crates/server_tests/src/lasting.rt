//! A store of hosts is begun by its `start`.
use hosts_db::{HostStore, Lasting, MemHosts};
use std::alloc::Global;

// Whether it is begun behind a start, and not before.
fn begins(hosts: MemHosts) -> bool {
    let mut store = Lasting::new(hosts);
    let was_begun = store.is_begun();
    let is_started = store.start().is_ok();
    is_started && !was_begun && store.is_begun()
}

fn is_begun(alloc: Global) -> bool {
    match MemHosts::new(alloc, 0, Vec::new(alloc), Vec::new(alloc)) {
        Ok(hosts) => begins(hosts),
        Err(_) => false,
    }
}

#[test]
fn begun_by_a_start(rt: HostRuntime) {
    assert!(rt; is_begun(rt.alloc()));
}
