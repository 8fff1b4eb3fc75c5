//! Hosts in a file, over which a server begins anew.
use crate::runs::Run;
use crate::servers::free_port;
use crate::streams::PIPE;
use server::Runtime;
use std::alloc::{AllocError, Global};
use std::fs;

/// A file in the folder for such, which goes with its log once the test is over.
#[derive(Drop)]
pub(crate) struct Scratch {
    pub(crate) path: String,
    log: String,
}

impl Scratch {
    /// By a number that no other has.
    pub(crate) fn new(alloc: Global, number: u16) -> Result<Scratch, AllocError> {
        let path = format!(in alloc; "/tmp/lockd-serving-tests-{number}.db")?;
        let log = format!(in alloc; "{path}-wal")?;
        Ok(Scratch { path, log })
    }

    pub(crate) fn remove(&self, host: &HostRuntime) {
        let _ = fs::remove_file(host, self.path.as_str());
        let _ = fs::remove_file(host, self.log.as_str());
    }
}

// The first server begins in the own state 1, and keeps the row of the host; the second begins in the own state 3, and tells it
// (XNFS, SM_NOTIFY).
fn goes_twice<R: Runtime>(host: &HostRuntime, rt: &R, asked: &str) -> bool {
    let first = Run { asked, ..PIPE };
    let second = Run {
        words: "80000024 2 1 0 0 0 0 4 2 0 80000038 1 0 2 186b8 1 6 0 0 0 0 6 73657276 65720000 3",
        ..first
    };
    first.goes(host, rt) && second.goes(host, rt)
}

/// Whether a server that begins anew over a file tells the hosts of the one before.
pub(crate) fn begins_anew<R: Runtime>(host: &HostRuntime, rt: &R) -> Option<bool> {
    let number = free_port(rt).ok()?;
    let scratch = Scratch::new(host.alloc(), number).ok()?;
    let asked = format!(in host.alloc(); "pipe --db {}", scratch.path).ok()?;
    let goes = goes_twice(host, rt, asked.as_str());
    scratch.remove(host);
    Some(goes)
}
