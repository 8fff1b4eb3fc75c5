//! A worker that is held before a job has woken another for the jobs that it was to take next.
use super::memory::MemoryOutbox;
use super::parts::{Kept, null};
use super::rounds::{Crew, Turn, audited};
use crate::hall::{Hall, LONG};
use job_queue::{Channel, Job, Place};
use kept_replies::Peer;
use std::alloc::Global;
use std::sync::ledger::Ledger;
use std::sync::{Mutex, Wait};
use std::test::*;
use std::thread;
use std::thread::Threads;
use std::time::{Clock, Duration};
use workers::Worker;

/// The connection of both jobs.
const CONNECTION: u64 = 7;

/// How long the other worker has to fall asleep, in milliseconds.
const ASLEEP: u64 = 300;

// Works to its end: how many replies it handed over.
fn work<P: Place, L: Ledger, R: Wait + Clock>(
    rt: &R,
    alloc: Global,
    channel: &Channel<P>,
    shared: &Mutex<Kept<L>>,
    hall: &Hall<'_, R>,
    worker: &mut Worker<P, L>,
) -> usize {
    let mut outbox = MemoryOutbox::new(alloc);
    worker.work(rt, channel, shared, hall, &mut outbox);
    outbox.kept().len()
}

// Puts a NULL of this number, and wakes nobody: whether it was put.
fn is_put<P: Place, L: Ledger, R: Wait>(
    rt: &R,
    alloc: Global,
    channel: &Channel<P>,
    worker: &mut Worker<P, L>,
    number: u32,
) -> bool {
    match null(alloc, number) {
        Some(record) => {
            let job = Job::new(CONNECTION, Peer::PIPE, u64::from(number), record);
            worker.put(rt, channel, job).is_ok()
        }
        None => false,
    }
}

// Puts two jobs while the other worker sleeps, and answers what it may: how many replies it handed over. None where the channel
// takes no job.
fn help<P: Place, L: Ledger, R: Wait + Clock>(
    rt: &R,
    alloc: Global,
    channel: &Channel<P>,
    shared: &Mutex<Kept<L>>,
    hall: &Hall<'_, R>,
    worker: &mut Worker<P, L>,
) -> Option<usize> {
    thread::sleep(rt, Duration::from_millis(ASLEEP));
    let are_put = is_put(rt, alloc, channel, worker, 0) && is_put(rt, alloc, channel, worker, 1);
    let mut outbox = MemoryOutbox::new(alloc);
    worker.help(rt, channel, shared, hall, &mut outbox, 2);
    channel.close();
    if are_put {
        Some(outbox.kept().len())
    } else {
        None
    }
}

// One helps, and the other works: whether each answers one job.
fn answer_both<P: Place + Send + Sync, L: Ledger + Send + Sync, R: Threads + Wait + Clock + Sync>(
    rt: &R,
    alloc: Global,
    channel: &Channel<P>,
    shared: &Mutex<Kept<L>>,
    helper: &mut Worker<P, L>,
    other: &mut Worker<P, L>,
) -> bool {
    let hall = Hall::new(rt, 2, LONG);
    let hall = &hall;
    let (helped, worked) = thread::join(
        rt,
        move || help(rt, alloc, channel, shared, hall, helper),
        move || work(rt, alloc, channel, shared, hall, other),
    );
    helped == Some(1) && worked == 1 && hall.was_full()
}

/// Of two jobs a worker takes the first, and is held until another has the second: whether each answers one.
pub(crate) fn goes<
    P: Place + Send + Sync,
    L: Ledger + Send + Sync,
    R: Threads + Wait + Clock + Sync,
>(
    rt: &R,
    alloc: Global,
    channel: &Channel<P>,
    shared: &Mutex<Kept<L>>,
    workers: &mut [Worker<P, L>],
) -> bool {
    match workers {
        [helper, other] => answer_both(rt, alloc, channel, shared, helper, other),
        _ => false,
    }
}

#[test]
fn held_helper_wakes_another(rt: HostRuntime) {
    let crew = Crew {
        count: 2,
        is_audited: true,
    };
    assert!(rt; audited(&rt, rt.alloc(), crew, Turn::Helps) == Some(2));
}
