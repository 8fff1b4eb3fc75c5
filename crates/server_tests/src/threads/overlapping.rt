//! Workers that are inside at once.
use super::memory::MemoryOutbox;
use super::parts::{Kept, null, sent};
use super::rounds::{Crew, Turn, audited};
use crate::hall::{Hall, LONG};
use job_queue::{Channel, Place};
use std::alloc::Global;
use std::sync::atomic::{AtomicU64, Ordering};
use std::sync::ledger::Ledger;
use std::sync::{Mutex, Wait};
use std::test::*;
use std::thread;
use std::thread::Threads;
use std::time::Clock;
use workers::Worker;

/// The connection of all jobs.
const CONNECTION: u64 = 7;

// This worker works to its end, and its answers are counted.
fn work_one<P: Place, L: Ledger, R: Wait + Clock>(
    rt: &R,
    alloc: Global,
    channel: &Channel<P>,
    shared: &Mutex<Kept<L>>,
    hall: &Hall<'_, R>,
    answered: &AtomicU64,
    worker: &mut Worker<P, L>,
) {
    let mut outbox = MemoryOutbox::new(alloc);
    worker.work(rt, channel, shared, hall, &mut outbox);
    for answer in outbox.kept() {
        if answer.connection == CONNECTION {
            answered.fetch_add(1, Ordering::SeqCst);
        }
    }
}

// All workers at once, to their ends: how many jobs they answered.
fn run_threads<P: Place + Send + Sync, L: Ledger + Send + Sync, R: Threads + Wait + Clock + Sync>(
    rt: &R,
    alloc: Global,
    channel: &Channel<P>,
    shared: &Mutex<Kept<L>>,
    hall: &Hall<'_, R>,
    workers: &mut [Worker<P, L>],
) -> u64 {
    let count = AtomicU64::new(0);
    let answered = &count;
    thread::scope(thread::scope_env(), rt, |scope| {
        for worker in workers {
            let _ = scope.spawn(move || work_one(
                rt, alloc, channel, shared, hall, answered, worker,
            ));
        }
    });
    count.load(Ordering::SeqCst)
}

// Puts so many NULLs of one connection: whether all were taken.
fn put_all<P: Place, L: Ledger, R: Wait>(
    rt: &R,
    alloc: Global,
    channel: &Channel<P>,
    reader: &mut Worker<P, L>,
    jobs: u32,
) -> bool {
    for number in 0..jobs {
        let record = null(alloc, number);
        if sent(rt, channel, reader, CONNECTION, u64::from(number), record) != Some(0) {
            return false;
        }
    }
    true
}

/// So many jobs, for so many workers: each job is held until so many are, or for so many milliseconds. Whether they are is told.
#[derive(Clone, Copy)]
pub(crate) struct Plan {
    jobs: u32,
    workers: u16,
    turns: u32,
    is_met: bool,
}

impl Plan {
    /// The first worker puts the jobs, and the others take them: whether that goes as it should.
    pub(crate) fn goes<
        P: Place + Send + Sync,
        L: Ledger + Send + Sync,
        R: Threads + Wait + Clock + Sync,
    >(
        &self,
        rt: &R,
        alloc: Global,
        channel: &Channel<P>,
        shared: &Mutex<Kept<L>>,
        workers: &mut [Worker<P, L>],
    ) -> bool {
        let Some((reader, others)) = workers.split_first_mut() else {
            return false;
        };
        let are_put = put_all(rt, alloc, channel, reader, self.jobs);
        channel.close();
        let jobs = u64::from(self.jobs);
        let hall = Hall::new(rt, jobs, self.turns);
        let answered = run_threads(rt, alloc, channel, shared, &hall, others);
        are_put && answered == jobs && hall.was_full() == self.is_met
    }
}

// Whether each job is answered and audited, by so many workers, beside whoever puts the jobs.
fn is_so<R: Threads + Wait + Clock + Sync>(rt: &R, alloc: Global, plan: &Plan) -> bool {
    let crew = Crew {
        count: plan.workers.saturating_add(1),
        is_audited: true,
    };
    audited(rt, alloc, crew, Turn::Overlaps(plan)) == Some(u64::from(plan.jobs))
}

const TWO: Plan = Plan {
    jobs: 2,
    workers: 2,
    turns: LONG,
    is_met: true,
};

const SIXTEEN: Plan = Plan {
    jobs: 16,
    workers: 16,
    ..TWO
};

/// Fewer than were told never are inside at once. Their jobs are answered all the same.
const FEWER: Plan = Plan {
    jobs: 3,
    workers: 2,
    turns: 100,
    is_met: false,
};

const PLANS: &[Plan] = &[TWO, SIXTEEN, FEWER];

// The numbers of jobs and of workers are the error.
#[test]
fn overlapping_workers(rt: HostRuntime) -> Result<(), (u32, u16)> {
    for plan in PLANS {
        if !is_so(&rt, rt.alloc(), plan) {
            return Err((plan.jobs, plan.workers));
        }
    }
    Ok(())
}
