//! The channel itself.
ghost use Rattle.std.specs.Prelude.{◌≡◌, true, List, [], ◌∷◌, ◌++◌, suc, length, map, IfOk, IfSome, IfNone, MatchResult};
ghost use Rattle.crossbeam_channel.specs.Claims.{view, IsSeatAt};
ghost use Rattle.crossbeam_channel.specs.Ends.{sends_on, receives_on};
ghost use Rattle.job_queue.specs.Task.{Task};
ghost use Rattle.job_queue.specs.Passes.{keeper_of, hand_view, with_put, with_taken, with_made, with_known, no_hand, Settled};

use crate::Job;
use crate::passes::{Handing, Parts, Puts, Settles, Takes, View};
use crossbeam_channel::{Pass, RuledReceiver, RuledSender, TrySendError, bounded_with};
use std::alloc::{AllocError, Global};
use std::sync::atomic::{AtomicBool, AtomicU64, Ordering};
use std::sync::{Mutex, Wait};
use thiserror::Error;

/// The most jobs that wait.
pub const JOBS: usize = 256;

type JobSender = RuledSender<Job, View, Handing>;

type JobReceiver = RuledReceiver<Job, View, Handing>;

/// The right to put or take, with the list of what was put and taken by it. It takes no bytes.
pub type Slip = Pass<Job, View>;

/// The channel takes no more. The job comes back.
#[derive(Debug, Drop, Error)]
#[error("21 Closed")]
pub struct Closed {
    pub job: Job,
}

/// The channel, which can be closed while a sender is left: only a sender gathers passes.
#[derive(Drop)]
pub struct Queue {
    to: JobSender,
    from: JobReceiver,
    // Counts the nudges: a worker without a job sleeps on it.
    bell: AtomicU64,
    asleep: AtomicU64,
    is_closed: AtomicBool,
    batch_lock: Mutex<()>,
    ghost ends: { receives_on from ≡ sends_on to },
}

impl Queue {
    /// The channel, and the keeper's pass.
    pub fn new(alloc: Global) -> Result<(Queue, Slip), AllocError>
        ensures { IfOk result (λ r. IsSeatAt (sends_on r.0.to) r.1 × (view r.1 ≡ keeper_of 1 no_hand [])) }
    {
        let (to, from, keeper) = bounded_with::<Job, View, Handing, Global>(alloc, JOBS)?;
        let queue = Queue {
            to,
            from,
            bell: AtomicU64::new(0),
            asleep: AtomicU64::new(0),
            is_closed: AtomicBool::new(false),
            batch_lock: Mutex::new(()),
        };
        Ok((queue, keeper))
    }

    /// Wakes a worker that sleeps.
    pub fn nudge(&self) {
        if self.asleep.load(Ordering::SeqCst) != 0 {
            self.bell.fetch_add(1, Ordering::SeqCst);
            self.bell.wake_one();
        }
    }

    /// Held by the one that answers a batch of jobs which don't come by the channel.
    pub fn batch_lock(&self) -> &Mutex<()> {
        &self.batch_lock
    }

    /// Takes no more jobs. Workers take what is there, and end.
    pub fn close(&self) {
        self.is_closed.store(true, Ordering::SeqCst);
        self.bell.fetch_add(1, Ordering::SeqCst);
        self.bell.wake_all();
    }

    /// Puts a job and wakes a worker for it, or gives it back: the channel is closed. It waits where `JOBS` jobs wait.
    pub fn send<R: Wait>(&self, rt: &R, slip: &mut Slip, job: Job) -> Result<(), Closed>
        requires channel { IsSeatAt (sends_on self.now.to) slip.old }
        requires works { (view slip.old).works ≡ true }
        ensures channel { IsSeatAt (sends_on self.now.to) slip.new }
        ensures put { MatchResult result (λ _. view slip.new ≡ with_put (view slip.old) job) (λ e. (e.job ≡ job) × (view slip.new ≡ view slip.old)) }
    {
        let sent = self.put(rt, slip, job);
        self.nudge();
        sent
    }

    /// As `send`, but no worker is woken while there is a place: whoever puts a job so takes one next.
    pub fn put<R: Wait>(&self, rt: &R, slip: &mut Slip, job: Job) -> Result<(), Closed>
        requires channel { IsSeatAt (sends_on self.now.to) slip.old }
        requires works { (view slip.old).works ≡ true }
        ensures channel { IsSeatAt (sends_on self.now.to) slip.new }
        ensures put { MatchResult result (λ _. view slip.new ≡ with_put (view slip.old) job) (λ e. (e.job ≡ job) × (view slip.new ≡ view slip.old)) }
    {
        if self.is_closed.load(Ordering::SeqCst) {
            return Err(Closed { job });
        }
        match self.to.try_send_as::<Puts, R>(rt, slip, job) {
            Ok(()) => Ok(()),
            Err(TrySendError::Full(job)) => self.put_in_turn(rt, slip, job),
            Err(error) => Err(Closed {
                job: error.into_inner(),
            }),
        }
    }

    // Waits for a place. Whoever waits takes no job meanwhile, and where all do so only a worker makes one: it is woken first.
    fn put_in_turn<R: Wait>(&self, rt: &R, slip: &mut Slip, job: Job) -> Result<(), Closed>
        requires channel { IsSeatAt (sends_on self.now.to) slip.old }
        requires works { (view slip.old).works ≡ true }
        ensures channel { IsSeatAt (sends_on self.now.to) slip.new }
        ensures put { MatchResult result (λ _. view slip.new ≡ with_put (view slip.old) job) (λ e. (e.job ≡ job) × (view slip.new ≡ view slip.old)) }
    {
        self.nudge();
        match self.to.send_as::<Puts, R>(rt, slip, job) {
            Ok(()) => Ok(()),
            Err(error) => Err(Closed {
                job: error.into_inner(),
            }),
        }
    }

    /// Takes the oldest job, if there is one.
    pub fn try_receive<R: Wait>(&self, rt: &R, slip: &mut Slip) -> Option<Job>
        requires channel { IsSeatAt (sends_on self.now.to) slip.old }
        requires works { (view slip.old).works ≡ true }
        ensures channel { IsSeatAt (sends_on self.now.to) slip.new }
        ensures taken { IfSome result (λ job. view slip.new ≡ with_taken (view slip.old) job) }
        ensures none { IfNone result (view slip.new ≡ view slip.old) }
    {
        match self.from.try_recv_as::<Takes, R>(rt, slip) {
            Ok(job) => Some(job),
            Err(_) => None,
        }
    }

    /// Takes the oldest job, and waits for one where there is none. Who slept wakes the next. `None`: the channel is closed, and
    /// none was left.
    pub fn receive<R: Wait>(&self, rt: &R, slip: &mut Slip) -> Option<Job>
        requires channel { IsSeatAt (sends_on self.now.to) slip.old }
        requires works { (view slip.old).works ≡ true }
        ensures channel { IsSeatAt (sends_on self.now.to) slip.new }
        ensures taken { IfSome result (λ job. view slip.new ≡ with_taken (view slip.old) job) }
        ensures none { IfNone result (view slip.new ≡ view slip.old) }
    {
        if let Some(job) = self.try_receive(rt, slip) {
            return Some(job);
        }
        // It is counted before it looks again, so that no nudge is lost.
        self.asleep.fetch_add(1, Ordering::SeqCst);
        let found = self.wait(rt, slip);
        self.asleep.fetch_sub(1, Ordering::SeqCst);
        if found.is_some() {
            // There may be more, and whoever put them woke one worker alone.
            self.nudge();
        }
        found
    }

    // Looks for a job at each nudge.
    fn wait<R: Wait>(&self, rt: &R, slip: &mut Slip) -> Option<Job>
        requires channel { IsSeatAt (sends_on self.now.to) slip.old }
        requires works { (view slip.old).works ≡ true }
        ensures channel { IsSeatAt (sends_on self.now.to) slip.new }
        ensures taken { IfSome result (λ job. view slip.new ≡ with_taken (view slip.old) job) }
        ensures none { IfNone result (view slip.new ≡ view slip.old) }
    {
        for _ in rt.forever() {
            let heard = self.bell.load(Ordering::SeqCst);
            let is_closed = self.is_closed.load(Ordering::SeqCst);
            if let Some(job) = self.try_receive(rt, slip) {
                return Some(job);
            }
            if is_closed {
                break;
            }
            self.bell.park(rt, (heard & 0xffff_ffff) as u32);
        }
        None
    }

    /// A further pass.
    pub fn cut(&self, keeper: &mut Slip) -> Slip
        requires channel { IsSeatAt (sends_on self.now.to) keeper.old }
        requires keeps { (view keeper.old).keeps ≡ true }
        ensures channel { IsSeatAt (sends_on self.now.to) keeper.new × IsSeatAt (sends_on self.now.to) result }
        ensures keeper { view keeper.new ≡ with_made (view keeper.old) }
        ensures cut { view result ≡ hand_view (view keeper.old).made no_hand }
    {
        self.to.another::<Parts>(keeper)
    }

    /// Takes in the next pass.
    pub fn gather(&self, keeper: &mut Slip, slip: Slip)
        requires channel { IsSeatAt (sends_on self.now.to) keeper.old × IsSeatAt (sends_on self.now.to) slip }
        requires keeps { (view keeper.old).keeps ≡ true }
        requires works { (view slip).works ≡ true }
        requires next { (view slip).name ≡ suc (length (view keeper.old).known) }
        ensures channel { IsSeatAt (sends_on self.now.to) keeper.new }
        ensures known { view keeper.new ≡ with_known (view keeper.old) (view slip).hand }
    {
        self.to.absorb::<Parts>(keeper, slip);
    }

    /// Once all passes are gathered, what was put is what was taken and what is left.
    pub fn settle(&self, keeper: &mut Slip)
        requires channel { IsSeatAt (sends_on self.now.to) keeper.old }
        requires keeps { (view keeper.old).keeps ≡ true }
        requires all { (view keeper.old).made ≡ suc (length (view keeper.old).known) }
        ensures channel { IsSeatAt (sends_on self.now.to) keeper.new × (view keeper.new ≡ view keeper.old) }
        ensures settled { (left : List Task) × Settled ((view keeper.old).hand ∷ (view keeper.old).known) left }
    {
        self.to.learn_as::<Settles>(keeper);
    }
}
