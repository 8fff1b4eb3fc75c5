//! Passes with all that is known of them in their type, so that they can go into a thread, a list or a lock, and come back.
ghost use Rattle.std.specs.Prelude.{◌≡◌, [], ◌∷◌, List, suc, true, length, IfSome, IfNone, IfOk, MatchResult};
ghost use Rattle.crossbeam_channel.specs.Claims.{view as knows, IsSeatAt, IsKeyed};
ghost use Rattle.crossbeam_channel.specs.Ends.{sends_on};
ghost use Rattle.job_queue.specs.Task.{Task};
ghost use Rattle.job_queue.specs.Passes.{hand_view, no_hand, with_put, with_taken, with_known, Settled};

use crate::Job;
use crate::queue::{Closed, Queue, Slip};
use std::alloc::{AllocError, Global};
use std::marker::{Brand, Model, PhantomData};
use std::sync::{Mutex, Wait};

/// Which channel it is. One call of a program picks it.
pub trait Place {
    ghost use Rattle.atomic_table.specs.Seated.{TableId};
    ghost use Rattle.atomic_table.specs.declared.badge.Badge.{Badge};
    ghost use Rattle.crossbeam_channel.specs.declared.flavors.array.Key.{Key};
    ghost use Rattle.job_queue.specs.Task.{Task};

    ghost table: { TableId };

    ghost key: { Badge (Key Task) };
}

impl Place for Brand {
    ghost use Rattle.crossbeam_channel.specs.Claims.{no_key};
    ghost use Rattle.job_queue.specs.Task.{Task};

    ghost table = { (no_key {X = Task}).table_id };

    ghost key = { no_key };
}

/// The channel with the keeper's pass, which has no name yet.
#[derive(Drop)]
pub struct Opened {
    queue: Queue,
    slip: Slip,
    pub ghost seated: { IsSeatAt (sends_on queue.to) slip },
    pub ghost keeps: { (knows slip).keeps ≡ true },
    pub ghost made: { (knows slip).made ≡ 1 },
    pub ghost known: { (knows slip).known ≡ [] },
}

/// The channel of this name.
#[derive(Drop)]
pub struct Channel<P: Place> {
    queue: Queue,
    of: PhantomData<P>,
    ghost table: { (sends_on queue.to).stamps.shared.table_id ≡ P.table },
    ghost key: { (sends_on queue.to).stamps.shared.key ≡ P.key },
    ghost keyed: { IsKeyed (sends_on queue.to) },
}

/// A pass of this channel that puts and takes, and its number. Contracts see what it knows.
#[derive(Drop)]
pub struct Seat<P: Place> {
    number: u64,
    slip: Slip,
    of: PhantomData<P>,
    ghost table: { slip.table_id ≡ P.table },
    ghost key: { slip.me.0.of ≡ P.key },
    ghost free: { slip.me.1 ≡ [] },
    ghost works: { (knows slip).works ≡ true },
    ghost named: { (knows slip).name ≡ number },
}

/// The keeper's pass, and how many it cut and gathered. Contracts see what it knows.
#[derive(Drop)]
pub struct Keeper<P: Place> {
    made: u64,
    gathered: u64,
    slip: Slip,
    of: PhantomData<P>,
    ghost table: { slip.table_id ≡ P.table },
    ghost key: { slip.me.0.of ≡ P.key },
    ghost free: { slip.me.1 ≡ [] },
    ghost keeps: { (knows slip).keeps ≡ true },
    ghost counted: { (knows slip).made ≡ made },
    ghost known: { length (knows slip).known ≡ gathered },
}

impl<P: Place> Model for Seat<P> {
    ghost use Rattle.crossbeam_channel.specs.Claims.{view as knows};
    ghost use Rattle.job_queue.specs.declared.passes.View.{View};

    ghost Value = { View };

    ghost view = { λ s. knows s.slip };
}

impl<P: Place> Model for Keeper<P> {
    ghost use Rattle.crossbeam_channel.specs.Claims.{view as knows};
    ghost use Rattle.job_queue.specs.declared.passes.View.{View};

    ghost Value = { View };

    ghost view = { λ k. knows k.slip };
}

impl Opened {
    /// With no job. Refused: there is no memory for `JOBS` of them.
    pub fn new(alloc: Global) -> Result<Opened, AllocError> {
        let (queue, slip) = Queue::new(alloc)?;
        Ok(Opened { queue, slip })
    }

    /// Gives it the name.
    pub fn named<P: Place>(self) -> (Channel<P>, Keeper<P>)
        requires table { self.slip.table_id ≡ P.table }
        requires key { self.slip.me.0.of ≡ P.key }
        ensures known { (result.1.known ≡ []) × (result.1.made ≡ 1) }
    {
        let Opened { queue, slip } = self;
        let channel = Channel {
            queue,
            of: PhantomData,
        };
        let keeper = Keeper {
            made: 1,
            gathered: 0,
            slip,
            of: PhantomData,
        };
        (channel, keeper)
    }
}

impl<P: Place> Channel<P> {
    /// Takes no more jobs. Workers take what is there, and end.
    pub fn close(&self) {
        self.queue.close();
    }

    /// Wakes a worker that sleeps.
    pub fn nudge(&self) {
        self.queue.nudge();
    }

    /// Held by the one that answers a batch of jobs which don't come by the channel. It is taken before the lock of what jobs are
    /// answered from, so that few threads wait for that one.
    pub fn batch_lock(&self) -> &Mutex<()> {
        self.queue.batch_lock()
    }
}

impl<P: Place> Seat<P> {
    /// From 1 on, in the order in which seats were cut.
    pub fn number(&self) -> u64
        ensures { result ≡ self.now.name }
    {
        self.number
    }

    /// Puts a job and wakes a worker for it, or gives it back: the channel is closed. It waits where `JOBS` jobs wait.
    pub fn send<R: Wait>(&mut self, rt: &R, channel: &Channel<P>, job: Job) -> Result<(), Closed>
        ensures put { MatchResult result (λ _. self.new ≡ with_put self.old job) (λ e. (e.job ≡ job) × (self.new ≡ self.old)) }
    {
        channel.queue.send(rt, &mut self.slip, job)
    }

    /// As `send`, but no worker is woken: whoever puts a job so takes one next.
    pub fn put<R: Wait>(&mut self, rt: &R, channel: &Channel<P>, job: Job) -> Result<(), Closed>
        ensures put { MatchResult result (λ _. self.new ≡ with_put self.old job) (λ e. (e.job ≡ job) × (self.new ≡ self.old)) }
    {
        channel.queue.put(rt, &mut self.slip, job)
    }

    /// Takes the oldest job, if there is one.
    pub fn try_receive<R: Wait>(&mut self, rt: &R, channel: &Channel<P>) -> Option<Job>
        ensures taken { IfSome result (λ job. self.new ≡ with_taken self.old job) }
        ensures none { IfNone result (self.new ≡ self.old) }
    {
        channel.queue.try_receive(rt, &mut self.slip)
    }

    /// Takes the oldest job, and waits for one where there is none. `None`: the channel is closed, and none was left.
    pub fn receive<R: Wait>(&mut self, rt: &R, channel: &Channel<P>) -> Option<Job>
        ensures taken { IfSome result (λ job. self.new ≡ with_taken self.old job) }
        ensures none { IfNone result (self.new ≡ self.old) }
    {
        channel.queue.receive(rt, &mut self.slip)
    }
}

impl<P: Place> Keeper<P> {
    /// One more seat. `None` after 2^64 - 1.
    pub fn cut(&mut self, channel: &Channel<P>) -> Option<Seat<P>>
        ensures cut { IfSome result (λ seat. seat ≡ hand_view self.old.made no_hand) }
        ensures known { self.new.known ≡ self.old.known }
    {
        if self.made == u64::MAX {
            return None;
        }
        let number = self.made;
        let slip = channel.queue.cut(&mut self.slip);
        self.made = number + 1;
        Some(Seat {
            number,
            slip,
            of: PhantomData,
        })
    }

    /// Takes in the next seat. It comes back where another is the next.
    pub fn gather(&mut self, channel: &Channel<P>, seat: Seat<P>) -> Result<(), Seat<P>>
        ensures gathered { MatchResult result (λ _. self.new ≡ with_known self.old seat.hand) (λ back. (back ≡ seat) × (self.new ≡ self.old)) }
    {
        if self.gathered == u64::MAX || seat.number != self.gathered + 1 {
            return Err(seat);
        }
        let Seat {
            number,
            slip,
            of: _,
        } = seat;
        channel.queue.gather(&mut self.slip, slip);
        self.gathered = number;
        Ok(())
    }

    /// Once all are gathered, what was put is what was taken and what is left. False where some are out.
    pub fn settle(&mut self, channel: &Channel<P>) -> bool
        ensures settled { result ≡ true → (left : List Task) × Settled (self.old.hand ∷ self.old.known) left }
        ensures same { self.new ≡ self.old }
    {
        if self.gathered == u64::MAX || self.made != self.gathered + 1 {
            return false;
        }
        channel.queue.settle(&mut self.slip);
        true
    }
}
