//! A connection's own thread: it reads records and answers each at once. Where the gate may hold whoever answers, it puts each as a
//! job instead, and answers as many jobs as it put.
ghost use Rattle.std.specs.Prelude.{◌≡◌, ◌<◌, ◌≤◌, ◌*◌, true, false, cond, vec_len, Some, IfSome, IfNone};
ghost use Rattle.job_queue.specs.Passes.{with_put};
ghost use Rattle.byte_io.specs.Reads.{TakesAtMost};
ghost use Rattle.workers.specs.Answers.{with_seat};
ghost use Rattle.workers.specs.Reading.{Puts, Handles, job_of, origin_after, IsRead};

use crate::batch::Batch;
use crate::shared::Shared;
use crate::worker::Worker;
use byte_io::make_place;
use bytes::Bytes;
use hosts_db::HostStore;
use job_queue::{Channel, Job, Place};
use kept_replies::Peer;
use range_table::RangeTable;
use record_mark::{Ending, Intake, Records};
use reply_outbox::{Gate, Outbox};
use std::alloc::Global;
use std::io::Read;
use std::sync::ledger::Ledger;
use std::sync::{Mutex, Wait};

/// The most bytes that are read at once.
pub const MOST_READ_BYTES: usize = 8_192;

/// So many bytes are read at once until a read brings several records. A connection with one call at once needs no more.
const FEW_READ_BYTES: usize = 1_024;

/// Whose records they are, and how many of them were put or answered as jobs: that is the next one's number.
#[derive(Clone, Copy)]
pub struct Origin {
    /// The number of the connection.
    pub connection: u64,
    /// Who asks on it.
    pub peer: Peer,
    /// How many jobs were put or answered, from 0.
    pub put: u64,
}

impl Origin {
    // The job of this record, under the next number. None where there is no number left; then the record is dropped.
    fn next_job(&mut self, asked: Bytes) -> Option<Job>
        ensures some { IfSome result (λ job. (job ≡ job_of self.old asked) × (self.new ≡ origin_after self.old 1)) }
        ensures none { IfNone result (self.new ≡ self.old) }
    {
        let Some(next) = self.put.checked_add(1) else {
            drop(asked);
            return None;
        };
        let job = Job::new(self.connection, self.peer, self.put, asked);
        self.put = next;
        Some(job)
    }
}

/// Where records come from.
#[derive(Drop)]
pub struct Source<T> {
    pub stream: T,
    /// How often the stream is read at most.
    pub bound: u64,
    pub origin: Origin,
}

// What calls are answered by.
#[derive(Drop)]
struct Desk<'a, P: Place, R: RangeTable, S: HostStore, L: Ledger, G, W> {
    rt: &'a W,
    channel: &'a Channel<P>,
    shared: &'a Mutex<Shared<R, S, L>>,
    gate: &'a G,
}

// Makes the place of reads a large one, where it is small and a read brought several records. It stays where there is no memory.
fn grow_place(alloc: Global, place: &mut Vec<u8>, count: usize)
    requires { (0 < vec_len place.old) × (vec_len place.old ≤ MOST_READ_BYTES) }
    ensures { (0 < vec_len place.new) × (vec_len place.new ≤ MOST_READ_BYTES) }
{
    if count < 2 || place.len() == MOST_READ_BYTES {
        return;
    }
    if let Ok(large) = make_place(alloc, MOST_READ_BYTES) {
        *place = large;
    }
}

// How the reading ends behind the records of one read, if it does.
fn ended(are_all: bool, fault: Option<Ending>) -> Option<Ending>
    ensures { result ≡ cond are_all fault (Some Ending.Closed) }
{
    if are_all { fault } else { Some(Ending::Closed) }
}

impl<P: Place, L: Ledger> Worker<P, L> {
    /// Reads the stream to its end, or as often as it may: each read takes `MOST_READ_BYTES` at most. Each whole record is a job,
    /// numbered from `put` on, in order. This worker answers it at once, and writes the replies behind the last record of each read.
    ///
    /// Where the gate may hold it, the jobs of a read go by the channel instead. While there are places nobody is woken for them,
    /// since this worker takes as many jobs as it put before it reads on, whoever put them.
    pub fn read<R: RangeTable, S: HostStore, G: Gate, O: Outbox, T: Read, W: Wait>(
        &mut self,
        rt: &W,
        channel: &Channel<P>,
        shared: &Mutex<Shared<R, S, L>>,
        gate: &G,
        outbox: &mut O,
        source: &mut Source<T>,
    ) -> Ending
        ensures read { IsRead (G.MayAnswer gate.now) (G.holds gate.now) result source.old.origin source.new.origin (T.remaining source.old.stream) (T.remaining source.new.stream)
            self.old self.new (O.handed outbox.old) (O.handed outbox.new) }
        ensures few { TakesAtMost (MOST_READ_BYTES * source.old.bound) (T.remaining source.old.stream) (T.remaining source.new.stream) }
    {
        let alloc = self.alloc();
        let Ok(mut place) = make_place(alloc, FEW_READ_BYTES) else {
            return Ending::Starved;
        };
        let mut intake = Intake::new(alloc);
        let desk = Desk {
            rt,
            channel,
            shared,
            gate,
        };
        for _read in 0..source.bound {
            let (records, fault) = match intake.read(&mut source.stream, place.as_mut_slice()) {
                Ok(read) => read,
                Err(ending) => return ending,
            };
            let count = records.len();
            let are_all = self.handle(&desk, outbox, &mut source.origin, records);
            grow_place(alloc, &mut place, count);
            match ended(are_all, fault) {
                Some(ending) => return ending,
                None => {}
            }
        }
        Ending::Failed
    }

    // Has the records of one read answered: at once, or by the channel, where the gate may hold who answers. Whether that were all.
    fn handle<R: RangeTable, S: HostStore, G: Gate, O: Outbox, W: Wait>(
        &mut self,
        desk: &Desk<'_, P, R, S, L, G, W>,
        outbox: &mut O,
        origin: &mut Origin,
        records: Records,
    ) -> bool
        ensures { Handles (G.MayAnswer desk.now.gate.now) (G.holds desk.now.gate.now) result records.items origin.old origin.new self.old self.new (O.handed outbox.old) (O.handed outbox.new) }
    {
        if desk.gate.may_hold() {
            let count = records.len();
            let are_put = self.put_all(desk.rt, desk.channel, origin, records);
            self.help(desk.rt, desk.channel, desk.shared, desk.gate, outbox, count);
            return are_put;
        }
        let are_answered = self.answer_all(desk, outbox, origin, records);
        outbox.flush();
        are_answered
    }

    // Answers the records of one read, each at once. Whether there was a number for each.
    fn answer_all<R: RangeTable, S: HostStore, G: Gate, O: Outbox, W: Wait>(
        &mut self,
        desk: &Desk<'_, P, R, S, L, G, W>,
        outbox: &mut O,
        origin: &mut Origin,
        records: Records,
    ) -> bool
        ensures { Handles (G.MayAnswer desk.now.gate.now) false result records.items origin.old origin.new self.old self.new (O.handed outbox.old) (O.handed outbox.new) }
    {
        let mut batch = Batch::new(desk.channel.batch_lock(), records.len());
        for asked in records {
            let Some(job) = origin.next_job(asked) else {
                return false;
            };
            batch.go_on(outbox, job.connection());
            self.serve(desk.rt, desk.shared, desk.gate, outbox, job);
        }
        true
    }

    // Puts the records of one read. Whether the channel took them all. (It has a frame of its own on the stack, as `help` has: else each
    // connection's thread takes the memory of what no thread does where the gate holds nobody.)
    #[inline(never)]
    fn put_all<W: Wait>(
        &mut self,
        rt: &W,
        channel: &Channel<P>,
        origin: &mut Origin,
        records: Records,
    ) -> bool
        ensures { Puts result records.items origin.old origin.new self.old self.new }
    {
        for asked in records {
            if !self.put_next(rt, channel, origin, asked) {
                return false;
            }
        }
        true
    }

    // Puts one record. Whether the channel took it, and there was a number for it.
    fn put_next<W: Wait>(
        &mut self,
        rt: &W,
        channel: &Channel<P>,
        origin: &mut Origin,
        asked: Bytes,
    ) -> bool
        ensures put { result ≡ true → (self.new ≡ with_seat self.old (with_put self.old.seat (job_of origin.old asked))) × (origin.new ≡ origin_after origin.old 1) }
        ensures back { result ≡ false → (self.new ≡ self.old) × (origin.new ≡ origin.old) }
    {
        let Some(next) = origin.put.checked_add(1) else {
            drop(asked);
            return false;
        };
        let job = Job::new(origin.connection, origin.peer, origin.put, asked);
        match self.put(rt, channel, job) {
            Ok(()) => {
                origin.put = next;
                true
            }
            Err(closed) => {
                drop(closed.job);
                false
            }
        }
    }
}
