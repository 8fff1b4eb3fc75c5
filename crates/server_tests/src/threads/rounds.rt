//! A round: workers are cut, do what a test tells them, and are gathered. There are no early ends once there is a book: each
//! would drop all that is alive, and is a proof of its own.
ghost use Rattle.std.specs.Prelude.{◌≡◌, false};
ghost use Rattle.book.specs.Notes.{is_take, view_of_event};
ghost use Rattle.workers.specs.Holds.{IsNew};

use super::answering::Waiting;
use super::helping;
use super::local::Talk;
use super::overlapping::Plan;
use super::parts::{Kept, begun};
use super::reading::Reading;
use book::{Book, BookEvent};
use hosts_db::MemHosts;
use job_queue::{Channel, Keeper, Opened, Place};
use range_arena::ArenaTable;
use server::worker_pool::{PoolBuilder, PoolShutdown};
use std::alloc::Global;
use std::marker::Brand;
use std::sync::ledger::{Blank, Ledger};
use std::sync::{Mutex, Wait};
use std::thread::Threads;
use std::time::Clock;
use workers::{GhostTrace, Shared, Worker};

/// How many workers there are, and whether what they do is kept for the audit.
#[derive(Clone, Copy)]
pub(crate) struct Crew {
    pub(crate) count: u16,
    pub(crate) is_audited: bool,
}

/// What is done in a round: whether it goes as it should is told by its `goes`.
#[derive(Clone, Copy)]
pub(crate) enum Turn<'a> {
    Answers(&'a Waiting<'a>),
    Helps,
    Overlaps(&'a Plan),
    Reads(&'a Reading<'a>),
    Talks(&'a Talk<'a>),
}

// All are taken in, and what they did is audited.
fn ended<P: Place, L: Ledger>(
    channel: &Channel<P>,
    mut pool_shutdown: PoolShutdown<P, L>,
    workers: Vec<Worker<P, L>>,
    shared: Kept<L>,
    crew: Crew,
) -> Option<u64>
    requires { crew.count ≡ L.parts }
{
    let are_in = pool_shutdown.take_all(channel, workers).is_ok();
    let audited = pool_shutdown.settle(channel, shared, u64::from(crew.count));
    if are_in { audited.ok() } else { None }
}

// Whether there was room for the event. What it gives falls by a call, which is proved once.
pub(crate) fn enters<L: Ledger>(shared: &mut Kept<L>, event: BookEvent) -> bool
    requires { is_take (view_of_event event) ≡ false }
{
    let mut ghost_trace = GhostTrace::new();
    match shared.apply(event, &mut ghost_trace) {
        Ok(step_result) => {
            drop(step_result);
            true
        }
        Err(event) => {
            drop(event);
            false
        }
    }
}

// The grace period is over: whether there was room.
pub(crate) fn opens<L: Ledger>(shared: &mut Kept<L>) -> bool {
    enters(shared, BookEvent::GraceOver)
}

fn goes<P: Place + Send + Sync, L: Ledger + Send + Sync, R: Threads + Wait + Clock + Sync>(
    rt: &R,
    alloc: Global,
    channel: &Channel<P>,
    shared: &Mutex<Kept<L>>,
    workers: &mut [Worker<P, L>],
    turn: Turn<'_>,
) -> bool {
    match turn {
        Turn::Answers(waiting) => waiting.goes(rt, alloc, channel, shared, workers),
        Turn::Helps => helping::goes(rt, alloc, channel, shared, workers),
        Turn::Overlaps(plan) => plan.goes(rt, alloc, channel, shared, workers),
        Turn::Reads(reading) => reading.goes(rt, alloc, channel, shared, workers),
        Turn::Talks(talk) => talk.goes(rt, alloc, shared),
    }
}

// Where there is no memory for the workers, none are taken in, and so they don't settle.
fn work<P: Place + Send + Sync, L: Ledger + Send + Sync, R: Threads + Wait + Clock + Sync>(
    rt: &R,
    alloc: Global,
    channel: &Channel<P>,
    mut pool_builder: PoolBuilder<P, L>,
    shared: Kept<L>,
    crew: Crew,
    turn: Turn<'_>,
) -> Option<u64>
    requires { crew.count ≡ L.parts }
{
    let shared = Mutex::new(shared);
    let mut workers = pool_builder
        .cut_all(channel, crew.count)
        .unwrap_or(Vec::new(alloc));
    let goes = goes(rt, alloc, channel, &shared, &mut workers, turn);
    let pool_shutdown = pool_builder.into_pool_shutdown();
    let audited = ended(channel, pool_shutdown, workers, shared.into_inner(), crew);
    if goes { audited } else { None }
}

fn worker_pool<P: Place + Send + Sync, L: Ledger + Send + Sync, R: Threads + Wait + Clock + Sync>(
    rt: &R,
    alloc: Global,
    channel: &Channel<P>,
    keeper: Keeper<P>,
    blank: Blank,
    book: Book<ArenaTable, MemHosts>,
    crew: Crew,
    turn: Turn<'_>,
) -> Option<u64>
    requires name { blank.name ≡ L.name }
    requires parts { (blank.parts ≡ L.parts) × (blank.parts ≡ crew.count) }
    requires new { IsNew book.journal }
{
    let (total, share) = blank.open::<L>();
    let pool_builder = PoolBuilder::new(
        alloc,
        keeper,
        share,
        u64::from(crew.count),
        crew.is_audited,
    );
    match Shared::new(alloc, book, total, crew.is_audited) {
        Ok(shared) => open(rt, alloc, channel, pool_builder, shared, crew, turn),
        Err(_) => {
            drop(pool_builder);
            None
        }
    }
}

// The server has begun.
fn open<P: Place + Send + Sync, L: Ledger + Send + Sync, R: Threads + Wait + Clock + Sync>(
    rt: &R,
    alloc: Global,
    channel: &Channel<P>,
    pool_builder: PoolBuilder<P, L>,
    mut shared: Kept<L>,
    crew: Crew,
    turn: Turn<'_>,
) -> Option<u64>
    requires { crew.count ≡ L.parts }
{
    let is_open = opens(&mut shared);
    let audited = work(rt, alloc, channel, pool_builder, shared, crew, turn);
    if is_open { audited } else { None }
}

fn play<P: Place + Send + Sync, L: Ledger + Send + Sync, R: Threads + Wait + Clock + Sync>(
    rt: &R,
    alloc: Global,
    opened: Opened,
    blank: Blank,
    book: Book<ArenaTable, MemHosts>,
    crew: Crew,
    turn: Turn<'_>,
) -> Option<u64>
    requires table { opened.slip.table_id ≡ P.table }
    requires key { opened.slip.me.0.of ≡ P.key }
    requires name { blank.name ≡ L.name }
    requires parts { (blank.parts ≡ L.parts) × (blank.parts ≡ crew.count) }
    requires new { IsNew book.journal }
{
    let (channel, keeper) = opened.named::<P>();
    worker_pool::<P, L, R>(rt, alloc, &channel, keeper, blank, book, crew, turn)
}

/// How many calls the audit finds behind a round: 0 where nothing was kept for it. None where the turn or the audit went wrong.
pub(crate) fn audited<R: Threads + Wait + Clock + Sync>(
    rt: &R,
    alloc: Global,
    crew: Crew,
    turn: Turn<'_>,
) -> Option<u64> {
    let opened = Opened::new(alloc).ok()?;
    let book = begun(alloc)?;
    let blank = Blank::new(u64::from(crew.count));
    play::<Brand, Brand, _>(rt, alloc, opened, blank, book, crew, turn)
}
