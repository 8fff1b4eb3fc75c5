//! Pages are made of looks.
ghost use Rattle.std.specs.Prelude.{◌≡◌, ◌==◌, [], length, map, cond, IfOk, OnOk};
ghost use Rattle.status_lists.specs.Pages.{IsPageOf, IsPageWith};
ghost use Rattle.status_pages.specs.Waits.{lock_of};

use crate::looks::Look;
use event_counts::Counts;
use status_pages::{
    Lists, LockRow, Numbers, Page, Shown, Starved, StateNumbers, Waiting, hosts_page, index_page,
    known_since, locks_page, metrics_page, status_page, waiters_page,
};
use std::alloc::Global;

/// How many connections are open.
#[derive(Clone, Copy)]
pub struct OpenConnections {
    /// For calls by record.
    pub calls: u64,
    /// Of local programs.
    pub local: u64,
    /// To the status port.
    pub status: u64,
}

/// How many bytes connections for calls carried so far.
#[derive(Clone, Copy)]
pub struct TrafficBytes {
    pub received: u64,
    /// Of replies.
    pub sent: u64,
}

/// How long threads were in the critical sections of calls so far, and waited for them.
#[derive(Clone, Copy)]
pub struct SectionTimes {
    /// How many were timed.
    pub sections: u64,
    /// In nanoseconds.
    pub inside_nanos: u64,
    /// In nanoseconds.
    pub waited_nanos: u64,
}

/// What is known at a look beside the book.
#[derive(Clone, Copy)]
pub struct Moment {
    /// How long the server runs, in seconds.
    pub now: u64,
    pub open: OpenConnections,
    pub traffic: TrafficBytes,
    pub times: SectionTimes,
    /// The program's.
    pub version: &'static str,
}

/// Makes pages, and keeps between them what one look alone doesn't show: since when who waits is known to wait, and when the grace
/// period began.
#[derive(Drop)]
pub struct Board {
    alloc: Global,
    waiting: Vec<Waiting>,
    own_state: u32,
    // The length of a grace period, and when this one began, in seconds.
    grace: u64,
    grace_since: u64,
    // When the server started, in seconds since 1970.
    started: u64,
}

impl Board {
    /// The server has begun under this own state, at this second since 1970. Its grace periods have this many seconds.
    pub fn new(alloc: Global, own_state: u32, grace: u64, started: u64) -> Board
        ensures waiting { result.waiting.items ≡ [] }
        ensures grace { (result.grace ≡ grace) × (result.grace_since ≡ 0) }
        ensures start { (result.own_state ≡ own_state) × (result.started ≡ started) }
    {
        Board {
            alloc,
            waiting: Vec::new(alloc),
            own_state,
            grace,
            grace_since: 0,
            started,
        }
    }

    // A restart of the status monitor begins a grace period anew: its first look takes that to be now.
    fn see_own_state(&mut self, own_state: u32, now: u64)
        ensures since { self.new.grace_since ≡ cond (self.old.own_state == own_state) self.old.grace_since now }
        ensures own { self.new.own_state ≡ own_state }
        ensures waiting { self.new.waiting ≡ self.old.waiting }
        ensures others { (self.new.grace ≡ self.old.grace) × (self.new.started ≡ self.old.started) }
    {
        if self.own_state != own_state {
            self.own_state = own_state;
            self.grace_since = now;
        }
    }

    /// Sees a look at this second: since when who waits is known to wait, and whether a grace period has begun anew. `Starved`:
    /// there is no memory to keep it.
    pub fn see(&mut self, look: Look, now: u64) -> Result<(), Starved>
        ensures waiting { OnOk result (map lock_of self.new.waiting.items ≡ look.lists.waiters.items) }
        ensures since { self.new.grace_since ≡ cond (self.old.own_state == look.numbers.own_state) self.old.grace_since now }
        ensures own { self.new.own_state ≡ look.numbers.own_state }
        ensures others { (self.new.grace ≡ self.old.grace) × (self.new.started ≡ self.old.started) }
    {
        self.see_own_state(look.numbers.own_state, now);
        self.see_waiters(look.lists.waiters, now)
    }

    fn see_waiters(&mut self, waiters: Vec<LockRow>, now: u64) -> Result<(), Starved>
        ensures waiting { OnOk result (map lock_of self.new.waiting.items ≡ waiters.items) }
        ensures grace { (self.new.grace ≡ self.old.grace) × (self.new.grace_since ≡ self.old.grace_since) }
        ensures start { (self.new.own_state ≡ self.old.own_state) × (self.new.started ≡ self.old.started) }
    {
        self.waiting = known_since(self.alloc, &self.waiting, waiters, now)?;
        Ok(())
    }

    // How long the grace period goes on, in seconds.
    fn grace_left(&self, state: &StateNumbers, now: u64) -> u64 {
        if state.grace == 0 {
            return 0;
        }
        self.grace_since
            .saturating_add(self.grace)
            .saturating_sub(now)
    }

    fn numbers(&self, state: StateNumbers, moment: Moment) -> Numbers
        ensures { result.state ≡ state }
    {
        Numbers {
            state,
            grace_left: self.grace_left(&state, moment.now),
            call_connections: moment.open.calls,
            local_connections: moment.open.local,
            status_connections: moment.open.status,
            received_bytes: moment.traffic.received,
            sent_bytes: moment.traffic.sent,
            started: self.started,
            sections: moment.times.sections,
            inside_nanos: moment.times.inside_nanos,
            waited_nanos: moment.times.waited_nanos,
        }
    }

    /// The page, of a look at this moment and of the counters that it found. `Starved`: there is no memory for it.
    pub fn page(
        &mut self,
        page: Page,
        look: Look,
        counts: &Counts,
        moment: Moment,
    ) -> Result<Vec<u8>, Starved>
        ensures { IfOk result (λ text. IsPageOf page look.numbers counts.now look.lists moment.version.now text.items) }
    {
        let Look { numbers, lists } = look;
        let Lists {
            locks,
            waiters,
            hosts,
        } = lists;
        self.see_own_state(numbers.own_state, moment.now);
        self.see_waiters(waiters, moment.now)?;
        let numbers = self.numbers(numbers, moment);
        let shown = Shown {
            numbers: &numbers,
            locks: &locks,
            waiters: &self.waiting,
            hosts: &hosts,
            now: moment.now,
        };
        let text = page_of(self.alloc, page, &shown, counts, moment.version)?;
        Ok(text)
    }
}

fn page_of(
    alloc: Global,
    page: Page,
    shown: &Shown<'_>,
    counts: &Counts,
    version: &str,
) -> Result<Vec<u8>, Starved>
    ensures { IfOk result (λ text. IsPageWith page shown.entry.now.numbers.now (length shown.entry.now.locks.now) (length shown.entry.now.waiters.now) (length shown.entry.now.hosts.now) counts.now version.now text.items) }
{
    match page {
        Page::Index => index_page(alloc, shown),
        Page::Metrics => metrics_page(alloc, shown.numbers, counts, version),
        Page::Locks => locks_page(alloc, shown.locks),
        Page::Waiters => waiters_page(alloc, shown.locks, shown.waiters, shown.now),
        Page::Hosts => hosts_page(alloc, shown.numbers.state.own_state, shown.hosts),
        Page::Status => status_page(alloc, shown.numbers, counts, version),
    }
}
