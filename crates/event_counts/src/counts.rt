//! Counters.
ghost use Rattle.std.specs.Prelude.{◌≡◌, ℕ, ◌+◌, ◌<◌, ◌^◌};
ghost use Rattle.event_counts.specs.Places.{call_place, event_place};
ghost use Rattle.event_counts.specs.Numbers.{OneMoreAt, number_at, happened_number};

use crate::happenings::{Happening, StoreReply, event_place};
use crate::outcomes::{CallOutcome, call_place};
use std::marker::Model;

/// How many places there are of calls: 80 procedures by 20 outcomes.
const CALLS: usize = 1_600;

/// How many there are of entries: 7 by 2 by 3.
const EVENTS: usize = 42;

/// A number for each place. It takes no memory, and a copy has some 13 KB.
#[derive(Drop)]
pub struct Counts {
    calls: [u64; CALLS],
    events: [u64; EVENTS],
}

impl Model for Counts {
    ghost use Rattle.event_counts.specs.Numbers.{Numbers};

    ghost Value = { Numbers };

    ghost view = { λ c. record { calls = c.calls; events = c.events } };
}

fn zeros<const N: usize>() -> [u64; N]
    ensures { (k : ℕ) → number_at result k ≡ 0 }
{
    [0; N]
}

impl Counts {
    /// Nothing is counted yet.
    pub fn new() -> Counts
        ensures calls { (k : ℕ) → number_at result.calls k ≡ 0 }
        ensures events { (k : ℕ) → number_at result.events k ≡ 0 }
    {
        Counts {
            calls: zeros(),
            events: zeros(),
        }
    }

    /// A copy.
    pub fn copied(&self) -> Counts
        ensures { result ≡ self.now }
    {
        Counts {
            calls: self.calls,
            events: self.events,
        }
    }

    /// One call more, whose procedure has this place, and that got this.
    pub fn add_call(&mut self, procedure: usize, outcome: CallOutcome)
        requires place { procedure < 80 }
        requires most { number_at self.old.calls (call_place procedure outcome) + 1 < 2 ^ 64 }
        ensures calls { OneMoreAt (call_place procedure outcome) self.old.calls self.new.calls }
        ensures events { self.new.events ≡ self.old.events }
    {
        let place = call_place(procedure, outcome);
        self.calls[place] += 1;
    }

    /// One entry more.
    pub fn add_event(&mut self, what: Happening, starved: bool, answered: StoreReply)
        requires most { number_at self.old.events (event_place what starved answered) + 1 < 2 ^ 64 }
        ensures events { OneMoreAt (event_place what starved answered) self.old.events self.new.events }
        ensures calls { self.new.calls ≡ self.old.calls }
    {
        let place = event_place(what, starved, answered);
        self.events[place] += 1;
    }

    /// How many calls there were whose procedure has this place, and that got this.
    pub fn calls(&self, procedure: usize, outcome: CallOutcome) -> u64
        requires { procedure < 80 }
        ensures { result ≡ number_at self.now.calls (call_place procedure outcome) }
    {
        self.calls[call_place(procedure, outcome)]
    }

    /// How many entries there were of what happened so.
    pub fn events(&self, what: Happening, starved: bool, answered: StoreReply) -> u64
        ensures { result ≡ number_at self.now.events (event_place what starved answered) }
    {
        self.events[event_place(what, starved, answered)]
    }
    /// How many entries there were of what happened, however it ended, and 2^64 - 1 where there were more.
    pub fn happened(&self, what: Happening) -> u64
        ensures { result ≡ happened_number self.now.events what }
    {
        self.events(what, false, StoreReply::NotAsked)
            .saturating_add(self.events(what, false, StoreReply::Agreed))
            .saturating_add(self.events(what, false, StoreReply::Refused))
            .saturating_add(self.events(what, true, StoreReply::NotAsked))
            .saturating_add(self.events(what, true, StoreReply::Agreed))
            .saturating_add(self.events(what, true, StoreReply::Refused))
    }
}
