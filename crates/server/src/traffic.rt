//! How many bytes connections carry, and how long their calls take.
use status_lists::{SectionTimes, TrafficBytes};
use std::alloc::{AllocError, Global};
use std::sync::atomic::{AtomicU64, Ordering};

/// Over how many places the counters are spread, so that threads seldom write to the same one.
const PLACES: u64 = 64;

// The counters of the connections that share a place. All wrap, past 2^64 - 1. The last words keep two places off one cache line.
#[derive(Drop)]
struct CounterPlace {
    received: AtomicU64,
    sent: AtomicU64,
    sections: AtomicU64,
    inside_nanos: AtomicU64,
    waited_nanos: AtomicU64,
    _apart: [u64; 3],
}

impl CounterPlace {
    fn new() -> CounterPlace {
        CounterPlace {
            received: AtomicU64::new(0),
            sent: AtomicU64::new(0),
            sections: AtomicU64::new(0),
            inside_nanos: AtomicU64::new(0),
            waited_nanos: AtomicU64::new(0),
            _apart: [0; 3],
        }
    }
}

// Adds to a counter.
fn add(counter: &AtomicU64, by: u64) {
    counter.fetch_add(by, Ordering::Relaxed);
}

/// The bytes that connections for calls carried so far, and how long threads were in the critical sections of their calls and waited
/// for them.
#[derive(Drop)]
pub(crate) struct Traffic {
    places: Vec<CounterPlace>,
}

impl Traffic {
    /// Nothing yet. Refused: there is no memory for the counters.
    pub(crate) fn new(alloc: Global) -> Result<Traffic, AllocError> {
        let mut places = Vec::new(alloc);
        for _ in 0..PLACES {
            places.push(CounterPlace::new())?;
        }
        Ok(Traffic { places })
    }

    fn place(&self, connection: u64) -> Option<&CounterPlace> {
        self.places.get((connection % PLACES) as usize)
    }

    /// So many bytes were read from a connection.
    pub(crate) fn add_received(&self, connection: u64, bytes: usize) {
        if let Some(place) = self.place(connection) {
            add(&place.received, bytes as u64);
        }
    }

    /// So many bytes of replies were written to a connection.
    pub(crate) fn add_sent(&self, connection: u64, bytes: usize) {
        if let Some(place) = self.place(connection) {
            add(&place.sent, bytes as u64);
        }
    }

    /// A call of a connection waited so long for its critical section and was in it so long, in nanoseconds.
    pub(crate) fn add_section(&self, connection: u64, waited_nanos: u64, inside_nanos: u64) {
        if let Some(place) = self.place(connection) {
            add(&place.sections, 1);
            add(&place.waited_nanos, waited_nanos);
            add(&place.inside_nanos, inside_nanos);
        }
    }

    /// The bytes of all connections.
    pub(crate) fn bytes(&self) -> TrafficBytes {
        let mut all = TrafficBytes {
            received: 0,
            sent: 0,
        };
        for place in &self.places {
            all.received = all
                .received
                .wrapping_add(place.received.load(Ordering::Relaxed));
            all.sent = all.sent.wrapping_add(place.sent.load(Ordering::Relaxed));
        }
        all
    }

    /// The times of all connections' calls.
    pub(crate) fn times(&self) -> SectionTimes {
        let mut all = SectionTimes {
            sections: 0,
            inside_nanos: 0,
            waited_nanos: 0,
        };
        for place in &self.places {
            let sections = place.sections.load(Ordering::Relaxed);
            let inside = place.inside_nanos.load(Ordering::Relaxed);
            let waited = place.waited_nanos.load(Ordering::Relaxed);
            all.sections = all.sections.wrapping_add(sections);
            all.inside_nanos = all.inside_nanos.wrapping_add(inside);
            all.waited_nanos = all.waited_nanos.wrapping_add(waited);
        }
        all
    }
}
