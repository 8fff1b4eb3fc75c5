//! When the grace period is over.
use std::time::{Duration, Instant};

/// Watches the grace period of the server's own state.
#[derive(Clone, Copy, Drop)]
pub(crate) struct GraceWatch {
    grace: Duration,
    own_state: u32,
    // When it is over. None where that was told.
    until: Option<Instant>,
}

impl GraceWatch {
    /// It begins now.
    pub(crate) fn new(grace: Duration, own_state: u32, now: Instant) -> GraceWatch {
        GraceWatch {
            grace,
            own_state,
            until: now.checked_add(grace),
        }
    }

    pub(crate) fn own_state(&self) -> u32 {
        self.own_state
    }

    /// It begins anew where the server's own state is another one. Whether it is.
    pub(crate) fn look(&mut self, own_state: u32, now: Instant) -> bool {
        if self.own_state == own_state {
            return false;
        }
        *self = GraceWatch::new(self.grace, own_state, now);
        true
    }

    /// Whether the time is up, and that was not told yet.
    pub(crate) fn is_over(&self, now: Instant) -> bool {
        self.until.is_some_and(|until| until <= now)
    }

    /// It was told that the time is up.
    pub(crate) fn end(&mut self) {
        self.until = None;
    }

    /// When the time is up.
    pub(crate) fn next(&self) -> Option<Instant> {
        self.until
    }
}
