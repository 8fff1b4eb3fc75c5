//! What the server's threads tell one another.
use line_loop::Signals;
use std::sync::atomic::{AtomicBool, AtomicU64, Ordering};

/// What the tests' threads are told.
#[derive(Drop)]
pub(crate) struct StopSignals {
    pub(crate) due: AtomicU64,
    pub(crate) is_stopping: AtomicBool,
}

impl StopSignals {
    pub(crate) fn new() -> StopSignals {
        StopSignals {
            due: AtomicU64::new(0),
            is_stopping: AtomicBool::new(false),
        }
    }
}

impl Signals for StopSignals {
    fn is_stopping(&self) -> bool {
        self.is_stopping.load(Ordering::SeqCst)
    }

    fn call_is_due(&self) {
        self.due.fetch_add(1, Ordering::SeqCst);
    }

    fn stop(&self) {
        self.is_stopping.store(true, Ordering::SeqCst);
    }
}
