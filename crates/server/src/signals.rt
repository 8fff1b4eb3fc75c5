//! What the threads tell one another.
use line_loop::Signals;
use mio::Waker;
use std::sync::atomic::{AtomicBool, Ordering};

/// Whether the server is to stop, and what wakes the sender.
#[derive(Drop)]
pub(crate) struct StopSignals {
    is_stopping: AtomicBool,
    waker: Waker,
}

impl StopSignals {
    pub(crate) fn new(waker: Waker) -> StopSignals {
        StopSignals {
            is_stopping: AtomicBool::new(false),
            waker,
        }
    }
}

impl Signals for StopSignals {
    fn is_stopping(&self) -> bool {
        self.is_stopping.load(Ordering::SeqCst)
    }

    fn call_is_due(&self) {
        // Where this fails, the sender looks a moment later.
        let _ = self.waker.wake();
    }

    fn stop(&self) {
        self.is_stopping.store(true, Ordering::SeqCst);
        let _ = self.waker.wake();
    }
}
