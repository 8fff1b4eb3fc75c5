//! A gate that holds jobs until enough of them are inside.
use bytes::Bytes;
use job_queue::Job;
use reply_outbox::Gate;
use std::sync::atomic::{AtomicBool, AtomicU64, Ordering};
use std::thread;
use std::time::{Clock, Duration};

/// How long is waited where all are to be inside, in milliseconds.
pub(crate) const LONG: u32 = 10_000;

/// Holds jobs until so many were inside, or for so many milliseconds; nobody, where that is none.
#[derive(Drop)]
pub(crate) struct Hall<'a, R> {
    rt: &'a R,
    wanted: u64,
    turns: u32,
    inside: AtomicU64,
    is_missed: AtomicBool,
}

impl<'a, R: Clock> Hall<'a, R> {
    pub(crate) fn new(rt: &'a R, wanted: u64, turns: u32) -> Hall<'a, R> {
        Hall {
            rt,
            wanted,
            turns,
            inside: AtomicU64::new(0),
            is_missed: AtomicBool::new(false),
        }
    }

    /// Whether so many were inside in time.
    pub(crate) fn waits(&self, count: u64) -> bool {
        for _ in 0..self.turns {
            if self.inside.load(Ordering::SeqCst) >= count {
                return true;
            }
            thread::sleep(self.rt, Duration::from_millis(1));
        }
        false
    }

    /// Whether no job was held to the end of the time.
    pub(crate) fn was_full(&self) -> bool {
        !self.is_missed.load(Ordering::SeqCst)
    }
}

impl<'a, R: Clock> Gate for Hall<'a, R> {
    ghost use Rattle.std.specs.Prelude.{true};
    ghost use Rattle.reply_outbox.specs.Gates.{IsOwn};

    ghost holds = { λ _. true };

    ghost MayAnswer = { λ _. IsOwn };

    fn may_hold(&self) -> bool {
        true
    }

    fn before(&self, _job: &Job) -> Option<Bytes> {
        self.inside.fetch_add(1, Ordering::SeqCst);
        if !self.waits(self.wanted) {
            self.is_missed.store(true, Ordering::SeqCst);
        }
        None
    }
}
