//! How a thread takes a lock that many want.
use std::hint::spin_loop;
use std::sync::{Mutex, MutexGuard, Wait};
use std::thread::yield_now;

/// How often it is tried before the thread hands its processor on.
const TRIES: u32 = 2;

/// How long a thread pauses between two of these tries, in turns of the processor's own pause.
const PAUSES: u32 = 2;

/// How often the thread hands its processor on and tries again, before it sleeps.
const TURNS: u32 = 400;

/// Takes the lock. A hold lasts a few microseconds, and to sleep and be woken takes longer. Where there are more threads than
/// processors, whoever holds it has often lost its processor: so a thread that finds it taken hands its own on, again and again,
/// and sleeps only where that doesn't help.
pub(crate) fn hold<'a, T, W: Wait>(rt: &W, lock: &'a Mutex<T>) -> MutexGuard<'a, T> {
    if let Some(guard) = try_with_pauses(lock) {
        return guard;
    }
    match try_in_turns(lock) {
        Some(guard) => guard,
        None => lock.lock(rt),
    }
}

fn try_with_pauses<T>(lock: &Mutex<T>) -> Option<MutexGuard<'_, T>> {
    for _ in 0..TRIES {
        if let Some(guard) = lock.try_lock() {
            return Some(guard);
        }
        pause();
    }
    None
}

/// Takes the lock where it comes free while the thread hands its processor on some times. It doesn't sleep.
pub(crate) fn try_in_turns<T>(lock: &Mutex<T>) -> Option<MutexGuard<'_, T>> {
    for _ in 0..TURNS {
        if let Some(guard) = lock.try_lock() {
            return Some(guard);
        }
        yield_now();
    }
    None
}

fn pause() {
    for _ in 0..PAUSES {
        spin_loop();
    }
}
