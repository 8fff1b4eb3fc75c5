//! All threads.
use super::accepting::{Post, accept};
use super::service::{MainLoop, Service, Side};
use crate::listener::Listener;
use std::alloc::Global;
use std::sync::Wait;
use std::thread;
use std::thread::{Builder, JoinHandle, Scope, Threads};
use std::time::Clock;
use thiserror::Error;

/// A thread could not be started. All that were started have ended.
#[derive(Clone, Copy, Debug, PartialEq, Eq, Error)]
#[error("1 Starved")]
pub struct NoThread;

/// Where connections come in.
#[derive(Drop)]
pub struct Listeners {
    /// For calls by record.
    pub callers: Listener,
    /// For local programs.
    pub locals: Listener,
    /// For operators, where that is asked for.
    pub operators: Option<Listener>,
}

/// Where connections come in, and what each worker has.
#[derive(Drop)]
pub struct WorkerPool<W> {
    pub alloc: Global,
    pub listeners: Listeners,
    /// What each worker has, in the order in which they start.
    pub workers: Vec<W>,
    /// The bytes of each thread's stack.
    pub stack: usize,
}

// A worker's thread.
fn spawn<'s, E, R, W, C>(
    rt: &'s R,
    scope: &'s Scope<'s, E>,
    service: &'s C,
    worker: W,
    stack: usize,
) -> Option<JoinHandle<W>>
where
    R: Threads + Sync,
    W: Send + Drop + 's,
    C: Service<R, W> + Sync,
{
    Builder::new()
        .stack_size(stack)
        .spawn_scoped(scope, move || service.work(rt, worker))
        .ok()
}

// The thread of a listener. Whether there is one.
fn open<'s, E, R, W, C>(
    rt: &'s R,
    scope: &'s Scope<'s, E>,
    service: &'s C,
    post: Post,
    listener: &'s Listener,
) -> bool
where
    R: Threads + Clock + Sync,
    W: 's,
    C: Service<R, W> + Sync,
{
    Builder::new()
        .stack_size(post.stack)
        .spawn_scoped(
            scope,
            move || accept::<E, R, W, C>(rt, scope, service, post, listener),
        )
        .is_ok()
}

// The thread that watches. Whether there is one.
fn open_watch<'s, E, R, W, C>(
    rt: &'s R,
    scope: &'s Scope<'s, E>,
    service: &'s C,
    stack: usize,
) -> bool
where
    R: Threads + Sync,
    W: 's,
    C: Service<R, W> + Sync,
{
    Builder::new()
        .stack_size(stack)
        .spawn_scoped(scope, move || service.watch(rt))
        .is_ok()
}

// A thread for each worker. False where one could not be started: its worker and those behind it are dropped.
fn spawn_all<'s, E, R, W, C>(
    rt: &'s R,
    scope: &'s Scope<'s, E>,
    service: &'s C,
    workers: Vec<W>,
    stack: usize,
    hands: &mut Vec<JoinHandle<W>>,
) -> bool
where
    R: Threads + Sync,
    W: Send + Drop + 's,
    C: Service<R, W> + Sync,
{
    for worker in workers {
        let Some(hand) = spawn::<E, R, W, C>(rt, scope, service, worker, stack) else {
            return false;
        };
        if hands.push(hand).is_err() {
            return false;
        }
    }
    true
}

// Waits for all workers.
fn gather<R: Threads, W: Drop>(rt: &R, hands: Vec<JoinHandle<W>>, back: &mut Vec<W>) -> bool {
    for hand in hands {
        if back.push(hand.join(rt)).is_err() {
            return false;
        }
    }
    true
}

// A thread for each listener, and one that watches for operators. Whether each has one.
fn open_all<'s, E, R, W, C>(
    rt: &'s R,
    scope: &'s Scope<'s, E>,
    service: &'s C,
    listeners: &'s Listeners,
    stack: usize,
) -> bool
where
    R: Threads + Clock + Sync,
    W: 's,
    C: Service<R, W> + Sync,
{
    let callers = Post {
        side: Side::Callers,
        stack,
    };
    let locals = Post {
        side: Side::Locals,
        stack,
    };
    let operators = Post {
        side: Side::Operators,
        stack,
    };
    open::<_, R, W, C>(rt, scope, service, callers, &listeners.callers)
        && open::<_, R, W, C>(rt, scope, service, locals, &listeners.locals)
        && match &listeners.operators {
            Some(listener) => {
                open::<_, R, W, C>(rt, scope, service, operators, listener)
                    && open_watch::<_, R, W, C>(rt, scope, service, stack)
            }
            None => true,
        }
}

// All listeners are open while the main loop runs. It comes back once no connection is left.
fn serve_listeners<R, W, C, K>(
    rt: &R,
    service: &C,
    listeners: &Listeners,
    stack: usize,
    main_loop: &mut K,
) -> bool
where
    R: Threads + Wait + Clock + Sync,
    C: Service<R, W> + Sync,
    K: MainLoop<R>,
{
    thread::scope(thread::scope_env(), rt, |scope| {
        let is_open = open_all::<_, R, W, C>(rt, scope, service, listeners, stack);
        if is_open {
            main_loop.run(rt);
        }
        service.stop(rt);
        is_open
    })
}

// All threads, once the workers have theirs.
fn serve_all<R, W, C, K>(
    rt: &R,
    service: &C,
    worker_pool: WorkerPool<W>,
    main_loop: &mut K,
    back: &mut Vec<W>,
) -> bool
where
    R: Threads + Wait + Clock + Sync,
    W: Send + Drop,
    C: Service<R, W> + Sync,
    K: MainLoop<R>,
{
    let WorkerPool {
        alloc,
        listeners,
        workers,
        stack,
    } = worker_pool;
    let listeners = &listeners;
    thread::scope(thread::scope_env(), rt, |scope| {
        let mut hands = Vec::new(alloc);
        let is_spawned = spawn_all::<_, R, W, C>(rt, scope, service, workers, stack, &mut hands);
        let is_served = is_spawned
            && serve_listeners::<R, W, C, K>(rt, service, listeners, stack, main_loop);
        service.close();
        gather(rt, hands, back) && is_served
    })
}

/// Starts all threads, and comes back with what the workers had once the server was stopped and all have ended.
pub fn run<R, W, C, K>(
    rt: &R,
    service: &C,
    worker_pool: WorkerPool<W>,
    main_loop: &mut K,
) -> Result<Vec<W>, NoThread>
where
    R: Threads + Wait + Clock + Sync,
    W: Send + Drop,
    C: Service<R, W> + Sync,
    K: MainLoop<R>,
{
    let mut back = Vec::new(worker_pool.alloc);
    if back.reserve(worker_pool.workers.len()).is_err() {
        return Err(NoThread);
    }
    if serve_all::<R, W, C, K>(rt, service, worker_pool, main_loop, &mut back) {
        Ok(back)
    } else {
        Err(NoThread)
    }
}
