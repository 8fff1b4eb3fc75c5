//! A worker that answers what waits in a closed channel, and the sender's turns behind it.
use super::memory::MemoryOutbox;
use super::parts::{Kept, are_replies, null, sent};
use super::rounds::{Crew, Turn, audited};
use super::sending::{NOTHING, Sent};
use bytes::Bytes;
use callback_sender::Due;
use job_queue::{Channel, Place};
use server::OpenGate;
use std::alloc::Global;
use std::sync::ledger::Ledger;
use std::sync::{Mutex, Wait};
use std::test::*;
use std::thread::Threads;
use std::time::Clock;
use test_kit::put_plain;
use workers::Worker;

/// The first call of a connection, by its words.
#[derive(Clone, Copy)]
struct Call<'a> {
    connection: u64,
    words: &'a str,
}

/// Calls that wait in a channel, and what comes of them.
#[derive(Clone, Copy)]
pub(crate) struct Waiting<'a> {
    name: &'a str,
    calls: &'a [Call<'a>],
    /// As `are_replies` has them.
    replies: &'a str,
    sent: Sent<'a>,
}

/// The connection whose call comes when the channel is closed.
const LATE: u64 = 4;

fn record(alloc: Global, words: &str) -> Option<Bytes> {
    let mut record = Vec::new(alloc);
    if put_plain(&mut record, words) {
        Bytes::from_vec(record).ok()
    } else {
        None
    }
}

// Puts the calls: whether all were taken.
fn put_all<P: Place, L: Ledger, R: Wait>(
    rt: &R,
    alloc: Global,
    channel: &Channel<P>,
    reader: &mut Worker<P, L>,
    calls: &[Call<'_>],
) -> bool {
    for call in calls {
        let record = record(alloc, call.words);
        if sent(rt, channel, reader, call.connection, 0, record) != Some(0) {
            return false;
        }
    }
    true
}

impl Waiting<'_> {
    /// The first worker puts the calls, and the second answers them: whether this comes of it, and a call that is late comes back.
    pub(crate) fn goes<P: Place, L: Ledger, R: Wait>(
        &self,
        rt: &R,
        alloc: Global,
        channel: &Channel<P>,
        shared: &Mutex<Kept<L>>,
        workers: &mut [Worker<P, L>],
    ) -> bool {
        let [reader, worker] = workers else {
            return false;
        };
        let are_put = put_all(rt, alloc, channel, reader, self.calls);
        channel.close();
        let back = sent(rt, channel, reader, LATE, 0, null(alloc, 4));
        let mut outbox = MemoryOutbox::new(alloc);
        worker.work(rt, channel, shared, &OpenGate, &mut outbox);
        are_put
            && back == Some(LATE)
            && are_replies(alloc, outbox.kept(), self.replies)
            && self.sent.is_handed(rt, alloc, shared)
    }
}

/// Whoever puts the calls, and whoever answers them.
const PAIR: Crew = Crew {
    count: 2,
    is_audited: true,
};

// Whether this comes of the calls, and each has its receipt.
fn is_so<R: Threads + Wait + Clock + Sync>(rt: &R, alloc: Global, waiting: &Waiting<'_>) -> bool {
    audited(rt, alloc, PAIR, Turn::Answers(waiting)) == Some(waiting.calls.len() as u64)
}

const ONE: Waiting<'static> = Waiting {
    name: "one NULL",
    calls: &[Call {
        connection: 3,
        words: "3 0 2 186b5 4 0 0 0 0 0",
    }],
    replies: "0 3 3 1 0 0 0 0",
    sent: NOTHING,
};

const THREE: Waiting<'static> = Waiting {
    name: "three NULLs",
    calls: &[
        Call {
            connection: 1,
            words: "1 0 2 186b5 4 0 0 0 0 0",
        },
        Call {
            connection: 2,
            words: "2 0 2 186b5 4 0 0 0 0 0",
        },
        Call {
            connection: 3,
            words: "3 0 2 186b5 4 0 0 0 0 0",
        },
    ],
    replies: "0 1 1 1 0 0 0 0 0 2 2 1 0 0 0 0 0 3 3 1 0 0 0 0",
    sent: NOTHING,
};

/// An exclusive lock of the bytes 0 to 9 by the host `a`, and the LOCK_RES that tells the host that it has the lock.
const LOCK_MSG: Waiting<'static> = Waiting {
    name: "sender_turns",
    calls: &[Call {
        connection: 1,
        words: "7 0 2 186b5 4 7 0 0 0 0 4 7 0 1 1 61000000 4 1020304 1 41000000 7 0 0 0 a 0 3",
    }],
    replies: "0 1 7 1 0 0 0 0",
    sent: Sent {
        turns: &[(Due::Nothing, 1), (Due::Nothing, 0), (Due::Nothing, 0)],
        lines: "a: ",
        call: "1 0 2 186b5 4 c 0 0 0 0 4 7 0",
    },
};

const WAITING: &[Waiting<'static>] = &[ONE, THREE, LOCK_MSG];

#[test]
fn each_job_is_answered_once(rt: HostRuntime) -> Result<(), &'static str> {
    for waiting in WAITING {
        if !is_so(&rt, rt.alloc(), waiting) {
            return Err(waiting.name);
        }
    }
    Ok(())
}
