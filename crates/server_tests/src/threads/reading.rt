//! A connection's own thread over memory.
use super::memory::MemoryOutbox;
use super::parts::{Kept, Passing, bytes_of, repeated};
use super::rounds::{Crew, Turn, audited};
use job_queue::{Channel, Place};
use kept_replies::Peer;
use reply_outbox::SentReply;
use std::alloc::Global;
use std::sync::ledger::Ledger;
use std::sync::{Mutex, Wait};
use std::test::*;
use std::thread::Threads;
use std::time::Clock;
use test_kit::{Pace, Source};
use workers::{Ending, Origin, Worker};

/// The connection that is read.
const CONNECTION: u64 = 300;

/// A stream by its words, how it comes, and what comes of it.
#[derive(Clone, Copy)]
pub(crate) struct Reading<'a> {
    name: &'a str,
    stream: &'a str,
    /// How often these words come, one behind the other.
    times: u32,
    /// The most bytes that one read gives, and how many reads go well. Each is interrupted once before.
    most: usize,
    reads: usize,
    /// How often it is read at most.
    bound: u64,
    /// Whether its calls go by the channel, and whether that is closed before.
    by_channel: bool,
    is_closed: bool,
    ending: Ending,
    /// How many jobs are numbered. As many are answered.
    put: u64,
    /// As `are_replies` has them, of the words that come once.
    replies: &'a str,
    /// Whether what is done is kept for the audit, which finds as many calls then.
    is_audited: bool,
}

impl Reading<'_> {
    /// Whether this comes of it.
    pub(crate) fn goes<P: Place, L: Ledger, R: Wait>(
        &self,
        rt: &R,
        alloc: Global,
        channel: &Channel<P>,
        shared: &Mutex<Kept<L>>,
        workers: &mut [Worker<P, L>],
    ) -> bool {
        let [reader] = workers else {
            return false;
        };
        if self.is_closed {
            channel.close();
        }
        let Some(bytes) = repeated(alloc, self.stream, self.times) else {
            return false;
        };
        let mut outbox = MemoryOutbox::new(alloc);
        let pace = Pace {
            most: self.most,
            interruptions: 1,
            reads: self.reads,
        };
        let mut source = workers::Source {
            stream: Source::new(bytes.as_slice(), pace),
            bound: self.bound,
            origin: Origin {
                connection: CONNECTION,
                peer: Peer::PIPE,
                put: 0,
            },
        };
        let gate = Passing {
            may_hold: self.by_channel,
        };
        let ending = reader.read(rt, channel, shared, &gate, &mut outbox, &mut source);
        ending == self.ending
            && source.origin.put == self.put
            && self.are_replied(alloc, outbox.kept())
    }

    fn are_replied(&self, alloc: Global, sent: &[SentReply]) -> bool {
        match repeated(alloc, self.replies, self.times) {
            Some(wanted) => bytes_of(alloc, sent).as_slice() == wanted.as_slice(),
            None => false,
        }
    }
}

fn is_so<R: Threads + Wait + Clock + Sync>(rt: &R, alloc: Global, reading: &Reading<'_>) -> bool {
    let crew = Crew {
        count: 1,
        is_audited: reading.is_audited,
    };
    let found = if reading.is_audited { reading.put } else { 0 };
    audited(rt, alloc, crew, Turn::Reads(reading)) == Some(found)
}

const THREE: Reading<'static> = Reading {
    name: "three records",
    stream: "80000028 5 0 2 186b5 4 0 0 0 0 0 80000028 6 0 2 186b5 4 0 0 0 0 0 80000028 7 0 2 186b5 4 0 0 0 0 0",
    times: 1,
    most: 65_536,
    reads: usize::MAX,
    bound: u64::MAX,
    by_channel: false,
    is_closed: false,
    ending: Ending::Over,
    put: 3,
    replies: "0 12c 5 1 0 0 0 0 0 12c 6 1 0 0 0 0 0 12c 7 1 0 0 0 0",
    is_audited: false,
};

/// A part of a record, and its end.
const ENDS: Reading<'static> = Reading {
    name: "an end in a record",
    stream: "80000028 5 0 2 186b5 4 0 0 0 0 0 80000028 1*1",
    most: 100,
    put: 1,
    replies: "0 12c 5 1 0 0 0 0",
    ..THREE
};

/// The first read gives all bytes.
const FAILS: Reading<'static> = Reading {
    name: "a failed read in a record",
    reads: 1,
    ending: Ending::Failed,
    ..ENDS
};

const LONG: Reading<'static> = Reading {
    name: "a record that is too long",
    stream: "80000028 8 0 2 186b5 4 0 0 0 0 0 80000028 9 0 2 186b5 4 0 0 0 0 0 80002001 80000028 a 0 2 186b5 4 0 0 0 0 0",
    ending: Ending::TooLong,
    put: 2,
    replies: "0 12c 8 1 0 0 0 0 0 12c 9 1 0 0 0 0",
    ..THREE
};

const CLOSED: Reading<'static> = Reading {
    name: "a closed channel",
    by_channel: true,
    is_closed: true,
    ending: Ending::Closed,
    put: 0,
    replies: "",
    ..THREE
};

const UNUSED: Reading<'static> = Reading {
    name: "a closed channel by which no call goes",
    is_closed: true,
    ..THREE
};

/// Each record takes two reads, the first of which is interrupted.
const BOUNDED: Reading<'static> = Reading {
    name: "as many reads as there may be",
    most: 44,
    bound: 4,
    ending: Ending::Failed,
    put: 2,
    replies: "0 12c 5 1 0 0 0 0 0 12c 6 1 0 0 0 0",
    ..THREE
};

/// As many as fill two segments of the journal, and some more: no more of them come at once than the channel has places.
const MANY: Reading<'static> = Reading {
    name: "2,200 records",
    stream: "80000028 5 0 2 186b5 4 0 0 0 0 0",
    times: 2_200,
    most: 8_800,
    put: 2_200,
    replies: "0 12c 5 1 0 0 0 0",
    ..THREE
};

/// The audit goes over three segments then.
const MANY_AUDITED: Reading<'static> = Reading {
    name: "2,200 records for the audit",
    is_audited: true,
    ..MANY
};

/// A record with its mark has 44 bytes.
const READINGS: &[Reading<'static>] = &[
    Reading { most: 1, ..THREE },
    Reading { most: 43, ..THREE },
    Reading { most: 44, ..THREE },
    Reading { most: 45, ..THREE },
    THREE,
    ENDS,
    FAILS,
    LONG,
    BOUNDED,
    MANY,
    MANY_AUDITED,
];

// At once, and by the channel.
fn is_so_either_way<R: Threads + Wait + Clock + Sync>(
    rt: &R,
    alloc: Global,
    reading: &Reading<'_>,
) -> bool {
    let by_channel = Reading {
        by_channel: true,
        ..*reading
    };
    is_so(rt, alloc, reading) && is_so(rt, alloc, &by_channel)
}

#[test]
fn each_record_is_answered(rt: HostRuntime) -> Result<(), (&'static str, usize)> {
    for reading in READINGS {
        if !is_so_either_way(&rt, rt.alloc(), reading) {
            return Err((reading.name, reading.most));
        }
    }
    Ok(())
}

#[test]
fn closed_channel_ends_who_uses_it(rt: HostRuntime) {
    assert!(rt; is_so(&rt, rt.alloc(), &CLOSED));
    assert!(rt; is_so(&rt, rt.alloc(), &UNUSED));
}
