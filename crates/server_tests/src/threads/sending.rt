//! The turns of the sender: calls that are due are handed over.
use super::memory::MemoryCallSink;
use super::parts::Kept;
use crate::words::are;
use book::Dest;
use callback_sender::{Due, SentCall, send_due};
use std::alloc::{AllocError, Global};
use std::sync::ledger::Ledger;
use std::sync::{Mutex, Wait};
use workers::GhostTrace;

/// What a turn leaves, and how many calls and lines it hands over.
type Turn = (Due, usize);

/// What the sender hands over in some turns.
#[derive(Clone, Copy)]
pub(crate) struct Sent<'a> {
    pub(crate) turns: &'a [Turn],
    /// To whom, and the line, of each line.
    pub(crate) lines: &'a str,
    /// The words of a call behind them.
    pub(crate) call: &'a str,
}

/// Where no call is due.
pub(crate) const NOTHING: Sent<'static> = Sent {
    turns: &[(Due::Nothing, 0), (Due::Nothing, 0), (Due::Nothing, 0)],
    lines: "",
    call: "",
};

// To whom, and the bytes.
fn put(log: &mut Vec<u8>, call: &SentCall) -> Result<(), AllocError> {
    match &call.to {
        Dest::Connection(7) => log.extend_from_slice(b"7: ")?,
        Dest::Host(host) => {
            log.extend_from_slice(host.as_slice())?;
            log.extend_from_slice(b": ")?;
        }
        _ => log.extend_from_slice(b"another: ")?,
    }
    log.extend_from_slice(call.bytes.as_slice())
}

// How many calls there are, if all are in the log.
fn put_all(log: &mut Vec<u8>, calls: &[SentCall]) -> Option<usize> {
    for call in calls {
        put(log, call).ok()?;
    }
    Some(calls.len())
}

// Whether one turn is this. What it hands over is in the log then.
fn is_turn<L: Ledger, R: Wait>(
    rt: &R,
    alloc: Global,
    shared: &Mutex<Kept<L>>,
    log: &mut Vec<u8>,
    turn: Turn,
) -> bool {
    let mut call_sink = MemoryCallSink::new(alloc);
    let mut ghost_trace = GhostTrace::new();
    let due = send_due(rt, shared, &mut call_sink, &mut ghost_trace);
    due == turn.0 && put_all(log, call_sink.kept()) == Some(turn.1)
}

impl Sent<'_> {
    /// Whether the sender hands over just this.
    pub(crate) fn is_handed<L: Ledger, R: Wait>(
        &self,
        rt: &R,
        alloc: Global,
        shared: &Mutex<Kept<L>>,
    ) -> bool {
        let mut log = Vec::new(alloc);
        for turn in self.turns {
            if !is_turn(rt, alloc, shared, &mut log, *turn) {
                return false;
            }
        }
        are(alloc, log.as_slice(), self.lines, self.call)
    }
}
