//! The server's own calls are sent.
ghost use Rattle.std.specs.Prelude.{◌≡◌};
ghost use Rattle.callback_sender.specs.Calls.{Hands};
ghost use Rattle.callback_sender.specs.declared.due.TheConstants.{MOST_CALLS as most_calls};

use crate::call_sink::CallSink;
use hosts_db::HostStore;
use range_table::RangeTable;
use std::sync::ledger::Ledger;
use std::sync::{Mutex, Wait};
use workers::{GhostTrace, Next, Shared};

/// The most calls of a turn.
pub const MOST_CALLS: usize = 64;

/// What a turn left.
#[derive(Clone, Copy, PartialEq, Eq)]
pub enum Due {
    /// Nothing was due then.
    Nothing,
    /// There may be more.
    More,
    /// The journal had no room for an entry, and no memory for a fresh segment was to be had.
    NoRoom,
}

impl Due {
    /// The same, where something else is left, too.
    pub(crate) fn or_more(self, is_left: bool) -> Due {
        match self {
            Due::Nothing if is_left => Due::More,
            due => due,
        }
    }
}

// Sends the call that is due first. What is left, where it is none.
fn send_next<R: RangeTable, S: HostStore, L: Ledger, C: CallSink, W: Wait>(
    rt: &W,
    shared: &Mutex<Shared<R, S, L>>,
    call_sink: &mut C,
    ghost_trace: &mut GhostTrace,
) -> Option<Due>
    ensures { Hands 1 (C.handed call_sink.old) (C.handed call_sink.new) ghost_trace.old ghost_trace.new }
{
    // The book's lock is free again behind this line.
    let next = shared.lock(rt).next_call(ghost_trace);
    match next {
        Next::Call { number, to, frame } => {
            call_sink.hand(number, to, frame);
            None
        }
        Next::NothingDue => Some(Due::Nothing),
        Next::NoRoom => Some(Due::NoRoom),
    }
}

/// Sends what is due, each call in a hold of its own, at most `MOST_CALLS`, and hands just these over, in order: those of the
/// entries that the trace has more then.
pub fn send_due<R: RangeTable, S: HostStore, L: Ledger, C: CallSink, W: Wait>(
    rt: &W,
    shared: &Mutex<Shared<R, S, L>>,
    call_sink: &mut C,
    ghost_trace: &mut GhostTrace,
) -> Due
    ensures { Hands most_calls (C.handed call_sink.old) (C.handed call_sink.new) ghost_trace.old ghost_trace.new }
{
    for _ in 0..MOST_CALLS {
        if let Some(left) = send_next(rt, shared, call_sink, ghost_trace) {
            return left;
        }
    }
    Due::More
}
