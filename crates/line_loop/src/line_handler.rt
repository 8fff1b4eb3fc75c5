//! Who answers a line.
ghost use Rattle.std.specs.Prelude.{◌≡◌, ℕ, false, List, [], IfOk, IfErr};
ghost use Rattle.book.specs.Given.{view_of_reply};
ghost use Rattle.book.specs.Notes.{is_take, Note, view_of_event};
ghost use Rattle.workers.specs.Holds.{entry_of, Notes, Adds};
ghost use Rattle.line_loop.specs.Lines.{Asks, TellsOf};

use crate::signals::Signals;
use book::{BookEvent, Reply, StepResult};
use hosts_db::HostStore;
use range_table::RangeTable;
use std::sync::ledger::Ledger;
use std::sync::{Mutex, Wait};
use workers::{GhostTrace, Shared};

/// Answers the lines of local programs, and hears of the end. Contracts see the entries of the lines' holds.
pub(crate) trait Answers {
    ghost told: { Self → List Note };

    /// What a line, without its line feed, is answered on the connection of this number.
    fn ask(&mut self, connection: u64, line: Vec<u8>) -> Reply
        ensures { Asks connection line.items (view_of_reply result) (told self.old) (told self.new) };

    /// Whether the server is to stop.
    fn is_stopping(&self) -> bool;

    /// The server is to stop.
    fn stop(&self);
}

/// Answers each line in a hold of the book's lock.
#[derive(Drop)]
pub(crate) struct LineHandler<'a, R: RangeTable, S: HostStore, L: Ledger, G, W> {
    rt: &'a W,
    shared: &'a Mutex<Shared<R, S, L>>,
    signals: &'a G,
    ghost_trace: GhostTrace,
}

impl<'a, R: RangeTable, S: HostStore, L: Ledger, G, W> LineHandler<'a, R, S, L, G, W> {
    pub(crate) fn new(rt: &'a W, shared: &'a Mutex<Shared<R, S, L>>, signals: &'a G) -> Self
        ensures { result.ghost_trace ≡ [] }
    {
        LineHandler {
            rt,
            shared,
            signals,
            ghost_trace: GhostTrace::new(),
        }
    }

    /// What the holds of its lines gave.
    pub(crate) fn into_ghost_trace(self) -> GhostTrace
        ensures { result ≡ self.entry.ghost_trace }
    {
        self.ghost_trace
    }
}

// What an event came to, and whether a call is due then.
#[derive(Drop)]
struct AnsweredLine {
    step_result: Result<StepResult, BookEvent>,
    is_due: bool,
}

// One hold.
fn apply<R: RangeTable, S: HostStore, L: Ledger>(
    held: &mut Shared<R, S, L>,
    event: BookEvent,
    ghost_trace: &mut GhostTrace,
) -> AnsweredLine
    requires { is_take (view_of_event event) ≡ false }
    ensures noted { IfOk result.step_result (λ step_result. Notes held.old (view_of_event event) step_result held.new) }
    ensures told { IfOk result.step_result (λ step_result. (number : ℕ) × Adds held.new (entry_of number (view_of_event event) step_result) ghost_trace.old ghost_trace.new) }
    ensures none { IfErr result.step_result (λ back. (back ≡ event) × (ghost_trace.new ≡ ghost_trace.old)) }
{
    let step_result = held.apply(event, ghost_trace);
    let is_due = held.has_due();
    AnsweredLine {
        step_result,
        is_due,
    }
}

fn reply_of(step_result: StepResult) -> Reply
    ensures { view_of_reply result ≡ step_result.given }
{
    step_result.reply
}

// What the line is told. Without an entry it is a line that starved.
#[tactic(auto, using(crate::proofs::LineLemmas::starved_told))]
fn told(step_result: Result<StepResult, BookEvent>) -> Reply
    ensures { TellsOf step_result (view_of_reply result) }
{
    match step_result {
        Ok(step_result) => reply_of(step_result),
        Err(event) => reply_of(event.starved()),
    }
}

impl<'a, R: RangeTable, S: HostStore, L: Ledger, G: Signals, W: Wait> Answers
    for LineHandler<'a, R, S, L, G, W> {
    ghost told = { λ c. c.ghost_trace };

    fn ask(&mut self, connection: u64, line: Vec<u8>) -> Reply {
        let event = BookEvent::Local { connection, line };
        // The book's lock is free again behind this line.
        let done = apply(&mut self.shared.lock(self.rt), event, &mut self.ghost_trace);
        if done.is_due {
            self.signals.call_is_due();
        }
        told(done.step_result)
    }

    fn is_stopping(&self) -> bool {
        self.signals.is_stopping()
    }

    fn stop(&self) {
        self.signals.stop();
    }
}
