//! What comes of an event.

ghost use Rattle.std.specs.Prelude.{◌≡◌};
ghost use Rattle.call_plans.specs.Planned.{view_of_stored};
ghost use Rattle.book.specs.Given.{view_of_reply};
ghost use Rattle.daemon_core.specs.Outputs.{quiet, starved_outputs, unnoted_outputs, heard, refusal_of, reply_to, line_to, outputs_of, told_line, told_posted, told_to};

use crate::event::EventRefusal;
use crate::event_outcome::EventOutcome;
use crate::posted::Posted;
use crate::send_buffer::SendBuffer;
use crate::sent::Sent;
use book::{Reply, StepResult, StoreAnswer, Unanswered};

/// What comes of an event: what became of it, what the store answered it, what is sent, and the refusal of an event that
/// has nobody to answer.
pub struct Outputs {
    pub outcome: EventOutcome,
    pub store: StoreAnswer,
    pub sent: Option<Sent>,
    pub refusal: Option<EventRefusal>,
}

// It is written out, so that no crate above proves again how each part of it is dropped.
impl Drop for Outputs {
    fn drop(self) {
        let Outputs {
            outcome: _,
            store: _,
            sent: _,
            refusal: _,
        } = self;
    }
}

/// Nothing.
pub(crate) fn make_quiet() -> Outputs
    ensures { result ≡ quiet }
{
    make_heard(None)
}

/// Bytes came, and the stream has this fault.
pub(crate) fn make_heard(refusal: Option<EventRefusal>) -> Outputs
    ensures { result ≡ heard refusal }
{
    Outputs {
        outcome: EventOutcome::Applied,
        store: StoreAnswer::NotAsked,
        sent: None,
        refusal,
    }
}

/// Memory ran out.
pub(crate) fn make_starved() -> Outputs
    ensures { result ≡ starved_outputs }
{
    Outputs {
        outcome: EventOutcome::Starved,
        store: StoreAnswer::NotAsked,
        sent: None,
        refusal: Some(EventRefusal::Starved),
    }
}

/// There was no segment for its entry.
pub(crate) fn make_unnoted() -> Outputs
    ensures { result ≡ unnoted_outputs }
{
    Outputs {
        outcome: EventOutcome::NoSegment,
        store: StoreAnswer::NotAsked,
        sent: None,
        refusal: Some(EventRefusal::Starved),
    }
}

/// Of an event that sends nothing.
pub(crate) fn tell(outcome: EventOutcome, step_result: StepResult) -> Outputs
    ensures outcome { result.outcome ≡ outcome }
    ensures store { view_of_stored result.store ≡ step_result.store }
    ensures told { result ≡ outputs_of result.outcome result.store step_result.given }
{
    Outputs {
        outcome,
        store: step_result.status.store,
        refusal: refusal_in(&step_result.reply),
        sent: None,
    }
}

/// Of a record that came on this connection.
pub(crate) fn tell_to(number: u64, outcome: EventOutcome, step_result: StepResult) -> Outputs
    ensures outcome { result.outcome ≡ outcome }
    ensures store { view_of_stored result.store ≡ step_result.store }
    ensures told { result ≡ told_to number result.outcome result.store step_result.given }
{
    Outputs {
        outcome,
        store: step_result.status.store,
        refusal: refusal_in(&step_result.reply),
        sent: send(number, step_result.reply),
    }
}

/// Of a line that came on this local connection.
pub(crate) fn tell_line(connection: u64, outcome: EventOutcome, step_result: StepResult) -> Outputs
    ensures outcome { result.outcome ≡ outcome }
    ensures store { view_of_stored result.store ≡ step_result.store }
    ensures told { result ≡ told_line connection result.outcome result.store step_result.given }
{
    Outputs {
        outcome,
        store: step_result.status.store,
        refusal: refusal_in(&step_result.reply),
        sent: send_line(connection, step_result.reply),
    }
}

/// Of a sending to this place.
pub(crate) fn tell_posted(posted: Posted, send_buffer: Box<SendBuffer>) -> Outputs
    ensures { result ≡ told_posted posted send_buffer.value }
{
    match posted {
        Posted::Nothing => make_quiet(),
        Posted::NoSegment => make_unnoted(),
        Posted::Sent => Outputs {
            outcome: EventOutcome::Applied,
            store: StoreAnswer::NotAsked,
            sent: Some(Sent::call(send_buffer)),
            refusal: None,
        },
    }
}

fn refusal_in(reply: &Reply) -> Option<EventRefusal>
    ensures { result ≡ refusal_of (view_of_reply reply.now) }
{
    match reply {
        Reply::Nobody(Unanswered::Starved) => Some(EventRefusal::Starved),
        Reply::Nobody(Unanswered::StoreRefused) => Some(EventRefusal::StoreRefused),
        Reply::Nobody(Unanswered::Nothing) | Reply::Record(_) | Reply::Line(_) => None,
    }
}

fn send(to: u64, reply: Reply) -> Option<Sent>
    ensures { result ≡ reply_to to (view_of_reply reply) }
{
    match reply {
        Reply::Record(reply) => Some(Sent::reply(to, reply)),
        Reply::Line(_) | Reply::Nobody(_) => None,
    }
}

fn send_line(to: u64, reply: Reply) -> Option<Sent>
    ensures { result ≡ line_to to (view_of_reply reply) }
{
    match reply {
        Reply::Line(answer) => Some(Sent::line(to, answer)),
        Reply::Record(_) | Reply::Nobody(_) => None,
    }
}
