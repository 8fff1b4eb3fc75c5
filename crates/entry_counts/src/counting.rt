//! An entry is counted.
ghost use Rattle.std.specs.Prelude.{◌≡◌, ℕ, Bool, false, [], ◌∷◌};
ghost use Rattle.definitions.specs.Step.{Peer, Given};
ghost use Rattle.call_plans.specs.Planned.{view_of_stored};
ghost use Rattle.book.specs.Given.{result_under, view_of_completion};
ghost use Rattle.book.specs.Notes.{JournalEvent, Takes, BeginsAnew, is_take, view_of_event};
ghost use Rattle.entry_counts.specs.Counted.{happening_of, is_wanting, store_reply_of, note_of, AreCountsOf, CountsMore, CountsSent, HasRoom};

use crate::outcomes::got_of;
use book::{BookEvent, Completion, EventStatus, StepResult, StoreAnswer};
use event_counts::{Counts, Happening, StoreReply, record_place};

/// What happened, by the event that it is.
pub fn happening_of(event: &BookEvent) -> Happening
    ensures { result ≡ happening_of (view_of_event event.now) }
{
    match event {
        BookEvent::Take { peer: _, record: _ } => Happening::Call,
        BookEvent::Answer { bytes: _ } => Happening::Answer,
        BookEvent::Local {
            connection: _,
            line: _,
        } => Happening::Line,
        BookEvent::Silent { number: _ } => Happening::Silence,
        BookEvent::GraceOver => Happening::GraceOver,
        BookEvent::Restart => Happening::Restart,
    }
}

fn is_wanting(completion: Completion) -> bool
    ensures { result ≡ is_wanting (view_of_completion completion) }
{
    match completion {
        Completion::Applied => false,
        Completion::Starved => true,
    }
}

fn store_reply_of(answer: StoreAnswer) -> StoreReply
    ensures { result ≡ store_reply_of (view_of_stored answer) }
{
    match answer {
        StoreAnswer::NotAsked => StoreReply::NotAsked,
        StoreAnswer::Yes => StoreReply::Agreed,
        StoreAnswer::Refused => StoreReply::Refused,
    }
}

/// Counts an entry that took no record: what happened, and its status.
pub fn count_event(counts: &mut Counts, what: Happening, status: EventStatus)
    requires { HasRoom counts.old }
    ensures { (event : JournalEvent) (given : Given) → is_take event ≡ false → what ≡ happening_of event → CountsMore event (result_under status given) counts.old counts.new }
{
    counts.add_event(
        what,
        is_wanting(status.completion),
        store_reply_of(status.store),
    );
}

/// Counts an entry that took this record and came to this.
pub fn count_call(counts: &mut Counts, record: &[u8], step_result: &StepResult)
    requires { HasRoom counts.old }
    ensures { (peer : Peer) → CountsMore (Takes peer «record».now) step_result.now counts.old counts.new }
{
    let status = step_result.status;
    counts.add_call(record_place(record), got_of(&step_result.reply));
    counts.add_event(
        Happening::Call,
        is_wanting(status.completion),
        store_reply_of(status.store),
    );
}

/// Counts the sending of a call of the server's own, if one was sent.
pub fn count_sent(counts: &mut Counts, is_sent: bool)
    requires { HasRoom counts.old }
    ensures { CountsSent is_sent counts.old counts.new }
{
    if is_sent {
        counts.add_event(Happening::Sent, false, StoreReply::NotAsked);
    }
}

/// What is counted of a server's first entry, the restart of this status.
pub fn counts_of_restart(status: EventStatus) -> Counts
    ensures { (number : ℕ) (given : Given) → AreCountsOf (note_of number BeginsAnew (result_under status given) ∷ []) result }
{
    let mut counts = Counts::new();
    count_event(&mut counts, Happening::Restart, status);
    counts
}
