//! What became of an event.

use book::Completion;

/// What became of an event.
#[derive(Clone, Copy, PartialEq, Eq)]
pub enum EventOutcome {
    /// It was done.
    Applied,
    /// It met want of memory.
    Starved,
    /// The segment of the journal is full and there is no memory for a fresh one: the event has no entry and changed nothing.
    NoSegment,
}

impl From<Completion> for EventOutcome {
    ghost use Rattle.std.specs.Prelude.{◌≡◌};
    ghost use Rattle.daemon_core.specs.Outcomes.{noted_as};

    ghost from_gives = { λ completion outcome. outcome ≡ noted_as completion };

    fn from(completion: Completion) -> EventOutcome {
        match completion {
            Completion::Applied => EventOutcome::Applied,
            Completion::Starved => EventOutcome::Starved,
        }
    }
}
