//! What is true of every run.

ghost use Rattle.port_lookup.specs.Laws.{IsAskedOnce, NamesWhatWasGiven, HasADeadline};

/// As many questions were asked as are over, and one more where one is asked: never two at once.
#[tactic(auto, using(crate::proofs::Runs::asked_once))]
pub fn is_asked_once()
    ensures { IsAskedOnce }
{}

/// What is asked has the xid and the deadline of the question that was asked last, and that deadline has not passed.
#[tactic(auto, using(crate::proofs::Runs::has_deadline))]
pub fn has_a_deadline()
    ensures { HasADeadline }
{}

/// A port that is named was given by a reply to the question that was asked last, and its connection was not lost since.
#[tactic(auto, using(crate::proofs::Runs::names_given))]
pub fn names_what_was_given()
    ensures { NamesWhatWasGiven }
{}
