//! What the passes of the channel know, and the rule that keeps it true.
use crate::Job;
use crossbeam_channel::protocol::{Join, Lesson, Outcome, Protocol, Split};
use std::collections::LinkedList;

/// What was put and what was taken by one pass, each in its order. No value of it is made.
pub struct Hand {
    pub put: LinkedList<Job>,
    pub taken: LinkedList<Job>,
}

/// What a pass knows. No value of it is made.
pub struct View {
    /// Whether it may put, take and be gathered.
    pub works: bool,
    /// Its number: the keeper's is 0.
    pub name: u64,
    pub hand: Hand,
    /// Whether it cuts and gathers the others.
    pub keeps: bool,
    /// How many passes there are.
    pub made: u64,
    /// The hands of passes 1, 2 and so on that were gathered.
    pub known: LinkedList<Hand>,
}

/// The rule of the channel: what its passes put is what they took and what lies in it.
pub struct Handing;

impl Protocol<Job, View> for Handing {
    ghost use Rattle.job_queue.specs.Passes.{Handed, first_view};

    ghost holds = { Handed };

    ghost first = { first_view };
}

pub(crate) struct Parts;

impl Split<View> for Parts {
    ghost use Rattle.job_queue.specs.Passes.{with_made, hand_view, no_hand};

    ghost left = { with_made };

    ghost right = { λ v. hand_view v.made no_hand };
}

impl Join<View> for Parts {
    ghost use Rattle.job_queue.specs.Passes.{with_known, spent_view};

    ghost both = { λ v w. with_known v w.hand };

    ghost spent = { spent_view };
}

pub(crate) struct Puts;

impl Outcome<Job, View> for Puts {
    ghost use Rattle.std.specs.Prelude.{◌≡◌};
    ghost use Rattle.job_queue.specs.Passes.{with_put};

    ghost then = { λ v x w. w ≡ with_put v x };
}

impl Lesson<Job, View> for Puts {
    ghost use Rattle.std.specs.Prelude.{⊤};

    ghost fact = { λ v items. ⊤ };
}

pub(crate) struct Takes;

impl Outcome<Job, View> for Takes {
    ghost use Rattle.std.specs.Prelude.{◌≡◌};
    ghost use Rattle.job_queue.specs.Passes.{with_taken};

    ghost then = { λ v x w. w ≡ with_taken v x };
}

impl Lesson<Job, View> for Takes {
    ghost use Rattle.std.specs.Prelude.{⊤};

    ghost fact = { λ v items. ⊤ };
}

pub(crate) struct Settles;

impl Lesson<Job, View> for Settles {
    ghost use Rattle.std.specs.Prelude.{◌∷◌};
    ghost use Rattle.job_queue.specs.Passes.{Settled};

    ghost fact = { λ v items. Settled (v.hand ∷ v.known) items };
}
