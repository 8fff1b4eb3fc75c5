//! How far runs reach.
ghost use Rattle.std.specs.Prelude.{◌≡◌, ◌==◌, ◌<◌, ◌≤◌, ◌^◌, false};
ghost use Rattle.range_arena.specs.Reaches.{end_of, Reaches};
ghost use Rattle.range_table.specs.declared.run.Run.{Run};

use owner_ids::OwnerId;
use range_table::run::Run;

/// The runs of one owner end before one byte, and those of all others before another.
#[derive(Clone, Copy)]
pub(crate) struct Reach {
    owner: OwnerId,
    own: u64,
    others: u64,
}

impl Reach {
    /// Of no runs.
    pub(crate) fn none() -> Reach {
        Reach {
            owner: 0,
            own: 0,
            others: 0,
        }
    }

    /// The same with one more run.
    pub(crate) fn with(self, run: &Run) -> Reach
        ensures run { Reaches result run.now }
        ensures others { (r : Run) → Reaches self r → Reaches result r }
    {
        let end = run.last.saturating_add(1);
        if run.owner == self.owner {
            Reach {
                own: self.own.max(end),
                ..self
            }
        } else if end <= self.own {
            Reach {
                others: self.others.max(end),
                ..self
            }
        } else {
            Reach {
                owner: run.owner,
                own: self.others.max(end),
                others: self.own.max(self.others),
            }
        }
    }

    /// Of the runs of both, without looking at any: perhaps too far.
    pub(crate) fn joined(self, other: &Reach) -> Reach
        ensures own { (r : Run) → Reaches self r → Reaches result r }
        ensures others { (r : Run) → Reaches other.now r → Reaches result r }
    {
        let reached = other.own.max(other.others);
        Reach {
            owner: self.owner,
            own: self.own.max(reached),
            others: self.others.max(reached),
        }
    }

    /// Before which byte the runs of all but one owner end.
    pub(crate) fn beside(&self, owner: OwnerId) -> u64
        ensures { (r : Run) → (r.owner == owner) ≡ false → Reaches self.now r → end_of r ≤ result }
    {
        if owner == self.owner {
            self.others
        } else {
            self.own.max(self.others)
        }
    }

    /// Whether it may reach less far without the run.
    pub(crate) fn rests_on(&self, run: &Run) -> bool {
        let end = run.last.saturating_add(1);
        if run.owner == self.owner {
            self.own <= end
        } else {
            self.others <= end
        }
    }
}
