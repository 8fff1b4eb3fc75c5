//! What a lock call comes to, before it is known how it is told.
ghost use Rattle.std.specs.Prelude.{ℕ, false};
ghost use Rattle.definitions.specs.Rulings.{stays};
ghost use Rattle.definitions.specs.World.{World as SaidWorld};
ghost use Rattle.nlm4_types.specs.Stat.{view_of_stat};
ghost use Rattle.lock_service.specs.Verdicts.{IsVerdict, OnlyAsksIf};

use call_plans::{Asked, Change};
use nlm4_types::Stat;

/// A status, and what changes.
#[derive(Drop)]
pub(crate) enum Verdict {
    /// The store isn't asked.
    Decided {
        stat: Stat,
        change: Change,
    },
    /// The store is asked first. Where it refuses, the lock is denied, and nothing changes.
    AfterStore {
        asked: Asked,
        stat: Stat,
        change: Change,
    },
}

impl Verdict {
    /// A status, and nothing changes.
    pub(crate) fn of_stat(stat: Stat) -> Verdict
        ensures verdict { (reserved : ℕ) (w : SaidWorld) → IsVerdict (stays w (view_of_stat stat)) reserved w result }
        ensures asks { OnlyAsksIf false result }
    {
        Verdict::Decided {
            stat,
            change: Change::Nothing,
        }
    }
}
