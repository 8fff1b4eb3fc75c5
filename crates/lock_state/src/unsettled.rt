//! Where somebody who waits may be ready to be granted, so that nobody else is looked at.
ghost use Rattle.std.specs.Prelude.{◌≡◌, ◌⊎◌, ◌↔◌, ◌++◌, ◌∷◌, [], None, List, OnOk, OnErr, IsErr, IsTrue};
ghost use Rattle.definitions.specs.Moves.{AreRanges};
ghost use Rattle.definitions.specs.Starts.{refuses};
ghost use Rattle.definitions.specs.Waits.{Waiter as SaidWaiter};
ghost use Rattle.owner_ids.specs.Views.{view_of_owner};
ghost use Rattle.held_locks.specs.Asked.{view_of_new_setting};
ghost use Rattle.held_locks.specs.Held.{IsKnown};
ghost use Rattle.lock_state.specs.ReadyAt.{IsReadyAt, with_bytes, after_change, after_wait};

use crate::quotas::may_free;
use blocked_list::laws::setting_frees_own_bytes;
use blocked_list::{Quotas, Touched};
use held_locks::{Locks, NewSetting};
use range_table::{NoRuns, RangeTable};

/// Where somebody who waits may be ready to be granted.
#[derive(Clone, Copy)]
pub(crate) enum Unsettled {
    Nowhere,
    /// Of those who wait, for one of these bytes alone.
    On(Touched),
    Anywhere,
}

impl Unsettled {
    /// There, or at these bytes. On one file, what lies between is looked at, too.
    pub(crate) fn with_bytes(&self, touched: &Touched) -> Unsettled
        ensures { result ≡ with_bytes self.now touched.now }
    {
        match self {
            Unsettled::Nowhere => Unsettled::On(*touched),
            Unsettled::On(other) if other.is_beside(touched) => {
                Unsettled::On(other.with(touched))
            }
            Unsettled::On(_) | Unsettled::Anywhere => Unsettled::Anywhere,
        }
    }

    /// After a change of these bytes alone. Where too few runs were free for a grant, or a quota held the changed owner's
    /// host back, that may have been what kept the others waiting.
    pub(crate) fn after_change(&self, touched: &Touched, was_held: bool) -> Unsettled
        ensures { result ≡ after_change self.now touched.now was_held }
    {
        if was_held {
            Unsettled::Anywhere
        } else {
            self.with_bytes(touched)
        }
    }

    /// After somebody came who waits for these bytes. Who is kept out by another's lock isn't ready.
    pub(crate) fn after_wait(&self, touched: &Touched, is_kept_out: bool) -> Unsettled
        ensures { result ≡ after_wait self.now touched.now is_kept_out }
    {
        if is_kept_out {
            *self
        } else {
            self.with_bytes(touched)
        }
    }
}

/// Sets what an owner holds of a file. Refused, nothing has changed but where somebody may be ready.
pub(crate) fn set_on<R: RangeTable, Q: Quotas>(
    locks: &mut Locks<R>,
    unsettled: &mut Unsettled,
    quotas: &Q,
    setting: &NewSetting<'_>,
) -> Result<(), NoRuns>
    requires known { (setting.now.mode ≡ None) ⊎ IsKnown locks.old (view_of_owner setting.now.owner.now) }
    ensures refused { IsErr result ↔ IsTrue (refuses 65536 locks.old.settings (view_of_new_setting setting.now)) }
    ensures ok { OnOk result (locks.new.settings ≡ locks.old.settings ++ view_of_new_setting setting.now ∷ []) }
    ensures err { OnErr result (locks.new.settings ≡ locks.old.settings) }
    ensures names { locks.new.names ≡ locks.old.names }
    ensures ready { (waiters : List SaidWaiter) → AreRanges waiters → IsReadyAt unsettled.old (Q.by_host quotas.now) locks.old.settings waiters → IsReadyAt unsettled.new (Q.by_host quotas.now) locks.new.settings waiters }
{
    setting_frees_own_bytes();
    let touched = Touched {
        file: setting.file,
        first: setting.range.first,
        last: setting.range.last,
    };
    *unsettled = unsettled.after_change(&touched, may_free(locks, quotas, setting.owner));
    locks.set(setting)
}
