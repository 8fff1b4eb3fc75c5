//! Whom a change lets wait no longer, each law as the contract of a function that does nothing.
ghost use Rattle.blocked_list.specs.Quotas.{UnlimitedLaw};
ghost use Rattle.blocked_list.specs.Ready.{SettingFreesLaw, CloseFreesLaw};

/// An owner whose host has no quota, or the full one, goes past none.
pub fn unlimited_exceeds_nothing()
    ensures { UnlimitedLaw }
{}

/// A setting, where nobody who waits for other bytes can be granted before it, 2 runs are free, and no quota holds its
/// owner back: only those who wait for its bytes.
pub fn setting_frees_own_bytes()
    ensures { SettingFreesLaw }
{}

/// A close, likewise: only those who wait for bytes among which are all that its owner held.
pub fn close_frees_own_bytes()
    ensures { CloseFreesLaw }
{}
