//! What a host may have beside what it has.
ghost use Rattle.std.specs.Prelude.{◌≡◌, ◌+◌, ltb};
ghost use Rattle.held_locks.specs.Allowances.{goes_past};

/// How many runs a host's owners have, and how many they may have.
#[derive(Clone, Copy)]
pub struct Allowance {
    pub used: u32,
    pub quota: u32,
}

impl Allowance {
    /// Whether a change of one of them, which makes at most two runs more, may go past it.
    pub fn is_near(&self) -> bool
        ensures { result ≡ ltb self.now.quota (self.now.used + 2) }
    {
        u64::from(self.quota) < u64::from(self.used) + 2
    }

    /// Whether they would have more than they may, and more than they have, where so many runs of all owners become so many by a
    /// change of one of them: what others have stays.
    pub fn is_past(&self, all: u32, after: u32) -> bool
        ensures { result ≡ goes_past self.now all after }
    {
        let own = after.saturating_sub(all.saturating_sub(self.used));
        self.quota < own && self.used < own
    }
}
