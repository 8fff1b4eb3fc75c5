//! How many runs the owners of each host have, beside a table that knows owners alone: so that a quota is asked without a walk
//! over the table.

ghost use Rattle.std.specs.Prelude.{◌≡◌, ◌≢◌, ◌-◌, ℕ, true, false, cond};
ghost use Rattle.definitions.specs.Bytes.{Bytes, same_bytes};
ghost use Rattle.definitions.specs.Owners.{is_of_host};
ghost use Rattle.owner_ids.specs.Views.{view_of_owner};
ghost use Rattle.held_locks.specs.HostRuns.{runs_of, IsRecounted, Puts};

use owner_ids::Owner;
use std::alloc::Global;
use std::collections::BTreeMap;
use std::marker::Model;

/// The counts of the hosts that have runs, by their names. Where there was no memory for one it is no longer whole, and what it
/// says means nothing from then on.
#[derive(Drop)]
pub struct HostRuns {
    alloc: Global,
    by_host: BTreeMap<Vec<u8>, u32>,
    is_whole: bool,
}

impl Model for HostRuns {
    ghost use Rattle.held_locks.specs.HostRuns.{Counted};
    ghost use Rattle.held_locks.specs.Kept.{IsKept, view_of_counts};

    ghost Value = { Counted };

    ghost view = { view_of_counts };

    ghost invariant = { IsKept };
}

/// Who tells how many runs the owners of each host have.
pub trait RunsOfHosts {
    ghost use Rattle.definitions.specs.Bytes.{Bytes};

    ghost runs: { Self → Bytes → ℕ };

    fn runs_of(&self, host: &[u8]) -> u32
        ensures { result ≡ runs self.now host.now };
}

impl HostRuns {
    /// No host has a run.
    pub fn new(alloc: Global) -> HostRuns
        ensures { (name : Bytes) → runs_of result name ≡ 0 }
    {
        HostRuns {
            alloc,
            by_host: BTreeMap::new(alloc),
            is_whole: true,
        }
    }

    /// Whether what it says is so.
    pub fn is_whole(&self) -> bool
        ensures { result ≡ self.now.whole }
    {
        self.is_whole
    }

    /// How many runs a host's owners have.
    pub fn get(&self, host: &[u8]) -> u32
        ensures { result ≡ runs_of self.now host.now }
    {
        match self.by_host.get(host) {
            Some(runs) => *runs,
            None => 0,
        }
    }

    // Writes a host's count over the one that it has. Whether it has one.
    fn write(&mut self, host: &[u8], runs: u32) -> bool
        ensures whole { self.new.whole ≡ self.old.whole }
        ensures none { result ≡ false → runs_of self.old host.now ≡ 0 }
        ensures runs { (name : Bytes) → runs_of self.new name ≡ cond (same_bytes host.now name) (cond result runs (runs_of self.old name)) (runs_of self.old name) }
    {
        match self.by_host.get_mut(host) {
            Some(place) => {
                *place = runs;
                true
            }
            None => false,
        }
    }

    // Adds a host's count, or is no longer whole.
    fn add(&mut self, host: &[u8], runs: u32)
        requires some { runs ≢ 0 }
        requires none { runs_of self.old host.now ≡ 0 }
        ensures { Puts host.now runs self.old self.new }
    {
        let Ok(name) = host.to_vec(self.alloc) else {
            self.is_whole = false;
            return;
        };
        if self.by_host.insert(name, runs).is_err() {
            self.is_whole = false;
        }
    }

    /// So many runs have a host's owners from now on. Where there is no memory for its name, it is no longer whole: that a host
    /// that has runs already, or that has none from now on, does not need.
    pub fn put(&mut self, host: &[u8], runs: u32)
        ensures { Puts host.now runs self.old self.new }
    {
        if runs == 0 {
            let _ = self.by_host.remove(host);
        } else if !self.write(host, runs) {
            self.add(host, runs);
        }
    }

    /// An owner alone has changed, and with it the runs of all owners, from so many to so many. Its host, if it has one, has
    /// what is left of all without those of others. Where there is no memory for its name, it is no longer whole.
    pub fn recount(&mut self, owner: &Owner, all: u32, after: u32)
        ensures { IsRecounted (view_of_owner owner.now) all after self.old self.new }
    {
        let Owner::Remote { name, .. } = owner else {
            return;
        };
        let others = all.saturating_sub(self.get(name));
        self.put(name, after.saturating_sub(others));
    }
}
