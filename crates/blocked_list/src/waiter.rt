//! One who waits.
ghost use Rattle.std.specs.Prelude.{◌≡◌, ◌<◌, ◌≤◌, ◌^◌, ◌==◌, ◌&&◌};
ghost use Rattle.definitions.specs.Bytes.{same_bytes};
ghost use Rattle.definitions.specs.Settings.{setting_of};
ghost use Rattle.definitions.specs.Quotas.{exceeds};
ghost use Rattle.definitions.specs.World.{is_ready, the_limits};
ghost use Rattle.owner_ids.specs.Names.{names_of_owners};
ghost use Rattle.blocked_list.specs.Waiting.{same_wanted, setting_wanted};
ghost use Rattle.blocked_list.specs.Standing.{WhereFree, AreRunsOf};
ghost use Rattle.blocked_list.specs.Touches.{meets};
ghost use Rattle.blocked_list.specs.Ready.{is_ready_on};

use crate::quotas::{Quotas, limit_of};
use crate::touched::Touched;
use callbacks::Callback;
use held_locks::{Allowance, RunsOfHosts};
use owner_ids::Owners;
use range_table::{FileId, RangeTable, Ranged, Run, Setting, Wanted};
use std::marker::Model;

/// The lock that somebody waits for, whom the tables know by number, and the call that tells of it once it is granted.
#[derive(Drop)]
pub struct Waiter {
    wanted: Wanted,
    callback: Callback,
}

impl Model for Waiter {
    ghost use Rattle.blocked_list.specs.Waiting.{Waiting};

    ghost Value = { Waiting };

    ghost view = { λ w. record { wanted = w.wanted; callback = w.callback } };
}

impl Waiter {
    /// A waiter for this lock, from copies that the caller made.
    pub fn new(wanted: Wanted, callback: Callback) -> Waiter
        ensures { result ≡ record { wanted = wanted; callback = callback } }
    {
        Waiter { wanted, callback }
    }

    /// The lock that is wanted. Its owner's number is in use as long as it waits.
    pub fn wanted(&self) -> &Run
        ensures wanted { result.now ≡ self.now.wanted }
        ensures ordered { result.now.first ≤ result.now.last }
        ensures inside { result.now.last < 2 ^ 63 }
    {
        self.wanted.run()
    }

    /// The same, as the tables are asked for it.
    pub fn asked(&self) -> &Wanted
        ensures { result.now ≡ self.now.wanted }
    {
        &self.wanted
    }

    /// What tells of the grant, and whom.
    pub fn callback(&self) -> &Callback
        ensures { result.now ≡ self.now.callback }
    {
        &self.callback
    }

    /// Gives the callback up.
    pub fn into_callback(self) -> Callback
        ensures { result ≡ self.callback }
    {
        self.callback
    }

    // Whether it waits for this lock: of one owner, file, range and mode.
    #[tactic(auto, using(crate::proofs::Waits::modes_same, held_locks::proofs::Words::file_same))]
    pub(crate) fn is_for(&self, wanted: &Run) -> bool
        ensures { result ≡ same_wanted self.now.wanted wanted.now }
    {
        let run = self.wanted.run();
        run.file.is_same(&wanted.file)
            && run.owner == wanted.owner
            && run.first == wanted.first
            && run.last == wanted.last
            && run.mode.is_same(wanted.mode)
    }

    #[tactic(auto, using(held_locks::proofs::Words::file_same))]
    pub(crate) fn is_on(&self, file: &FileId) -> bool
        ensures { result ≡ same_bytes self.now.wanted.file file.now }
    {
        self.wanted.run().file.is_same(file)
    }

    // Whether it waits for one of these bytes.
    pub(crate) fn waits_for(&self, touched: &Touched) -> bool
        ensures { result ≡ (meets touched.now self.now.wanted.first self.now.wanted.last && same_bytes self.now.wanted.file touched.now.file) }
    {
        touched.meets(self.wanted.run()) && self.is_on(&touched.file)
    }

    // Whether it waits for one of these bytes, and nobody is in the way, and its host's quota isn't, where 2 runs are free.
    // The table is asked only of who waits for one of them.
    pub(crate) fn is_freed<T: RangeTable, H: RunsOfHosts, Q: Quotas>(
        &self,
        table: &T,
        owners: &Owners,
        hosts: &H,
        quotas: &Q,
        touched: &Touched,
    ) -> bool
        ensures { WhereFree (names_of_owners owners.now) (T.settings table.now) self.now (λ settings waiter. AreRunsOf (H.runs hosts.now) settings → result ≡ is_ready_on touched.now (Q.by_host quotas.now) settings waiter) }
    {
        self.waits_for(touched) && self.is_free(table, owners, hosts, quotas)
    }

    // Whether nobody is in the way, and its host's quota isn't, where 2 runs are free.
    pub(crate) fn is_free<T: RangeTable, H: RunsOfHosts, Q: Quotas>(
        &self,
        table: &T,
        owners: &Owners,
        hosts: &H,
        quotas: &Q,
    ) -> bool
        ensures { WhereFree (names_of_owners owners.now) (T.settings table.now) self.now (λ settings waiter. AreRunsOf (H.runs hosts.now) settings → result ≡ is_ready the_limits (Q.by_host quotas.now) settings waiter) }
    {
        !held_locks::conflicts(table, owners, &self.wanted)
            && !self.is_held_back(table, owners, hosts, quotas)
    }

    // Whether its host's quota holds it back, where 2 runs are free.
    fn is_held_back<T: RangeTable, H: RunsOfHosts, Q: Quotas>(
        &self,
        table: &T,
        owners: &Owners,
        hosts: &H,
        quotas: &Q,
    ) -> bool
        ensures { WhereFree (names_of_owners owners.now) (T.settings table.now) self.now (λ settings waiter. AreRunsOf (H.runs hosts.now) settings → result ≡ exceeds (Q.by_host quotas.now) settings (setting_of waiter.request)) }
    {
        let Some(owner) = owners.find(self.wanted.run().owner) else {
            return false;
        };
        let Some(limit) = limit_of(quotas, owner) else {
            return false;
        };
        let allowance = Allowance {
            used: hosts.runs_of(limit.host),
            quota: limit.quota,
        };
        held_locks::is_past(table, owners, limit.host, allowance, &self.setting())
    }

    // What it sets once it is granted.
    fn setting(&self) -> Ranged
        ensures { result.setting ≡ setting_wanted self.now.wanted }
    {
        let run = self.wanted.run();
        let setting = Setting {
            file: run.file,
            owner: run.owner,
            first: run.first,
            last: run.last,
            mode: Some(run.mode),
        };
        Ranged { setting }
    }
}
