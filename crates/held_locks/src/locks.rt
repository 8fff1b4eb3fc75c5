//! The locks of all owners.
ghost use Rattle.std.specs.Prelude.{◌≡◌, ◌≢◌, ◌<◌, ◌⊎◌, ◌↔◌, ◌++◌, ◌∷◌, ℕ, [], true, false, Some, None, IfSome, IfNone, OnOk, OnErr, IsErr, IsTrue, IsSome, slice_get};
ghost use Rattle.definitions.specs.Owners.{Owner as SaidOwner, is_of_host};
ghost use Rattle.definitions.specs.Settings.{without_host, without_owner_on};
ghost use Rattle.definitions.specs.Conflict.{conflicts};
ghost use Rattle.definitions.specs.Starts.{first_conflict, is_short, refuses, used, used_of, runs};
ghost use Rattle.owner_ids.specs.Views.{view_of_owner};
ghost use Rattle.owner_ids.specs.Names.{names_of_owners};
ghost use Rattle.held_locks.specs.Stands.{Stands};
ghost use Rattle.range_table.specs.Settings.{mode_at};
ghost use Rattle.held_locks.specs.Asked.{view_of_request, view_of_new_setting, setting_by, view_of_lock_holder, view_of_found_holder};
ghost use Rattle.held_locks.specs.Held.{IsKnown, KeepsKnown, KeepsNames, SameNames, HoldsNothing};
ghost use Rattle.held_locks.specs.Listing.{IsListing};
ghost use Rattle.owner_ids.specs.Names.{IsNumberFor};

use crate::asked::{NewSetting, Request, RunHolder};
use crate::counts::{self, make_place};
use crate::host_runs::HostRuns;
use crate::listing::Listing;
use ghost_list::History;
use owner_ids::{HostOf, NOBODY, Owner, OwnerId, Owners, Starved};
use range_table::{ByteRange, FileId, NoRuns, RangeTable, Wanted};
use std::alloc::Global;
use std::marker::Model;

/// One setting as contracts see it. None is ever made.
#[derive(Drop)]
struct OwnerSetting {
    file: FileId,
    owner: Owner,
    first: u64,
    last: u64,
    mode: Option<range_table::Mode>,
}

impl Model for OwnerSetting {
    ghost use Rattle.definitions.specs.Settings.{Setting};
    ghost use Rattle.owner_ids.specs.Views.{view_of_owner};
    ghost use Rattle.range_table.specs.Modes.{view_of_held_mode};

    ghost Value = { Setting };

    ghost view = { λ s. record { file = s.file; owner = view_of_owner s.owner; first = s.first; last = s.last; mode = view_of_held_mode s.mode } };
}

/// The locks of all owners on all files, over a table of ranges. A contract sees the settings of the owners, oldest first,
/// and who is known: only a known owner's lock can be set, so that setting it takes no memory.
#[derive(Drop)]
pub struct Locks<R: RangeTable> {
    alloc: Global,
    table: R,
    owners: Owners,
    counts: Vec<u32>,
    hosts: HostRuns,
    settings: History<OwnerSetting>,
}

impl<R: RangeTable> Model for Locks<R> {
    ghost use Rattle.held_locks.specs.Held.{Held};
    ghost use Rattle.held_locks.specs.Tied.{IsCounted};

    ghost Value = { Held };

    ghost view = { λ l. record { settings = l.settings.items; names = l.owners } };

    ghost invariant = { λ l. IsCounted (R.settings l.table) l.counts.items l.hosts l.owners l.settings.items };
}

impl<R: RangeTable> Locks<R> {
    /// Over a table that holds nothing.
    pub fn new(alloc: Global, table: R) -> Locks<R>
        requires { R.settings table ≡ [] }
        ensures { result ≡ record { settings = []; names = [] } }
    {
        Locks {
            alloc,
            table,
            owners: Owners::new(alloc),
            counts: Vec::new(alloc),
            hosts: HostRuns::new(alloc),
            settings: History::new(),
        }
    }

    /// Whether fewer than 2 of 65,536 runs are free, so that no lock can be set.
    pub fn is_short(&self) -> bool
        ensures { result ≡ is_short 65536 self.now.settings }
    {
        self.used() > 65_534
    }

    /// How many runs the owners have.
    pub fn used(&self) -> u32
        ensures { result ≡ used self.now.settings }
    {
        self.table.used()
    }

    /// How many runs the owners of a host have. Their count is asked, and the table only where there was no memory to count.
    pub fn used_of(&self, host: &[u8]) -> u32
        ensures { result ≡ used_of host.now self.now.settings }
    {
        if self.hosts.is_whole() {
            return self.hosts.get(host);
        }
        let (table, owners) = self.parts();
        crate::owners::used_of(table, owners, host)
    }

    // How many there would be after the setting, also by an owner who isn't known.
    pub(crate) fn used_after(&self, setting: &NewSetting<'_>) -> u32
        ensures { result ≡ used (self.now.settings ++ view_of_new_setting setting.now ∷ []) }
    {
        let asker = self.asker(setting.owner);
        self.table.used_after(
            &setting.file,
            asker,
            setting.range.first,
            setting.range.last,
            setting.mode,
        )
    }

    // The asker's number, or nobody's.
    pub(crate) fn asker(&self, owner: &Owner) -> OwnerId
        ensures { IsNumberFor (names_of_owners self.now.names) result (view_of_owner owner.now) }
    {
        match self.owners.number(owner) {
            Some(number) => number,
            None => NOBODY,
        }
    }

    /// The lock of another owner that is first in the way: of the least first byte, then of the least owner.
    pub fn first_conflict(&self, wanted: &Request<'_>) -> Option<RunHolder<'_>>
        ensures { view_of_found_holder result ≡ first_conflict self.now.settings (view_of_request wanted.now) }
    {
        let asker = self.asker(wanted.owner);
        match self
            .table
            .first_conflict(&self.owners, &wanted.by_number(asker))
        {
            Some(run) => Some(RunHolder::of(&run, self.owners.get(run.owner))),
            None => None,
        }
    }

    /// Whether another owner's lock is in the way.
    pub fn conflicts(&self, wanted: &Request<'_>) -> bool
        ensures { result ≡ conflicts self.now.settings (view_of_request wanted.now) }
    {
        let asker = self.asker(wanted.owner);
        self.table.is_blocked(&wanted.by_number(asker))
    }
}

impl<R: RangeTable> Locks<R> {
    /// Makes an owner known, so that a lock of it can be set. Starved: no owner has become known, and none is forgotten.
    pub fn admit(&mut self, owner: &Owner) -> Result<(), Starved>
        ensures settings { self.new.settings ≡ self.old.settings }
        ensures known { OnOk result (IsKnown self.new (view_of_owner owner.now)) }
        ensures others { KeepsKnown self.old self.new }
        ensures names { KeepsNames self.old self.new }
        ensures err { OnErr result (SameNames self.old self.new) }
    {
        let number = self.owners.intern(owner)?;
        match make_place(&mut self.counts, number) {
            Ok(()) => Ok(()),
            Err(starved) => {
                self.owners.release(number);
                Err(starved)
            }
        }
    }

    /// Whether `set` would refuse the setting, also of an owner who isn't known: he holds nothing. Changes nothing.
    pub fn refuses(&self, setting: &NewSetting<'_>) -> bool
        ensures { result ≡ refuses 65536 self.now.settings (view_of_new_setting setting.now) }
    {
        match self.owners.number(setting.owner) {
            Some(number) => {
                self.table.refuses(
                    &setting.file,
                    number,
                    setting.range.first,
                    setting.range.last,
                    setting.mode,
                )
            }
            None => setting.mode.is_some() && self.is_short(),
        }
    }

    /// From now on the owner holds this mode from the first to the last byte, or nothing. Whoever locks is known.
    /// Refused where fewer than 2 of 65,536 runs are free, but for an unlock that raises the number of runs no further.
    /// Then nothing has changed.
    pub fn set(&mut self, setting: &NewSetting<'_>) -> Result<(), NoRuns>
        requires known { (setting.now.mode ≡ None) ⊎ IsKnown self.old (view_of_owner setting.now.owner.now) }
        ensures refused { IsErr result ↔ IsTrue (refuses 65536 self.old.settings (view_of_new_setting setting.now)) }
        ensures ok { OnOk result (self.new.settings ≡ self.old.settings ++ view_of_new_setting setting.now ∷ []) }
        ensures err { OnErr result (self.new.settings ≡ self.old.settings) }
        ensures names { self.new.names ≡ self.old.names }
    {
        if let Some(number) = self.owners.number(setting.owner) {
            counts::set(
                &mut self.table,
                &mut self.counts,
                &mut self.hosts,
                number,
                setting,
            )?;
        }
        self.settings = self.settings.after(setting);
        Ok(())
    }

    /// The same of a lock that is wanted by its owner's number, which is in use.
    pub fn set_run(&mut self, wanted: &Wanted) -> Result<(), NoRuns>
        requires known { IsSome (names_of_owners self.old.names wanted.now.owner) }
        ensures refused { (x : SaidOwner) → names_of_owners self.old.names wanted.now.owner ≡ Some x → IsErr result ↔ IsTrue (refuses 65536 self.old.settings (setting_by x wanted.now)) }
        ensures ok { OnOk result ((x : SaidOwner) → names_of_owners self.old.names wanted.now.owner ≡ Some x → self.new.settings ≡ self.old.settings ++ setting_by x wanted.now ∷ []) }
        ensures err { OnErr result (self.new.settings ≡ self.old.settings) }
        ensures names { self.new.names ≡ self.old.names }
    {
        let run = wanted.run();
        let setting = NewSetting {
            file: run.file,
            owner: self.owners.get(run.owner),
            range: ByteRange {
                first: run.first,
                last: run.last,
            },
            mode: Some(run.mode),
        };
        counts::set(
            &mut self.table,
            &mut self.counts,
            &mut self.hosts,
            run.owner,
            &setting,
        )?;
        self.settings = self.settings.after(&setting);
        Ok(())
    }
}

impl<R: RangeTable> Locks<R> {
    /// The number of a known owner that holds nothing. It takes no search: the runs of each number are counted.
    pub fn idle_number(&self, owner: &Owner) -> Option<OwnerId>
        ensures number { IfSome result (λ n. names_of_owners self.now.names n ≡ Some (view_of_owner owner.now)) }
        ensures idle { IfSome result (λ n. HoldsNothing self.now (view_of_owner owner.now)) }
        ensures none { IfNone result (HoldsNothing self.now (view_of_owner owner.now) → (n : ℕ) → names_of_owners self.now.names n ≢ Some (view_of_owner owner.now)) }
    {
        match self.owners.number(owner) {
            Some(number) if self.counts[number as usize] == 0 => Some(number),
            _ => None,
        }
    }

    /// Forgets an owner that holds nothing. The others stay known.
    pub fn forget_idle(&mut self, owner: &Owner)
        ensures settings { self.new.settings ≡ self.old.settings }
        ensures others { (x : SaidOwner) → x ≢ view_of_owner owner.now → IsKnown self.old x → IsKnown self.new x }
        ensures names { (n : ℕ) (x : SaidOwner) → x ≢ view_of_owner owner.now → names_of_owners self.old.names n ≡ Some x → names_of_owners self.new.names n ≡ Some x }
        ensures forgotten { HoldsNothing self.old (view_of_owner owner.now) → (n : ℕ) → names_of_owners self.new.names n ≢ Some (view_of_owner owner.now) }
        ensures kept { (HoldsNothing self.old (view_of_owner owner.now) → ⊥) → KeepsKnown self.old self.new }
    {
        if let Some(number) = self.idle_number(owner) {
            self.owners.release(number);
        }
    }

    /// Takes the settings of a host's owners out, and forgets them. The others stay known.
    pub fn drop_host(&mut self, name: &[u8])
        ensures settings { self.new.settings ≡ without_host name.now self.old.settings }
        ensures others { (x : SaidOwner) → is_of_host name.now x ≡ false → IsKnown self.old x → IsKnown self.new x }
        ensures names { (n : ℕ) (x : SaidOwner) → is_of_host name.now x ≡ false → names_of_owners self.old.names n ≡ Some x → names_of_owners self.new.names n ≡ Some x }
        ensures forgotten { (x : SaidOwner) → is_of_host name.now x ≡ true → (n : ℕ) → names_of_owners self.new.names n ≢ Some x }
    {
        let host = HostOf {
            owners: &self.owners,
            name,
        };
        self.table.drop_host(&host);
        counts::clear_host(&mut self.counts, &host);
        counts::release_host(&mut self.owners, self.counts.len(), name);
        self.hosts.put(name, 0);
        self.settings = self.settings.after(&name);
    }

    /// Takes the settings of an owner on a file out. It stays known.
    pub fn drop_owner_on_file(&mut self, file: &FileId, owner: &Owner)
        ensures settings { self.new.settings ≡ without_owner_on file.now (view_of_owner owner.now) self.old.settings }
        ensures names { self.new.names ≡ self.old.names }
    {
        if let Some(number) = self.owners.number(owner) {
            counts::drop_owner_on_file(
                &mut self.table,
                &mut self.counts,
                &mut self.hosts,
                file,
                owner,
                number,
            );
        }
        self.settings = self.settings.after(&(file, owner));
    }

    /// Leaves no setting, and nobody known.
    #[tactic(auto, using(crate::proofs::HostCounts::counted_nothing))]
    pub fn clear(&mut self)
        ensures { self.new ≡ record { settings = []; names = [] } }
    {
        self.table.clear();
        self.owners = Owners::new(self.alloc);
        self.counts.clear();
        self.hosts = HostRuns::new(self.alloc);
        self.settings = History::new();
    }
}

impl<R: RangeTable> Locks<R> {
    /// The i-th of all locks, in order of file, first byte and owner.
    pub fn holder(&self, i: u32) -> RunHolder<'_>
        requires { i < used self.now.settings }
        ensures { slice_get (runs self.now.settings) i ≡ Some (view_of_lock_holder result) }
    {
        let run = self.table.runs(&self.owners, i);
        RunHolder::of(&run, self.owners.get(run.owner))
    }

    /// All locks in a row, for whoever reads all of them. `None` where there is no memory for them.
    pub fn listing(&self) -> Option<Listing>
        ensures { IfSome result (λ all. IsListing self.now all) }
    {
        let (table, owners) = self.parts();
        Listing::of(self.alloc, table, owners)
    }

    /// The i-th of all locks, as `holder`, out of their row, and without a search.
    pub fn listed(&self, all: &Listing, i: u32) -> RunHolder<'_>
        requires listing { IsListing self.now all.now }
        requires within { i < used self.now.settings }
        ensures { slice_get (runs self.now.settings) i ≡ Some (view_of_lock_holder result) }
    {
        let run = all.get(i);
        RunHolder::of(run, self.owners.get(run.owner))
    }

    /// The owner of a number in use.
    pub fn owner(&self, number: OwnerId) -> &Owner
        requires { IsSome (names_of_owners self.now.names number) }
        ensures { names_of_owners self.now.names number ≡ Some (view_of_owner result.now) }
    {
        self.owners.get(number)
    }

    /// The table and the owners' numbers, for the tables beside it that know owners by number.
    pub fn parts(&self) -> (&R, &Owners)
        ensures stands { Stands (names_of_owners result.1.now) (mode_at (R.settings result.0.now)) self.now.settings }
        ensures names { result.1.now ≡ self.now.names }
    {
        (&self.table, &self.owners)
    }
}
