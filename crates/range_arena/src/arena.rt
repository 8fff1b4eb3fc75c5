//! One sorted list of runs, with an index.
ghost use Rattle.std.specs.Prelude.{◌≡◌, [], IfOk};

use crate::indexed::Indexed;
use crate::quick;
use ghost_list::History;
use owner_ids::{Host, OwnerId, OwnerOrder, Starved};
use range_table::run::{Mode, NoRuns, Run, Setting};
use range_table::{FileId, RangeTable, Ranged, Wanted, ordered, sorted};
use std::alloc::Global;
use std::marker::Model;

/// Runs in order of file, first byte and owner's number. A clause sees the settings that stand, oldest first.
pub struct ArenaTable {
    runs: Indexed,
    history: History<Setting>,
}

// It is written out, so that no crate above proves again how each part of it is dropped.
impl Drop for ArenaTable {
    fn drop(self) {
        let ArenaTable {
            runs: _,
            history: _,
        } = self;
    }
}

impl Model for ArenaTable {
    ghost use Rattle.std.specs.Prelude.{List};
    ghost use Rattle.range_table.specs.declared.run.Setting.{Setting};

    ghost Value = { List Setting };

    ghost use Rattle.range_table.specs.Kept.{KeepSettings};

    ghost view = { λ t. t.history.items };

    ghost invariant = { λ t. KeepSettings t.runs.list t.history.items };
}

impl ArenaTable {
    /// A table with no setting, and with room for 65,536 runs.
    pub fn new(alloc: Global) -> Result<ArenaTable, Starved>
        ensures { IfOk result (λ table. table ≡ []) }
    {
        Ok(ArenaTable {
            runs: Indexed::new(alloc)?,
            history: History::new(),
        })
    }
}

impl RangeTable for ArenaTable {
    ghost settings = { λ t. t };

    fn set(
        &mut self,
        file: &FileId,
        owner: OwnerId,
        first: u64,
        last: u64,
        mode: Option<Mode>,
    ) -> Result<(), NoRuns> {
        let setting = Setting::new(file, owner, first, last, mode);
        quick::set(&mut self.runs, &Ranged { setting })?;
        self.history = self.history.after(&setting);
        Ok(())
    }

    fn refuses(
        &self,
        file: &FileId,
        owner: OwnerId,
        first: u64,
        last: u64,
        mode: Option<Mode>,
    ) -> bool {
        let setting = Setting::new(file, owner, first, last, mode);
        quick::is_full(&self.runs, &Ranged { setting })
    }

    fn used(&self) -> u32 {
        self.runs.sorted().list.len() as u32
    }

    fn runs<O: OwnerOrder>(&self, owners: &O, i: u32) -> Run {
        ordered::run_at(self.runs.sorted(), owners, i as usize)
    }

    fn copy_runs(&self, list: &mut Vec<Run>) {
        self.runs.sorted().list.copy_to(list);
    }

    fn first_conflict<O: OwnerOrder>(&self, owners: &O, wanted: &Wanted) -> Option<Run> {
        self.runs.first_conflict(owners, wanted.run())
    }

    fn is_blocked(&self, wanted: &Wanted) -> bool {
        self.runs.is_blocked(wanted.run())
    }

    fn is_owner_in_way(&self, owner: OwnerId, wanted: &Wanted) -> bool {
        self.runs.is_owner_in_way(owner, wanted.run())
    }

    fn drop_owner_on_file(&mut self, file: &FileId, owner: OwnerId) {
        let range = Setting::new(file, owner, 0, 0, None);
        self.runs.drop_owner_on_file(&range);
        self.history = self.history.after(&(*file, owner));
    }

    fn drop_host<H: Host>(&mut self, host: &H) {
        self.runs.drop_host(host);
        self.history = self.history.after(host);
    }

    fn used_of<H: Host>(&self, host: &H) -> u32 {
        sorted::used_of(&self.runs.sorted().list, host)
    }

    fn used_after(
        &self,
        file: &FileId,
        owner: OwnerId,
        first: u64,
        last: u64,
        mode: Option<Mode>,
    ) -> u32 {
        let setting = Setting::new(file, owner, first, last, mode);
        quick::used_after(&self.runs, &Ranged { setting })
    }

    fn clear(&mut self) {
        self.runs.clear();
        self.history = History::new();
    }
}
