//! Runs in order, each as long as it can be.
ghost use Rattle.std.specs.Prelude.{◌≡◌, [], not, IfOk};
ghost use Rattle.std.specs.List.{filter};
ghost use Rattle.range_table.specs.Runs.{IsRunList, IsRunList-prop, is_of, starts_in};

use crate::file::FileId;
use crate::run::Setting;
use crate::run_list::RunList;
use crate::sweeps;
use owner_ids::{Host, OwnerId};
use std::alloc::{AllocError, Global};

/// A list whose runs stand in order of file, first byte and owner, and of which no two of one owner overlap or can be one.
#[derive(Drop)]
pub struct SortedRuns {
    pub list: RunList,
    pub ghost sorted: { IsRunList list } by { IsRunList-prop list },
}

impl SortedRuns {
    /// With no runs, and with room for 65,536. No other call takes memory.
    pub fn new(alloc: Global) -> Result<SortedRuns, AllocError>
        ensures { IfOk result (λ runs. runs.list ≡ []) }
    {
        let list = RunList::new(alloc)?;
        Ok(SortedRuns { list })
    }

    /// Takes the runs that start in the range out, in one pass.
    pub fn drop_started(&mut self, range: &Setting)
        ensures { self.new.list ≡ filter (λ r. not (starts_in range.now r)) self.old.list }
    {
        sweeps::drop_started(&mut self.list, range);
    }

    pub fn drop_owner_on_file(&mut self, file: &FileId, owner: OwnerId)
        ensures { self.new.list ≡ filter (λ r. not (is_of r file.now owner)) self.old.list }
    {
        sweeps::drop_owner_on_file(&mut self.list, file, owner);
    }

    pub fn drop_host<H: Host>(&mut self, host: &H)
        ensures { self.new.list ≡ filter (λ r. not (H.has host.now r.owner)) self.old.list }
    {
        sweeps::drop_host(&mut self.list, host);
    }
}
