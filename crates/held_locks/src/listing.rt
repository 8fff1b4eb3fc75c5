//! All locks in a row.
use owner_ids::Owners;
use range_table::ordered::put_in_order;
use range_table::{RangeTable, Run};
use std::alloc::Global;
use std::marker::Model;

/// All locks in order of file, first byte and owner: a copy, for whoever reads all of them. Contracts see the runs by their
/// owners' numbers.
#[derive(Drop)]
pub struct Listing {
    runs: Vec<Run>,
}

impl Model for Listing {
    ghost use Rattle.std.specs.Prelude.{List};
    ghost use Rattle.range_table.specs.declared.run.Run.{Run};

    ghost Value = { List Run };

    ghost view = { λ l. l.runs.items };
}

ghost use Rattle.std.specs.Prelude.{◌<◌, IfSome, length, slice_get, Some, ◌≡◌};
ghost use Rattle.owner_ids.specs.Names.{names_of_owners, number_cmp};
ghost use Rattle.range_table.specs.Settings.{mode_at, AreRuns};

impl Listing {
    /// Of all that the table holds. `None` where there is no memory for it.
    pub(crate) fn of<R: RangeTable>(alloc: Global, table: &R, owners: &Owners) -> Option<Listing>
        ensures { IfSome result (λ all. AreRuns (number_cmp (names_of_owners owners.now)) (mode_at (R.settings table.now)) all) }
    {
        let Ok(mut runs) = Vec::with_capacity(alloc, table.used() as usize) else {
            return None;
        };
        table.copy_runs(&mut runs);
        if !put_in_order(&mut runs, owners) {
            return None;
        }
        Some(Listing { runs })
    }

    /// The i-th.
    pub(crate) fn get(&self, i: u32) -> &Run
        requires { i < length self.now }
        ensures { slice_get self.now i ≡ Some result.now }
    {
        &self.runs[i as usize]
    }
}
