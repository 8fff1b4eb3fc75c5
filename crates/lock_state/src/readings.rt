//! What the locks show.
ghost use Rattle.std.specs.Prelude.{◌≡◌, ◌<◌, ◌^◌, IfSome};
ghost use Rattle.definitions.specs.Quotas.{quotas_of, lacks_room, is_refused};
ghost use Rattle.definitions.specs.Starts.{first_conflict};
ghost use Rattle.definitions.specs.Conflict.{conflicts};
ghost use Rattle.owner_ids.specs.Views.{view_of_owner};
ghost use Rattle.held_locks.specs.Asked.{view_of_request, view_of_new_setting, view_of_found_holder};
ghost use Rattle.lock_state.specs.Whole.{IsShown};

use crate::quotas::{Stored, is_refused, lacks_room};
use crate::world::World;
use held_locks::{NewSetting, Request, RunHolder};
use hosts_db::HostStore;
use range_table::RangeTable;

impl<R: RangeTable, S: HostStore> World<R, S> {
    /// The lock of another owner that is first in the way: of the least first byte, then of the least owner.
    pub fn first_conflict(&self, wanted: &Request<'_>) -> Option<RunHolder<'_>>
        ensures found { view_of_found_holder result ≡ first_conflict self.now.world.settings (view_of_request wanted.now) }
        ensures shown { IfSome result (λ found. IsShown (view_of_owner found.owner.now) × (found.last < 2 ^ 63)) }
    {
        self.locks.first_conflict(wanted)
    }

    /// Whether another owner's lock is in the way.
    pub fn conflicts(&self, wanted: &Request<'_>) -> bool
        ensures { result ≡ conflicts self.now.world.settings (view_of_request wanted.now) }
    {
        self.locks.conflicts(wanted)
    }

    /// Whether there is no room for the lock: fewer than 2 of 65,536 runs are free, or after it the owner's host would have
    /// more runs than its quota, and more than before.
    pub fn lacks_room(&self, wanted: &Request<'_>) -> bool
        ensures { result ≡ lacks_room 65536 (quotas_of self.now.world.hosts) self.now.world.settings (view_of_request wanted.now) }
    {
        lacks_room(&self.locks, &Stored { store: &self.store }, wanted)
    }

    /// Whether the setting is refused: where `set` would refuse it, or it goes past its owner's host's quota. Also of an
    /// owner who isn't known. Changes nothing.
    pub fn is_refused(&self, setting: &NewSetting<'_>) -> bool
        ensures { result ≡ is_refused 65536 (quotas_of self.now.world.hosts) self.now.world.settings (view_of_new_setting setting.now) }
    {
        is_refused(&self.locks, &Stored { store: &self.store }, setting)
    }
}
