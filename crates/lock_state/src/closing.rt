//! What the close of a file takes from its owner.
ghost use Rattle.std.specs.Prelude.{◌≡◌};
ghost use Rattle.definitions.specs.World.{closed_by};
ghost use Rattle.owner_ids.specs.Views.{view_of_owner};
ghost use Rattle.definitions.specs.Waits.{without_waiters_on};
ghost use Rattle.owner_ids.specs.Names.{names_of_owners};
ghost use Rattle.blocked_list.specs.Waiting.{AreKnown, AreNamed, waiters_by};
ghost use Rattle.lock_state.specs.Seen.{KeepsKnown};

use crate::quotas::{Stored, may_free};
use crate::world::World;
use blocked_list::laws::close_frees_own_bytes;
use blocked_list::{Slots, Touched};
use hosts_db::HostStore;
use owner_ids::{Owner, Owners};
use range_table::{FileId, RangeTable};

impl<R: RangeTable, S: HostStore> World<R, S> {
    /// Takes out the locks and the waiters of an owner on a file (POSIX, close). Calls that are due stay, and whoever is
    /// known.
    pub fn close(&mut self, file: &FileId, owner: &Owner)
        ensures world { self.new.world ≡ closed_by self.old.world file.now (view_of_owner owner.now) }
        ensures refusals { self.new.refusals ≡ self.old.refusals }
        ensures known { KeepsKnown self.old self.new }
    {
        let (_, owners) = self.locks.parts();
        drop_waiters(&mut self.slots, owners, file, owner);
        close_frees_own_bytes();
        let quotas = Stored { store: &self.store };
        let was_held = may_free(&self.locks, &quotas, owner);
        self.unsettled = self.unsettled.after_change(&Touched::whole(file), was_held);
        self.locks.drop_owner_on_file(file, owner);
    }
}

// Takes out the waiters of an owner on a file. Who has no number doesn't wait.
fn drop_waiters(slots: &mut Slots, owners: &Owners, file: &FileId, owner: &Owner)
    requires { AreKnown (names_of_owners owners.now) slots.old.waiters }
    ensures by { waiters_by (names_of_owners owners.now) slots.new.waiters ≡ without_waiters_on file.now (view_of_owner owner.now) (waiters_by (names_of_owners owners.now) slots.old.waiters) }
    ensures named { AreNamed (names_of_owners owners.now) slots.new.waiters }
    ensures calls { slots.new.calls ≡ slots.old.calls }
{
    let Some(number) = owners.number(owner) else {
        return;
    };
    slots.drop_owner_on_file(file, number);
}
