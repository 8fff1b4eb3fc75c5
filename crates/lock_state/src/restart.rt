//! The server begins anew (XNFS, NSM: crash and recovery).
ghost use Rattle.std.specs.Prelude.{◌≡◌, ℕ, ◌+◌, ◌<◌, ◌≤◌, [], length, map, pos, OnOk, OnErr, IfOk};
ghost use Rattle.definitions.specs.Hosts.{Begin, after_store, next_own};
ghost use Rattle.definitions.specs.Outgoing.{ToHost, Notify};
ghost use Rattle.definitions.specs.World.{opening_with, restarted_world, restart_callback, with_due, with_all_due, with_hosts, slots_free, the_limits};
ghost use Rattle.hosts_db.specs.Calls.{Counts, Makes, IsNotStarved};

use crate::unsettled::Unsettled;
use crate::world::{World, first_number};
use callbacks::{Callback, Destination, Message, ShortBytes};
use definitions::own_state::next_own_state;
use grace::Phase;
use hosts_db::{HostRow, HostStore, StoreError};
use owner_ids::Starved;
use range_table::RangeTable;
use std::alloc::{AllocError, Global};

impl<R: RangeTable, S: HostStore> World<R, S> {
    /// What a restart tells each stored host, in order of name: the own name, and the own state that comes next (XNFS,
    /// SM_NOTIFY). Starved: there is no memory for it.
    pub fn notices(&self) -> Result<Vec<Callback>, Starved>
        ensures callbacks { IfOk result (λ callbacks. callbacks.items ≡ map (restart_callback self.now.world.own_name (next_own self.now.world.hosts.own)) self.now.world.hosts.rows) }
        ensures few { IfOk result (λ callbacks. length callbacks.items ≤ 4096) }
    {
        let rows = self.store.hosts();
        let own = next_own_state(self.store.own());
        let mut callbacks = Vec::with_capacity(self.alloc, rows.len())?;
        for row in rows {
            callbacks.push_reserved(notice(self.alloc, &self.own_name, own, row)?);
        }
        Ok(callbacks)
    }

    /// Begins anew in the next own state, with the store's rows, in grace, and these notices due. Nobody is known. An error of
    /// the store leaves the world as it was.
    pub fn restart(&mut self, notices: Vec<Callback>) -> Result<(), StoreError>
        requires few { length notices.items ≤ 4096 }
        requires notices { notices.items ≡ map (restart_callback self.old.world.own_name (next_own self.old.world.hosts.own)) self.old.world.hosts.rows }
        ensures ok { OnOk result (self.new.world ≡ restarted_world self.old.world (after_store self.old.world.hosts Begin)) }
        ensures err { OnErr result (self.new.world ≡ self.old.world) }
        ensures counts { Counts result self.old.refusals self.new.refusals }
        ensures not_starved { IsNotStarved result }
        ensures forgotten { OnOk result (self.new.names ≡ []) }
        ensures names { OnErr result (self.new.names ≡ self.old.names) }
    {
        self.start()?;
        self.begin(notices);
        Ok(())
    }

    /// Stores the next own state, and changes nothing else yet. Where the store answers an error, which is never want of
    /// memory, the world stays.
    pub fn start(&mut self) -> Result<(), StoreError>
        ensures world { self.new.world ≡ with_hosts self.old.world self.new.world.hosts }
        ensures makes { Makes result self.old.world.hosts self.new.world.hosts (after_store self.old.world.hosts Begin) }
        ensures counts { Counts result self.old.refusals self.new.refusals }
        ensures not_starved { IsNotStarved result }
        ensures names { self.new.names ≡ self.old.names }
    {
        self.store.start()?;
        Ok(())
    }

    /// As at the opening, in the own state that is stored: with the store's rows, in grace, and these notices due. Nobody is
    /// known. It takes no memory.
    pub fn begin(&mut self, notices: Vec<Callback>)
        requires { length notices.items ≤ 8192 }
        ensures world { self.new.world ≡ with_all_due (opening_with self.old.world.own_name self.old.world.rules self.old.world.hosts) notices.items }
        ensures refusals { self.new.refusals ≡ self.old.refusals }
        ensures names { self.new.names ≡ [] }
    {
        self.empty();
        self.tell(notices);
    }

    // As at the opening, in the own state that is stored.
    fn empty(&mut self)
        ensures world { self.new.world ≡ opening_with self.old.world.own_name self.old.world.rules self.old.world.hosts }
        ensures refusals { self.new.refusals ≡ self.old.refusals }
        ensures names { self.new.names ≡ [] }
    {
        self.locks.clear();
        self.slots.clear();
        self.shares.clear();
        self.calls.clear();
        self.phase = Phase::Grace;
        self.next = first_number(self.store.own());
        self.unsettled = Unsettled::Nowhere;
    }

    /// The calls become due, in their order, under the next numbers. As many places are free.
    pub fn tell(&mut self, callbacks: Vec<Callback>)
        requires { length callbacks.items ≤ slots_free the_limits self.old.world }
        ensures world { self.new.world ≡ with_all_due self.old.world callbacks.items }
        ensures names { self.new.names ≡ self.old.names }
        ensures refusals { self.new.refusals ≡ self.old.refusals }
    {
        for callback in callbacks {
            self.make_due(callback);
        }
    }

    // A call becomes due, under the next number.
    fn make_due(&mut self, callback: Callback)
        requires { 0 < slots_free the_limits self.old.world }
        ensures world { self.new.world ≡ with_due self.old.world callback }
        ensures names { self.new.names ≡ self.old.names }
        ensures refusals { self.new.refusals ≡ self.old.refusals }
    {
        let _ = self.slots.take(1);
        self.calls.make_due(self.next, callback);
        self.next = self.next.wrapping_add(1);
    }
}

// What tells a host of the restart. It takes the names alone, so that its proof knows no table and no store.
fn notice(
    alloc: Global,
    own_name: &ShortBytes,
    own: u32,
    row: &HostRow,
) -> Result<Callback, AllocError>
    requires { own < 2147483648 }
    ensures { IfOk result (λ callback. callback ≡ restart_callback own_name.now own row.now) }
{
    let host = ShortBytes::copy_of(alloc, row.name())?;
    match ShortBytes::copy_of(alloc, own_name.as_slice()) {
        Ok(name) => Ok(Callback::new(
            Destination::Host(host),
            Message::Notify {
                name,
                state: own as i32,
            },
        )),
        Err(refused) => Err(refused),
    }
}
