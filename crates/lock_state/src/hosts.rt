//! What is kept over a restart, read and changed: the own state, the rows of hosts and the watches (XNFS, NSM).
ghost use Rattle.std.specs.Prelude.{◌≡◌, ◌≤◌, ◌<◌, false, length, map, IfOk};
ghost use Rattle.std.specs.Option.{option_copied};
ghost use Rattle.definitions.specs.Answer.{status_callback};
ghost use Rattle.definitions.specs.Hosts.{row_of, has_row, watches_of, after_store, is_past_limit, Monitor, Seen, Quota, Watched, Unwatched};
ghost use Rattle.definitions.specs.World.{with_hosts};
ghost use Rattle.hosts_db.specs.Calls.{Counts, Makes, IsPastLimit, IsNotStarved};

use crate::unsettled::Unsettled;
use crate::world::World;
use callbacks::{Callback, Destination, Message, ShortBytes};
use hosts_db::{HostRow, HostStore, MyIdRef, StoreError, Watch};
use owner_ids::Starved;
use range_table::RangeTable;
use std::alloc::{AllocError, Global};

impl<R: RangeTable, S: HostStore> World<R, S> {
    /// The own state, below 2^31: odd while the server is up (XNFS, SM_STAT).
    pub fn own_state(&self) -> u32
        ensures value { result ≡ self.now.world.hosts.own }
        ensures fits { result < 2147483648 }
    {
        self.store.own()
    }

    /// The row of the host of this name.
    pub fn row(&self, name: &[u8]) -> Option<&HostRow>
        ensures { option_copied result ≡ row_of self.now.world.hosts name.now }
    {
        self.store.host(name)
    }

    /// Whether the host has a row.
    pub fn has_row(&self, name: &[u8]) -> bool
        ensures { result ≡ has_row self.now.world.hosts name.now }
    {
        self.store.host(name).is_some()
    }

    /// How many watch the host: 1,024 at most.
    pub fn watch_count(&self, name: &[u8]) -> usize
        ensures { result ≡ length (watches_of self.now.world.hosts name.now) }
    {
        self.store
            .watches()
            .iter()
            .filter(|watch| watch.mon_name() == name)
            .count()
    }

    /// What a host's new state tells each who watches the host, in order of my_id: the call that the watch names, with its
    /// 16 bytes (XNFS, status). Starved: there is no memory for it.
    pub fn status_callbacks(&self, name: &[u8], state: i32) -> Result<Vec<Callback>, Starved>
        ensures { IfOk result (λ callbacks. callbacks.items ≡ map (status_callback state) (watches_of self.now.world.hosts name.now)) }
    {
        let mut callbacks = Vec::with_capacity(self.alloc, self.watch_count(name))?;
        let watches = self.store.watches();
        for watch in watches {
            if watch.mon_name() == name {
                callbacks.push_reserved(status(self.alloc, watch, state)?);
            }
        }
        Ok(callbacks)
    }

    /// Stores the row of a host that has none. Where the store answers an error the world stays.
    pub fn monitor(&mut self, name: &[u8], state: i32) -> Result<(), StoreError>
        requires fits { length name.now ≤ 1024 }
        requires new { has_row self.old.world.hosts name.now ≡ false }
        ensures world { self.new.world ≡ with_hosts self.old.world self.new.world.hosts }
        ensures makes { Makes result self.old.world.hosts self.new.world.hosts (after_store self.old.world.hosts (Monitor name.now state)) }
        ensures counts { Counts result self.old.refusals self.new.refusals }
        ensures limit { IsPastLimit result (is_past_limit 4096 1024 self.old.world.hosts (Monitor name.now state)) }
        ensures names { self.new.names ≡ self.old.names }
    {
        self.store.monitor(name, state)
    }

    /// Sets how many runs, at most 65,536, the owners of a host may have. Who waits may be ready then. Without a row of that
    /// name no row changes. Where the store answers an error, which is never want of memory, the world stays.
    pub fn quota(&mut self, name: &[u8], runs: u32) -> Result<(), StoreError>
        requires { runs ≤ 65536 }
        ensures world { self.new.world ≡ with_hosts self.old.world self.new.world.hosts }
        ensures makes { Makes result self.old.world.hosts self.new.world.hosts (after_store self.old.world.hosts (Quota name.now runs)) }
        ensures counts { Counts result self.old.refusals self.new.refusals }
        ensures not_starved { IsNotStarved result }
        ensures names { self.new.names ≡ self.old.names }
    {
        self.unsettled = Unsettled::Anywhere;
        self.store.quota(name, runs)
    }

    /// Stores the state that a host has told (XNFS, SM_NOTIFY). Without a row of that name no row changes. Where the store
    /// answers an error, which is never want of memory, the world stays.
    pub fn seen(&mut self, name: &[u8], state: i32) -> Result<(), StoreError>
        ensures world { self.new.world ≡ with_hosts self.old.world self.new.world.hosts }
        ensures makes { Makes result self.old.world.hosts self.new.world.hosts (after_store self.old.world.hosts (Seen name.now state)) }
        ensures counts { Counts result self.old.refusals self.new.refusals }
        ensures not_starved { IsNotStarved result }
        ensures names { self.new.names ≡ self.old.names }
    {
        self.store.seen(name, state)
    }

    /// Has the store hear where a host is (`HostStore::locate`). Nothing of the state changes.
    pub fn locate(&mut self, name: &[u8], address: &[u8]) -> Result<(), StoreError>
        ensures { self.new ≡ self.old }
    {
        self.store.locate(name, address)
    }

    /// Stores a watch, or gives a watch of this host and watcher these bytes (XNFS, SM_MON). A host without a row gets one,
    /// in which no state was seen. Where the store answers an error the world stays.
    pub fn watch(
        &mut self,
        mon_name: &[u8],
        my_id: &MyIdRef<'_>,
        private_bytes: &[u8; 16],
    ) -> Result<(), StoreError>
        requires { length mon_name.now ≤ 1024 }
        ensures world { self.new.world ≡ with_hosts self.old.world self.new.world.hosts }
        ensures makes { Makes result self.old.world.hosts self.new.world.hosts (after_store self.old.world.hosts (Watched mon_name.now my_id.now private_bytes.now)) }
        ensures counts { Counts result self.old.refusals self.new.refusals }
        ensures limit { IsPastLimit result (is_past_limit 4096 1024 self.old.world.hosts (Watched mon_name.now my_id.now private_bytes.now)) }
        ensures names { self.new.names ≡ self.old.names }
    {
        self.store.watch(mon_name, my_id, private_bytes)
    }

    /// Drops the watches of a watcher: of one host (XNFS, SM_UNMON), or of all (SM_UNMON_ALL). Where the store answers an
    /// error the world stays.
    pub fn unwatch(
        &mut self,
        mon_name: Option<&[u8]>,
        my_id: &MyIdRef<'_>,
    ) -> Result<(), StoreError>
        ensures world { self.new.world ≡ with_hosts self.old.world self.new.world.hosts }
        ensures makes { Makes result self.old.world.hosts self.new.world.hosts (after_store self.old.world.hosts (Unwatched (option_copied mon_name.entry) my_id.now)) }
        ensures counts { Counts result self.old.refusals self.new.refusals }
        ensures names { self.new.names ≡ self.old.names }
    {
        self.store.unwatch(mon_name, my_id)
    }
}

// What tells a watcher of a host's new state.
fn status(alloc: Global, watch: &Watch, state: i32) -> Result<Callback, AllocError>
    ensures { IfOk result (λ callback. callback ≡ status_callback state watch.now) }
{
    let my_id = watch.my_id();
    let watcher = ShortBytes::copy_of(alloc, my_id.my_name())?;
    let my_name = ShortBytes::copy_of(alloc, my_id.my_name())?;
    let mon_name = ShortBytes::copy_of(alloc, watch.mon_name())?;
    let message = Message::Status {
        my_id: callbacks::OwnedMyId {
            my_name,
            prog: my_id.prog(),
            vers: my_id.vers(),
            proc: my_id.proc(),
        },
        mon_name,
        state,
        private_bytes: *watch.private_bytes(),
    };
    Ok(Callback::new(Destination::Host(watcher), message))
}
