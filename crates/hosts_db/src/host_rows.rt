//! The rows and watches in memory.
ghost use Rattle.std.specs.Prelude.{◌≡◌, ◌<◌, ◌≤◌, ◌⊎◌, [], true, false, length, pos, IfOk};
ghost use Rattle.std.specs.Option.{is_some, option_copied};
ghost use Rattle.definitions.specs.Bytes.{is_any, list_with};
ghost use Rattle.definitions.specs.Hosts.{row_cmp, watch_cmp, row_of, has_row, next_own, after_store, is_past_limit, is_watch, Begin, Monitor, Seen, Acked, Watched, Unwatched, AreInOrder, Quota};
ghost use Rattle.hosts_db.specs.Notes.{view_of_note};
ghost use Rattle.hosts_db.specs.Writings.{view_of_prepared, view_of_writing, Fits, IsOfHost};

use crate::prepared::Prepared;
use crate::rows::{HostRow, MOST_NAME_BYTES, MyIdRef, RowNote, Watch};
use crate::search::{MOST_HOSTS, MOST_WATCHES, place_of_host, place_of_watch, put_in};
use crate::writing::Writing;
use definitions::own_state::next_own_state;
use definitions::quotas::FULL_QUOTA;
use std::alloc::{AllocError, Global};
use std::marker::Model;

/// What a store holds: the own state, the rows in order of name, and the watches in order of mon_name and my_id,
/// with room for as many as there may be, so that no change takes memory.
#[derive(Drop)]
pub struct HostRows {
    own: u32,
    hosts: Vec<HostRow>,
    watches: Vec<Watch>,
}

impl Model for HostRows {
    ghost use Rattle.std.specs.Prelude.{vec_len, vec_capacity};
    ghost use Rattle.definitions.specs.Hosts.{Hosts};
    ghost use Rattle.hosts_db.specs.Kept.{IsKept};

    ghost Value = { Hosts };

    ghost view = { λ k. record { own = k.own; rows = k.hosts.items; watches = k.watches.items } };

    ghost invariant = { λ k. IsKept (record { own = k.own; rows = k.hosts.items; watches = k.watches.items }) (vec_len k.hosts) (vec_capacity k.hosts) (vec_len k.watches) (vec_capacity k.watches) };
}

impl HostRows {
    /// What a fresh store holds: no rows, and the own state 0.
    pub fn new(alloc: Global) -> Result<HostRows, AllocError>
        ensures { IfOk result (λ rows. rows ≡ record { own = 0; rows = []; watches = [] }) }
    {
        Ok(HostRows {
            own: 0,
            hosts: Vec::with_capacity(alloc, MOST_HOSTS)?,
            watches: Vec::with_capacity(alloc, MOST_WATCHES)?,
        })
    }

    pub fn own(&self) -> u32
        ensures value { result ≡ self.now.own }
        ensures fits { result < 2147483648 }
    {
        self.own
    }

    /// The rows in order of name.
    pub fn hosts(&self) -> &[HostRow]
        ensures value { result.now ≡ self.now.rows }
        ensures in_order { AreInOrder self.now }
        ensures most { length self.now.rows ≤ 4096 }
    {
        self.hosts.as_slice()
    }

    /// The watches in order of mon_name and my_id.
    pub fn watches(&self) -> &[Watch]
        ensures value { result.now ≡ self.now.watches }
        ensures in_order { AreInOrder self.now }
        ensures most { length self.now.watches ≤ 1024 }
    {
        self.watches.as_slice()
    }

    /// The row of this name.
    pub fn host(&self, name: &[u8]) -> Option<&HostRow>
        ensures value { option_copied result ≡ row_of self.now name.now }
        ensures has { is_some result ≡ has_row self.now name.now }
    {
        let hosts = self.hosts();
        match place_of_host(hosts, name) {
            Ok(at) => Some(&hosts[at]),
            Err(_) => None,
        }
    }

    pub fn has_host(&self, name: &[u8]) -> bool
        ensures { result ≡ has_row self.now name.now }
    {
        place_of_host(self.hosts(), name).is_ok()
    }

    /// Whether this watcher watches this host.
    pub fn has_watch(&self, mon_name: &[u8], my_id: &MyIdRef<'_>) -> bool
        ensures { result ≡ is_any (is_watch (Some mon_name.now) my_id.now) self.now.watches }
    {
        place_of_watch(self.watches(), mon_name, my_id).is_ok()
    }

    /// Whether a row of this name would be one too many.
    pub fn is_host_past_limit(&self, name: &[u8]) -> bool
        ensures { result ≡ is_past_limit MOST_HOSTS MOST_WATCHES self.now (Monitor name.now (pos 0)) }
    {
        !self.has_host(name) && self.hosts().len() >= MOST_HOSTS
    }

    // Whether this watch, or the row of its host, would be one too many.
    fn is_watch_past_limit(&self, mon_name: &[u8], my_id: &MyIdRef<'_>) -> bool
        ensures { result ≡ is_past_limit MOST_HOSTS MOST_WATCHES self.now (Watched mon_name.now my_id.now []) }
    {
        self.is_host_past_limit(mon_name)
            || !self.has_watch(mon_name, my_id) && self.watches().len() >= MOST_WATCHES
    }

    /// Whether this would be one row or one watch too many.
    pub fn is_past_limit(&self, asked: Writing<'_>) -> bool
        ensures { result ≡ is_past_limit MOST_HOSTS MOST_WATCHES self.now (view_of_writing asked.entry) }
    {
        match asked {
            Writing::Monitor { name, state: _ } => self.is_host_past_limit(name),
            Writing::Watch {
                mon_name,
                my_id,
                private_bytes: _,
            } => self.is_watch_past_limit(mon_name, my_id),
            Writing::Note { .. } | Writing::Unwatch { .. } => false,
        }
    }

    pub fn set_own(&mut self, own: u32)
        requires { own < 2147483648 }
        ensures { self.new ≡ record self.old { own = own } }
    {
        self.own = own;
    }

    /// Puts a row in its place. It takes the place of the row of its name.
    pub fn put_host(&mut self, row: HostRow)
        requires { is_past_limit MOST_HOSTS MOST_WATCHES self.old (Monitor row.name (pos 0)) ≡ false }
        ensures { self.new ≡ record self.old { rows = list_with row_cmp row self.old.rows } }
    {
        let place = place_of_host(&self.hosts, row.name());
        put_in(&mut self.hosts, place, row);
    }

    /// Puts a watch in its place. It takes the place of the watch of its key.
    pub fn put_watch(&mut self, watch: Watch)
        requires { (is_any (is_watch (Some watch.mon_name) watch.my_id) self.old.watches ≡ true) ⊎ (length self.old.watches < MOST_WATCHES) }
        ensures { self.new ≡ record self.old { watches = list_with watch_cmp watch self.old.watches } }
    {
        let place = place_of_watch(&self.watches, watch.mon_name(), &watch.my_id());
        put_in(&mut self.watches, place, watch);
    }

    /// Takes the next own state (XNFS, NSM).
    pub fn start(&mut self) -> u32
        ensures own { result ≡ next_own self.old.own }
        ensures after { self.new ≡ after_store self.old Begin }
    {
        self.own = next_own_state(self.own);
        self.own
    }

    // Adds the row of a host in the own state, where it has none.
    fn monitor(&mut self, name: Vec<u8>, state: i32)
        requires fits { length name.items ≤ MOST_NAME_BYTES }
        requires room { is_past_limit MOST_HOSTS MOST_WATCHES self.old (Monitor name.items state) ≡ false }
        ensures { self.new ≡ after_store self.old (Monitor name.items state) }
    {
        if !self.has_host(name.as_slice()) {
            let epoch = self.own();
            self.put_host(HostRow::new(name, epoch, state, FULL_QUOTA));
        }
    }

    // Notes something in the row of a host. Without a row of that name nothing changes.
    fn note(&mut self, name: &[u8], note: RowNote)
        ensures { self.new ≡ after_store self.old (view_of_note name.now note) }
    {
        if let Ok(at) = place_of_host(&self.hosts, name) {
            let row = &mut self.hosts[at];
            row.note(note);
        }
    }

    // Adds a watch, and the row of its host, where it has none.
    fn watch(&mut self, mon_name: Vec<u8>, watch: Watch)
        requires host { mon_name.items ≡ watch.mon_name }
        requires fits { length mon_name.items ≤ MOST_NAME_BYTES }
        requires room { is_past_limit MOST_HOSTS MOST_WATCHES self.old (Watched watch.mon_name watch.my_id watch.private_bytes) ≡ false }
        ensures { self.new ≡ after_store self.old (Watched watch.mon_name watch.my_id watch.private_bytes) }
    {
        self.monitor(mon_name, 0);
        self.put_watch(watch);
    }

    // Drops the watches of a watcher: of one host, or of all.
    fn unwatch(&mut self, mon_name: Option<&[u8]>, my_id: &MyIdRef<'_>)
        ensures { self.new ≡ after_store self.old (Unwatched (option_copied mon_name.entry) my_id.now) }
    {
        self.watches.retain(|watch| !watch.is_of(mon_name, my_id));
    }

    /// Makes the change, which takes no memory.
    pub fn write(&mut self, prepared: Prepared<'_>)
        requires fits { Fits (view_of_prepared prepared) }
        requires of_host { IsOfHost prepared }
        requires room { is_past_limit MOST_HOSTS MOST_WATCHES self.old (view_of_prepared prepared) ≡ false }
        ensures { self.new ≡ after_store self.old (view_of_prepared prepared.entry) }
    {
        match prepared {
            Prepared::Monitor(name, state) => self.monitor(name, state),
            Prepared::Note(name, note) => self.note(name, note),
            Prepared::Watch(mon_name, watch) => self.watch(mon_name, watch),
            Prepared::Unwatch(mon_name, my_id) => self.unwatch(mon_name, my_id),
        }
    }
}
