//! One host's row, one watch, and whom a watch calls.
ghost use Rattle.std.specs.Prelude.{◌≡◌, ◌≤◌, length, IfOk};
ghost use Rattle.definitions.specs.Bytes.{bytes_cmp, same_bytes};
ghost use Rattle.definitions.specs.Hosts.{my_id_cmp, is_watch};
ghost use Rattle.hosts_db.specs.Notes.{noted_row};
ghost use Rattle.std.specs.Ordering.{ordering_then};
ghost use Rattle.std.specs.Option.{option_copied};

use std::alloc::{AllocError, Global};
use std::cmp::Ordering;
use std::marker::Model;

/// How many bytes a name may have (XNFS, SM_MAXSTRLEN).
pub const MOST_NAME_BYTES: usize = 1024;

/// A host that is told of a restart.
#[derive(Drop)]
pub struct HostRow {
    name: Vec<u8>,
    epoch: u32,
    seen: i32,
    quota: u32,
}

/// What is noted in a row.
#[derive(Clone, Copy)]
pub enum RowNote {
    /// The state that the host has told.
    Seen(i32),
    /// The own state that it has acknowledged.
    Epoch(u32),
    /// How many runs its owners may have.
    Quota(u32),
}

impl Model for HostRow {
    ghost use Rattle.definitions.specs.Hosts.{HostRow as StoredHost};

    ghost Value = { StoredHost };

    ghost view = { λ r. record { name = r.name.items; epoch = r.epoch; seen = r.seen; quota = r.quota } };

    ghost use Rattle.std.specs.Prelude.{◌≤◌, length};

    ghost invariant = { λ r. length r.name.items ≤ 1024 };
}

impl HostRow {
    /// A row of the host `name`, made in the own state `epoch`.
    pub fn new(name: Vec<u8>, epoch: u32, seen: i32, quota: u32) -> HostRow
        requires { length name.items ≤ MOST_NAME_BYTES }
        ensures { result ≡ record { name = name.items; epoch = epoch; seen = seen; quota = quota } }
    {
        HostRow {
            name,
            epoch,
            seen,
            quota,
        }
    }

    pub fn name(&self) -> &[u8]
        ensures value { result.now ≡ self.now.name }
        ensures fits { length result.now ≤ MOST_NAME_BYTES }
    {
        self.name.as_slice()
    }

    /// The own state that was current when the row was made, or that the host last acknowledged.
    pub fn epoch(&self) -> u32
        ensures { result ≡ self.now.epoch }
    {
        self.epoch
    }

    /// The host's own state, as it last told it.
    pub fn seen(&self) -> i32
        ensures { result ≡ self.now.seen }
    {
        self.seen
    }

    /// How many runs the host's owners may have.
    pub fn quota(&self) -> u32
        ensures { result ≡ self.now.quota }
    {
        self.quota
    }

    pub(crate) fn note(&mut self, note: RowNote)
        ensures { self.new ≡ noted_row note self.old }
    {
        match note {
            RowNote::Seen(seen) => self.seen = seen,
            RowNote::Epoch(epoch) => self.epoch = epoch,
            RowNote::Quota(quota) => self.quota = quota,
        }
    }

    // How the row's name compares with another.
    pub(crate) fn order(&self, name: &[u8]) -> Ordering
        ensures { result ≡ bytes_cmp self.now.name name.now }
    {
        self.name.as_slice().cmp(name)
    }
}

/// Whom to call when a monitored host has restarted (XNFS, my_id).
#[derive(Drop)]
pub struct MyIdRef<'a> {
    my_name: &'a [u8],
    prog: i32,
    vers: i32,
    proc: i32,
}

impl<'a> Model for MyIdRef<'a> {
    ghost use Rattle.definitions.specs.Nsm.{MyId as WatcherId};

    ghost Value = { WatcherId };

    ghost view = { λ m. record { my_name = m.my_name.now; prog = m.prog; vers = m.vers; proc = m.proc } };

    ghost use Rattle.std.specs.Prelude.{◌≤◌, length};

    ghost invariant = { λ m. length m.my_name.now ≤ 1024 };
}

impl<'a> MyIdRef<'a> {
    /// The procedure `proc` of the program `prog`, version `vers`, on the host `my_name`.
    pub fn new(my_name: &'a [u8], prog: i32, vers: i32, proc: i32) -> MyIdRef<'a>
        requires { length my_name.now ≤ MOST_NAME_BYTES }
        ensures { result ≡ record { my_name = my_name.now; prog = prog; vers = vers; proc = proc } }
    {
        MyIdRef {
            my_name,
            prog,
            vers,
            proc,
        }
    }

    pub fn my_name(&self) -> &'a [u8]
        ensures value { result.now ≡ self.now.my_name }
        ensures fits { length result.now ≤ MOST_NAME_BYTES }
    {
        self.my_name
    }

    pub fn prog(&self) -> i32
        ensures { result ≡ self.now.prog }
    {
        self.prog
    }

    pub fn vers(&self) -> i32
        ensures { result ≡ self.now.vers }
    {
        self.vers
    }

    pub fn proc(&self) -> i32
        ensures { result ≡ self.now.proc }
    {
        self.proc
    }

    // In order of my_name, prog, vers and proc.
    pub(crate) fn order(&self, other: &MyIdRef<'_>) -> Ordering
        ensures { result ≡ my_id_cmp self.now other.now }
    {
        self.my_name
            .cmp(other.my_name)
            .then(self.prog.cmp(&other.prog))
            .then(self.vers.cmp(&other.vers))
            .then(self.proc.cmp(&other.proc))
    }
}

/// Who is called when a host restarts, and 16 bytes that are handed back (XNFS, mon).
#[derive(Drop)]
pub struct Watch {
    mon_name: Vec<u8>,
    my_name: Vec<u8>,
    prog: i32,
    vers: i32,
    proc: i32,
    private_bytes: [u8; 16],
}

impl Model for Watch {
    ghost use Rattle.definitions.specs.Hosts.{Watch as StoredWatch};

    ghost Value = { StoredWatch };

    ghost view = { λ w. record { mon_name = w.mon_name.items; my_id = record { my_name = w.my_name.items; prog = w.prog; vers = w.vers; proc = w.proc }; private_bytes = w.private_bytes } };

    ghost use Rattle.std.specs.Prelude.{◌≤◌, length};

    ghost invariant = { λ w. (length w.mon_name.items ≤ 1024) × (length w.my_name.items ≤ 1024) };
}

impl Watch {
    /// A watch of the host `mon_name`, of copies.
    pub fn new(
        alloc: Global,
        mon_name: &[u8],
        my_id: &MyIdRef<'_>,
        private_bytes: &[u8; 16],
    ) -> Result<Watch, AllocError>
        requires { length mon_name.now ≤ MOST_NAME_BYTES }
        ensures { IfOk result (λ w. w ≡ record { mon_name = mon_name.now; my_id = my_id.now; private_bytes = private_bytes.now }) }
    {
        Ok(Watch {
            mon_name: Vec::from_slice(alloc, mon_name)?,
            my_name: Vec::from_slice(alloc, my_id.my_name)?,
            prog: my_id.prog,
            vers: my_id.vers,
            proc: my_id.proc,
            private_bytes: *private_bytes,
        })
    }

    /// The host that is watched.
    pub fn mon_name(&self) -> &[u8]
        ensures value { result.now ≡ self.now.mon_name }
        ensures fits { length result.now ≤ MOST_NAME_BYTES }
    {
        self.mon_name.as_slice()
    }

    /// Whom it calls.
    pub fn my_id(&self) -> MyIdRef<'_>
        ensures { result ≡ self.now.my_id }
    {
        MyIdRef {
            my_name: self.my_name.as_slice(),
            prog: self.prog,
            vers: self.vers,
            proc: self.proc,
        }
    }

    pub fn private_bytes(&self) -> &[u8; 16]
        ensures { result.now ≡ self.now.private_bytes }
    {
        &self.private_bytes
    }

    // How the watch's key compares with another.
    pub(crate) fn order(&self, mon_name: &[u8], my_id: &MyIdRef<'_>) -> Ordering
        ensures { result ≡ ordering_then (bytes_cmp self.now.mon_name mon_name.now) (my_id_cmp self.now.my_id my_id.now) }
    {
        self.mon_name
            .as_slice()
            .cmp(mon_name)
            .then(self.my_id().order(my_id))
    }

    // Whether it is the watch of this watcher, of this host or of any.
    pub(crate) fn is_of(&self, mon_name: Option<&[u8]>, my_id: &MyIdRef<'_>) -> bool
        ensures { result ≡ is_watch (option_copied mon_name.entry) my_id.now self.now }
    {
        let is_mine = self.my_id().order(my_id).is_eq();
        match mon_name {
            Some(name) => self.mon_name.as_slice() == name && is_mine,
            None => is_mine,
        }
    }
}
