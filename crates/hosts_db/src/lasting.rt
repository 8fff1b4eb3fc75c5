//! Stores of hosts over stores: one whose rows outlive a crash, and one of either of two kinds.
ghost use Rattle.std.specs.Prelude.{◌≡◌, true, IfOk};
ghost use Rattle.hosts_db.specs.Outlives.{Outlives};

mod kept;

use crate::{HostRows, HostStore, StoreError, Writing};
pub use kept::KeptHosts;

/// A store of hosts whose rows outlive a crash from its first `start` on: whatever a crash leaves at any moment, between calls
/// or behind one that was refused, each host with a row has one in it. So a host that was told that a lock is granted, or waits, is
/// told of the restart.
#[derive(Drop)]
pub struct Lasting<S: HostStore> {
    store: S,
    is_begun: bool,
    ghost lasts: { is_begun ≡ true → Outlives (S.rows store) (S.may_leave store) },
}

impl<S: HostStore> Lasting<S> {
    /// The store as it is. What a crash may leave of it isn't known before its first `start`.
    pub fn new(store: S) -> Lasting<S>
        ensures rows { ⟦<Lasting<S> as HostStore>⟧.rows result ≡ S.rows store }
        ensures refusals { ⟦<Lasting<S> as HostStore>⟧.refusals result ≡ S.refusals store }
    {
        Lasting {
            store,
            is_begun: false,
        }
    }

    /// Whether a `start` was Ok. Then no crash takes a row.
    pub fn is_begun(&self) -> bool
        ensures { result ≡ true → Outlives (⟦<Lasting<S> as HostStore>⟧.rows self.now) (⟦<Lasting<S> as HostStore>⟧.may_leave self.now) }
    {
        self.is_begun
    }
}

impl<S: HostStore> HostStore for Lasting<S> {
    ghost rows = { λ l. S.rows l.store };

    ghost refusals = { λ l. S.refusals l.store };

    ghost may_leave = { λ l. S.may_leave l.store };

    ghost may_refuse = { λ l. S.may_refuse l.store };

    fn start(&mut self) -> Result<u32, StoreError> {
        let own = self.store.start()?;
        self.is_begun = true;
        Ok(own)
    }

    fn write(&mut self, asked: Writing<'_>) -> Result<(), StoreError> {
        self.store.write(asked)
    }

    fn locate(&mut self, name: &[u8], address: &[u8]) -> Result<(), StoreError> {
        self.store.locate(name, address)
    }

    fn kept(&self) -> &HostRows {
        self.store.kept()
    }
}
