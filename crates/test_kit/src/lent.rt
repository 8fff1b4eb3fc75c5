//! A store that is lent to a server, so that its rows can be read when the server is gone, and how often it was asked to write.
ghost use Rattle.std.specs.Prelude.{◌≡◌};

use hosts_db::{HostRows, HostStore, StoreError, Writing};

/// A store that stays its owner's, and a count that grows by one with each call that may write a row, up to the last number.
#[derive(Drop)]
pub struct Lent<'a, S: HostStore> {
    store: &'a mut S,
    writes: &'a mut usize,
}

impl<'a, S: HostStore> Lent<'a, S> {
    pub fn new(store: &'a mut S, writes: &'a mut usize) -> Lent<'a, S>
        ensures rows { ⟦<Lent<'a, S> as HostStore>⟧.rows result ≡ S.rows store.old }
        ensures refusals { ⟦<Lent<'a, S> as HostStore>⟧.refusals result ≡ S.refusals store.old }
    {
        Lent { store, writes }
    }
}

impl<'a, S: HostStore> HostStore for Lent<'a, S> {
    ghost rows = { λ l. S.rows l.store.now };

    ghost refusals = { λ l. S.refusals l.store.now };

    ghost may_leave = { λ l. S.may_leave l.store.now };

    ghost may_refuse = { λ l. S.may_refuse l.store.now };

    fn start(&mut self) -> Result<u32, StoreError> {
        *self.writes = self.writes.saturating_add(1);
        self.store.start()
    }

    fn write(&mut self, asked: Writing<'_>) -> Result<(), StoreError> {
        *self.writes = self.writes.saturating_add(1);
        self.store.write(asked)
    }

    fn locate(&mut self, name: &[u8], address: &[u8]) -> Result<(), StoreError> {
        *self.writes = self.writes.saturating_add(1);
        self.store.locate(name, address)
    }

    fn kept(&self) -> &HostRows {
        self.store.kept()
    }
}
