//! The addresses of hosts that have no row yet, in memory.
ghost use Rattle.std.specs.Prelude.{◌≤◌, vec_len};

use hosts_db::StoreError;
use std::alloc::{AllocError, Global};

/// The most that are remembered.
const MOST_PENDING: usize = 4_096;

/// A host's name, and the text of its address.
#[derive(Drop)]
struct PendingAddress {
    name: Vec<u8>,
    text: Vec<u8>,
}

// Copies of both.
fn copied(alloc: Global, name: &[u8], text: &[u8]) -> Result<PendingAddress, AllocError> {
    Ok(PendingAddress {
        name: Vec::from_slice(alloc, name)?,
        text: Vec::from_slice(alloc, text)?,
    })
}

/// At most 4,096 addresses, in the order in which they came. No two are of one name.
#[derive(Drop)]
pub(crate) struct PendingAddresses {
    rows: Vec<PendingAddress>,
    ghost most: { vec_len rows ≤ 4096 },
}

impl PendingAddresses {
    pub(crate) fn new(alloc: Global) -> PendingAddresses {
        PendingAddresses {
            rows: Vec::new(alloc),
        }
    }

    fn place_of(&self, name: &[u8]) -> Option<usize> {
        self.rows.iter().position(|row| row.name.as_slice() == name)
    }

    /// The text of the address of this name.
    pub(crate) fn text_of(&self, name: &[u8]) -> Option<&[u8]> {
        match self.rows.iter().find(|row| row.name.as_slice() == name) {
            Some(row) => Some(row.text.as_slice()),
            None => None,
        }
    }

    /// Forgets the address of this name, if there is one.
    pub(crate) fn forget(&mut self, name: &[u8]) {
        if let Some(at) = self.place_of(name) {
            if at < self.rows.len() {
                self.rows.remove(at);
            }
        }
    }

    /// Remembers an address in the place of the one of its name. Where there are 4,096, the oldest goes. An error leaves all as it was.
    pub(crate) fn remember(
        &mut self,
        alloc: Global,
        name: &[u8],
        text: &[u8],
    ) -> Result<(), StoreError> {
        let Ok(row) = copied(alloc, name, text) else {
            return Err(StoreError::Starved);
        };
        if self.rows.reserve(1).is_err() {
            return Err(StoreError::Starved);
        }
        self.forget(name);
        if self.rows.len() >= MOST_PENDING {
            self.rows.remove(0);
        }
        match self.rows.push(row) {
            Ok(()) => Ok(()),
            Err(_) => Err(StoreError::Starved),
        }
    }
}
