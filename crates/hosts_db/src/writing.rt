//! What a store is asked to write.
ghost use Rattle.std.specs.Prelude.{◌≡◌, IfOk, IfErr};
ghost use Rattle.hosts_db.specs.Writings.{view_of_prepared, view_of_writing, Adds, Fits, IsOfHost};

use crate::prepared::Prepared;
use crate::rows::{MyIdRef, RowNote, Watch};
use std::alloc::{AllocError, Global};

/// A change of a store's rows and watches.
#[derive(Clone, Copy)]
pub enum Writing<'a> {
    /// A row for a host that has none, which has told this state.
    Monitor {
        name: &'a [u8],
        state: i32,
    },
    /// A note in the row of a host. Without a row of that name nothing changes.
    Note {
        name: &'a [u8],
        note: RowNote,
    },
    /// A watch, or these bytes for the watch of this host and watcher. A host without a row gets one, in which no state was seen.
    Watch {
        mon_name: &'a [u8],
        my_id: &'a MyIdRef<'a>,
        private_bytes: &'a [u8; 16],
    },
    /// No watch of a watcher any more: of one host, or of all.
    Unwatch {
        mon_name: Option<&'a [u8]>,
        my_id: &'a MyIdRef<'a>,
    },
}

impl<'a> Writing<'a> {
    /// The same, with copies of what is to be kept. Only what adds a row or a watch takes memory.
    pub fn prepare(self, alloc: Global) -> Result<Prepared<'a>, AllocError>
        requires { Fits (view_of_writing self) }
        ensures same { IfOk result (λ prepared. (view_of_prepared prepared ≡ view_of_writing self.entry) × IsOfHost prepared) }
        ensures starved { IfErr result (λ _. Adds (view_of_writing self.entry)) }
    {
        match self {
            Writing::Monitor { name, state } => {
                Ok(Prepared::Monitor(Vec::from_slice(alloc, name)?, state))
            }
            Writing::Note { name, note } => Ok(Prepared::Note(name, note)),
            Writing::Watch {
                mon_name,
                my_id,
                private_bytes,
            } => {
                let name = Vec::from_slice(alloc, mon_name)?;
                let watch = Watch::new(alloc, mon_name, my_id, private_bytes)?;
                Ok(Prepared::Watch(name, watch))
            }
            Writing::Unwatch { mon_name, my_id } => Ok(Prepared::Unwatch(mon_name, my_id)),
        }
    }
}
