//! What is to be done for a call.
ghost use Rattle.std.specs.Prelude.{◌≡◌};
ghost use Rattle.call_codec.specs.OutcomeValues.{view_of_outcome};
ghost use Rattle.owner_ids.specs.Views.{view_of_owner};
ghost use Rattle.lock_state.specs.Whole.{IsShown};
ghost use Rattle.lock_state.proofs.OneProof.{shown_prop};

use call_codec::Outcome;
use callbacks::{Callback, OwnedMyId, ShortBytes};
use nlm4_types::Stat;
use owner_ids::Owner;
use range_table::{ByteRange, FileId, Mode};
use std::alloc::Global;
use std::sync::Arc;

/// A range of which an owner is to hold nothing.
#[derive(Drop)]
pub struct Range {
    pub file: FileId,
    pub owner: Owner,
    pub range: ByteRange,
    pub ghost shown: { IsShown (view_of_owner owner) } by { shown_prop (view_of_owner owner) },
}

/// A lock that an owner wants.
#[derive(Drop)]
pub struct WantedLock {
    pub file: FileId,
    pub owner: Owner,
    pub range: ByteRange,
    pub mode: Mode,
    pub ghost shown: { IsShown (view_of_owner owner) } by { shown_prop (view_of_owner owner) },
}

/// What is asked of the store (XNFS, NSM).
#[derive(Drop)]
pub enum Asked {
    /// The row of a host that has none: its name, and its state as the call gave it.
    Monitor {
        name: ShortBytes,
        state: i32,
    },
    /// The state that a host has told.
    Seen {
        name: ShortBytes,
        state: i32,
    },
    /// A watch, and the row of its host where that has none.
    Watched {
        mon_name: ShortBytes,
        my_id: OwnedMyId,
        private_bytes: [u8; 16],
    },
    /// No watch of a watcher any more: of one host, or of all.
    Unwatched {
        mon_name: Option<ShortBytes>,
        my_id: OwnedMyId,
    },
    /// The next own state.
    Begin,
}

/// What changes, from copies that the plan owns.
#[derive(Drop)]
pub enum Change {
    Nothing,
    /// The owner holds the lock, and is answered so.
    Lock(WantedLock),
    /// The owner holds nothing of the range.
    Unlock(Range),
    /// The owner waits for the lock, behind all who wait, and the callback tells of the grant.
    Wait(WantedLock, Callback),
    /// The owner, which waits for the lock, waits for it no longer.
    Cancel(WantedLock),
    Share(dos_shares::Share),
    /// The share of that file and owner goes, whatever it denies and does.
    Unshare(dos_shares::Share),
    /// All that a host of this name has.
    DropHost(Vec<u8>),
    /// What a client says of a grant, whose call carried this cookie (XNFS, NLM_GRANTED_RES).
    GrantAnswered { cookie: ShortBytes, stat: Stat },
    /// All begins anew in the own state that is stored, and these notices become due (XNFS, SM_SIMU_CRASH).
    Restart(Vec<Callback>),
}

/// An outcome, shared: one for whoever asked, one for the journal. So that nothing is got once the store has answered.
#[derive(Drop)]
pub struct SharedOutcome {
    pub told: Arc<Outcome, Global>,
    pub noted: Arc<Outcome, Global>,
    pub ghost same: { view_of_outcome noted.value ≡ view_of_outcome told.value },
}

/// What is told: the outcome, and the calls of the server's own that become due for it.
#[derive(Drop)]
pub struct Response {
    pub outcome: SharedOutcome,
    pub due: Vec<Callback>,
}

/// What is told, and what changes before it.
#[derive(Drop)]
pub struct PlannedAnswer {
    pub told: Response,
    pub change: Change,
}

/// What is to be done for a call. It asks the store at most once, and owns all that it will keep.
#[derive(Drop)]
pub enum Plan {
    /// The store isn't asked.
    Decided(PlannedAnswer),
    /// The store is asked first. Where it refuses, nothing changes but that calls become due.
    AfterStore {
        asked: Asked,
        agreed: PlannedAnswer,
        refused: Response,
    },
}

impl Plan {
    /// Lets go of a plan that isn't to be done. It stands here, so that no crate above proves again how each part of one is
    /// dropped.
    pub fn let_go(self) {
        drop(self);
    }
}
