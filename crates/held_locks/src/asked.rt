//! What is asked of the locks, and what they show.
ghost use Rattle.std.specs.Prelude.{◌≡◌};

use owner_ids::{Owner, OwnerId};
use range_table::{ByteRange, FileId, Mode, Run, Wanted};

/// A lock that is wanted (POSIX, fcntl).
#[derive(Clone, Copy)]
pub struct Request<'a> {
    pub file: FileId,
    pub owner: &'a Owner,
    pub range: ByteRange,
    pub mode: Mode,
}

/// What an owner is to hold of a range from now on: a mode, or nothing.
#[derive(Clone, Copy)]
pub struct NewSetting<'a> {
    pub file: FileId,
    pub owner: &'a Owner,
    pub range: ByteRange,
    pub mode: Option<Mode>,
}

/// Bytes of a file that an owner holds in one mode, and no more around them.
#[derive(Clone, Copy)]
pub struct RunHolder<'a> {
    pub file: FileId,
    pub owner: &'a Owner,
    pub first: u64,
    pub last: u64,
    pub mode: Mode,
}

impl<'a> Request<'a> {
    ghost use Rattle.definitions.specs.Settings.{setting_of};
    ghost use Rattle.held_locks.specs.Asked.{view_of_request, view_of_new_setting};

    /// What its owner is to hold once it has the lock.
    pub fn setting(&self) -> NewSetting<'a>
        ensures { view_of_new_setting result ≡ setting_of (view_of_request self.now) }
    {
        NewSetting {
            file: self.file,
            owner: self.owner,
            range: self.range,
            mode: Some(self.mode),
        }
    }
}

impl<'a> RunHolder<'a> {
    ghost use Rattle.held_locks.specs.Asked.{view_of_lock_holder};
    ghost use Rattle.held_locks.specs.Same.{view_of_run};
    ghost use Rattle.owner_ids.specs.Views.{view_of_owner};

    /// Of a run, and the owner of its number.
    pub(crate) fn of(run: &Run, owner: &'a Owner) -> RunHolder<'a>
        ensures { view_of_lock_holder result ≡ view_of_run (view_of_owner owner.now) run.now }
    {
        RunHolder {
            file: run.file,
            owner,
            first: run.first,
            last: run.last,
            mode: run.mode,
        }
    }
}

impl Request<'_> {
    ghost use Rattle.held_locks.specs.Asked.{run_by_number};

    /// The same lock, by its owner's number.
    pub fn by_number(&self, owner: OwnerId) -> Wanted
        ensures { result ≡ run_by_number owner self.now }
    {
        Wanted::new(Run {
            file: self.file,
            owner,
            first: self.range.first,
            last: self.range.last,
            mode: self.mode,
        })
    }
}
