//! Which bytes a change touches.
ghost use Rattle.std.specs.Prelude.{◌≡◌, ◌&&◌, leb};
ghost use Rattle.definitions.specs.Bytes.{same_bytes};
ghost use Rattle.blocked_list.specs.Touches.{greater, joined, lesser, meets};

use range_table::{FileId, Run};

/// Bytes of a file, from the first to the last.
#[derive(Clone, Copy)]
pub struct Touched {
    pub file: FileId,
    pub first: u64,
    pub last: u64,
}

impl Touched {
    /// All bytes of a file.
    pub fn whole(file: &FileId) -> Touched
        ensures { result ≡ record { file = file.now; first = 0; last = 18446744073709551615 } }
    {
        Touched {
            file: *file,
            first: 0,
            last: u64::MAX,
        }
    }

    /// What a lock spans.
    pub fn of(run: &Run) -> Touched
        ensures { result ≡ record { file = run.now.file; first = run.now.first; last = run.now.last } }
    {
        Touched {
            file: run.file,
            first: run.first,
            last: run.last,
        }
    }

    /// Whether both are on one file.
    #[tactic(auto, using(held_locks::proofs::Words::file_same))]
    pub fn is_beside(&self, other: &Touched) -> bool
        ensures { result ≡ same_bytes self.now.file other.now.file }
    {
        self.file.is_same(&other.file)
    }

    /// From the lesser first byte of the two to the greater last byte, on this one's file.
    pub fn with(&self, other: &Touched) -> Touched
        ensures { result ≡ joined self.now other.now }
    {
        Touched {
            file: self.file,
            first: lesser(self.first, other.first),
            last: greater(self.last, other.last),
        }
    }

    /// Whether a byte of theirs is one that the lock spans, on whatever file.
    pub(crate) fn meets(&self, run: &Run) -> bool
        ensures { result ≡ meets self.now run.now.first run.now.last }
    {
        run.first <= self.last && self.first <= run.last
    }
}

pub(crate) fn lesser(a: u64, b: u64) -> u64
    ensures { result ≡ lesser a b }
{
    if a <= b { a } else { b }
}

pub(crate) fn greater(a: u64, b: u64) -> u64
    ensures { result ≡ greater a b }
{
    if a <= b { b } else { a }
}
