//! How far the parsing of a stream has come.
ghost use Rattle.std.specs.Prelude.{◌≡◌, ℕ, ◌+◌, ◌<◌, ◌≤◌, true, false, List, [], ◌++◌, length, take, IfOk, OnOk};
ghost use Rattle.record_mark.specs.Stream.{is_last, size_of, Reads, IsUnfinished, IsEnding};
ghost use Rattle.record_mark.specs.Taking.{GoesOn, Breaks};

use crate::{MOST_RECORD_BYTES, Records};
use bytes::Bytes;
use std::alloc::{AllocError, Global};
use std::mem;

/// What there is of a record, in whole fragments, and of the next fragment, its mark first.
#[derive(Drop)]
pub(crate) struct Progress {
    pub(crate) begun: Vec<u8>,
    pub(crate) rest: Vec<u8>,
}

#[derive(Drop)]
struct Mark {
    is_last: bool,
    size: usize,
}

/// What a fragment says that begins with these bytes.
fn mark_of(fragment: &[u8]) -> Mark
    requires { 4 ≤ length fragment.now }
    ensures last { result.is_last ≡ is_last fragment.now }
    ensures size { result.size ≡ size_of fragment.now }
{
    let word = u32::from_be_bytes([fragment[0], fragment[1], fragment[2], fragment[3]]);
    Mark {
        is_last: 1 << 31 <= word,
        size: (word % (1 << 31)) as usize,
    }
}

impl Progress {
    pub(crate) fn new(alloc: Global) -> Progress
        ensures begun { result.begun.items ≡ [] }
        ensures rest { result.rest.items ≡ [] }
    {
        Progress {
            begun: Vec::new(alloc),
            rest: Vec::new(alloc),
        }
    }

    pub(crate) fn copy(&self, alloc: Global) -> Result<Progress, AllocError>
        ensures begun { IfOk result (λ p. p.begun.items ≡ self.now.begun.items) }
        ensures rest { IfOk result (λ p. p.rest.items ≡ self.now.rest.items) }
    {
        Ok(Progress {
            begun: Vec::from_slice(alloc, &self.begun)?,
            rest: Vec::from_slice(alloc, &self.rest)?,
        })
    }

    /// How many bytes the fragment lacks, first of all of its mark.
    fn lacks(&self) -> usize
        requires unfinished { IsUnfinished self.now.begun.items self.now.rest.items }
        ensures some { 0 < result }
        ensures mark { length self.now.rest.items < 4 → length self.now.rest.items + result ≡ 4 }
        ensures size { 4 ≤ length self.now.rest.items → length self.now.rest.items + result ≡ 4 + size_of self.now.rest.items }
    {
        let len = self.rest.len();
        if len < 4 {
            4 - len
        } else {
            4 + mark_of(&self.rest).size - len
        }
    }

    /// Whether a piece ends neither the mark nor the fragment.
    pub(crate) fn lacks_more(&self, piece: &[u8]) -> bool
        requires unfinished { IsUnfinished self.now.begun.items self.now.rest.items }
        ensures { result ≡ true → IsUnfinished self.now.begun.items (self.now.rest.items ++ piece.now) }
    {
        piece.len() < self.lacks()
    }

    /// Adds to the fragment what it lacks, first of all its mark. Returns how many bytes that took.
    fn fill(&mut self, piece: &[u8]) -> Result<usize, AllocError>
        requires some { 0 < length piece.now }
        requires unfinished { IsUnfinished self.old.begun.items self.old.rest.items }
        ensures took { IfOk result (λ n. (0 < n) × (n ≤ length piece.now) × (self.new.rest.items ≡ self.old.rest.items ++ take n piece.now)) }
        ensures fits { OnOk result (length self.new.rest.items ≤ 4 + size_of self.new.rest.items) }
        ensures begun { self.new.begun.items ≡ self.old.begun.items }
    {
        let count = self.lacks().min(piece.len());
        self.rest.extend_from_slice(&piece[..count])?;
        Ok(count)
    }

    /// Moves a whole fragment to the record, and a whole record to the others. Says whether the mark is of a record that is too long.
    fn settle(&mut self, alloc: Global, records: &mut Records) -> Result<bool, AllocError>
        requires { length self.old.rest.items ≤ 4 + size_of self.old.rest.items }
        ensures ending { IfOk result (λ fault. IsEnding fault self.new.begun.items self.new.rest.items) }
        ensures reads { (stream : List ℕ) (given : List (List ℕ)) → Reads stream (given ++ records.old.items) self.old.begun.items self.old.rest.items
            → OnOk result (Reads stream (given ++ records.new.items) self.new.begun.items self.new.rest.items) }
    {
        if self.rest.len() < 4 {
            return Ok(false);
        }
        let mark = mark_of(&self.rest);
        if self.begun.len() > MOST_RECORD_BYTES
            || mark.size > MOST_RECORD_BYTES - self.begun.len()
        {
            return Ok(true);
        }
        if self.rest.len() < 4 + mark.size {
            return Ok(false);
        }
        self.begun.extend_from_slice(&self.rest[4..])?;
        self.rest.clear();
        if mark.is_last {
            let begun = mem::replace(&mut self.begun, Vec::new(alloc));
            let record = Bytes::from_vec(begun)?;
            records.push(record)?;
        }
        Ok(false)
    }

    /// Takes a piece, and adds each record that is whole now. Says whether it met a record that is too long; then the rest of the piece is not read.
    pub(crate) fn take(
        &mut self,
        alloc: Global,
        piece: &[u8],
        records: &mut Records,
    ) -> Result<bool, AllocError>
        requires { IsUnfinished self.old.begun.items self.old.rest.items }
        ensures going { IfOk result (λ fault. fault ≡ false → IsUnfinished self.new.begun.items self.new.rest.items) }
        ensures reads { GoesOn result piece.now self.old self.new records.old.items records.new.items }
        ensures faults { Breaks result piece.now self.old records.old.items records.new.items }
    {
        let mut left = piece;
        while !left.is_empty() {
            let count = self.fill(left)?;
            left = &left[count..];
            if self.settle(alloc, records)? {
                return Ok(true);
            }
        }
        Ok(false)
    }
}
