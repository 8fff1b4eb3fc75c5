//! The receiving side of a stream.
ghost use Rattle.std.specs.Prelude.{◌≡◌, [], ◌++◌, true, false, MatchResult, if◌then◌else◌};
ghost use Rattle.record_mark.specs.Assembled.{Assembled, IsSplit};

use crate::Records;
use crate::progress::Progress;
use bytes::Bytes;
use ghost_list::History;
use std::alloc::{AllocError, Global};
use std::marker::Model;
use thiserror::Error;

/// What `feed` answers where it can't go on.
#[derive(Debug, Drop, Error)]
pub enum MarkError {
    /// A growth was refused. The piece was not taken.
    #[error("1 Starved")]
    Starved,
    /// A record would be longer than `MOST_RECORD_BYTES`. These are the records that the piece ended before
    /// it; from now on every piece is answered so, with none.
    #[error("10 RecordTooLong")]
    RecordTooLong(Records),
}

impl From<AllocError> for MarkError {
    ghost use Rattle.record_mark.specs.declared.assembler.MarkError.TheVariants.{Starved};

    ghost from_gives = { λ _ e. e ≡ Starved };

    fn from(_error: AllocError) -> MarkError {
        MarkError::Starved
    }
}

/// Takes a stream in pieces and gives its records. Contracts see all that it took and all that it gave.
#[derive(Drop)]
pub struct Assembler {
    alloc: Global,
    progress: Progress,
    failed: bool,
    received: History<u8>,
    given: History<Bytes>,
}

impl Model for Assembler {
    ghost use Rattle.record_mark.specs.Assembled.{Assembled};

    ghost Value = { Assembled };

    ghost use Rattle.record_mark.specs.Inside.{view_of_assembler, IsKept};

    ghost view = { view_of_assembler };

    ghost invariant = { IsKept };
}

impl Assembler {
    ghost use Rattle.record_mark.specs.Feeding.{is_starved, records_in, is_too_long};

    /// With no bytes. It takes no memory.
    pub fn new(alloc: Global) -> Assembler
        ensures new { result ≡ record { received = []; given = []; failed = false } }
        ensures split { IsSplit result }
    {
        Assembler {
            alloc,
            progress: Progress::new(alloc),
            failed: false,
            received: History::new(),
            given: History::new(),
        }
    }

    /// Takes a piece of the stream, and gives the records that it ends (RFC 5531, section 11).
    pub fn feed(&mut self, piece: &[u8]) -> Result<Records, MarkError>
        // The records that were given are those of all bytes that were taken.
        ensures split { IsSplit self.new }
        ensures taken { is_starved result ≡ false → self.new.received ≡ self.old.received ++ piece.now }
        ensures given { self.new.given ≡ self.old.given ++ records_in result }
        ensures too_long { is_starved result ≡ false → self.new.failed ≡ is_too_long result }

        // A piece that starves isn't taken.
        ensures starved { is_starved result ≡ true → self.new ≡ self.old }

        // After a record that is too long nothing more is given, and no memory is wanted.
        ensures failed { self.old.failed ≡ true → (is_too_long result ≡ true) × (records_in result ≡ []) }
    {
        let alloc = self.alloc;
        if self.failed {
            self.received = self.received.and_all(piece);
            return Err(MarkError::RecordTooLong(Vec::new(alloc)));
        }
        // Most pieces of a long fragment end nothing: what there is of the record stays where it is.
        if self.progress.lacks_more(piece) {
            self.progress.rest.extend_from_slice(piece)?;
            self.received = self.received.and_all(piece);
            return Ok(Vec::new(alloc));
        }
        let mut next = self.progress.copy(alloc)?;
        let mut records = Vec::new(alloc);
        let failed = next.take(alloc, piece, &mut records)?;
        self.progress = next;
        self.failed = failed;
        self.received = self.received.and_all(piece);
        self.given = self.given.and_all(&records);
        if failed {
            Err(MarkError::RecordTooLong(records))
        } else {
            Ok(records)
        }
    }
}
