//! A stream is read piece by piece, and cut in records.
ghost use Rattle.std.specs.Prelude.{◌≡◌, ◌≢◌, ℕ, ◌<◌, ◌≤◌, true, false, length, [], List, Err, IfOk, IfErr};
ghost use Rattle.std.specs.Io.KnownBytes.{Consumes};
ghost use Rattle.byte_io.specs.Reads.{TakesAtMost};
ghost use Rattle.record_mark.specs.Assembled.{IsSplit};
ghost use Rattle.record_mark.specs.Intakes.{heard, EndsSo, Cuts};

mod ending;

use crate::{Assembler, MarkError, Records};
use byte_io::read_piece;
pub use ending::Ending;
use std::alloc::Global;
use std::io::Read;
use std::marker::Model;

// Reads once: how many bytes came. An interruption brings none.
fn hear<T: Read>(stream: &mut T, place: &mut [u8]) -> Result<usize, Ending>
    requires { 0 < length place.old }
    ensures room { IfOk result (λ count. count ≤ length place.new) }
    ensures bytes { Consumes (T.remaining stream.old) (T.remaining stream.new) (heard result place.new) }
    ensures ends { EndsSo result (T.remaining stream.new) }
    ensures few { TakesAtMost (length place.old) (T.remaining stream.old) (T.remaining stream.new) }
{
    match read_piece(stream, place) {
        Ok(0) => Err(Ending::Over),
        Ok(count) => Ok(count),
        Err(failed) if failed.is_interrupted => Ok(0),
        Err(_) => Err(Ending::Failed),
    }
}

// The records that the piece ends, and how the stream ends with them, if it does.
fn cut(assembler: &mut Assembler, alloc: Global, piece: &[u8]) -> (Records, Option<Ending>)
    requires { piece.now ≢ [] }
    ensures { Cuts assembler.old piece.now result.0.items result.1 assembler.new }
{
    match assembler.feed(piece) {
        Ok(records) => (records, None),
        Err(MarkError::RecordTooLong(records)) => (records, Some(Ending::TooLong)),
        Err(MarkError::Starved) => (Vec::new(alloc), Some(Ending::Starved)),
    }
}

/// What cuts a stream in records. Contracts see what came and was cut so far.
pub struct Intake {
    alloc: Global,
    assembler: Assembler,
}

impl Model for Intake {
    ghost use Rattle.record_mark.specs.Assembled.{Assembled};

    ghost Value = { Assembled };

    ghost view = { λ i. i.assembler };
}

// It is written out, so that each early end of whoever reads makes a call.
impl Drop for Intake {
    fn drop(self) {
        let Intake {
            alloc: _,
            assembler: _,
        } = self;
    }
}

impl Intake {
    /// With no bytes. It takes no memory.
    pub fn new(alloc: Global) -> Intake
        ensures new { result ≡ record { received = []; given = []; failed = false } }
        ensures split { IsSplit result }
    {
        Intake {
            alloc,
            assembler: Assembler::new(alloc),
        }
    }

    /// Reads once: the records that end with what came, and how the stream ends with them, if it does. An interruption brings
    /// neither. A stream that is over, and a read that failed, give no bytes.
    pub fn read<T: Read>(
        &mut self,
        stream: &mut T,
        place: &mut [u8],
    ) -> Result<(Records, Option<Ending>), Ending>
        requires room { 0 < length place.old }
        requires split { IsSplit self.old }
        requires going { self.old.failed ≡ false }
        ensures ok { IfOk result (λ read. (piece : List ℕ) × Consumes (T.remaining stream.old) (T.remaining stream.new) piece × Cuts self.old piece read.0.items read.1 self.new) }
        ensures err { IfErr result (λ ending. Consumes (T.remaining stream.old) (T.remaining stream.new) [] × EndsSo (Err ending) (T.remaining stream.new)) }
        ensures few { TakesAtMost (length place.old) (T.remaining stream.old) (T.remaining stream.new) }
    {
        let count = hear(stream, place)?;
        if count == 0 {
            return Ok((Vec::new(self.alloc), None));
        }
        Ok(cut(&mut self.assembler, self.alloc, &place[..count]))
    }
}
