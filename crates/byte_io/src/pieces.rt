//! A stream is read piece by piece, each into the same place.

ghost use Rattle.std.specs.Prelude.{◌≡◌, ◌<◌, length, IfOk, vec_len};
ghost use Rattle.byte_io.specs.Reads.{ReadsPiece};

use std::alloc::{AllocError, Global};
use std::io::{ErrorKind, Read};

/// How often the program's loops read a stream at most, so that each ends by itself: a client that calls a thousand times a
/// second does so for eleven days.
pub const MOST_READS: u64 = 1_000_000_000;

/// A read that failed.
#[derive(Clone, Copy)]
pub struct FailedRead {
    /// It was interrupted: it can be tried again.
    pub is_interrupted: bool,
}

/// A place for so many bytes.
pub fn make_place(alloc: Global, size: usize) -> Result<Vec<u8>, AllocError>
    ensures { IfOk result (λ place. vec_len place ≡ size) }
{
    Ok(vec![in alloc; 0u8; size]?)
}

/// Reads what there is, up to what the place has room for. Returns how many bytes stand at its front, none at the stream's end
/// alone. A read that failed takes nothing from the stream.
pub fn read_piece<R: Read>(reader: &mut R, place: &mut [u8]) -> Result<usize, FailedRead>
    requires { 0 < length place.old }
    ensures { ReadsPiece (R.remaining reader.old) (R.remaining reader.new) result place.new }
{
    match reader.read(place) {
        Ok(count) => Ok(count),
        Err(error) => {
            let is_interrupted = error.kind() == ErrorKind::Interrupted;
            Err(FailedRead { is_interrupted })
        }
    }
}
