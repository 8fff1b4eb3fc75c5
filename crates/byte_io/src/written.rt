//! Bytes are written whole, or a front of them where a write fails.

ghost use Rattle.byte_io.specs.Written.{Wrote};

use std::io::Write;
use thiserror::Error;

/// A write failed: a front of the bytes was written.
#[derive(Clone, Copy, Debug, PartialEq, Eq, Error)]
#[error("24 WriteFault")]
pub struct WriteFault;

/// Writes all the bytes, or a front of them where a write fails or takes nothing.
pub fn write_whole<W: Write>(writer: &mut W, bytes: &[u8]) -> Result<(), WriteFault>
    ensures { Wrote (W.contents writer.old) (W.contents writer.new) result bytes.now }
{
    let mut rest = bytes;
    while !rest.is_empty() {
        match writer.write(rest) {
            Ok(0) => return Err(WriteFault),
            Ok(count) => rest = &rest[count..],
            Err(_) => return Err(WriteFault),
        }
    }
    Ok(())
}
