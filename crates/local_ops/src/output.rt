//! What is written to a local connection.

ghost use Rattle.std.specs.List.{flat_map};
ghost use Rattle.hex.specs.Hex.{encode_lower};
ghost use Rattle.byte_io.specs.Written.{Wrote};

use crate::text::short_hex;
use byte_io::{WriteFault, write_whole};
use std::io::Write;

/// Writes the parts, one behind the other.
pub(crate) fn write_parts<W: Write>(writer: &mut W, parts: &[&[u8]]) -> Result<(), WriteFault>
    ensures { Wrote (W.contents writer.old) (W.contents writer.new) result (flat_map (λ part. part.now) parts.now) }
{
    for part in parts {
        write_whole(writer, part)?;
    }
    Ok(())
}

/// Writes bytes in lower-case hexadecimal.
pub(crate) fn write_hex<W: Write>(writer: &mut W, bytes: &[u8]) -> Result<(), WriteFault>
    ensures { Wrote (W.contents writer.old) (W.contents writer.new) result (encode_lower bytes.now) }
{
    let mut room = [0; 128];
    let mut rest = bytes;
    while !rest.is_empty() {
        let (front, behind) = rest.split_at(rest.len().min(64));
        write_whole(writer, short_hex(front, &mut room))?;
        rest = behind;
    }
    Ok(())
}
