//! Bytes on their way to a writer. They wait in a block, so that it gets them a block at a time.

ghost use Rattle.std.specs.Prelude.{◌≤◌, ◌++◌, length};
ghost use Rattle.std.specs.List.{flat_map};
ghost use Rattle.hex.specs.Hex.{encode_lower};
ghost use Rattle.table_text.specs.Blocks.{Passed};

use byte_io::{WriteFault, write_whole};
use std::io::Write;
use xdr_core::Frame;

/// Adds bytes to a block. What waits in it is written where they don't fit behind it, and they are, too, where they are
/// longer than a block.
fn put<W: Write>(block: &mut Frame, writer: &mut W, bytes: &[u8]) -> Result<(), WriteFault>
    ensures { Passed (W.contents writer.old) (W.contents writer.new) result block.new (block.old ++ bytes.now) }
{
    if block.append(bytes).is_ok() {
        return Ok(());
    }
    write_whole(writer, block.as_slice())?;
    block.truncate(0);
    if block.append(bytes).is_ok() {
        return Ok(());
    }
    write_whole(writer, bytes)
}

/// Adds the parts, one behind the other.
pub(crate) fn put_parts<W: Write>(
    block: &mut Frame,
    writer: &mut W,
    parts: &[&[u8]],
) -> Result<(), WriteFault>
    ensures { Passed (W.contents writer.old) (W.contents writer.new) result block.new (block.old ++ flat_map (λ part. part.now) parts.now) }
{
    for part in parts {
        put(block, writer, part)?;
    }
    Ok(())
}

/// Adds at most 64 bytes in lower-case hexadecimal.
fn put_short_hex<W: Write>(
    block: &mut Frame,
    writer: &mut W,
    bytes: &[u8],
) -> Result<(), WriteFault>
    requires { length bytes.now ≤ 64 }
    ensures { Passed (W.contents writer.old) (W.contents writer.new) result block.new (block.old ++ encode_lower bytes.now) }
{
    let mut room = [0; 128];
    let digits = &mut room[..2 * bytes.len()];
    let _ = hex::encode_to_slice(bytes, digits);
    put(block, writer, digits)
}

/// Adds bytes in lower-case hexadecimal.
pub(crate) fn put_hex<W: Write>(
    block: &mut Frame,
    writer: &mut W,
    bytes: &[u8],
) -> Result<(), WriteFault>
    ensures { Passed (W.contents writer.old) (W.contents writer.new) result block.new (block.old ++ encode_lower bytes.now) }
{
    let mut rest = bytes;
    while !rest.is_empty() {
        let (front, behind) = rest.split_at(rest.len().min(64));
        put_short_hex(block, writer, front)?;
        rest = behind;
    }
    Ok(())
}
