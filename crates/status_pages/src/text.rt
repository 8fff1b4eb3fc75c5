//! Bytes are added to a page.
ghost use Rattle.std.specs.Prelude.{◌≡◌, ◌++◌, OnOk, decimal};
ghost use Rattle.std.specs.Fmt.{signed_decimal};
ghost use Rattle.std.specs.List.{flat_map};
ghost use Rattle.hex.specs.Hex.{encode_lower};
ghost use Rattle.status_pages.specs.Seconds.{seconds_text, fraction_text};

use crate::starved::Starved;
use itoa::Buffer;

/// Adds the parts, one behind the other. Where there is no memory, a front of them is there.
pub(crate) fn put_parts(out: &mut Vec<u8>, parts: &[&[u8]]) -> Result<(), Starved>
    ensures { OnOk result (out.new.items ≡ out.old.items ++ flat_map (λ part. part.now) parts.now) }
{
    for part in parts {
        out.extend_from_slice(part)?;
    }
    Ok(())
}

/// Adds a number in decimal.
pub(crate) fn put_number(out: &mut Vec<u8>, number: u64) -> Result<(), Starved>
    ensures { OnOk result (out.new.items ≡ out.old.items ++ decimal number) }
{
    let mut digits = Buffer::new();
    out.extend_from_slice(digits.format(number).as_bytes())?;
    Ok(())
}

/// The nanoseconds of a second.
const SECOND: u64 = 1_000_000_000;

// The nine digits behind the point. The first digit of what is printed stands before them, and is left out.
fn put_fraction(out: &mut Vec<u8>, nanos: u64) -> Result<(), Starved>
    ensures { OnOk result (out.new.items ≡ out.old.items ++ fraction_text nanos) }
{
    let mut digits = Buffer::new();
    let text = digits.format(SECOND + nanos % SECOND).as_bytes();
    let behind = text.get(1..).unwrap_or(text);
    out.extend_from_slice(behind)?;
    Ok(())
}

/// Adds nanoseconds as seconds, with nine digits behind the point.
pub(crate) fn put_seconds(out: &mut Vec<u8>, nanos: u64) -> Result<(), Starved>
    ensures { OnOk result (out.new.items ≡ out.old.items ++ seconds_text nanos) }
{
    put_number(out, nanos / SECOND)?;
    put_parts(out, &[b"."])?;
    put_fraction(out, nanos)
}

/// Adds a number that may be negative, in decimal.
pub(crate) fn put_signed(out: &mut Vec<u8>, number: i32) -> Result<(), Starved>
    ensures { OnOk result (out.new.items ≡ out.old.items ++ signed_decimal number) }
{
    let mut digits = Buffer::new();
    out.extend_from_slice(digits.format(number).as_bytes())?;
    Ok(())
}

/// Adds bytes in lower-case hexadecimal.
pub(crate) fn put_hex(out: &mut Vec<u8>, bytes: &[u8]) -> Result<(), Starved>
    ensures { OnOk result (out.new.items ≡ out.old.items ++ encode_lower bytes.now) }
{
    let alloc = *out.allocator();
    let text = hex::encode(alloc, bytes)?;
    out.extend_from_slice(text.as_bytes())?;
    Ok(())
}
