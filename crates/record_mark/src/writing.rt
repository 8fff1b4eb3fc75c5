//! Records are written behind their marks (RFC 5531, section 11).

ghost use Rattle.std.specs.Prelude.{◌≡◌, []};
ghost use Rattle.record_mark.specs.Sent.{marked_record};
ghost use Rattle.byte_io.specs.Written.{Wrote};

use crate::last_mark;
use byte_io::{WriteFault, write_whole};
use std::io::Write;
use xdr_core::Frame;

/// What has a record that fits into an empty frame.
pub trait Spelled {
    ghost use Rattle.std.specs.Prelude.{ℕ, List};

    /// The record.
    ghost spelling: { Self → List ℕ };

    /// Puts the record into an empty frame.
    fn put(&self, f: &mut Frame)
        ensures { f.old ≡ [] → f.new ≡ spelling self.now };
}

/// Writes a record of one fragment. Where a write fails, a front of it was written. It takes no memory.
pub fn write_record<W: Write>(writer: &mut W, frame: &Frame) -> Result<(), WriteFault>
    ensures { Wrote (W.contents writer.old) (W.contents writer.new) result (marked_record frame.now) }
{
    write_whole(writer, &last_mark(frame.len() as u32))?;
    write_whole(writer, frame.as_slice())
}

/// Writes the record of a value in the same way. The room is lent: what it held is gone, and what it holds afterwards means
/// nothing.
pub fn write_spelled<V: Spelled, W: Write>(
    value: &V,
    room: &mut Frame,
    writer: &mut W,
) -> Result<(), WriteFault>
    ensures { Wrote (W.contents writer.old) (W.contents writer.new) result (marked_record (V.spelling value.now)) }
{
    room.truncate(0);
    value.put(room);
    write_record(writer, room)
}
