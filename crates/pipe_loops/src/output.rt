//! What is written.

ghost use Rattle.daemon_core.specs.Outputs.{bytes_sent};
ghost use Rattle.byte_io.specs.Written.{Wrote};

use byte_io::WriteFault;
use daemon_core::{Frame, Outputs, SendBuffer};
use std::io::Write;

/// The places of what is sent: of a reply's record, and of a call of the server's own. They have some 9 KiB, which are got and
/// cleared once, and are lent to each sending.
#[derive(Drop)]
pub(crate) struct Places {
    pub(crate) reply: Frame,
    pub(crate) call: SendBuffer,
}

impl Places {
    /// With nothing in them.
    pub(crate) fn new() -> Places {
        Places {
            reply: Frame::new(),
            call: SendBuffer::new(),
        }
    }
}

/// Writes what an event sends. The room is lent, as to `Sent::write`.
pub(crate) fn write_outputs<W: Write>(
    room: &mut Frame,
    writer: &mut W,
    outputs: &Outputs,
) -> Result<(), WriteFault>
    ensures { Wrote (W.contents writer.old) (W.contents writer.new) result (bytes_sent outputs.now.sent) }
{
    let Some(sent) = &outputs.sent else {
        return Ok(());
    };
    sent.write(room, writer)
}
