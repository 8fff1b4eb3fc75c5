//! What ends the program.

ghost use Rattle.std.specs.Prelude.{◌≡◌};

use byte_io::{FailedRead, WriteFault};
use daemon_core::EventRefusal;
use owner_ids::Starved;
use thiserror::Error;

/// What ends a loop before its input does. It is printed by number and name.
#[derive(Clone, Copy, Debug, PartialEq, Eq, Error)]
pub enum StreamFault {
    /// A growth was refused.
    #[error("1 Starved")]
    Starved,
    /// The stream has a record that would be longer than 8,192 bytes (RFC 5531, section 11).
    #[error("10 RecordTooLong")]
    RecordTooLong,
    /// The store of hosts refused.
    #[error("19 StoreRefused")]
    StoreRefused,
    /// A read failed, or there were too many.
    #[error("23 ReadFault")]
    ReadFault,
    /// A write failed.
    #[error("24 WriteFault")]
    WriteFault,
}

impl From<EventRefusal> for StreamFault {
    ghost use Rattle.pipe_loops.specs.FaultOf.{fault_of};

    ghost from_gives = { λ r f. f ≡ fault_of r };

    fn from(refusal: EventRefusal) -> StreamFault {
        match refusal {
            EventRefusal::Starved => StreamFault::Starved,
            EventRefusal::RecordTooLong => StreamFault::RecordTooLong,
            EventRefusal::StoreRefused => StreamFault::StoreRefused,
        }
    }
}

impl From<WriteFault> for StreamFault {
    ghost use Rattle.pipe_loops.specs.FaultOf.{failed_write};

    ghost from_gives = { λ w f. f ≡ failed_write };

    fn from(_fault: WriteFault) -> StreamFault {
        StreamFault::WriteFault
    }
}

impl From<FailedRead> for StreamFault {
    ghost use Rattle.pipe_loops.specs.FaultOf.{failed_read};

    ghost from_gives = { λ r f. f ≡ failed_read };

    fn from(_failed: FailedRead) -> StreamFault {
        StreamFault::ReadFault
    }
}

impl From<Starved> for StreamFault {
    ghost use Rattle.pipe_loops.specs.FaultOf.{starved_fault};

    ghost from_gives = { λ s f. f ≡ starved_fault };

    fn from(_starved: Starved) -> StreamFault {
        StreamFault::Starved
    }
}
