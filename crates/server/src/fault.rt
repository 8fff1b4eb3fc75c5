//! Why a server ends before it is told to.
ghost use Rattle.std.specs.Prelude.{◌≡◌};

use crate::worker_pool::PoolFault;
use std::alloc::AllocError;
use std::io;
use std::net::SocketAddr;
use thiserror::Error;
use workers::NotBegun;

/// A listener that can't be had. Its text is the address, with the port, and what the system says: in use, not permitted, none of
/// this machine's.
#[derive(Clone, Copy, Debug, Error)]
#[error("{at}: {error}")]
pub struct NoListener {
    /// Where it was to listen.
    pub at: SocketAddr,
    /// What the system says.
    pub error: io::Error,
}

/// What ends a server, or what its audit finds. It is printed by number and name. What it carries says why, and is no part of
/// that text.
#[derive(Clone, Copy, Debug, Error)]
pub enum ServerFault {
    /// A growth was refused.
    #[error("1 Starved")]
    Starved,
    /// A thread could not be started.
    #[error("1 Starved")]
    NoThread,
    /// What calls peers could not be had: memory, or what the system gives to wait on sockets.
    #[error("1 Starved")]
    NoSender(io::Error),
    /// The store of hosts refused.
    #[error("19 StoreRefused")]
    StoreRefused,
    /// The journal and the receipts don't agree.
    #[error("22 AuditMismatch")]
    AuditMismatch,
    /// A listener can't be had.
    #[error("23 ReadFault")]
    ReadFault(NoListener),
    /// That it is ready could not be written.
    #[error("24 WriteFault")]
    WriteFault,
}

impl From<AllocError> for ServerFault {
    ghost use Rattle.std.specs.Prelude.{◌≡◌};
    ghost use Rattle.server.specs.declared.fault.ServerFault.TheVariants.{Starved};

    ghost from_gives = { λ _ f. f ≡ Starved };

    fn from(_refused: AllocError) -> ServerFault {
        ServerFault::Starved
    }
}

impl From<PoolFault> for ServerFault {
    fn from(fault: PoolFault) -> ServerFault {
        match fault {
            PoolFault::Starved => ServerFault::Starved,
            PoolFault::AuditMismatch => ServerFault::AuditMismatch,
        }
    }
}

impl From<NotBegun> for ServerFault {
    fn from(why: NotBegun) -> ServerFault {
        match why {
            NotBegun::Starved => ServerFault::Starved,
            NotBegun::StoreRefused => ServerFault::StoreRefused,
        }
    }
}
