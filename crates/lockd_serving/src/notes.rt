//! What is told of a start that failed, in front of its fault.
use hosts_sql::AdoptError;
use server::{NoListener, ServerFault};
use std::io;
use thiserror::Error;

/// Why a start failed: which file, line, address or database it was, and what the system says of it.
#[derive(Clone, Copy, Debug, Error)]
pub enum StartFailure<'a> {
    /// The file of peers can't be read.
    #[error("{path}: {error}")]
    Unread {
        /// Where the file is.
        path: &'a str,
        /// What the system says.
        error: io::Error,
    },
    /// A line of the file of peers is wrong.
    #[error("{path}: line {number} is no name, a space and an IP address, names a host again, or comes behind 4096 others")]
    BadLine {
        /// Where the file is.
        path: &'a str,
        /// The line's number, of which the first is 1.
        number: u32,
    },
    /// There is no database of hosts.
    #[error("{path}: {why}")]
    NoHosts {
        /// Where it was looked for.
        path: &'a str,
        /// Why it isn't taken.
        why: &'a AdoptError,
    },
    /// The database refused the new own state.
    #[error("{path}: the new own state can't be stored")]
    NotBegun {
        /// Where the database is.
        path: &'a str,
    },
    /// A listener can't be had.
    #[error("{0}")]
    NoListener(NoListener),
    /// What calls peers can't be had.
    #[error("sockets can't be waited for: {0}")]
    NoSender(io::Error),
    /// A thread can't be started.
    #[error("a thread can't be started")]
    NoThread,
}

impl<'a> StartFailure<'a> {
    /// Why a server over this database didn't start. None where its fault says all, or comes behind the start.
    pub(crate) fn of_server(path: &'a str, fault: &ServerFault) -> Option<StartFailure<'a>> {
        match fault {
            ServerFault::ReadFault(refused) => Some(StartFailure::NoListener(*refused)),
            ServerFault::NoSender(error) => Some(StartFailure::NoSender(*error)),
            ServerFault::NoThread => Some(StartFailure::NoThread),
            ServerFault::StoreRefused => Some(StartFailure::NotBegun { path }),
            ServerFault::Starved | ServerFault::AuditMismatch | ServerFault::WriteFault => None,
        }
    }
}

/// Tells it on standard error. A note that can't be written is dropped.
pub(crate) fn tell(rt: &HostRuntime, note: StartFailure<'_>) {
    let _ = eprintln!(rt; "lockd: note: {note}");
}
