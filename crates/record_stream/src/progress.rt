//! How far a socket came.
use std::io::{Error, ErrorKind};

/// How far a socket came.
#[derive(Clone, Copy, Debug, PartialEq, Eq)]
pub enum Progress {
    /// The socket says when it goes on.
    Waits,
    /// It may go on now.
    GoesOn,
    /// The connection was refused, has ended or has failed.
    Lost,
}

/// How far a socket came that answers this error: it waits where it would block, as while it is being connected.
pub fn progress_of(error: Error) -> Progress {
    match error.kind() {
        ErrorKind::Interrupted => Progress::GoesOn,
        ErrorKind::WouldBlock | ErrorKind::NotConnected => Progress::Waits,
        _ => Progress::Lost,
    }
}
