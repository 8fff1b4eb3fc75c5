//! How the program ends.
ghost use Rattle.std.specs.Prelude.{◌≡◌, ◌≤◌, IfOk, IfErr};
ghost use Rattle.lockd_serving.specs.Ran.{IsStatus};

use crate::notes::{StartFailure, tell};
use crate::sockets::ServeFault;
use config::{ServeConfig, StreamConfig};
use pipe_loops::StreamFault;
use std::fmt::Display;
use std::process::ExitCode;

/// The status, and the fault on standard error.
pub fn end<F: Display + Drop>(rt: &HostRuntime, ended: Result<(), F>) -> ExitCode
    ensures ok { IfOk ended (λ _. result.status ≡ 0) }
    ensures err { IfErr ended (λ _. result.status ≡ 1) }
{
    match ended {
        Ok(()) => ExitCode::SUCCESS,
        Err(fault) => {
            let _ = eprintln!(rt; "lockd: {fault}");
            ExitCode::FAILURE
        }
    }
}

/// The end of a stream. The store refuses at its beginning alone.
pub(crate) fn end_stream(
    rt: &HostRuntime,
    asked: &StreamConfig,
    ended: Result<(), StreamFault>,
) -> ExitCode
    ensures { IsStatus ended result.status }
{
    if let (Some(path), Err(StreamFault::StoreRefused)) = (&asked.db, ended) {
        let path = path.as_str();
        tell(rt, StartFailure::NotBegun { path });
    }
    end(rt, ended)
}

/// The server's end, and what its audit found.
pub(crate) fn end_server(
    rt: &HostRuntime,
    asked: &ServeConfig,
    ended: Result<u64, ServeFault>,
) -> ExitCode
    ensures ok { IfOk ended (λ _. result.status ≤ 1) }
    ensures err { IfErr ended (λ _. result.status ≡ 1) }
{
    match ended {
        Ok(calls) if asked.audit => match println!(rt; "audit yes {calls}") {
            Ok(()) => ExitCode::SUCCESS,
            Err(_) => end(rt, Err(StreamFault::WriteFault)),
        },
        Ok(_) => ExitCode::SUCCESS,
        Err(fault) => {
            tell_why(rt, asked, &fault);
            end(rt, Err(fault))
        }
    }
}

// Tells why the server didn't start.
fn tell_why(rt: &HostRuntime, asked: &ServeConfig, fault: &ServeFault) {
    let ServeFault::Server(fault) = fault else {
        return;
    };
    if let Some(note) = StartFailure::of_server(asked.db.as_str(), fault) {
        tell(rt, note);
    }
}
