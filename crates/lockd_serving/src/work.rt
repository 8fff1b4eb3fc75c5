//! What the words ask is done.
ghost use Rattle.std.specs.Prelude.{◌≡◌, ◌≤◌, Err, IfErr, IfOk, IfSome, option_map};
ghost use Rattle.lockd_serving.specs.Ran.{Fails, Ran, RanOver, RanServer, Runs, AreStored, stand};

use crate::ends::{end, end_server, end_stream};
use crate::sockets::{FilePeers, ServeFault, Whereabouts, serve_sockets, watch_peers};
use crate::stores::{FoundHosts, OpenedDatabase, hosts_of};
use crate::streams::{Console, Output, serve_stream};
use config::{Config, FilePath, ServeConfig, StreamConfig};
use hosts_db::{HostStore, KeptHosts, Lasting};
use pipe_loops::StreamFault;
use server::Runtime;
use sqlite::{Alter, Connection};
use std::io::{Read, Write};
use std::process::ExitCode;

/// What is served.
#[derive(Drop)]
pub(crate) enum Work<'a> {
    /// A stream.
    Stream(Output, &'a StreamConfig),
    /// Sockets, with the peers that a file names.
    Sockets(&'a ServeConfig, FilePeers<'a>),
}

// Serves over the store.
fn serve_over<S, R, I, O>(
    host: &HostRuntime,
    rt: &R,
    console: &mut Console<I, O>,
    work: Work<'_>,
    found: FoundHosts<S>,
) -> ExitCode
where
    S: HostStore + Drop + Send,
    R: Runtime,
    I: Read,
    O: Write,
    ensures runs { Runs work.entry (S.rows found.hosts) (S.refusals found.hosts) result.status (stand I.remaining O.contents console.old) (stand I.remaining O.contents console.new) }
    ensures most { result.status ≤ 1 }
{
    let FoundHosts { hosts, learned } = found;
    match work {
        Work::Stream(output, asked) => {
            drop(learned);
            let ended = serve_stream(host.alloc(), console, output, asked, hosts);
            end_stream(host, asked, ended)
        }
        Work::Sockets(asked, peers) => {
            let whereabouts = Whereabouts { peers, learned };
            let ended = serve_sockets(rt, host.alloc(), asked, whereabouts, hosts);
            end_server(host, asked, ended)
        }
    }
}

// Serves over the store, where it could be had. Its rows outlive a crash once the server began. It is generic in both stores, so
// that its proof sees no more of either than their trait.
fn serve_kept<M, S, R, I, O>(
    host: &HostRuntime,
    rt: &R,
    console: &mut Console<I, O>,
    work: Work<'_>,
    found: Result<FoundHosts<KeptHosts<M, S>>, StreamFault>,
) -> ExitCode
where
    M: HostStore + Drop + Send,
    S: HostStore + Drop + Send,
    R: Runtime,
    I: Read,
    O: Write,
    ensures runs { IfOk found (λ found. Runs work.entry (⟦<KeptHosts<M, S> as HostStore>⟧.rows found.hosts) (⟦<KeptHosts<M, S> as HostStore>⟧.refusals found.hosts) result.status (stand I.remaining O.contents console.old) (stand I.remaining O.contents console.new)) }
    ensures refused { IfErr found (λ _. Fails result.status (stand I.remaining O.contents console.old) (stand I.remaining O.contents console.new)) }
    ensures most { result.status ≤ 1 }
{
    match found {
        Ok(FoundHosts { hosts, learned }) => {
            let found = FoundHosts {
                hosts: Lasting::new(hosts),
                learned,
            };
            serve_over(host, rt, console, work, found)
        }
        Err(fault) => {
            drop(work);
            end(host, Err(fault))
        }
    }
}

// It is generic, so that the proof of a call sees no more of a database than its trait.
fn serve_database<S, R, I, O>(
    host: &HostRuntime,
    rt: &R,
    console: &mut Console<I, O>,
    work: Work<'_>,
    opened: Option<OpenedDatabase<'_, S>>,
) -> ExitCode
where
    S: Alter + Drop + Send,
    R: Runtime,
    I: Read,
    O: Write,
    ensures runs { RanOver work.entry (AreStored (option_map (λ opened. opened.path.now) opened.entry)) result.status (stand I.remaining O.contents console.old) (stand I.remaining O.contents console.new) }
    ensures refused { IfSome opened.entry (λ opened. IfErr opened.tried (λ _. Fails result.status (stand I.remaining O.contents console.old) (stand I.remaining O.contents console.new))) }
    ensures most { result.status ≤ 1 }
{
    serve_kept(host, rt, console, work, hosts_of(host, opened))
}

/// Does the work with the hosts of the file, which is made where it isn't there, or of no file. It opens for streams and
/// sockets, since each function that has a database over a real file in hand is a dear proof.
fn serve_file<R: Runtime, I: Read, O: Write>(
    host: &HostRuntime,
    rt: &R,
    console: &mut Console<I, O>,
    work: Work<'_>,
    path: Option<&FilePath>,
    is_learning: bool,
) -> ExitCode
    ensures runs { RanOver work.entry (AreStored (option_map (λ path. path.now) path.entry)) result.status (stand I.remaining O.contents console.old) (stand I.remaining O.contents console.new) }
    ensures most { result.status ≤ 1 }
{
    let opened = match path {
        Some(path) => Some(OpenedDatabase {
            path,
            tried: Connection::open(host, path.as_str()),
            is_learning,
        }),
        None => None,
    };
    serve_database(host, rt, console, work, opened)
}

// The peers are read before the database is opened, so that none is made for a server that doesn't start.
fn run_server<R: Runtime, I: Read, O: Write>(
    host: &HostRuntime,
    rt: &R,
    console: &mut Console<I, O>,
    asked: &ServeConfig,
    peers: Result<FilePeers<'_>, ServeFault>,
) -> ExitCode
    ensures runs { RanServer result.status (stand I.remaining O.contents console.old) (stand I.remaining O.contents console.new) }
    ensures refused { IfErr peers.entry (λ _. result.status ≡ 1) }
{
    match peers {
        Ok(peers) => {
            let work = Work::Sockets(asked, peers);
            serve_file(host, rt, console, work, Some(&asked.db), asked.learn)
        }
        Err(fault) => end(host, Err(fault)),
    }
}

/// Does what the words ask, over the files of `host` and the sockets and threads of `rt`, which are the same: a library has no
/// threads but of what it is handed. `pipe` and `table` read the console's input, and write to its output; `serve` leaves both.
///
/// The status is 0 where the input came to its end, or the server was told to stop, and 1 where a fault ended it, whose number and
/// name go to standard error. In front of the fault of a start stands a note, which says why.
pub fn serve_asked<R: Runtime, I: Read, O: Write>(
    host: &HostRuntime,
    rt: &R,
    console: &mut Console<I, O>,
    asked: &Config,
) -> ExitCode
    ensures runs { Ran asked.now result.status (stand I.remaining O.contents console.old) (stand I.remaining O.contents console.new) }
    ensures most { result.status ≤ 1 }
{
    match asked {
        Config::Pipe(asked) => {
            let work = Work::Stream(Output::Replies, asked);
            serve_file(host, rt, console, work, asked.db.as_ref(), false)
        }
        Config::Table(asked) => {
            let work = Work::Stream(Output::Table, asked);
            serve_file(host, rt, console, work, asked.db.as_ref(), false)
        }
        Config::Serve(asked) => {
            let peers = watch_peers(host, asked.peers.as_str());
            run_server(host, rt, console, asked, peers)
        }
    }
}
