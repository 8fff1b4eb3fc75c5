//! What is tried, each by a test of its own.
use crate::files::begins_anew;
use crate::learning::{learns, tells_reboots};
use crate::peer_files::follows_its_file;
use crate::servers::{Talk, is_unstarted, misnames_a_peer, serves, shares_a_port};
use crate::streams::unserved;
use log::Log;
use std::io::Print;
use std::net::{Net, TcpListener, TcpStream};
use std::sync::Wait;
use std::test::*;
use std::thread::Threads;
use std::time::Clock;

#[derive(Clone, Copy)]
enum Trial {
    // `lockd pipe` and `lockd table`, with hosts in memory.
    Streams,
    // `lockd pipe` twice over one file.
    OneFile,
    // `lockd serve` until it is told to stop, with these words more.
    Serves(&'static str, Talk),
    // `lockd serve` with both listeners on one port.
    OnePort,
    // `lockd serve` over a file in no folder.
    NoFolder,
    // `lockd serve` with a file of peers that has this text.
    Peers(&'static str),
    // `lockd serve` whose file of peers changes.
    ChangedPeers,
    // `lockd serve` twice over one file, with a host that no file names.
    Learning,
    // `lockd serve` with a host that boots again.
    Reboots,
}

const BAD: Result<(), &str> = Err("it goes otherwise");

// The kit's borrow checker covers no call of these with `server::Runtime` as the bound.
fn tried<R>(host: &HostRuntime, rt: &R, trial: Trial) -> Result<(), &'static str>
where
    R: Net<Listener = TcpListener, Stream = TcpStream>
        + Threads
        + Wait
        + Clock
        + Print
        + Log
        + Sync,
{
    let goes = match trial {
        Trial::Streams => return unserved(host, rt),
        Trial::OneFile => begins_anew(host, rt),
        Trial::Serves(more, talk) => serves(host, rt, more, talk),
        Trial::OnePort => shares_a_port(host, rt),
        Trial::NoFolder => is_unstarted(host, rt, "/dev/null/hosts.db"),
        Trial::Peers(text) => misnames_a_peer(host, rt, text),
        Trial::ChangedPeers => follows_its_file(host, rt),
        Trial::Learning => learns(host, rt),
        Trial::Reboots => tells_reboots(host, rt),
    };
    if goes == Some(true) { Ok(()) } else { BAD }
}

#[test]
fn streams(rt: HostRuntime) -> Result<(), &'static str> {
    tried(&rt, &rt, Trial::Streams)
}

#[test]
fn two_servers_over_one_file(rt: HostRuntime) -> Result<(), &'static str> {
    tried(&rt, &rt, Trial::OneFile)
}

#[test]
fn serves_until_it_is_told_to_stop(rt: HostRuntime) -> Result<(), &'static str> {
    tried(&rt, &rt, Trial::Serves("", Talk::Call))
}

#[test]
fn serves_with_an_audit(rt: HostRuntime) -> Result<(), &'static str> {
    tried(&rt, &rt, Trial::Serves("--audit --workers 2", Talk::Call))
}

// It has no peers, so that none is asked. (A test that registers would change what the port mapper of this machine has.)
#[test]
fn serves_and_asks_port_mappers(rt: HostRuntime) -> Result<(), &'static str> {
    tried(&rt, &rt, Trial::Serves("--ask-port-mapper", Talk::Call))
}

#[test]
fn port_in_use(rt: HostRuntime) -> Result<(), &'static str> {
    tried(&rt, &rt, Trial::OnePort)
}

#[test]
fn bad_line_of_peers(rt: HostRuntime) -> Result<(), &'static str> {
    tried(&rt, &rt, Trial::Peers("a 192.0.2.1\nb\n"))
}

#[test]
fn changed_file_of_peers(rt: HostRuntime) -> Result<(), &'static str> {
    tried(&rt, &rt, Trial::ChangedPeers)
}

#[test]
fn unlisted_host_is_called(rt: HostRuntime) -> Result<(), &'static str> {
    tried(&rt, &rt, Trial::Learning)
}

#[test]
fn reboots_of_a_host(rt: HostRuntime) -> Result<(), &'static str> {
    tried(&rt, &rt, Trial::Reboots)
}

#[test]
fn database_in_no_folder(rt: HostRuntime) -> Result<(), &'static str> {
    tried(&rt, &rt, Trial::NoFolder)
}

#[test]
fn more_connections_than_by_default(rt: HostRuntime) -> Result<(), &'static str> {
    tried(
        &rt,
        &rt,
        Trial::Serves("--connections 300", Talk::Open(257)),
    )
}

#[test]
fn third_connection_of_a_peer(rt: HostRuntime) -> Result<(), &'static str> {
    tried(
        &rt,
        &rt,
        Trial::Serves("--connections-per-peer 2", Talk::Third),
    )
}
