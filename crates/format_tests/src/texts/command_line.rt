//! Words that are accepted, and words that are refused.
//!
//! A row's line is `WORDS = STATUS TEXT`: the exit status, 0 where the words are accepted, and the settings in full, or a part
//! of what the user is told. Where a line has no text, none is compared.
use config::config;
use std::alloc::{AllocError, Global};

// Puts the words of a text, which has one space between each two, behind others.
fn append(words: &mut Vec<String>, alloc: Global, text: &str) {
    for word in text.split(' ') {
        if let Ok(word) = String::from_str(alloc, word) {
            let _ = words.push(word);
        }
    }
}

// The exit status, and what is asked or what the user is told.
fn told(alloc: Global, words: &[String]) -> Result<String, AllocError> {
    match config(alloc, words) {
        Ok(asked) => format!(in alloc; "0 {asked:?}"),
        Err(fault) => {
            let status = fault.status();
            format!(in alloc; "{status} {fault}")
        }
    }
}

fn is_told<'s>(told: &'s str, want: &'s str) -> bool {
    let (status, text) = told.split_once(' ').unwrap_or((told, ""));
    let (want_status, want_text) = want.split_once(' ').unwrap_or((want, ""));
    status == want_status
        && if status == "0" && !want_text.is_empty() {
            text == want_text
        } else {
            text.contains(want_text)
        }
}

// Whether words come to this.
fn come_to(alloc: Global, words: &[String], want: &str) -> bool {
    match told(alloc, words) {
        Ok(told) => is_told(told.as_str(), want),
        Err(AllocError) => false,
    }
}

// Whether the line holds, whose words stand behind these.
fn holds(alloc: Global, front: &str, line: &str) -> bool {
    let (more, want) = line.split_once(" = ").unwrap_or((line, "no status"));
    let mut words = Vec::new(alloc);
    if !front.is_empty() {
        append(&mut words, alloc, front);
    }
    append(&mut words, alloc, more);
    come_to(alloc, &words, want)
}

// The first line that doesn't hold is the error.
fn check(alloc: Global, front: &str, script: &'static str) -> Result<(), &'static str> {
    for line in script.lines() {
        if !holds(alloc, front, line) {
            return Err(line);
        }
    }
    Ok(())
}

const STREAMS: &str =
    "pipe = 0 Pipe(StreamConfig { grace: false, name: OwnName { text: \"server\" }, db: None })
pipe --grace = 0 Pipe(StreamConfig { grace: true, name: OwnName { text: \"server\" }, db: None })
table --db F --name a.b --grace = 0 Table(StreamConfig { grace: true, name: OwnName { text: \"a.b\" }, db: Some(FilePath { text: \"F\" }) })";

#[test]
fn streams(rt: HostRuntime) -> Result<(), &'static str> {
    check(rt.alloc(), "", STREAMS)
}

const COMPLETE: &str =
    "serve --port 1 --local-port 2 --db hosts.db --peers peers --peer-nlm-port 3 --peer-nsm-port 4 --watch-port 65535";

const DEFAULTS: &str =
    "--port 1 --local-port 2 --db hosts.db --peers peers --peer-nlm-port 3 --peer-nsm-port 4 \
--watch-port 65535 = 0 Serve(ServeConfig { ports: Ports { rpc: Port { number: 1 }, local: Port { number: 2 }, \
peer_nlm: Port { number: 3 }, peer_nsm: Port { number: 4 }, watch: Port { number: 65535 } }, \
times: Times { grace: Seconds { number: 45 }, silence: Seconds { number: 5 }, idle: Seconds { number: 600 } }, \
workers: Workers { number: 4 }, connections: Connections { number: 256 }, connections_per_peer: None, notify_port: None, name: OwnName { text: \"server\" }, db: FilePath { text: \"hosts.db\" }, \
peers: FilePath { text: \"peers\" }, bind: 0.0.0.0, audit: false, ask_port_mapper: false, register: false, poll_ends_grant: false, learn: false, known_hosts_only: false, lock_state_tells_reboot: false, status_port: None })";

#[test]
fn defaults(rt: HostRuntime) -> Result<(), &'static str> {
    check(rt.alloc(), "serve", DEFAULTS)
}

const REFUSED_WORDS: &str = " = 2
serve = 2
lock = 2
pipe --grace --grace = 2
pipe --db = 2
pipe extra = 2
pipe --name a --name b = 2
table --port 1 = 2
--name a pipe = 2
--help = 0
--version = 0
pipe --help = 0
serve --help = 0";

#[test]
fn refused_words(rt: HostRuntime) -> Result<(), &'static str> {
    assert!(rt; come_to(rt.alloc(), &[], "2"));
    check(rt.alloc(), "", REFUSED_WORDS)
}

const BOUNDS: &str = "--workers 1 = 0
--workers 16 = 0
--workers 0 = 2
--workers 17 = 2
--workers 04 = 2
--connections 1 = 0
--connections 4096 = 0
--connections 0 = 2
--connections 4097 = 2
--connections 0300 = 2
--connections-per-peer 1 = 0
--connections-per-peer 4096 = 0
--connections-per-peer 0 = 2
--connections-per-peer 4097 = 2
--connections-per-peer = 2
--notify-port 1 = 0
--notify-port 65535 = 0
--notify-port 0 = 2
--notify-port 65536 = 2
--notify-port = 2
--grace-seconds 86400 = 0
--grace-seconds 86401 = 2
--silence-seconds 1 = 0
--silence-seconds 0 = 2
--idle-seconds 86400 = 0
--idle-seconds +1 = 2
--bind ::1 = 0
--bind localhost = 2
--audit = 0
--audit yes = 2
--ask-port-mapper = 0
--ask-port-mapper yes = 2
--register = 0
--register yes = 2
--poll-ends-grant = 0
--poll-ends-grant yes = 2
--learn = 0
--learn yes = 2
--known-hosts-only = 0
--known-hosts-only yes = 2
--lock-state-tells-reboot = 0
--lock-state-tells-reboot yes = 2
--status-port 1 = 0
--status-port 65535 = 0
--status-port 0 = 2
--status-port 65536 = 2
--status-port = 2
--port 5 = 2";

const WITHOUT_PORT: &str =
    "serve --local-port 2 --db d --peers p --peer-nlm-port 3 --peer-nsm-port 4 --watch-port 5";

const PORTS: &str = "--port 1 = 0
--port 65535 = 0
--port 0 = 2
--port 65536 = 2
--port x = 2";

#[test]
fn bounds(rt: HostRuntime) -> Result<(), &'static str> {
    check(rt.alloc(), COMPLETE, BOUNDS)?;
    check(rt.alloc(), WITHOUT_PORT, PORTS)
}

const TOLD: &str = "--workers 17 = 2 invalid value '17' for '--workers': workers are 1 to 16
--connections 5000 = 2 invalid value '5000' for '--connections': connections are 1 to 4096
--connections-per-peer 0 = 2 invalid value '0' for '--connections-per-peer': connections are 1 to 4096
--status-port 0 = 2 invalid value '0' for '--status-port': a port is 1 to 65535";

#[test]
fn told_words(rt: HostRuntime) -> Result<(), &'static str> {
    check(rt.alloc(), COMPLETE, TOLD)
}
