//! What a parse found, as settings.

ghost use Rattle.std.specs.Prelude.{◌≡◌, IfOk};
ghost use Rattle.clap.specs.Words.{first_of, found_of, rows_of};
ghost use Rattle.config.specs.Settings.{setting, optional_setting, flag_in, port_in, seconds_in, workers_in, connections_in, name_in};
ghost use Rattle.config.specs.Reads.{IsWrong, Reads, ReadsAddress, ReadsServe, stream_in, ports_in, times_in};

use crate::texts::{FilePath, OwnName, is_name};
use crate::values::{Connections, Port, Seconds, Workers};
use clap::ArgMatches;
use std::alloc::{AllocError, Global};
use std::net::IpAddr;

/// What `pipe` and `table` are told.
#[derive(Debug, Drop)]
pub struct StreamConfig {
    /// Whether the grace period goes on until the input ends.
    pub grace: bool,
    pub name: OwnName,
    /// Where the hosts are stored; None: in memory.
    pub db: Option<FilePath>,
}

/// The ports of `serve`, and of its peers.
#[derive(Clone, Copy, Debug, PartialEq, Eq)]
pub struct Ports {
    /// For calls by record.
    pub rpc: Port,
    /// For the lines of local programs, on loopback alone.
    pub local: Port,
    /// The peers' port for program 100021.
    pub peer_nlm: Port,
    /// The peers' port for program 100024.
    pub peer_nsm: Port,
    /// The peers' port for all other programs.
    pub watch: Port,
}

/// How long `serve` waits.
#[derive(Clone, Copy, Debug, PartialEq, Eq)]
pub struct Times {
    /// The grace period.
    pub grace: Seconds,
    /// For an answer to a call of its own.
    pub silence: Seconds,
    /// For a connection's next call.
    pub idle: Seconds,
}

/// What `serve` is told.
#[derive(Debug, Drop)]
pub struct ServeConfig {
    pub ports: Ports,
    pub times: Times,
    pub workers: Workers,
    /// How many connections for calls by record may be open.
    pub connections: Connections,
    /// How many of them may come from one address; None: all.
    pub connections_per_peer: Option<Connections>,
    /// The UDP port of calls to the status monitor, program 100024; None: none come by UDP.
    pub notify_port: Option<Port>,
    pub name: OwnName,
    /// Where the hosts are stored.
    pub db: FilePath,
    /// The file of peers.
    pub peers: FilePath,
    /// Where calls by record come in.
    pub bind: IpAddr,
    /// Whether the journal is checked at the end.
    pub audit: bool,
    /// Whether peers' port mappers are asked for the ports of programs 100021 and 100024. The peers' ports are those of peers whose
    /// port mapper names none.
    pub ask_port_mapper: bool,
    /// Whether the port for calls by record is registered at the port mapper of this machine.
    pub register: bool,
    /// Whether a lock that is answered GRANTED ends the grants that were to tell of it.
    pub poll_ends_grant: bool,
    /// Whether a host that the file of peers doesn't name is called where its lock calls come from.
    pub learn: bool,
    /// Whether connections for calls come in from addresses of the file of peers and from loopback alone.
    pub known_hosts_only: bool,
    /// Whether a new state in a host's lock calls tells of its reboot.
    pub lock_state_tells_reboot: bool,
    /// For operators, on loopback alone; None: they have no port.
    pub status_port: Option<Port>,
}

/// What the program is asked to do.
#[derive(Debug, Drop)]
pub enum Config {
    /// `lockd pipe`.
    Pipe(StreamConfig),
    /// `lockd table`.
    Table(StreamConfig),
    /// `lockd serve`.
    Serve(ServeConfig),
}

/// A word that is no value of its option, and what would be one.
#[derive(Clone, Copy)]
pub(crate) struct Wrong<'a> {
    pub(crate) value: &'a str,
    pub(crate) option: &'a str,
    pub(crate) right: &'a str,
}

/// Why a setting isn't read.
#[derive(Drop)]
pub(crate) enum Unread<'a> {
    Starved,
    Wrong(Wrong<'a>),
}

impl<'a> From<AllocError> for Unread<'a> {
    ghost use Rattle.std.specs.Prelude.{◌≡◌};
    ghost use Rattle.config.specs.declared.settings.Unread.TheVariants.{Starved};

    ghost from_gives = { λ _ u. u ≡ Starved };

    fn from(_refused: AllocError) -> Unread<'a> {
        Unread::Starved
    }
}

/// The text of an option.
fn read_text<'a>(matches: &ArgMatches<'a>, option: &'a str) -> Result<&'a str, Unread<'a>>
    ensures { Reads (λ text. text.now) result (first_of option.now (rows_of (found_of matches.now))) }
{
    match matches.get_str(option) {
        Some(value) => Ok(value),
        None => Err(refuse("", option, "it is needed")),
    }
}

fn refuse<'a>(value: &'a str, option: &'a str, right: &'a str) -> Unread<'a>
    ensures { IsWrong result }
{
    Unread::Wrong(Wrong {
        value,
        option,
        right,
    })
}

fn read_port<'a>(matches: &ArgMatches<'a>, option: &'a str) -> Result<Port, Unread<'a>>
    ensures { Reads (λ port. port) result (setting port_in option.now (rows_of (found_of matches.now))) }
{
    let value = read_text(matches, option)?;
    match Port::read(value) {
        Some(port) => Ok(port),
        None => Err(refuse_port(value, option)),
    }
}

/// The refusal of a value that is no port.
fn refuse_port<'a>(value: &'a str, option: &'a str) -> Unread<'a>
    ensures { IsWrong result }
{
    refuse(value, option, "a port is 1 to 65535")
}

/// The port of an option that need not be given.
fn read_optional_port<'a>(
    matches: &ArgMatches<'a>,
    option: &'a str,
) -> Result<Option<Port>, Unread<'a>>
    ensures { Reads (λ port. port) result (optional_setting port_in option.now (rows_of (found_of matches.now))) }
{
    match matches.get_str(option) {
        Some(value) => match Port::read(value) {
            Some(port) => Ok(Some(port)),
            None => Err(refuse_port(value, option)),
        },
        None => Ok(None),
    }
}

fn read_seconds<'a>(matches: &ArgMatches<'a>, option: &'a str) -> Result<Seconds, Unread<'a>>
    ensures { Reads (λ seconds. seconds) result (setting seconds_in option.now (rows_of (found_of matches.now))) }
{
    let value = read_text(matches, option)?;
    match Seconds::read(value) {
        Some(seconds) => Ok(seconds),
        None => Err(refuse(value, option, "seconds are 1 to 86400")),
    }
}

fn read_workers<'a>(matches: &ArgMatches<'a>, option: &'a str) -> Result<Workers, Unread<'a>>
    ensures { Reads (λ workers. workers) result (setting workers_in option.now (rows_of (found_of matches.now))) }
{
    let value = read_text(matches, option)?;
    match Workers::read(value) {
        Some(workers) => Ok(workers),
        None => Err(refuse(value, option, "workers are 1 to 16")),
    }
}

/// The refusal of a value that is no number of connections.
fn refuse_connections<'a>(value: &'a str, option: &'a str) -> Unread<'a>
    ensures { IsWrong result }
{
    refuse(value, option, "connections are 1 to 4096")
}

fn read_connections<'a>(
    matches: &ArgMatches<'a>,
    option: &'a str,
) -> Result<Connections, Unread<'a>>
    ensures { Reads (λ connections. connections) result (setting connections_in option.now (rows_of (found_of matches.now))) }
{
    let value = read_text(matches, option)?;
    match Connections::read(value) {
        Some(connections) => Ok(connections),
        None => Err(refuse_connections(value, option)),
    }
}

/// The number of connections of an option that need not be given.
fn read_optional_connections<'a>(
    matches: &ArgMatches<'a>,
    option: &'a str,
) -> Result<Option<Connections>, Unread<'a>>
    ensures { Reads (λ connections. connections) result (optional_setting connections_in option.now (rows_of (found_of matches.now))) }
{
    match matches.get_str(option) {
        Some(value) => match Connections::read(value) {
            Some(connections) => Ok(Some(connections)),
            None => Err(refuse_connections(value, option)),
        },
        None => Ok(None),
    }
}

fn read_name<'a>(
    alloc: Global,
    matches: &ArgMatches<'a>,
    option: &'a str,
) -> Result<OwnName, Unread<'a>>
    ensures { Reads (λ name. name) result (setting name_in option.now (rows_of (found_of matches.now))) }
{
    let value = read_text(matches, option)?;
    if is_name(value) {
        Ok(OwnName::copy_of(alloc, value)?)
    } else {
        Err(refuse(value, option, "a name has 1 to 1024 bytes"))
    }
}

fn read_path<'a>(
    alloc: Global,
    matches: &ArgMatches<'a>,
    option: &'a str,
) -> Result<FilePath, Unread<'a>>
    ensures { Reads (λ path. path) result (first_of option.now (rows_of (found_of matches.now))) }
{
    let value = read_text(matches, option)?;
    Ok(FilePath::copy_of(alloc, value)?)
}

/// The path of an option that need not be given.
fn read_optional_path<'a>(
    alloc: Global,
    matches: &ArgMatches<'a>,
    option: &'a str,
) -> Result<Option<FilePath>, AllocError>
    ensures { IfOk result (λ path. path ≡ first_of option.now (rows_of (found_of matches.now))) }
{
    match matches.get_str(option) {
        Some(value) => Ok(Some(FilePath::copy_of(alloc, value)?)),
        None => Ok(None),
    }
}

/// Whether an option without value was given.
fn is_given(matches: &ArgMatches<'_>, option: &str) -> bool
    ensures { result ≡ flag_in option.now (rows_of (found_of matches.now)) }
{
    match matches.get_str(option) {
        Some(value) => value == "true",
        None => false,
    }
}

fn read_address<'a>(matches: &ArgMatches<'a>, option: &'a str) -> Result<IpAddr, Unread<'a>>
    ensures { ReadsAddress result option.now (rows_of (found_of matches.now)) }
{
    let value = read_text(matches, option)?;
    match value.parse::<IpAddr>() {
        Ok(address) => Ok(address),
        Err(_) => Err(refuse(value, option, "it is an IP address")),
    }
}

/// The settings of `pipe` and `table`.
#[tactic(auto, unfolding(crate::specs::Reads::stream_in))]
pub(crate) fn read_stream<'a>(
    alloc: Global,
    matches: &ArgMatches<'a>,
) -> Result<StreamConfig, Unread<'a>>
    ensures { Reads (λ config. config) result (stream_in (rows_of (found_of matches.now))) }
{
    let name = read_name(alloc, matches, "name")?;
    let db = read_optional_path(alloc, matches, "db")?;
    let grace = is_given(matches, "grace");
    Ok(StreamConfig { grace, name, db })
}

#[tactic(auto, unfolding(crate::specs::Reads::ports_in))]
fn read_ports<'a>(matches: &ArgMatches<'a>) -> Result<Ports, Unread<'a>>
    ensures { Reads (λ ports. ports) result (ports_in (rows_of (found_of matches.now))) }
{
    let rpc = read_port(matches, "port")?;
    let local = read_port(matches, "local-port")?;
    let peer_nlm = read_port(matches, "peer-nlm-port")?;
    let peer_nsm = read_port(matches, "peer-nsm-port")?;
    let watch = read_port(matches, "watch-port")?;
    Ok(Ports {
        rpc,
        local,
        peer_nlm,
        peer_nsm,
        watch,
    })
}

#[tactic(auto, unfolding(crate::specs::Reads::times_in))]
fn read_times<'a>(matches: &ArgMatches<'a>) -> Result<Times, Unread<'a>>
    ensures { Reads (λ times. times) result (times_in (rows_of (found_of matches.now))) }
{
    let grace = read_seconds(matches, "grace-seconds")?;
    let silence = read_seconds(matches, "silence-seconds")?;
    let idle = read_seconds(matches, "idle-seconds")?;
    Ok(Times {
        grace,
        silence,
        idle,
    })
}

/// The settings of `serve`.
#[tactic(auto, unfolding(crate::specs::Reads::serve_in))]
pub(crate) fn read_serve<'a>(
    alloc: Global,
    matches: &ArgMatches<'a>,
) -> Result<ServeConfig, Unread<'a>>
    ensures { ReadsServe result (rows_of (found_of matches.now)) }
{
    let bind = read_address(matches, "bind")?;
    let ports = read_ports(matches)?;
    let times = read_times(matches)?;
    let workers = read_workers(matches, "workers")?;
    let connections = read_connections(matches, "connections")?;
    let connections_per_peer = read_optional_connections(matches, "connections-per-peer")?;
    let notify_port = read_optional_port(matches, "notify-port")?;
    let status_port = read_optional_port(matches, "status-port")?;
    let name = read_name(alloc, matches, "name")?;
    let db = read_path(alloc, matches, "db")?;
    let peers = read_path(alloc, matches, "peers")?;
    let audit = is_given(matches, "audit");
    let ask_port_mapper = is_given(matches, "ask-port-mapper");
    let register = is_given(matches, "register");
    let poll_ends_grant = is_given(matches, "poll-ends-grant");
    let learn = is_given(matches, "learn");
    let known_hosts_only = is_given(matches, "known-hosts-only");
    let lock_state_tells_reboot = is_given(matches, "lock-state-tells-reboot");
    Ok(ServeConfig {
        ports,
        times,
        workers,
        connections,
        connections_per_peer,
        notify_port,
        name,
        db,
        peers,
        bind,
        audit,
        ask_port_mapper,
        register,
        poll_ends_grant,
        learn,
        known_hosts_only,
        lock_state_tells_reboot,
        status_port,
    })
}
