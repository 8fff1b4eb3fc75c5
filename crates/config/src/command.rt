//! The command lines, as `clap` knows them.

ghost use Rattle.std.specs.Prelude.{◌≡◌, false, map, IfOk, Some};
ghost use Rattle.clap.specs.Words.{app_of, rule_of};
ghost use Rattle.config.specs.Lockd.{bare_app, pipe_app, serve_app, table_app, view_of_choice, with_rules};

use clap::{Arg, ArgAction, Command};
use program_version::VERSION;
use std::alloc::{AllocError, Global};

/// What the program is.
const LOCKD_ABOUT: &str = "The lock manager and status monitor of an NFS server";

/// What `pipe` does.
const PIPE_ABOUT: &str = "Serve one record-marked stream on standard input";

/// What `table` does.
const TABLE_ABOUT: &str = "Serve the same, and print nothing but the locks at its end";

/// What `serve` does.
const SERVE_ABOUT: &str = "Serve over TCP";

/// The commands, as the help names them.
const COMMANDS: &[(&str, &str)] = &[
    ("pipe", PIPE_ABOUT),
    ("table", TABLE_ABOUT),
    ("serve", SERVE_ABOUT),
];

/// The command that the first word names.
#[derive(Clone, Copy)]
pub(crate) enum Verb {
    Pipe,
    Table,
    Serve,
}

/// What stands behind an option, by what the help calls it.
#[derive(Clone, Copy)]
enum OptionValue<'a> {
    Nothing,
    /// A value, if the option is given.
    Value(&'a str),
    /// A value, and the option has to be given.
    Needed(&'a str),
    /// A value, which is the second text where the option isn't given.
    Default(&'a str, &'a str),
}

/// An option of a command.
#[derive(Clone, Copy)]
struct Choice<'a> {
    name: &'a str,
    takes: OptionValue<'a>,
    help: &'a str,
}

/// What `pipe` and `table` take.
const STREAM_CHOICES: &[Choice<'static>] = &[
    Choice {
        name: "grace",
        takes: OptionValue::Nothing,
        help: "Begin in the grace period, and stay in it",
    },
    Choice {
        name: "name",
        takes: OptionValue::Default("NAME", "server"),
        help: "The server's own name, 1 to 1,024 bytes",
    },
    Choice {
        name: "db",
        takes: OptionValue::Value("FILE"),
        help: "The file of stored hosts; without it they are in memory",
    },
];

/// What `serve` takes.
const SERVE_CHOICES: &[Choice<'static>] = &[
    Choice {
        name: "port",
        takes: OptionValue::Needed("N"),
        help: "The port for calls by record",
    },
    Choice {
        name: "local-port",
        takes: OptionValue::Needed("N"),
        help: "The port for local programs, on loopback alone",
    },
    Choice {
        name: "peer-nlm-port",
        takes: OptionValue::Needed("N"),
        help: "The peers' port for program 100021",
    },
    Choice {
        name: "peer-nsm-port",
        takes: OptionValue::Needed("N"),
        help: "The peers' port for program 100024",
    },
    Choice {
        name: "watch-port",
        takes: OptionValue::Needed("N"),
        help: "The peers' port for other programs",
    },
    Choice {
        name: "db",
        takes: OptionValue::Needed("FILE"),
        help: "The file of stored hosts",
    },
    Choice {
        name: "peers",
        takes: OptionValue::Needed("FILE"),
        help: "The file of peers: lines of a name, a space and an IP address",
    },
    Choice {
        name: "name",
        takes: OptionValue::Default("NAME", "server"),
        help: "The server's own name, 1 to 1,024 bytes",
    },
    Choice {
        name: "bind",
        takes: OptionValue::Default("ADDRESS", "0.0.0.0"),
        help: "The IP address at which calls by record come in",
    },
    Choice {
        name: "grace-seconds",
        takes: OptionValue::Default("N", "45"),
        help: "How long clients may reclaim after a start, 1 to 86400",
    },
    Choice {
        name: "silence-seconds",
        takes: OptionValue::Default("N", "5"),
        help: "How long an answer is waited for, 1 to 86400",
    },
    Choice {
        name: "idle-seconds",
        takes: OptionValue::Default("N", "600"),
        help: "How long a connection may be silent, 1 to 86400",
    },
    Choice {
        name: "workers",
        takes: OptionValue::Default("N", "4"),
        help: "How many workers serve, 1 to 16",
    },
    Choice {
        name: "connections",
        takes: OptionValue::Default("N", "256"),
        help: "How many connections for calls may be open, 1 to 4096",
    },
    Choice {
        name: "connections-per-peer",
        takes: OptionValue::Value("N"),
        help: "How many of them may come from one address, 1 to 4096; without it all",
    },
    Choice {
        name: "notify-port",
        takes: OptionValue::Value("N"),
        help: "The UDP port for calls of program 100024; without it none come by UDP",
    },
    Choice {
        name: "audit",
        takes: OptionValue::Nothing,
        help: "Check the journal at the end",
    },
    Choice {
        name: "ask-port-mapper",
        takes: OptionValue::Nothing,
        help: "Ask the peers' port mappers for the ports of 100021 and 100024",
    },
    Choice {
        name: "register",
        takes: OptionValue::Nothing,
        help: "Register the port at the port mapper of this machine",
    },
    Choice {
        name: "poll-ends-grant",
        takes: OptionValue::Nothing,
        help: "A lock call that is answered GRANTED ends the GRANTED calls of its lock",
    },
    Choice {
        name: "learn",
        takes: OptionValue::Nothing,
        help: "A host that no line of the file of peers names is where its lock calls come from",
    },
    Choice {
        name: "known-hosts-only",
        takes: OptionValue::Nothing,
        help: "Close each connection for calls from an address that no line of the file of peers has",
    },
    Choice {
        name: "lock-state-tells-reboot",
        takes: OptionValue::Nothing,
        help: "A new state in a host's lock calls tells of its reboot, as a notice does",
    },
    Choice {
        name: "status-port",
        takes: OptionValue::Value("N"),
        help: "The port for operators, who read pages, on loopback alone; without it there is none",
    },
];

fn arg_of<'a>(alloc: Global, choice: Choice<'a>) -> Arg<'a>
    ensures rule { rule_of result ≡ view_of_choice choice.entry }
    ensures local { result.global ≡ false }
{
    let arg = Arg::new(alloc, choice.name)
        .long(choice.name)
        .help(choice.help);
    match choice.takes {
        OptionValue::Nothing => arg.action(ArgAction::SetTrue),
        OptionValue::Value(shown) => arg.value_name(shown).action(ArgAction::Set),
        OptionValue::Needed(shown) => arg.value_name(shown).action(ArgAction::Set).required(true),
        OptionValue::Default(shown, default) => arg
            .value_name(shown)
            .action(ArgAction::Set)
            .default_value(default),
    }
}

fn bare<'a>(alloc: Global, name: &'a str, about: &'a str) -> Command<'a>
    ensures { app_of result ≡ bare_app name.entry.now }
{
    Command::new(alloc, name).about(about).no_binary_name(true)
}

/// The command with these options.
fn command_with<'a>(
    alloc: Global,
    name: &'a str,
    about: &'a str,
    choices: &[Choice<'a>],
) -> Result<Command<'a>, AllocError>
    ensures { IfOk result (λ r. app_of r ≡ with_rules (bare_app name.entry.now) (map view_of_choice choices.now)) }
{
    let mut command = bare(alloc, name, about);
    for choice in choices {
        command = command.arg(arg_of(alloc, *choice))?;
    }
    Ok(command)
}

/// `lockd` alone, which answers help, the version, and words that begin with no command.
fn lockd_command<'a>(alloc: Global) -> Result<Command<'a>, AllocError> {
    let mut command = bare(alloc, "lockd", LOCKD_ABOUT)
        .version(VERSION)
        .subcommand_required(true)
        .disable_help_subcommand(true);
    for (name, about) in COMMANDS {
        command = command.subcommand(bare(alloc, name, about))?;
    }
    Ok(command)
}

/// The command line of a command, or of `lockd` where none is named.
pub(crate) fn command_of<'a>(alloc: Global, verb: Option<Verb>) -> Result<Command<'a>, AllocError>
    ensures pipe { verb ≡ Some Verb.Pipe → IfOk result (λ r. app_of r ≡ pipe_app) }
    ensures table { verb ≡ Some Verb.Table → IfOk result (λ r. app_of r ≡ table_app) }
    ensures serve { verb ≡ Some Verb.Serve → IfOk result (λ r. app_of r ≡ serve_app) }
{
    match verb {
        Some(Verb::Pipe) => command_with(alloc, "lockd pipe", PIPE_ABOUT, STREAM_CHOICES),
        Some(Verb::Table) => command_with(alloc, "lockd table", TABLE_ABOUT, STREAM_CHOICES),
        Some(Verb::Serve) => command_with(alloc, "lockd serve", SERVE_ABOUT, SERVE_CHOICES),
        None => lockd_command(alloc),
    }
}
