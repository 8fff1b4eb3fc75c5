//! The command line.

ghost use Rattle.std.specs.Prelude.{◌≡◌, true, Some, map, string_bytes};
ghost use Rattle.clap.specs.Words.{app_of, is_simple_and_free};
ghost use Rattle.config.specs.declared.fault.ConfigFault.TheVariants as fault_as;
ghost use Rattle.config.specs.declared.settings.Unread.TheVariants as unread_as;
ghost use Rattle.config.specs.Lockd.{pipe_app, table_app, serve_app};
ghost use Rattle.config.specs.Asked.{Answers, Asks, AsksBy, AsksStream, AsksServe, verb_in};

use crate::command::{Verb, command_of};
use crate::fault::ConfigFault;
use crate::settings::{Config, ServeConfig, StreamConfig, Unread, read_serve, read_stream};
use clap::Command;
use clap::error::ErrorKind;
use std::alloc::Global;

/// The fault with this message, and with how the command is used.
fn refused(command: &mut Command<'_>, kind: ErrorKind, message: &str) -> ConfigFault {
    match command.error(kind, message) {
        Ok(error) => ConfigFault::Refused(error),
        Err(_) => ConfigFault::Starved,
    }
}

/// The fault of a setting that isn't read.
fn refusal(alloc: Global, command: &mut Command<'_>, unread: Unread<'_>) -> ConfigFault
    ensures { unread.entry ≡ unread_as.Starved → result ≡ fault_as.Starved }
{
    let Unread::Wrong(wrong) = unread else {
        return ConfigFault::Starved;
    };
    let Ok(message) = format!(in alloc;
        "invalid value '{}' for '--{}': {}",
        wrong.value, wrong.option, wrong.right
    ) else {
        return ConfigFault::Starved;
    };
    refused(command, ErrorKind::ValueValidation, message.as_str())
}

/// What the words behind `pipe` or `table` ask.
fn stream_config<'a>(
    alloc: Global,
    command: &mut Command<'a>,
    words: &'a [String],
) -> Result<StreamConfig, ConfigFault>
    requires { is_simple_and_free (app_of command.old) ≡ true }
    ensures { Answers (AsksStream (app_of command.old) (map (λ w. string_bytes w) words.now)) result }
{
    let matches = command.try_get_matches_from_mut(words)?;
    match read_stream(alloc, &matches) {
        Ok(config) => Ok(config),
        Err(unread) => Err(refusal(alloc, command, unread)),
    }
}

/// What the words behind `serve` ask.
fn serve_config<'a>(
    alloc: Global,
    command: &mut Command<'a>,
    words: &'a [String],
) -> Result<ServeConfig, ConfigFault>
    requires { is_simple_and_free (app_of command.old) ≡ true }
    ensures { Answers (AsksServe (app_of command.old) (map (λ w. string_bytes w) words.now)) result }
{
    let matches = command.try_get_matches_from_mut(words)?;
    match read_serve(alloc, &matches) {
        Ok(config) => Ok(config),
        Err(unread) => Err(refusal(alloc, command, unread)),
    }
}

/// The fault of words that begin with no command: help, the version, or what is wrong.
fn no_command<'a>(command: &mut Command<'a>, words: &'a [String]) -> ConfigFault {
    if let Err(error) = command.try_get_matches_from_mut(words) {
        return ConfigFault::from(error);
    }
    refused(
        command,
        ErrorKind::MissingSubcommand,
        "a command comes first",
    )
}

/// What the words ask of it.
fn config_by<'a>(
    alloc: Global,
    command: &mut Command<'a>,
    verb: Option<Verb>,
    words: &'a [String],
) -> Result<Config, ConfigFault>
    requires pipe { verb ≡ Some Verb.Pipe → app_of command.old ≡ pipe_app }
    requires table { verb ≡ Some Verb.Table → app_of command.old ≡ table_app }
    requires serve { verb ≡ Some Verb.Serve → app_of command.old ≡ serve_app }
    ensures { Answers (AsksBy verb (map (λ w. string_bytes w) words.now)) result }
{
    match verb {
        Some(Verb::Pipe) => stream_config(alloc, command, words).map(Config::Pipe),
        Some(Verb::Table) => stream_config(alloc, command, words).map(Config::Table),
        Some(Verb::Serve) => serve_config(alloc, command, words).map(Config::Serve),
        None => Err(no_command(command, words)),
    }
}

/// What the words behind a command's name ask, or what is wrong with words that name none.
fn asked_by(alloc: Global, verb: Option<Verb>, words: &[String]) -> Result<Config, ConfigFault>
    ensures { Answers (AsksBy verb (map (λ w. string_bytes w) words.now)) result }
{
    let Ok(mut command) = command_of(alloc, verb) else {
        return Err(ConfigFault::Starved);
    };
    config_by(alloc, &mut command, verb, words)
}

#[tactic(auto, unfolding(crate::specs::Asked::verb_in))]
fn read_verb(word: &str) -> Option<Verb>
    ensures { result ≡ verb_in word.now }
{
    if word == "pipe" {
        Some(Verb::Pipe)
    } else if word == "table" {
        Some(Verb::Table)
    } else if word == "serve" {
        Some(Verb::Serve)
    } else {
        None
    }
}

/// What the words behind the program's name ask. Each setting is what the words give it, else its default, and lies in its
/// range: a port in 1 to 65535, seconds in 1 to 86400, workers in 1 to 16, connections in 1 to 4,096, a name of 1 to 1,024 bytes. Numbers are decimal,
/// without sign or leading zeros. By default the name is `server`, the address 0.0.0.0, the grace period 45 seconds, the wait
/// for an answer 5 and for a connection's next call 600, and there are 4 workers and 256 connections, which may all come from one address.
///
/// `Refused` exactly where the words ask nothing, as they do where they ask for help or the version; `Starved` for want of
/// memory.
pub fn config(alloc: Global, words: &[String]) -> Result<Config, ConfigFault>
    ensures { Answers (Asks (map (λ w. string_bytes w) words.now)) result }
{
    let Some((word, rest)) = words.split_first() else {
        return asked_by(alloc, None, words);
    };
    match read_verb(word.as_str()) {
        Some(verb) => asked_by(alloc, Some(verb), rest),
        None => asked_by(alloc, None, words),
    }
}
