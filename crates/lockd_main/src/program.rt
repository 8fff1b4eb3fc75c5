//! The program: its words, and how it ends.
ghost use Rattle.std.specs.Prelude.{◌≡◌, ◌≤◌, map, string_bytes, IfOk, IfErr};
ghost use Rattle.config.specs.Asked.{Asks};
ghost use Rattle.config.specs.declared.settings.Config.{Config};
ghost use Rattle.lockd_serving.specs.Ran.{Ran, stand};
ghost use Rattle.lockd_main.specs.Ends.{EndsBy, RunsWords};

use config::{Config, ConfigFault, config};
use lockd_serving::{Console, end, serve_asked};
use log::Log;
use pipe_loops::StreamFault;
use server::Runtime;
use std::io::{BufWriter, Print, Read, Write};
use std::net::{Net, TcpListener, TcpStream};
use std::process::ExitCode;
use std::sync::Wait;
use std::thread::Threads;
use std::time::Clock;
use std::{env, io};

/// The exit status of a command line that is refused.
const REFUSED: u8 = 2;

/// The words behind the program's name.
fn arguments(rt: &HostRuntime) -> io::Result<Vec<String>> {
    let mut words = Vec::new(rt.alloc());
    for word in env::args(rt)? {
        words.push(word)?;
    }
    if !words.is_empty() {
        words.remove(0);
    }
    Ok(words)
}

/// Prints why the words ask for nothing, or the help or the version that they ask for.
fn refuse(rt: &HostRuntime, fault: &ConfigFault) -> ExitCode
    ensures status { EndsBy fault.now result.status }
    ensures most { result.status ≤ 2 }
{
    let status = fault.status();
    match fault {
        ConfigFault::Starved => end(rt, Err(StreamFault::Starved)),
        ConfigFault::Refused(text) if status == 0 => match print!(rt; "{text}") {
            Ok(()) => ExitCode::SUCCESS,
            Err(_) => end(rt, Err(StreamFault::WriteFault)),
        },
        ConfigFault::Refused(text) => {
            let _ = eprint!(rt; "{text}");
            ExitCode::from(status)
        }
    }
}

/// The command line is refused for another cause than its grammar.
fn refuse_for(rt: &HostRuntime, cause: &str) -> ExitCode
    ensures { result.status ≡ 2 }
{
    let _ = eprintln!(rt; "error: {cause}");
    ExitCode::from(REFUSED)
}

/// Does what is asked, or says why nothing is.
fn run_asked<R: Runtime, I: Read, O: Write>(
    host: &HostRuntime,
    rt: &R,
    console: &mut Console<I, O>,
    asked: &Result<Config, ConfigFault>,
) -> ExitCode
    ensures runs { IfOk asked.now (λ asked. Ran asked result.status (stand I.remaining O.contents console.old) (stand I.remaining O.contents console.new) × (result.status ≤ 1)) }
    ensures refused { IfErr asked.now (λ fault. EndsBy fault result.status × (stand I.remaining O.contents console.new ≡ stand I.remaining O.contents console.old)) }
    ensures most { result.status ≤ 2 }
{
    match asked {
        Ok(asked) => serve_asked(host, rt, console, asked),
        Err(fault) => refuse(host, fault),
    }
}

/// Does what the words ask, or says why they ask for nothing, or that there is no memory to read them.
fn run_words<R: Runtime, I: Read, O: Write>(
    host: &HostRuntime,
    rt: &R,
    console: &mut Console<I, O>,
    words: &[String],
) -> ExitCode
    ensures runs { RunsWords (Asks (map (λ w. string_bytes w) words.now)) result.status (stand I.remaining O.contents console.old) (stand I.remaining O.contents console.new) }
    ensures asked { (asked : Config) → Asks (map (λ w. string_bytes w) words.now) asked → result.status ≤ 1 }
    ensures most { result.status ≤ 2 }
{
    run_asked(host, rt, console, &config(host.alloc(), words))
}

/// The whole program, with the words that it was called with. Its status is 0 where it came to the end of its input, where it
/// was told to stop, or where the words ask for help or the version; 1 where a fault ended it, whose number and name go to
/// standard error; and 2 where the words are refused, and standard error says which word is wrong and what would be right.
/// `host` and `rt` are the same: what asks for files, and what asks for threads and sockets.
pub(crate) fn run_lockd<R>(host: &HostRuntime, rt: &R) -> ExitCode
where
    R: Net<Listener = TcpListener, Stream = TcpStream>
        + Threads
        + Wait
        + Clock
        + Print
        + Log
        + Sync,
    ensures { result.status ≤ 2 }
{
    let Ok(words) = arguments(host) else {
        return refuse_for(host, "the words can't be read");
    };
    let Ok(output) = BufWriter::new(host.alloc(), io::writer(host)) else {
        return end(host, Err(StreamFault::Starved));
    };
    let input = host.reader();
    let mut console = Console { input, output };
    run_words(host, rt, &mut console, &words)
}
