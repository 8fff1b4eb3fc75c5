//! A client that measures a server over loopback, and the floor that it is measured against:
//!
//! - `benchmarks null PORT CONNECTIONS DEPTH CALLS` makes so many NULL calls on each of so many connections, DEPTH of them at once,
//!   and prints how long they took; `benchmarks test` makes TESTs, and `benchmarks lock` a LOCK and an UNLOCK by turns, of a byte of
//!   each connection's own; then how long a call was waited for at most;
//! - `benchmarks mute PORT CONNECTIONS` has so many connections make calls and read no reply, and begins anew once all are cut off,
//!   until it is killed: what is measured beside it shows whether such a client holds up others;
//! - `benchmarks floor PORT` answers each record with one fixed reply, a thread for each connection, until it is killed.
#![tactic(auto)]

mod asking;
mod calls;
mod floor;
mod mute;

use anyhow::{Result, bail};
use asking::{Plan, ask_all};
use calls::Cell;
use std::alloc::{AllocError, Global};
use std::env;
use std::io::Print;
use std::net::{Net, TcpListener, TcpStream};
use std::sync::Wait;
use std::sync::atomic::Ordering;
use std::thread::Threads;
use std::time::{Clock, Instant};

fn measure<R>(rt: &R, alloc: Global, words: &[&str]) -> Result<()>
where
    R: Net<Stream = TcpStream> + Threads + Wait + Clock + Print + Sync,
{
    let plan = plan(words)?;
    let begun = Instant::now(rt)?;
    let totals = ask_all(rt, alloc, &plan)?;
    let micros = begun.elapsed(rt)?.as_micros();
    let answered = totals.answered.load(Ordering::SeqCst);
    let longest = totals.longest.load(Ordering::SeqCst);
    println!(rt; "{answered} answered in {micros} us, the longest wait {longest} us")?;
    Ok(())
}

fn plan(words: &[&str]) -> Result<Plan> {
    let [what, port, connections, depth, calls] = words else {
        bail!("nothing is measured by {} words", words.len());
    };
    let Some(cell) = Cell::named(what) else {
        bail!("no cell is named {what}");
    };
    let port = port.parse()?;
    let connections = connections.parse()?;
    let depth = depth.parse()?;
    let calls = calls.parse()?;
    Ok(Plan {
        cell,
        port,
        connections,
        depth,
        calls,
    })
}

fn serve_floor<R>(rt: &R, alloc: Global, port: &str) -> Result<()>
where
    R: Net<Listener = TcpListener, Stream = TcpStream> + Threads + Wait + Sync,
{
    let port = port.parse()?;
    Ok(floor::serve(rt, alloc, port)?)
}

fn ask_mute<R>(rt: &R, alloc: Global, port: &str, connections: &str) -> Result<()>
where
    R: Net<Stream = TcpStream> + Threads + Wait + Sync,
{
    let port = port.parse()?;
    let connections = connections.parse()?;
    Ok(mute::ask(rt, alloc, port, connections)?)
}

fn run<R>(rt: &R, alloc: Global, words: &[&str]) -> Result<()>
where
    R: Net<Listener = TcpListener, Stream = TcpStream> + Threads + Wait + Clock + Print + Sync,
{
    match words {
        ["floor", port] => serve_floor(rt, alloc, port),
        ["mute", port, connections] => ask_mute(rt, alloc, port, connections),
        all => measure(rt, alloc, all),
    }
}

fn words_of(alloc: Global, arguments: &[String]) -> Result<Vec<&str>, AllocError> {
    let mut words = Vec::new(alloc);
    for word in arguments {
        words.push(word.as_str())?;
    }
    Ok(words)
}

fn main(rt: HostRuntime) -> Result<()> {
    let alloc = rt.alloc();
    let mut arguments = Vec::new(alloc);
    for word in env::args(&rt)?.skip(1) {
        arguments.push(word)?;
    }
    let words = words_of(alloc, arguments.as_slice())?;
    run(&rt, alloc, words.as_slice())
}
