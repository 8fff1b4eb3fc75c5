//! A stream is served.
ghost use Rattle.std.specs.Prelude.{◌≡◌, [], IfOk};
ghost use Rattle.lockd_serving.specs.Ran.{Served, LoopEnds, stand};
ghost use Rattle.daemon_core.specs.DaemonState.{opening};
ghost use Rattle.pipe_loops.specs.Pipe.{beginning};

use byte_io::MOST_READS;
use callbacks::ShortBytes;
use config::{OwnName, StreamConfig};
use hosts_db::HostStore;
use pipe_loops::{Server, StreamFault, pipe_loop, table_loop};
use range_arena::ArenaTable;
use range_table::RangeTable;
use std::alloc::Global;
use std::io::{Read, Write};

/// What is written of the stream.
#[derive(Clone, Copy)]
pub(crate) enum Output {
    /// What each record is answered, and the calls of the server's own.
    Replies,
    /// The table of locks at its end.
    Table,
}

/// Where a stream comes from, and where what is answered goes.
#[derive(Drop)]
pub struct Console<I, O> {
    pub input: I,
    pub output: O,
}

/// A copy of the server's own name.
pub(crate) fn own_name(alloc: Global, name: &OwnName) -> Result<ShortBytes, StreamFault>
    ensures { IfOk result (λ copy. copy ≡ name.now) }
{
    match ShortBytes::copy_of(alloc, name.as_str().as_bytes()) {
        Ok(copy) => Ok(copy),
        Err(_) => Err(StreamFault::Starved),
    }
}

// Serves the stream by the loop of this output.
fn run_loop<T, S, I, O>(
    alloc: Global,
    console: &mut Console<I, O>,
    output: Output,
    server: Server<T, S>,
) -> Result<(), StreamFault>
where
    T: RangeTable + Drop,
    S: HostStore + Drop,
    I: Read,
    O: Write,
    requires { T.settings server.table ≡ [] }
    ensures { LoopEnds output (beginning server.is_grace) (opening server.own_name (S.rows server.store) (S.refusals server.store)) MOST_READS result (stand I.remaining O.contents console.old) (stand I.remaining O.contents console.new) }
{
    let input = &mut console.input;
    let writer = &mut console.output;
    match output {
        Output::Replies => pipe_loop(alloc, server, input, writer, MOST_READS),
        Output::Table => table_loop(alloc, server, input, writer, MOST_READS),
    }
}

/// Serves the stream over the store, in at most so many reads as the program does.
#[tactic(auto, using(crate::proofs::Unbegun::starved))]
pub(crate) fn serve_stream<S, I, O>(
    alloc: Global,
    console: &mut Console<I, O>,
    output: Output,
    asked: &StreamConfig,
    store: S,
) -> Result<(), StreamFault>
where
    S: HostStore + Drop,
    I: Read,
    O: Write,
    ensures { Served output asked.now (S.rows store) (S.refusals store) result (stand I.remaining O.contents console.old) (stand I.remaining O.contents console.new) }
{
    let Ok(own_name) = own_name(alloc, &asked.name) else {
        return Err(StreamFault::Starved);
    };
    let Ok(table) = ArenaTable::new(alloc) else {
        return Err(StreamFault::Starved);
    };
    let server = Server {
        table,
        store,
        own_name,
        is_grace: asked.grace,
    };
    run_loop(alloc, console, output, server)
}
