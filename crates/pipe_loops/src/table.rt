//! The table of locks that one stream leaves.

ghost use Rattle.std.specs.Prelude.{◌≡◌, []};
ghost use Rattle.daemon_core.specs.DaemonState.{opening};
ghost use Rattle.pipe_loops.specs.Pipe.{beginning};
ghost use Rattle.pipe_loops.specs.Table.{table_of, TableEnds};
ghost use Rattle.byte_io.specs.Written.{Wrote};

use crate::fault::StreamFault;
use crate::pipe::answer_stream;
use crate::server::Server;
use byte_io::WriteFault;
use daemon_core::Daemon;
use hosts_db::HostStore;
use range_table::RangeTable;
use std::alloc::Global;
use std::io::{self, Read, Write};
use table_text::print_table;

/// Prints all locks, and hands them on.
fn print_locks<T: RangeTable, S: HostStore, W: Write>(
    daemon: &Daemon<T, S>,
    writer: &mut W,
) -> Result<(), WriteFault>
    ensures { Wrote (W.contents writer.old) (W.contents writer.new) result (table_of daemon.now) }
{
    print_table(daemon.locks(), writer)?;
    match writer.flush() {
        Ok(()) => Ok(()),
        Err(_) => Err(WriteFault),
    }
}

/// Begins, reads a stream to its end, and prints all locks then. What is sent before goes nowhere.
fn print_stream<T: RangeTable, S: HostStore, R: Read, W: Write>(
    alloc: Global,
    daemon: &mut Daemon<T, S>,
    is_grace: bool,
    reader: &mut R,
    writer: &mut W,
    bound: u64,
) -> Result<(), StreamFault>
    ensures { TableEnds (beginning is_grace) daemon.old bound result (R.remaining reader.old) (R.remaining reader.new) (W.contents writer.old) (W.contents writer.new) }
{
    let mut nowhere = io::sink();
    answer_stream(alloc, daemon, is_grace, reader, &mut nowhere, bound)?;
    print_locks(daemon, writer)?;
    Ok(())
}

/// The server begins anew, reads a stream to its end and serves it as `pipe_loop` does, but what it would send goes nowhere.
/// Then it prints all locks, and nothing else. Where the stream ends with a fault nothing is printed.
pub fn table_loop<T: RangeTable + Drop, S: HostStore + Drop, R: Read, W: Write>(
    alloc: Global,
    server: Server<T, S>,
    reader: &mut R,
    writer: &mut W,
    bound: u64,
) -> Result<(), StreamFault>
    requires { T.settings server.table ≡ [] }
    ensures { TableEnds (beginning server.is_grace) (opening server.own_name (S.rows server.store) (S.refusals server.store)) bound result (R.remaining reader.old) (R.remaining reader.new) (W.contents writer.old) (W.contents writer.new) }
{
    let is_grace = server.is_grace;
    let mut daemon = server.into_daemon(alloc)?;
    let ended = print_stream(alloc, &mut daemon, is_grace, reader, writer, bound);
    drop(daemon);
    ended
}
