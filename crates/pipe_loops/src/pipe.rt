//! One stream of records from a reader, and to a writer what it is answered and what is due behind each answer.

ghost use Rattle.std.specs.Prelude.{◌≡◌, ◌≤◌, [], ◌∷◌, length};
ghost use Rattle.kept_replies.specs.declared.key.TheConstants.Peer.{PIPE};
ghost use Rattle.daemon_core.specs.DaemonState.{opening};
ghost use Rattle.pipe_loops.specs.Answered.{SendsNext, SendsDue, AnswersNext};
ghost use Rattle.daemon_core.specs.declared.event.Event.TheVariants.{Connect};
ghost use Rattle.pipe_loops.specs.Pipe.{beginning, AnswersWaiting, TurnEnds, IsServed, Passes, Begins, StreamEnds, PipeEnds};

use crate::fault::StreamFault;
use crate::output::{Places, write_outputs};
use crate::server::Server;
use byte_io::{make_place, read_piece};
use daemon_core::{Daemon, Event, Peer, Posted, SendBuffer};
use hosts_db::HostStore;
use range_table::RangeTable;
use std::alloc::Global;
use std::io::{Read, Write};

/// The number of the only connection.
const CONNECTION: u64 = 0;

/// The most bytes that are read at once.
const PIECE: usize = 8192;

/// Sends the call of the server's own that is due first. Whether there was one.
fn send_next<T: RangeTable, S: HostStore, W: Write>(
    daemon: &mut Daemon<T, S>,
    send_buffer: &mut SendBuffer,
    writer: &mut W,
) -> Result<bool, StreamFault>
    ensures { SendsNext result daemon.old daemon.new (W.contents writer.old) (W.contents writer.new) }
{
    match daemon.send(send_buffer) {
        Posted::Nothing => Ok(false),
        Posted::NoSegment => Err(StreamFault::Starved),
        Posted::Sent => {
            send_buffer.write(writer)?;
            Ok(true)
        }
    }
}

/// Sends every call of the server's own that is due, in order.
fn send_due<T: RangeTable, S: HostStore, W: Write>(
    daemon: &mut Daemon<T, S>,
    send_buffer: &mut SendBuffer,
    writer: &mut W,
) -> Result<(), StreamFault>
    ensures { SendsDue result daemon.old daemon.new (W.contents writer.old) (W.contents writer.new) }
{
    while send_next(daemon, send_buffer, writer)? {}
    Ok(())
}

/// Answers the oldest whole record, and sends every call that is due then.
fn answer_next<T: RangeTable, S: HostStore, W: Write>(
    daemon: &mut Daemon<T, S>,
    places: &mut Places,
    writer: &mut W,
) -> Result<(), StreamFault>
    ensures { AnswersNext result daemon.old daemon.new (W.contents writer.old) (W.contents writer.new) }
{
    let outputs = daemon.step(Event::Take {
        connection: CONNECTION,
        index: 0,
    });
    write_outputs(&mut places.reply, writer, &outputs)?;
    drop(outputs);
    send_due(daemon, &mut places.call, writer)
}

/// Answers each record that is whole, in order, with the calls that are due behind it.
fn answer_waiting<T: RangeTable, S: HostStore, W: Write>(
    daemon: &mut Daemon<T, S>,
    places: &mut Places,
    writer: &mut W,
) -> Result<(), StreamFault>
    ensures { AnswersWaiting result daemon.old daemon.new (W.contents writer.old) (W.contents writer.new) }
{
    for _answered in 0..daemon.waiting(CONNECTION) {
        answer_next(daemon, places, writer)?;
    }
    Ok(())
}

/// Hands in a piece and answers the records that are whole then. A fault of the stream is told after
/// the answers to the records before it.
fn turn<T: RangeTable, S: HostStore, W: Write>(
    daemon: &mut Daemon<T, S>,
    places: &mut Places,
    writer: &mut W,
    piece: &[u8],
) -> Result<(), StreamFault>
    requires { length piece.now ≤ PIECE }
    ensures { TurnEnds result daemon.old daemon.new piece.now (W.contents writer.old) (W.contents writer.new) }
{
    let heard = daemon.receive(CONNECTION, piece);
    let refused = heard.refusal;
    drop(heard);
    let answered = answer_waiting(daemon, places, writer);
    // What was sent before a fault goes out, too.
    let flushed = writer.flush();
    answered?;
    if flushed.is_err() {
        return Err(StreamFault::WriteFault);
    }
    match refused {
        None => Ok(()),
        Some(refusal) => Err(StreamFault::from(refusal)),
    }
}

/// Reads to the end, and answers each piece as it comes. A read that was interrupted counts, and is tried again.
fn answer_pieces<T: RangeTable, S: HostStore, R: Read, W: Write>(
    alloc: Global,
    daemon: &mut Daemon<T, S>,
    reader: &mut R,
    writer: &mut W,
    bound: u64,
) -> Result<(), StreamFault>
    ensures { IsServed bound result (R.remaining reader.old) (R.remaining reader.new) (W.contents writer.old) (W.contents writer.new) daemon.old daemon.new }
{
    // The place is got first, so that no byte is lost.
    let Ok(mut place) = make_place(alloc, PIECE) else {
        return Err(StreamFault::Starved);
    };
    let mut places = Places::new();
    for _turn in 0..bound {
        let piece = place.as_mut_slice();
        match read_piece(reader, piece) {
            Ok(0) => return Ok(()),
            Ok(count) => turn(daemon, &mut places, writer, &piece[..count])?,
            Err(failed) if failed.is_interrupted => {}
            Err(failed) => return Err(StreamFault::from(failed)),
        }
    }
    Err(StreamFault::ReadFault)
}

/// Does an event that nobody asked for. It ends the program where it is refused.
fn pass<T: RangeTable, S: HostStore>(
    daemon: &mut Daemon<T, S>,
    event: Event,
) -> Result<(), StreamFault>
    ensures { Passes result event daemon.old daemon.new }
{
    match daemon.step(event).refusal {
        None => Ok(()),
        Some(refusal) => Err(StreamFault::from(refusal)),
    }
}

/// The stream's connection begins.
fn connect<T: RangeTable, S: HostStore>(daemon: &mut Daemon<T, S>) -> Result<(), StreamFault>
    ensures { Begins (Connect 0 PIPE ∷ []) result daemon.old daemon.new }
{
    pass(
        daemon,
        Event::Connect {
            connection: CONNECTION,
            peer: Peer::PIPE,
        },
    )
}

/// The server begins anew, its grace period is over, unless it is to go on, and the stream's connection begins.
fn begin<T: RangeTable, S: HostStore>(
    daemon: &mut Daemon<T, S>,
    is_grace: bool,
) -> Result<(), StreamFault>
    ensures { Begins (beginning is_grace) result daemon.old daemon.new }
{
    pass(daemon, Event::Restart)?;
    if is_grace {
        return connect(daemon);
    }
    pass(daemon, Event::GraceOver)?;
    connect(daemon)
}

/// Begins, reads a stream to its end, and writes what each whole record is answered, and the calls that are due behind it,
/// in order, and nothing else.
pub(crate) fn answer_stream<T: RangeTable, S: HostStore, R: Read, W: Write>(
    alloc: Global,
    daemon: &mut Daemon<T, S>,
    is_grace: bool,
    reader: &mut R,
    writer: &mut W,
    bound: u64,
) -> Result<(), StreamFault>
    ensures { StreamEnds (beginning is_grace) daemon.old bound result (R.remaining reader.old) (R.remaining reader.new) (W.contents writer.old) (W.contents writer.new) daemon.new }
{
    begin(daemon, is_grace)?;
    answer_pieces(alloc, daemon, reader, writer, bound)
}

/// The server begins anew, reads a stream to its end, and writes what each whole record is answered, and the calls of the
/// server's own that are due behind it, in order, and nothing else. Its table has no runs. An end inside a record is no
/// fault. A read that was interrupted is tried again. After `bound` reads that were not the end, those among them, it gives up
/// with `ReadFault`, as it does at once where a read fails otherwise.
pub fn pipe_loop<T: RangeTable + Drop, S: HostStore + Drop, R: Read, W: Write>(
    alloc: Global,
    server: Server<T, S>,
    reader: &mut R,
    writer: &mut W,
    bound: u64,
) -> Result<(), StreamFault>
    requires { T.settings server.table ≡ [] }
    ensures { PipeEnds (beginning server.is_grace) (opening server.own_name (S.rows server.store) (S.refusals server.store)) bound result (R.remaining reader.old) (R.remaining reader.new) (W.contents writer.old) (W.contents writer.new) }
{
    let is_grace = server.is_grace;
    let mut daemon = server.into_daemon(alloc)?;
    let ended = answer_stream(alloc, &mut daemon, is_grace, reader, writer, bound);
    drop(daemon);
    ended
}
