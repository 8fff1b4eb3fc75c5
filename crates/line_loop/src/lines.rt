//! The lines of a local program are answered.
ghost use Rattle.std.specs.Prelude.{◌≡◌, ◌*◌, ◌∷◌, [], eqb, length};
ghost use Rattle.book.specs.Given.{view_of_reply};
ghost use Rattle.byte_io.specs.Reads.{TakesAtMost};
ghost use Rattle.byte_io.specs.Written.{Wrote};
ghost use Rattle.line_loop.specs.Lines.{AnswersLine, Ends, Finishes, Hears, Takes, Turns, text_of, trace};

use crate::ending::LinesEnding;
use crate::line_handler::{Answers, LineHandler};
use crate::part::PartialLine;
use crate::signals::Signals;
use book::{LocalAnswer, Reply, Starved};
use byte_io::{WriteFault, make_place, read_piece};
use hosts_db::HostStore;
use range_table::RangeTable;
use std::alloc::Global;
use std::io::{Read, Write};
use std::sync::ledger::Ledger;
use std::sync::{Mutex, Wait};
use workers::{GhostTrace, Shared};

/// The most bytes that are read at once.
pub const MOST_READ_BYTES: usize = 4_096;

/// What the lines of a local program came to.
#[derive(Drop)]
pub struct Served {
    /// How its connection ended.
    pub ending: LinesEnding,
    /// What the holds of its lines gave.
    pub ghost_trace: GhostTrace,
}

// Writes what a line is answered.
fn write_reply<O: Write>(output: &mut O, reply: &Reply) -> Result<(), WriteFault>
    ensures { Wrote (O.contents output.old) (O.contents output.new) result (text_of (view_of_reply reply.now)) }
{
    match reply {
        Reply::Line(answer) => answer.write(output),
        Reply::Record(_) | Reply::Nobody(_) => Ok(()),
    }
}

// Writes it, and hands it on.
fn tell<O: Write>(output: &mut O, reply: &Reply) -> Result<(), WriteFault>
    ensures { Wrote (O.contents output.old) (O.contents output.new) result (text_of (view_of_reply reply.now)) }
{
    write_reply(output, reply)?;
    match output.flush() {
        Ok(()) => Ok(()),
        Err(_) => Err(WriteFault),
    }
}

// How the line ends the connection, if it does.
fn finish<A: Answers>(
    line_handler: &A,
    told: Result<(), WriteFault>,
    is_stop: bool,
    reply: Reply,
) -> Option<LinesEnding>
    ensures { Finishes told result }
{
    if told.is_err() {
        return Some(LinesEnding::WriteFault);
    }
    if is_stop && matches!(reply, Reply::Line(LocalAnswer::Done)) {
        line_handler.stop();
        return Some(LinesEnding::Stopped);
    }
    None
}

// Answers a line. How that ends the connection, if it does.
fn answer_line<A: Answers, O: Write>(
    line_handler: &mut A,
    connection: u64,
    output: &mut O,
    line: Vec<u8>,
) -> Option<LinesEnding>
    ensures { AnswersLine result connection line.items (trace (O.contents output.old) (A.told line_handler.old)) (trace (O.contents output.new) (A.told line_handler.new)) }
{
    let is_stop = line.as_slice() == b"stop".as_slice();
    let reply = line_handler.ask(connection, line);
    let told = tell(output, &reply);
    finish(line_handler, told, is_stop, reply)
}

fn is_feed(byte: u8) -> bool
    ensures { result ≡ eqb byte 10 }
{
    byte == b'\n'
}

// There is no memory to hand the line on: it is answered `starved`, without an entry, and the connection goes on.
fn starve_line<A: Answers, O: Write>(
    line_handler: &A,
    connection: u64,
    part: &mut PartialLine,
    output: &mut O,
) -> Option<LinesEnding>
    ensures { Takes result connection part.old (10 ∷ []) part.new (trace (O.contents output.old) (A.told line_handler.now)) (trace (O.contents output.new) (A.told line_handler.now)) }
{
    let reply = part.starve(connection);
    let told = tell(output, &reply);
    finish(line_handler, told, false, reply)
}

// The line is whole, and is answered.
fn end_line<A: Answers, O: Write>(
    line_handler: &mut A,
    connection: u64,
    part: &mut PartialLine,
    output: &mut O,
) -> Option<LinesEnding>
    ensures { Takes result connection part.old (10 ∷ []) part.new (trace (O.contents output.old) (A.told line_handler.old)) (trace (O.contents output.new) (A.told line_handler.new)) }
{
    match part.end() {
        Ok(line) => answer_line(line_handler, connection, output, line),
        Err(Starved) => starve_line(line_handler, connection, part, output),
    }
}

// One byte more: the end of a line answers it.
#[tactic(auto, using(crate::proofs::LineLemmas::byte_ended))]
fn take_byte<A: Answers, O: Write>(
    line_handler: &mut A,
    connection: u64,
    part: &mut PartialLine,
    output: &mut O,
    byte: u8,
) -> Option<LinesEnding>
    ensures { Takes result connection part.old (byte ∷ []) part.new (trace (O.contents output.old) (A.told line_handler.old)) (trace (O.contents output.new) (A.told line_handler.new)) }
{
    let is_end = is_feed(byte);
    if is_end {
        return end_line(line_handler, connection, part, output);
    }
    part.add(byte);
    None
}

// Bytes more: each line that ends among them is answered.
fn take_piece<A: Answers, O: Write>(
    line_handler: &mut A,
    connection: u64,
    part: &mut PartialLine,
    output: &mut O,
    piece: &[u8],
) -> Option<LinesEnding>
    ensures { Takes result connection part.old piece.now part.new (trace (O.contents output.old) (A.told line_handler.old)) (trace (O.contents output.new) (A.told line_handler.new)) }
{
    part.has_no_feed();
    for byte in piece {
        match take_byte(line_handler, connection, part, output, *byte) {
            Some(ending) => return Some(ending),
            None => {}
        }
    }
    None
}

// What was read is answered. None was the stream's end.
fn hear<A: Answers, O: Write>(
    line_handler: &mut A,
    connection: u64,
    part: &mut PartialLine,
    output: &mut O,
    piece: &[u8],
) -> Option<LinesEnding>
    ensures { Hears result connection part.old piece.now part.new (trace (O.contents output.old) (A.told line_handler.old)) (trace (O.contents output.new) (A.told line_handler.new)) }
{
    part.has_no_feed();
    if piece.is_empty() {
        return Some(LinesEnding::Over);
    }
    if line_handler.is_stopping() {
        return Some(LinesEnding::Stopped);
    }
    take_piece(line_handler, connection, part, output, piece)
}

// Reads once, into this place, and answers what came.
fn turn<A: Answers, I: Read, O: Write>(
    line_handler: &mut A,
    connection: u64,
    part: &mut PartialLine,
    place: &mut [u8],
    input: &mut I,
    output: &mut O,
) -> Option<LinesEnding>
    requires { length place.old ≡ MOST_READ_BYTES }
    ensures turns { Turns result connection part.old part.new (I.remaining input.old) (I.remaining input.new) (trace (O.contents output.old) (A.told line_handler.old)) (trace (O.contents output.new) (A.told line_handler.new)) }
    ensures few { TakesAtMost MOST_READ_BYTES (I.remaining input.old) (I.remaining input.new) }
{
    part.has_no_feed();
    match read_piece(input, place) {
        Ok(count) => hear(line_handler, connection, part, output, &place[..count]),
        Err(failed) if failed.is_interrupted => None,
        Err(_) => Some(LinesEnding::ReadFault),
    }
}

// Answers the lines of a stream, from its start, in so many reads at most.
fn serve<A: Answers, I: Read, O: Write>(
    alloc: Global,
    line_handler: &mut A,
    connection: u64,
    input: &mut I,
    output: &mut O,
    bound: u64,
) -> LinesEnding
    ensures ends { Ends result connection (I.remaining input.old) (I.remaining input.new) (trace (O.contents output.old) (A.told line_handler.old)) (trace (O.contents output.new) (A.told line_handler.new)) }
    ensures few { TakesAtMost (MOST_READ_BYTES * bound) (I.remaining input.old) (I.remaining input.new) }
{
    // All memory that the connection needs is got before the first read, so that no line is lost for want of it.
    let Ok(mut part) = PartialLine::new(alloc) else {
        return LinesEnding::Starved;
    };
    let Ok(mut bytes) = make_place(alloc, MOST_READ_BYTES) else {
        return LinesEnding::Starved;
    };
    let place = bytes.as_mut_slice();
    for _read in 0..bound {
        match turn(line_handler, connection, &mut part, place, input, output) {
            Some(ending) => return ending,
            None => {}
        }
    }
    LinesEnding::ReadFault
}

/// Answers the lines of a local program on the connection of this number, each in a hold of its own, in order, and writes what
/// each is answered, whole, and nothing else. The trace has the lines' entries: one for each that had room, and no others.
///
/// It ends with the stream, where the server stops, where there is no memory for the buffer of its lines, where a read or a
/// write fails, and after a fixed number of reads, each of `MOST_READ_BYTES` at most, which counts as a read that failed. A line
/// past 512 bytes is answered `bad`, and its first 513 bytes stand in the journal. What the connection's lines locked stays.
pub fn serve_lines<R, S, L, G, I, O, W>(
    alloc: Global,
    rt: &W,
    shared: &Mutex<Shared<R, S, L>>,
    signals: &G,
    connection: u64,
    input: &mut I,
    output: &mut O,
    bound: u64,
) -> Served
where
    R: RangeTable + Drop,
    S: HostStore + Drop,
    L: Ledger,
    G: Signals,
    I: Read,
    O: Write,
    W: Wait,
    ensures ends { Ends result.ending connection (I.remaining input.old) (I.remaining input.new) (trace (O.contents output.old) []) (trace (O.contents output.new) result.ghost_trace) }
    ensures few { TakesAtMost (MOST_READ_BYTES * bound) (I.remaining input.old) (I.remaining input.new) }
{
    let mut line_handler = LineHandler::new(rt, shared, signals);
    let ending = serve(alloc, &mut line_handler, connection, input, output, bound);
    Served {
        ending,
        ghost_trace: line_handler.into_ghost_trace(),
    }
}
