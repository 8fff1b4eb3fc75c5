//! Requests are read and answered.
ghost use Rattle.std.specs.Prelude.{◌≡◌, ◌≤◌, length, drop, [], IfOk};
ghost use Rattle.page_loop.specs.Talks.{Hears, Refuses, Replies, Stops, Turns, trace};

use crate::answer::Answer;
use crate::ending::PagesEnding;
use crate::pages::Pages;
use byte_io::{make_place, read_piece};
use status_pages::{Asked, MOST_HEAD_BYTES, Reading, Refusal, Starved, read_request};
use std::alloc::Global;
use std::io::{Read, Write};
use std::marker::Model;

/// The most bytes that are read at once.
const MOST_READ_BYTES: usize = 4_096;

/// What came and is not answered yet, and where a read puts its bytes. Contracts see what came.
#[derive(Drop)]
struct Received {
    bytes: Vec<u8>,
    place: Vec<u8>,
}

impl Model for Received {
    ghost use Rattle.std.specs.Prelude.{◌≡◌, ℕ, List, vec_len};

    ghost Value = { List ℕ };

    ghost view = { λ r. r.bytes.items };

    ghost invariant = { λ r. vec_len r.place ≡ 4096 };
}

impl Received {
    // Nothing. It has all memory that a connection needs beside that of its answers.
    fn new(alloc: Global) -> Result<Received, Starved>
        ensures { IfOk result (λ r. r ≡ []) }
    {
        Ok(Received {
            bytes: Vec::with_capacity(alloc, MOST_HEAD_BYTES + MOST_READ_BYTES)?,
            place: make_place(alloc, MOST_READ_BYTES)?,
        })
    }

    // Reads once. How that ends the connection, if it does.
    fn read<I: Read>(&mut self, input: &mut I) -> Option<PagesEnding>
        ensures { Hears result self.old self.new (I.remaining input.old) (I.remaining input.new) }
    {
        match read_piece(input, self.place.as_mut_slice()) {
            Ok(0) => Some(PagesEnding::Over),
            Ok(count) => match self.bytes.extend_from_slice(&self.place[..count]) {
                Ok(()) => None,
                Err(_) => Some(PagesEnding::Starved),
            },
            Err(failed) if failed.is_interrupted => None,
            Err(_) => Some(PagesEnding::ReadFault),
        }
    }

    // So many bytes in front are answered.
    fn pass(&mut self, len: usize)
        requires { len ≤ length self.old }
        ensures { self.new ≡ drop len self.old }
    {
        self.bytes.drain(..len);
    }
}

// Answers a request. How that ends the connection, if it does.
fn answer<P: Pages, O: Write>(
    alloc: Global,
    pages: &mut P,
    asked: Asked,
    output: &mut O,
) -> Option<PagesEnding>
    ensures { Replies result asked (O.contents output.old) (O.contents output.new) }
{
    let answer = Answer::to_request(pages, asked);
    match answer.write(alloc, output) {
        Ok(()) if asked.stays => None,
        Ok(()) => Some(PagesEnding::Over),
        Err(ending) => Some(ending),
    }
}

// What came is no request for a page.
fn refuse<O: Write>(alloc: Global, refusal: Refusal, output: &mut O) -> PagesEnding
    ensures { Refuses result refusal (O.contents output.old) (O.contents output.new) }
{
    match Answer::to_refused(refusal).write(alloc, output) {
        Ok(()) => PagesEnding::Refused,
        Err(ending) => ending,
    }
}

// Answers a request that stands in front, or reads once.
fn turn<P: Pages, I: Read, O: Write>(
    alloc: Global,
    pages: &mut P,
    received: &mut Received,
    input: &mut I,
    output: &mut O,
) -> Option<PagesEnding>
    ensures { Turns result received.old received.new (trace (I.remaining input.old) (O.contents output.old)) (trace (I.remaining input.new) (O.contents output.new)) }
{
    match read_request(received.bytes.as_slice()) {
        Reading::Partial => received.read(input),
        Reading::Wanted(asked) => {
            received.pass(asked.len);
            answer(alloc, pages, asked, output)
        }
        Reading::Refused(refusal) => Some(refuse(alloc, refusal, output)),
    }
}

/// Answers the requests of a connection, in order, each with a page that is made then, and writes each answer whole behind the one
/// before. It ends with the stream, behind the answer to a request that is the last or is refused, where there is no memory, where a
/// read or a write fails, and after a fixed number of reads and answers, which counts as a read that failed.
pub fn serve_pages<P: Pages, I: Read, O: Write>(
    alloc: Global,
    pages: &mut P,
    input: &mut I,
    output: &mut O,
    bound: u64,
) -> PagesEnding
    ensures { Stops result [] (trace (I.remaining input.old) (O.contents output.old)) (trace (I.remaining input.new) (O.contents output.new)) }
{
    let Ok(mut received) = Received::new(alloc) else {
        return PagesEnding::Starved;
    };
    for _turn in 0..bound {
        match turn(alloc, pages, &mut received, input, output) {
            Some(ending) => return ending,
            None => {}
        }
    }
    PagesEnding::ReadFault
}
