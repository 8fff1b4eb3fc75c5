//! A line that comes in.
ghost use Rattle.std.specs.Prelude.{◌≡◌, ◌≢◌, ◌≤◌, ◌<◌, ◌++◌, ◌∷◌, [], length, take, vec_capacity, IfOk, OnOk, OnErr};
ghost use Rattle.book.specs.Given.{view_of_reply};
ghost use Rattle.book.specs.Notes.{AsksLine};
ghost use Rattle.workers.specs.Answers.{StarvesAs};
ghost use Rattle.line_loop.specs.Lines.{IsOpen, kept_prefix};

use book::{LocalAnswer, Reply, Starved};
use ghost_list::History;
use local_ops::LocalCall;
use std::alloc::Global;
use std::marker::Model;
use std::mem;

/// The most bytes that are kept of a line: one more than a line of the protocol has at most.
const KEPT: usize = 513;

/// What has come of a line so far, without a line feed. Contracts see all of it; its first bytes alone are kept.
#[derive(Drop)]
pub(crate) struct PartialLine {
    alloc: Global,
    kept: Vec<u8>,
    all: History<u8>,
}

impl Model for PartialLine {
    ghost use Rattle.std.specs.Prelude.{◌≡◌, ◌≤◌, ℕ, List, take, vec_capacity};
    ghost use Rattle.line_loop.specs.Lines.{IsOpen};

    ghost Value = { List ℕ };

    ghost view = { λ p. p.all.items };

    ghost invariant = { λ p. (p.kept.items ≡ take 513 p.all.items) × (513 ≤ vec_capacity p.kept) × IsOpen p.all.items };
}

// The byte is kept, if there are not as many yet.
fn keep(kept: &mut Vec<u8>, byte: u8)
    requires { KEPT ≤ vec_capacity kept.old }
    ensures short { length kept.old.items < KEPT → kept.new.items ≡ kept.old.items ++ byte ∷ [] }
    ensures full { KEPT ≤ length kept.old.items → kept.new.items ≡ kept.old.items }
    ensures room { vec_capacity kept.new ≡ vec_capacity kept.old }
{
    if kept.len() < KEPT {
        kept.push_reserved(byte);
    }
}

// What a line is answered on the connection of this number where there was no memory for it before it took the book.
fn starved_line(connection: u64, line: &[u8]) -> Reply
    ensures { StarvesAs (AsksLine connection line.now) (view_of_reply result) }
{
    let _connection = connection;
    // Whatever its reading is, it changes nothing.
    let _reading = LocalCall::read(line);
    Reply::Line(LocalAnswer::Starved)
}

impl PartialLine {
    /// Nothing has come.
    pub(crate) fn new(alloc: Global) -> Result<PartialLine, Starved>
        ensures { IfOk result (λ part. part ≡ []) }
    {
        Ok(PartialLine {
            alloc,
            kept: Vec::with_capacity(alloc, KEPT)?,
            all: History::new(),
        })
    }

    /// It has no line feed: a proof learns that here.
    pub(crate) fn has_no_feed(&self)
        ensures { IsOpen self.now }
    {
        let _kept = &self.kept;
    }

    /// One byte more, which is no line feed.
    #[tactic(auto, using(crate::proofs::PartLemmas::kept_more))]
    pub(crate) fn add(&mut self, byte: u8)
        requires { byte ≢ 10 }
        ensures more { self.new ≡ self.old ++ byte ∷ [] }
        ensures no_feed { IsOpen self.new }
    {
        keep(&mut self.kept, byte);
        self.all = self.all.and(&byte);
    }

    /// The line is whole: what was kept of it. Starved: there is no memory for the next one, and nothing changed.
    pub(crate) fn end(&mut self) -> Result<Vec<u8>, Starved>
        ensures line { IfOk result (λ line. line.items ≡ take 513 self.old) }
        ensures next { OnOk result (self.new ≡ []) }
        ensures stays { OnErr result (self.new ≡ self.old) }
        ensures no_feed { IsOpen self.old }
    {
        let fresh = Vec::with_capacity(self.alloc, KEPT)?;
        self.all = History::new();
        Ok(mem::replace(&mut self.kept, fresh))
    }
    /// The line is whole, and there is no memory to hand it on: what it is answered on the connection of this number. The next line
    /// begins in the same place.
    pub(crate) fn starve(&mut self, connection: u64) -> Reply
        ensures said { StarvesAs (AsksLine connection (kept_prefix self.old)) (view_of_reply result) }
        ensures next { self.new ≡ [] }
        ensures no_feed { IsOpen self.old }
    {
        let reply = starved_line(connection, self.kept.as_slice());
        self.kept.clear();
        self.all = History::new();
        reply
    }
}
