//! Runs side by side, of which little is known but how far they reach.
ghost use Rattle.std.specs.Prelude.{◌≡◌, ◌<◌, ◌≤◌, ◌^◌, false, IsTrue, List, length, slice_set};
ghost use Rattle.std.specs.List.{insert, remove};
ghost use Rattle.range_table.specs.Settings.{conflicts};
ghost use Rattle.range_arena.specs.Reaches.{Covers, Vouches};
ghost use Rattle.range_table.specs.declared.run.Run.{Run};

use crate::reach::Reach;
use range_table::run::{Mode, Run};

/// The runs of a list from one place to another, how far they reach and how far the exclusive ones do.
#[derive(Clone, Copy)]
pub(crate) struct Stretch {
    pub(crate) start: usize,
    pub(crate) end: usize,
    any: Reach,
    exclusive: Reach,
}

impl Stretch {
    /// Of no runs, from one place to another.
    pub(crate) fn bare(start: usize, end: usize) -> Stretch
        ensures start { result.start ≡ start }
        ensures end { result.end ≡ end }
    {
        Stretch {
            start,
            end,
            any: Reach::none(),
            exclusive: Reach::none(),
        }
    }

    /// The same from one place to another, within it.
    pub(crate) fn within(self, start: usize, end: usize) -> Stretch
        requires start { self.start ≤ start }
        requires end { end ≤ self.end }
        ensures vouched { (runs : List Run) → Vouches self runs → Vouches result runs }
    {
        Stretch { start, end, ..self }
    }

    /// It and the one behind it, without looking at a run.
    pub(crate) fn joined(self, next: &Stretch) -> Stretch
        requires { next.now.start ≤ self.end }
        ensures { (runs : List Run) → Vouches self runs → Vouches next.now runs → Vouches result runs }
    {
        Stretch {
            start: self.start,
            end: next.end,
            any: self.any.joined(&next.any),
            exclusive: self.exclusive.joined(&next.exclusive),
        }
    }

    /// The same with one more run, wherever it stands.
    pub(crate) fn with(self, run: &Run) -> Stretch
        ensures run { Covers result run.now }
        ensures others { (r : Run) → Covers self r → Covers result r }
        ensures start { result.start ≡ self.start }
        ensures end { result.end ≡ self.end }
    {
        Stretch {
            any: self.any.with(run),
            exclusive: match run.mode {
                Mode::Shared => self.exclusive,
                Mode::Exclusive => self.exclusive.with(run),
            },
            ..self
        }
    }

    /// Where it says so, none of its runs is in the way.
    pub(crate) fn is_quiet(&self, wanted: &Run) -> bool
        requires { wanted.now.first < 2 ^ 63 }
        ensures { IsTrue result → (r : Run) → Covers self.now r → conflicts wanted.now r ≡ false }
    {
        let reach = match wanted.mode {
            Mode::Shared => &self.exclusive,
            Mode::Exclusive => &self.any,
        };
        reach.beside(wanted.owner) <= wanted.first
    }

    /// After a run was put in at a place of the list.
    pub(crate) fn put_in(&mut self, at: usize, run: &Run)
        ensures { (runs : List Run) → at ≤ length runs → Vouches self.old runs → Vouches self.new (insert runs at run.now) }
    {
        if self.end <= at {
            return;
        }
        self.end = self.end.saturating_add(1);
        if at < self.start {
            self.start = self.start.saturating_add(1);
            return;
        }
        *self = self.with(run);
    }

    /// After the run at a place of the list was taken out.
    pub(crate) fn take_out(&mut self, at: usize)
        ensures { (runs : List Run) → at < length runs → Vouches self.old runs → Vouches self.new (remove runs at) }
    {
        if self.end <= at {
            return;
        }
        self.end -= 1;
        if at < self.start {
            self.start -= 1;
        }
    }

    /// After the run at a place of the list was written anew.
    pub(crate) fn write(&mut self, at: usize, run: &Run)
        ensures { (runs : List Run) → at < length runs → Vouches self.old runs → Vouches self.new (slice_set runs at run.now) }
    {
        if self.start <= at && at < self.end {
            *self = self.with(run);
        }
    }

    /// Whether it may reach less far without the run.
    pub(crate) fn rests_on(&self, run: &Run) -> bool {
        self.any.rests_on(run)
            || match run.mode {
                Mode::Shared => false,
                Mode::Exclusive => self.exclusive.rests_on(run),
            }
    }
}
