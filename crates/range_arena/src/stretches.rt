//! A list of runs in stretches, so that a search goes over those in which nothing can be found.
ghost use Rattle.std.specs.Prelude.{◌≡◌, ◌+◌, ◌<◌, ◌≤◌, ◌^◌, true, false, IfOk, IfSome, ℕ, List, None, length, slice_index_or, slice_set};
ghost use Rattle.std.specs.List.{insert, remove};
ghost use Rattle.range_table.specs.Settings.{conflicts};
ghost use Rattle.range_arena.specs.Reaches.{Vouches, AreVouched};
ghost use Rattle.range_table.specs.declared.run.Run.{Run};

use crate::stretch::Stretch;
use range_table::FileId;
use range_table::run::Run;
use range_table::run_list::RunList;
use std::alloc::{AllocError, Global};

/// The most stretches that a list has.
const MOST_STRETCHES: usize = 1_100;

/// In a file of many runs a stretch with more than twice as many runs is cut in two, and two with no more together are made
/// one.
const RUNS: usize = 256;

/// A stretch with more runs than this is not looked at anew: what was known of it goes on being true, if perhaps too wide.
const MOST_LOOKED_AT: usize = 4 * RUNS;

/// A file with no more runs than this on either side of a place is looked through run by run, and needs no stretches. So all
/// files of few runs that lie side by side are one stretch, which costs a change nothing.
const FEW: usize = 32;

/// Stretches in the order of the list. That they lie side by side is what makes a search fast; no answer depends on it.
#[derive(Drop)]
pub(crate) struct Stretches {
    items: Vec<Stretch>,
    count: usize,
    ghost long: { length items.items ≡ 1100 },
    ghost few: { count ≤ 1100 },
}

impl Stretches {
    /// One stretch, of no runs. No other call takes memory.
    pub(crate) fn new(alloc: Global) -> Result<Stretches, AllocError>
        ensures { IfOk result (λ s. (runs : List Run) → length runs ≡ 0 → AreVouched s.items.items s.count runs) }
    {
        Ok(Stretches {
            items: vec![in alloc; Stretch::bare(0, usize::MAX); MOST_STRETCHES]?,
            count: 1,
        })
    }

    // Which of them has the run at a place, where they lie side by side.
    fn find(&self, at: usize) -> usize
        ensures { result ≤ self.now.count }
    {
        let mut size = self.count;
        let mut base = 0;
        while size > 1 {
            let half = size / 2;
            if self.items[base + half].start <= at {
                base += half;
            }
            size -= half;
        }
        base
    }
}

// The same stretch, of which nothing is known but the runs that stand there.
fn looked_at(stretch: &Stretch, runs: &RunList) -> Stretch
    ensures { Vouches result runs.now }
{
    let mut fresh = Stretch::bare(stretch.start, stretch.end);
    for at in stretch.start..stretch.end.min(runs.len()) {
        fresh = fresh.with(runs.get(at));
    }
    fresh
}

// How many runs of the list stand from one place to another.
fn length_of(runs: &RunList, start: usize, end: usize) -> usize
    ensures { result ≤ 65536 }
{
    end.min(runs.len()).saturating_sub(start)
}

// A part of a stretch, looked at anew where it isn't long.
fn part(stretch: &Stretch, start: usize, end: usize, runs: &RunList) -> Stretch
    requires start { stretch.now.start ≤ start }
    requires end { end ≤ stretch.now.end }
    ensures { Vouches stretch.now runs.now → Vouches result runs.now }
{
    if length_of(runs, start, end) <= MOST_LOOKED_AT {
        looked_at(&Stretch::bare(start, end), runs)
    } else {
        stretch.within(start, end)
    }
}

// Where to cut a long stretch, so that a place comes to lie near the cut.
fn cut_place(stretch: &Stretch, at: usize) -> usize {
    if at.saturating_sub(stretch.start) > 2 * RUNS {
        at - RUNS
    } else {
        stretch.start.saturating_add(RUNS)
    }
}

// How many runs the shorter and the longer of two stretches have.
fn lengths(front: &Stretch, back: &Stretch, runs: &RunList) -> (usize, usize)
    ensures { result.0 + result.1 ≤ 131072 }
{
    let first = length_of(runs, front.start, front.end);
    let second = length_of(runs, back.start, back.end);
    (first.min(second), first.max(second))
}

// Whether a file has many runs near a place.
fn is_long(runs: &RunList, at: usize, file: &FileId) -> bool {
    let ahead = at.saturating_add(FEW);
    if ahead < runs.len() && runs.get(ahead).file.is_same(file) {
        return true;
    }
    let back = at.saturating_sub(FEW);
    back < at && back < runs.len() && runs.get(back).file.is_same(file)
}

impl Stretches {
    // Another one stands in its place.
    fn replace(&mut self, k: usize, stretch: &Stretch)
        requires { k < self.old.count }
        ensures vouched { (runs : List Run) → AreVouched self.old.items.items self.old.count runs → Vouches stretch.now runs → AreVouched self.new.items.items self.new.count runs }
        ensures count { self.new.count ≡ self.old.count }
    {
        self.items[k] = *stretch;
    }

    // Looks at its runs anew.
    fn tighten(&mut self, k: usize, runs: &RunList)
        requires { k < self.old.count }
        ensures vouched { AreVouched self.old.items.items self.old.count runs.now → AreVouched self.new.items.items self.new.count runs.now }
        ensures count { self.new.count ≡ self.old.count }
    {
        let stretch = self.items[k];
        let fresh = part(&stretch, stretch.start, stretch.end, runs);
        self.replace(k, &fresh);
    }

    // One more stands in front of the k-th.
    fn add(&mut self, k: usize, stretch: &Stretch)
        requires within { k ≤ self.old.count }
        requires room { self.old.count < MOST_STRETCHES }
        ensures vouched { (runs : List Run) → AreVouched self.old.items.items self.old.count runs → Vouches stretch.now runs → AreVouched self.new.items.items self.new.count runs }
        ensures count { self.new.count ≡ self.old.count + 1 }
    {
        let mut carried = *stretch;
        for at in k..self.count {
            let next = self.items[at];
            self.items[at] = carried;
            carried = next;
        }
        self.items[self.count] = carried;
        self.count += 1;
    }

    // The k-th goes.
    fn drop_at(&mut self, k: usize)
        requires { k < self.old.count }
        ensures vouched { (runs : List Run) → AreVouched self.old.items.items self.old.count runs → AreVouched self.new.items.items self.new.count runs }
        ensures count { self.new.count + 1 ≡ self.old.count }
    {
        for at in k + 1..self.count {
            self.items[at - 1] = self.items[at];
        }
        self.count -= 1;
    }

    // Cuts one in two that has many runs, so that the place comes to lie in a short one.
    fn split(&mut self, k: usize, at: usize, runs: &RunList)
        requires { k < self.old.count }
        ensures vouched { AreVouched self.old.items.items self.old.count runs.now → AreVouched self.new.items.items self.new.count runs.now }
        ensures count { self.old.count ≤ self.new.count }
    {
        let stretch = self.items[k];
        if self.count == MOST_STRETCHES || length_of(runs, stretch.start, stretch.end) <= 2 * RUNS {
            return;
        }
        let mid = cut_place(&stretch, at);
        if mid < stretch.start || stretch.end < mid {
            return;
        }
        let front = part(&stretch, stretch.start, mid, runs);
        let rest = part(&stretch, mid, stretch.end, runs);
        self.replace(k, &front);
        self.add(k + 1, &rest);
    }

    // Makes one of it and the next one, where they have few runs together, or one of them hardly any.
    fn join(&mut self, k: usize, runs: &RunList)
        ensures vouched { AreVouched self.old.items.items self.old.count runs.now → AreVouched self.new.items.items self.new.count runs.now }
    {
        if self.count <= k || self.count - k < 2 {
            return;
        }
        let front = self.items[k];
        let back = self.items[k + 1];
        let (shorter, longer) = lengths(&front, &back, runs);
        if back.start <= front.end && shorter <= FEW && RUNS < longer {
            let both = front.joined(&back);
            self.replace(k, &both);
            self.drop_at(k + 1);
        } else if shorter + longer <= RUNS {
            let both = looked_at(&Stretch::bare(front.start, back.end), runs);
            self.replace(k, &both);
            self.drop_at(k + 1);
        }
    }
}

impl Stretches {
    // A run was put in.
    fn put_each(&mut self, at: usize, run: &Run)
        ensures vouched { (runs : List Run) → at ≤ length runs → AreVouched self.old.items.items self.old.count runs → AreVouched self.new.items.items self.new.count (insert runs at run.now) }
        ensures count { self.new.count ≡ self.old.count }
    {
        for k in 0..self.count {
            self.items[k].put_in(at, run);
        }
    }

    // A run was taken out.
    fn take_each(&mut self, at: usize)
        ensures vouched { (runs : List Run) → at < length runs → AreVouched self.old.items.items self.old.count runs → AreVouched self.new.items.items self.new.count (remove runs at) }
        ensures count { self.new.count ≡ self.old.count }
    {
        for k in 0..self.count {
            self.items[k].take_out(at);
        }
    }

    // A run was written anew.
    fn write_each(&mut self, at: usize, run: &Run)
        ensures vouched { (runs : List Run) → at < length runs → AreVouched self.old.items.items self.old.count runs → AreVouched self.new.items.items self.new.count (slice_set runs at run.now) }
        ensures count { self.new.count ≡ self.old.count }
    {
        for k in 0..self.count {
            self.items[k].write(at, run);
        }
    }

    /// After a run was put in at a place.
    pub(crate) fn put_in(&mut self, at: usize, run: &Run, runs: &RunList)
        ensures { (was : List Run) → at ≤ length was → runs.now ≡ insert was at run.now → AreVouched self.old.items.items self.old.count was → AreVouched self.new.items.items self.new.count runs.now }
    {
        self.put_each(at, run);
        if !is_long(runs, at, &run.file) {
            return;
        }
        let k = self.find(at);
        if k < self.count {
            self.split(k, at, runs);
        }
    }

    /// After the run at a place was taken out.
    pub(crate) fn take_out(&mut self, at: usize, run: &Run, runs: &RunList)
        ensures { (was : List Run) → at < length was → runs.now ≡ remove was at → AreVouched self.old.items.items self.old.count was → AreVouched self.new.items.items self.new.count runs.now }
    {
        self.take_each(at);
        let k = self.find(at);
        if k < self.count && is_long(runs, at, &run.file) && self.items[k].rests_on(run) {
            self.tighten(k, runs);
        }
        self.join(k, runs);
        if 0 < k {
            self.join(k - 1, runs);
        }
    }

    /// After the run at a place was written anew.
    pub(crate) fn write(&mut self, at: usize, run: &Run, runs: &RunList)
        ensures { (was : List Run) → at < length was → runs.now ≡ slice_set was at run.now → AreVouched self.old.items.items self.old.count was → AreVouched self.new.items.items self.new.count runs.now }
    {
        self.write_each(at, run);
        let k = self.find(at);
        if k < self.count && is_long(runs, at, &run.file) {
            self.tighten(k, runs);
        }
    }

    /// From nothing.
    pub(crate) fn rebuild(&mut self, runs: &RunList)
        ensures { AreVouched self.new.items.items self.new.count runs.now }
    {
        self.count = 0;
        let len = runs.len();
        for k in 0..len / RUNS + 1 {
            let start = k * RUNS;
            let end = if len - start < RUNS {
                usize::MAX
            } else {
                start + RUNS
            };
            let stretch = looked_at(&Stretch::bare(start, end), runs);
            if self.count < MOST_STRETCHES {
                self.add(self.count, &stretch);
            }
        }
    }
}

// The first run from one place to another that is in the way, or the second place.
fn first_of(runs: &RunList, begin: usize, past: usize, wanted: &Run) -> usize
    requires order { begin ≤ past }
    requires within { past ≤ length runs.now }
    ensures from { begin ≤ result }
    ensures upto { result ≤ past }
    ensures clear { (i : ℕ) (r : Run) → begin ≤ i → i < result → r ≡ slice_index_or runs.now i r → conflicts wanted.now r ≡ false }
    ensures found { (r : Run) → result < past → r ≡ slice_index_or runs.now result r → conflicts wanted.now r ≡ true }
{
    for at in begin..past {
        if runs.get(at).is_in_way(wanted) {
            return at;
        }
    }
    past
}

// The first of a stretch's runs from one place to another that is in the way. A quiet one isn't looked through.
fn first_within(
    stretch: &Stretch,
    runs: &RunList,
    begin: usize,
    past: usize,
    wanted: &Run,
) -> Option<usize>
    requires order { begin ≤ past }
    requires within { past ≤ length runs.now }
    requires start { stretch.now.start ≤ begin }
    requires end { past ≤ stretch.now.end }
    requires inside { wanted.now.first < 2 ^ 63 }
    requires vouched { Vouches stretch.now runs.now }
    ensures from { IfSome result (λ at. begin ≤ at) }
    ensures upto { IfSome result (λ at. at < past) }
    ensures found { IfSome result (λ at. (r : Run) → r ≡ slice_index_or runs.now at r → conflicts wanted.now r ≡ true) }
    ensures before { IfSome result (λ at. (i : ℕ) (r : Run) → begin ≤ i → i < at → r ≡ slice_index_or runs.now i r → conflicts wanted.now r ≡ false) }
    ensures none { result ≡ None → (i : ℕ) (r : Run) → begin ≤ i → i < past → r ≡ slice_index_or runs.now i r → conflicts wanted.now r ≡ false }
{
    if stretch.is_quiet(wanted) {
        return None;
    }
    let found = first_of(runs, begin, past, wanted);
    if found < past { Some(found) } else { None }
}

impl Stretches {
    /// The same, but for the stretches in which there is none.
    pub(crate) fn first_in_way(
        &self,
        runs: &RunList,
        begin: usize,
        past: usize,
        wanted: &Run,
    ) -> usize
        requires order { begin ≤ past }
        requires within { past ≤ length runs.now }
        requires inside { wanted.now.first < 2 ^ 63 }
        requires vouched { AreVouched self.now.items.items self.now.count runs.now }
        ensures from { begin ≤ result }
        ensures upto { result ≤ past }
        ensures clear { (i : ℕ) (r : Run) → begin ≤ i → i < result → r ≡ slice_index_or runs.now i r → conflicts wanted.now r ≡ false }
        ensures found { (r : Run) → result < past → r ≡ slice_index_or runs.now result r → conflicts wanted.now r ≡ true }
    {
        let mut at = begin;
        for k in self.find(begin)..self.count {
            if past <= at {
                return past;
            }
            let stretch = &self.items[k];
            if stretch.start <= at && at < stretch.end {
                let upto = stretch.end.min(past);
                if let Some(found) = first_within(stretch, runs, at, upto, wanted) {
                    return found;
                }
                at = upto;
            }
        }
        first_of(runs, at, past, wanted)
    }
}
