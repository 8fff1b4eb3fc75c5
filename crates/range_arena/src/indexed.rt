//! A sorted list of runs, with what makes it fast to search and to set.
ghost use Rattle.std.specs.Prelude.{◌≡◌, ◌<◌, ◌≤◌, ◌+◌, ◌^◌, not, true, false, None, [], IfOk, IfSome, IfNone, ℕ, List, length, slice_index_or, slice_set};
ghost use Rattle.std.specs.List.{remove, filter, list_any};
ghost use Rattle.range_table.specs.Settings.{IsIn, conflicts, is_against};
ghost use Rattle.range_table.specs.Runs.{IsRunList, IsPlace, run_before, insert_run, best_from, is_of, starts_in};
ghost use Rattle.range_table.specs.Parts.{last_started};
ghost use Rattle.range_arena.specs.Indexed.{owned_cmp, owned_before, owned_upto, owned_by, IsSortedBy};
ghost use Rattle.range_table.specs.declared.run.Run.{Run};

use crate::parts::part_upto;
use crate::stretches::Stretches;
use owner_ids::{Host, OwnerId, OwnerOrder};
use range_table::places::place_between;
use range_table::run::{Mode, Run, Setting};
use range_table::run_list::{MOST_RUNS, RunList};
use range_table::sorted_runs::SortedRuns;
use range_table::{sorted, sweeps};
use std::alloc::{AllocError, Global};
use std::marker::Model;

/// A clause sees the runs in order of file, first byte and owner.
#[derive(Drop)]
pub(crate) struct Indexed {
    runs: SortedRuns,
    stretches: Stretches,
    // The same runs in order of file, owner and first byte.
    owned: RunList,
}

impl Model for Indexed {
    ghost use Rattle.range_table.specs.declared.sorted_runs.SortedRuns.{SortedRuns};
    ghost use Rattle.range_table.specs.contracts.sorted_runs.SortedRuns.{the_row};

    ghost Value = { SortedRuns };

    ghost coded = { the_row.coded };

    ghost use Rattle.range_arena.specs.Indexed.{IsIndexed};

    ghost view = { λ t. t.runs };

    ghost invariant = { IsIndexed };
}

// Whether it stands before the other in the order of owners.
fn is_owned_before(run: &Run, other: &Run) -> bool
    ensures { result ≡ owned_before run.now other.now }
{
    run.file
        .order(&other.file)
        .then(
            run.owner
                .cmp(&other.owner)
                .then(run.first.cmp(&other.first)),
        )
        .is_lt()
}

fn is_owned_upto(run: &Run, range: &Setting, byte: u64) -> bool
    ensures { result ≡ owned_upto range.now byte run.now }
{
    run.file
        .order(&range.file)
        .then(run.owner.cmp(&range.owner).then(run.first.cmp(&byte)))
        .is_le()
}

fn is_owned_by(run: &Run, range: &Setting) -> bool
    ensures { result ≡ owned_by range.now run.now }
{
    run.file
        .order(&range.file)
        .then(run.owner.cmp(&range.owner))
        .is_le()
}

// How many runs stand before one.
fn seat(runs: &SortedRuns, run: &Run) -> usize
    ensures { IsPlace (λ s. run_before s run.now) runs.now.list result }
{
    runs.list
        .partition_point(0, runs.list.len(), &|other: &Run| other.is_before(run))
}

// The same in the order of owners.
fn owned_seat(runs: &RunList, run: &Run) -> usize
    requires { IsSortedBy owned_cmp runs.now }
    ensures place { IsPlace (λ s. owned_before s run.now) runs.now result }
    ensures within { result ≤ length runs.now }
{
    runs.partition_point(0, runs.len(), &|other: &Run| is_owned_before(other, run))
}

fn owned_past(runs: &RunList, range: &Setting, byte: u64) -> usize
    requires { IsSortedBy owned_cmp runs.now }
    ensures place { IsPlace (owned_upto range.now byte) runs.now result }
    ensures within { result ≤ length runs.now }
{
    runs.partition_point(0, runs.len(), &|run: &Run| is_owned_upto(run, range, byte))
}

fn owned_end(runs: &RunList, range: &Setting) -> usize
    requires { IsSortedBy owned_cmp runs.now }
    ensures place { IsPlace (owned_by range.now) runs.now result }
    ensures within { result ≤ length runs.now }
{
    runs.partition_point(0, runs.len(), &|run: &Run| is_owned_by(run, range))
}

impl Indexed {
    /// With no runs, and with room for 65,536. No other call takes memory.
    pub(crate) fn new(alloc: Global) -> Result<Indexed, AllocError>
        ensures { IfOk result (λ runs. runs.list ≡ []) }
    {
        Ok(Indexed {
            runs: SortedRuns::new(alloc)?,
            stretches: Stretches::new(alloc)?,
            owned: RunList::new(alloc)?,
        })
    }

    pub(crate) fn sorted(&self) -> &SortedRuns
        ensures { result.now ≡ self.now }
    {
        &self.runs
    }

    /// The last run of the range's owner on its file that starts at a byte or before it.
    pub(crate) fn last_upto(&self, range: &Setting, byte: u64) -> Option<Run>
        ensures last { result ≡ last_started range.now (byte + 1) self.now.list }
        ensures stands { IfSome result (λ r. IsIn r self.now.list) }
    {
        let place = owned_past(&self.owned, range, byte);
        if place == 0 {
            return None;
        }
        let run = self.owned.get(place - 1);
        if run.is_of(range) { Some(*run) } else { None }
    }

    pub(crate) fn insert(&mut self, run: &Run)
        requires fits { IsRunList (insert_run run.now self.old.list) }
        requires room { length self.old.list < MOST_RUNS }
        ensures { self.new.list ≡ insert_run run.now self.old.list }
    {
        let at = sorted::place(&self.runs, run);
        self.runs.list.insert(at, run);
        self.stretches.put_in(at, run, &self.runs.list);
        let seat = owned_seat(&self.owned, run);
        self.owned.insert(seat, run);
    }

    /// Takes one of its runs out.
    pub(crate) fn remove(&mut self, run: &Run)
        requires stands { IsIn run.now self.old.list }
        ensures { (at : ℕ) × (at < length self.old.list) × (run.now ≡ slice_index_or self.old.list at run.now) × (self.new.list ≡ remove self.old.list at) }
    {
        let at = seat(&self.runs, run);
        self.runs.list.remove(at);
        self.stretches.take_out(at, run, &self.runs.list);
        let seat = owned_seat(&self.owned, run);
        self.owned.remove(seat);
    }

    /// Lets one of its runs end elsewhere.
    pub(crate) fn end_at(&mut self, run: &Run, last: u64)
        requires stands { IsIn run.now self.old.list }
        requires begun { run.now.first ≤ last }
        requires shorter { last ≤ run.now.last }
        ensures { (at : ℕ) × (at < length self.old.list) × (run.now ≡ slice_index_or self.old.list at run.now) × (self.new.list ≡ slice_set self.old.list at (record run.now { last = last })) }
    {
        let left = Run { last, ..*run };
        let at = seat(&self.runs, run);
        self.runs.list.set(at, &left);
        self.stretches.write(at, &left, &self.runs.list);
        let seat = owned_seat(&self.owned, run);
        self.owned.set(seat, &left);
    }
}

impl Indexed {
    /// The first run that is in the way of a lock.
    pub(crate) fn first_conflict<O: OwnerOrder>(&self, owners: &O, wanted: &Run) -> Option<Run>
        requires inside { wanted.now.first < 2 ^ 63 }
        ensures { result ≡ best_from (O.order owners.now) wanted.now None self.now.list }
    {
        let part = part_upto(&self.runs, &wanted.file, wanted.last);
        let first = self
            .stretches
            .first_in_way(&self.runs.list, part.begin, part.end, wanted);
        if first == part.end {
            return None;
        }
        // Only among those that start with it may another owner come first.
        let start = self.runs.list.get(first).first;
        let tied = place_between(&self.runs, first, part.end, &wanted.file, start);
        sorted::best_of(&self.runs.list, first, tied, owners, wanted)
    }
}

impl Indexed {
    /// Whether a run is in the way of a lock. No names are compared.
    pub(crate) fn is_blocked(&self, wanted: &Run) -> bool
        requires inside { wanted.now.first < 2 ^ 63 }
        ensures { result ≡ list_any (conflicts wanted.now) self.now.list }
    {
        let part = part_upto(&self.runs, &wanted.file, wanted.last);
        self.stretches
            .first_in_way(&self.runs.list, part.begin, part.end, wanted)
            < part.end
    }

    /// Whether a run of this owner is in the way of a lock.
    pub(crate) fn is_owner_in_way(&self, owner: OwnerId, wanted: &Run) -> bool
        ensures { result ≡ list_any (is_against owner wanted.now) self.now.list }
    {
        if owner == wanted.owner {
            return false;
        }
        let range = Setting::new(&wanted.file, owner, wanted.first, wanted.last, None);
        let place = owned_past(&self.owned, &range, wanted.last);
        for passed in 0..place {
            let run = self.owned.get(place - (passed + 1));
            // An owner's runs don't overlap, so once one ends before the range, none in front of it reaches the range.
            if !run.is_of(&range) || run.last < wanted.first {
                return false;
            }
            if run.is_in_way(wanted) {
                return true;
            }
        }
        false
    }
}

impl Indexed {
    // The last run of the range's owner on its file.
    fn last_owned(&self, range: &Setting) -> Option<Run>
        ensures stands { IfSome result (λ r. IsIn r self.now.list × (is_of r range.now.file range.now.owner ≡ true)) }
        ensures none { IfNone result ((r : Run) → IsIn r self.now.list → is_of r range.now.file range.now.owner ≡ false) }
    {
        let place = owned_end(&self.owned, range);
        if place == 0 {
            return None;
        }
        let run = self.owned.get(place - 1);
        if run.is_of(range) { Some(*run) } else { None }
    }

    /// Takes the runs of the range's owner on its file out.
    pub(crate) fn drop_owner_on_file(&mut self, range: &Setting)
        ensures { self.new.list ≡ filter (λ r. not (is_of r range.now.file range.now.owner)) self.old.list }
    {
        while let Some(run) = self.last_owned(range) {
            self.remove(&run);
        }
    }

    /// Takes the runs of the range's owner that start in it out, in one pass over each list.
    pub(crate) fn drop_started(&mut self, range: &Setting)
        ensures { self.new.list ≡ filter (λ r. not (starts_in range.now r)) self.old.list }
    {
        self.runs.drop_started(range);
        sweeps::drop_started(&mut self.owned, range);
        self.stretches.rebuild(&self.runs.list);
    }

    /// How many runs of the range's owner start in it.
    pub(crate) fn started(&self, range: &Setting) -> usize
        ensures { result ≡ length (filter (starts_in range.now) self.now.list) }
    {
        let past = owned_past(&self.owned, range, range.last);
        // The order looks at no mode.
        let before = owned_seat(&self.owned, &range.run(Mode::Shared));
        past.saturating_sub(before)
    }

    /// Takes the runs of a host's owners out.
    pub(crate) fn drop_host<H: Host>(&mut self, host: &H)
        ensures { self.new.list ≡ filter (λ r. not (H.has host.now r.owner)) self.old.list }
    {
        self.runs.drop_host(host);
        sweeps::drop_host(&mut self.owned, host);
        self.stretches.rebuild(&self.runs.list);
    }

    /// Leaves no run.
    pub(crate) fn clear(&mut self)
        ensures { self.new.list ≡ [] }
    {
        self.runs.list.truncate(0);
        self.owned.truncate(0);
        self.stretches.rebuild(&self.runs.list);
    }
}
