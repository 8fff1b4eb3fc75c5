//! A sorted list of runs, set and asked in place.
ghost use Rattle.std.specs.Prelude.{OnOk, OnErr, IsErr, IsTrue, ◌↔◌, ◌≡◌, ◌+◌, ◌-◌, ◌<◌, ◌≤◌, length, map, not, take, drop, List};
ghost use Rattle.std.specs.List.{filter, list_any, position_or_len};
ghost use Rattle.range_table.specs.Runs.{starts_in, trim, kept_runs, right, insert_run, runs_without, low, high, widened_setting, runs_with, set_runs, is_split, is_full, run_before, before_place, IsPlace, IsRunList, is_better, best_from};
ghost use Rattle.range_table.specs.Settings.{conflicts, is_against};
ghost use Rattle.range_table.specs.Parts.{IsPart};

use crate::places::{Part, last_before, last_run, part_of, place_of, place_past};
use crate::ranged::Ranged;
use crate::run::{Mode, NoRuns, Run, Setting};
use crate::run_list::{MOST_RUNS, RunList};
use crate::sorted_runs::SortedRuns;
use crate::sweeps::{close, gather};
use owner_ids::{Host, OwnerId, OwnerOrder};

// What is left of the run that reaches beyond the range's end.
fn right(runs: &SortedRuns, part: Part, range: &Setting) -> Option<Run>
    requires part { IsPart range.now.file runs.now.list part.begin part.end }
    ensures { result ≡ right range.now runs.now.list }
{
    let place = place_past(runs, part, &range.file, range.last);
    match last_run(&runs.list, part, range, place) {
        Some(run) => run.rest(range),
        None => None,
    }
}

fn low(runs: &SortedRuns, part: Part, range: &Setting, mode: Mode) -> u64
    requires part { IsPart range.now.file runs.now.list part.begin part.end }
    ensures { result ≡ low range.now mode runs.now.list }
{
    let place = place_of(runs, part, &range.file, range.first);
    match last_run(&runs.list, part, range, place) {
        Some(run) => run.low_beside(range, mode),
        None => range.first,
    }
}

fn high(runs: &SortedRuns, part: Part, range: &Ranged, mode: Mode) -> u64
    requires part { IsPart range.now.setting.file runs.now.list part.begin part.end }
    ensures { result ≡ high range.now.setting mode runs.now.list }
{
    let place = place_past(runs, part, &range.setting.file, range.setting.last + 1);
    match last_run(&runs.list, part, &range.setting, place) {
        Some(run) => run.high_beside(&range.setting, mode),
        None => range.setting.last,
    }
}

// The range with the runs of the mode that it meets.
fn widened(runs: &SortedRuns, part: Part, range: &Ranged, mode: Mode) -> Setting
    requires part { IsPart range.now.setting.file runs.now.list part.begin part.end }
    ensures { result ≡ widened_setting range.now.setting mode runs.now.list }
{
    Setting {
        first: low(runs, part, &range.setting, mode),
        last: high(runs, part, range, mode),
        ..range.setting
    }
}

fn is_split(runs: &SortedRuns, part: Part, range: &Ranged) -> bool
    requires part { IsPart range.now.setting.file runs.now.list part.begin part.end }
    ensures { result ≡ is_split range.now.setting runs.now.list }
{
    let place = place_of(runs, part, &range.setting.file, range.setting.first);
    match last_run(&runs.list, part, &range.setting, place) {
        Some(run) => run.splits(&range.setting),
        None => false,
    }
}

// Leaves of the run that reaches the range what is in front of it.
fn trim_last(runs: &mut SortedRuns, part: Part, range: &Setting, place: usize)
    requires part { IsPart range.now.file runs.old.list part.begin part.end }
    requires within { place ≤ length runs.old.list }
    requires place { IsPlace (before_place range.now.file range.now.first) runs.old.list place }
    ensures { runs.new.list ≡ map (trim range.now) runs.old.list }
{
    if let Some(at) = last_before(&runs.list, part, range, place) {
        let mut run = *runs.list.get(at);
        run.trim(range);
        runs.list.set(at, &run);
    }
}

fn keep(runs: &mut SortedRuns, part: Part, range: &Setting)
    requires part { IsPart range.now.file runs.old.list part.begin part.end }
    requires ordered { range.now.first ≤ range.now.last }
    ensures { runs.new.list ≡ kept_runs range.now runs.old.list }
{
    let from = place_of(runs, part, &range.file, range.first);
    let past = place_past(runs, part, &range.file, range.last);
    trim_last(runs, part, range, from);
    let kept = gather(&mut runs.list, range, from, past);
    close(&mut runs.list, kept, past);
}

pub fn place(runs: &SortedRuns, run: &Run) -> usize
    ensures within { result ≤ length runs.now.list }
    ensures place { result ≡ position_or_len (run_before run.now) runs.now.list }
{
    let len = runs.list.len();
    runs.list
        .partition_point(0, len, &|other: &Run| !run.is_before(other))
}

fn insert(runs: &mut SortedRuns, run: Run)
    requires fits { IsRunList (insert_run run runs.old.list) }
    requires room { length runs.old.list < MOST_RUNS }
    ensures { runs.new.list ≡ insert_run run runs.old.list }
{
    let at = place(runs, &run);
    runs.list.insert(at, &run);
}

fn cut(runs: &mut SortedRuns, part: Part, range: &Setting)
    requires part { IsPart range.now.file runs.old.list part.begin part.end }
    requires ordered { range.now.first ≤ range.now.last }
    requires room { length (runs_without range.now runs.old.list) ≤ MOST_RUNS }
    ensures { runs.new.list ≡ runs_without range.now runs.old.list }
{
    let rest = right(runs, part, range);
    keep(runs, part, range);
    if let Some(run) = rest {
        insert(runs, run);
    }
}

fn join(runs: &mut SortedRuns, part: Part, range: &Ranged, mode: Mode)
    requires part { IsPart range.now.setting.file runs.old.list part.begin part.end }
    requires room { length (runs_with range.now.setting mode runs.old.list) ≤ MOST_RUNS }
    ensures { runs.new.list ≡ runs_with range.now.setting mode runs.old.list }
{
    let wide = widened(runs, part, range, mode);
    cut(runs, part, &wide);
    insert(runs, wide.run(mode));
}

fn is_full(runs: &SortedRuns, part: Part, range: &Ranged) -> bool
    requires part { IsPart range.now.setting.file runs.now.list part.begin part.end }
    ensures { result ≡ is_full range.now.setting runs.now.list }
{
    if runs.list.len() + 2 <= MOST_RUNS {
        return false;
    }
    range.setting.mode.is_some() || is_split(runs, part, range)
}

pub fn refuses(runs: &SortedRuns, range: &Ranged) -> bool
    ensures { result ≡ is_full range.now.setting runs.now.list }
{
    is_full(runs, part_of(runs, &range.setting.file), range)
}

/// In place, in room that is there.
pub fn set(runs: &mut SortedRuns, range: &Ranged) -> Result<(), NoRuns>
    requires few { length runs.old.list ≤ MOST_RUNS }
    ensures refused { IsErr result ↔ IsTrue (is_full range.now.setting runs.old.list) }
    ensures ok { OnOk result (runs.new.list ≡ set_runs range.now.setting runs.old.list) }
    ensures err { OnErr result (runs.new ≡ runs.old) }
    ensures few { length runs.new.list ≤ MOST_RUNS }
{
    let part = part_of(runs, &range.setting.file);
    if is_full(runs, part, range) {
        return Err(NoRuns);
    }
    match range.setting.mode {
        Some(mode) => join(runs, part, range, mode),
        None => cut(runs, part, &range.setting),
    }
    Ok(())
}

fn is_better<O: OwnerOrder>(owners: &O, best: &Option<Run>, run: &Run) -> bool
    ensures { result ≡ is_better (O.order owners.now) best.now run.now }
{
    match best {
        None => true,
        Some(best) => {
            run.first < best.first
                || run.first == best.first && owners.compare(run.owner, best.owner).is_lt()
        }
    }
}

// Of the runs from one place to another.
pub fn best_of<O: OwnerOrder>(
    runs: &RunList,
    begin: usize,
    end: usize,
    owners: &O,
    wanted: &Run,
) -> Option<Run>
    requires order { begin ≤ end }
    requires within { end ≤ length runs.now }
    ensures { result ≡ best_from (O.order owners.now) wanted.now None (take (end - begin) (drop begin runs.now)) }
{
    let mut best = None;
    for at in begin..end {
        let run = runs.get(at);
        if run.is_in_way(wanted) && is_better(owners, &best, run) {
            best = Some(*run);
        }
    }
    best
}

pub fn first_conflict<O: OwnerOrder>(runs: &SortedRuns, owners: &O, wanted: &Run) -> Option<Run>
    ensures { result ≡ best_from (O.order owners.now) wanted.now None runs.now.list }
{
    let part = part_of(runs, &wanted.file);
    let past = place_past(runs, part, &wanted.file, wanted.last);
    best_of(&runs.list, part.begin, past, owners, wanted)
}

// Whether one of the runs from one place to another is in the way of the wanted one.
fn any_in_way(runs: &RunList, begin: usize, end: usize, wanted: &Run) -> bool
    requires order { begin ≤ end }
    requires within { end ≤ length runs.now }
    ensures { result ≡ list_any (conflicts wanted.now) (take (end - begin) (drop begin runs.now)) }
{
    for at in begin..end {
        if runs.get(at).is_in_way(wanted) {
            return true;
        }
    }
    false
}

/// Whether a run is in the way of the wanted one.
pub fn is_blocked(runs: &SortedRuns, wanted: &Run) -> bool
    ensures { result ≡ list_any (conflicts wanted.now) runs.now.list }
{
    let part = part_of(runs, &wanted.file);
    any_in_way(&runs.list, part.begin, part.end, wanted)
}

// The same of one owner's runs.
fn any_against(runs: &RunList, begin: usize, end: usize, owner: OwnerId, wanted: &Run) -> bool
    requires order { begin ≤ end }
    requires within { end ≤ length runs.now }
    ensures { result ≡ list_any (is_against owner wanted.now) (take (end - begin) (drop begin runs.now)) }
{
    for at in begin..end {
        if runs.get(at).is_against(owner, wanted) {
            return true;
        }
    }
    false
}

/// Whether a run of this owner is in the way of the wanted one.
pub fn is_owner_in_way(runs: &SortedRuns, owner: OwnerId, wanted: &Run) -> bool
    ensures { result ≡ list_any (is_against owner wanted.now) runs.now.list }
{
    let part = part_of(runs, &wanted.file);
    any_against(&runs.list, part.begin, part.end, owner, wanted)
}

pub fn used_of<H: Host>(runs: &RunList, host: &H) -> u32
    requires { length runs.now ≤ MOST_RUNS }
    ensures { result ≡ length (filter (λ r. H.has host.now r.owner) runs.now) }
{
    let mut count = 0;
    for at in 0..runs.len() {
        if host.has(runs.get(at).owner) {
            count += 1;
        }
    }
    count
}

// How many runs start outside the range.
fn used_beside(runs: &RunList, range: &Setting) -> u32
    requires { length runs.now ≤ MOST_RUNS }
    ensures count { result ≡ length (filter (λ r. not (starts_in range.now r)) runs.now) }
    ensures few { result ≤ MOST_RUNS }
{
    let mut count = 0;
    for at in 0..runs.len() {
        if !runs.get(at).starts_in(range) {
            count += 1;
        }
    }
    count
}

/// How many runs there are without a range: those that start beside it, and what is left of one behind it.
pub fn used_with(beside: u32, rest: Option<Run>) -> u32
    requires { beside ≤ MOST_RUNS }
    ensures count { (range : Setting) (runs : List Run) → beside ≡ length (filter (λ r. not (starts_in range r)) runs) → rest ≡ right range runs → result ≡ length (runs_without range runs) }
    ensures few { result ≤ MOST_RUNS + 1 }
{
    match rest {
        Some(_) => beside + 1,
        None => beside,
    }
}

// The same of a list.
fn used_cut(runs: &SortedRuns, part: Part, range: &Setting) -> u32
    requires part { IsPart range.now.file runs.now.list part.begin part.end }
    requires few { length runs.now.list ≤ MOST_RUNS }
    ensures count { result ≡ length (runs_without range.now runs.now.list) }
    ensures few { result ≤ MOST_RUNS + 1 }
{
    used_with(used_beside(&runs.list, range), right(runs, part, range))
}

/// How many runs there would be after a setting.
pub fn used_after(runs: &SortedRuns, range: &Ranged) -> u32
    requires few { length runs.now.list ≤ MOST_RUNS }
    ensures { result ≡ length (set_runs range.now.setting runs.now.list) }
{
    let part = part_of(runs, &range.setting.file);
    match range.setting.mode {
        Some(mode) => used_cut(runs, part, &widened(runs, part, range, mode)) + 1,
        None => used_cut(runs, part, &range.setting),
    }
}
