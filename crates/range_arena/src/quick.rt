//! A sorted list of runs, set in place, where only the runs of one owner on one file are looked at.
ghost use Rattle.std.specs.Prelude.{OnOk, OnErr, IsErr, IsTrue, IfSome, ◌↔◌, ◌≡◌, ◌+◌, ◌≤◌, length, map, not, Some};
ghost use Rattle.std.specs.List.{filter};
ghost use Rattle.range_table.specs.Settings.{IsIn};
ghost use Rattle.range_table.specs.Runs.{starts_in, trim, kept_runs, right, runs_without, low, high, widened_setting, runs_with, set_runs, is_split, is_full};
ghost use Rattle.range_table.specs.Parts.{last_started};
ghost use Rattle.range_arena.specs.Quick.{HoldsAll, AreSet};

use crate::indexed::Indexed;
use range_table::run::{Mode, NoRuns, Run, Setting};
use range_table::run_list::MOST_RUNS;
use range_table::{Ranged, sorted};

// Whether the range's owner holds all of it in the mode by this run.
fn holds_all(run: &Run, range: &Setting, mode: Mode) -> bool
    ensures { IsTrue result ↔ HoldsAll range.now mode run.now }
{
    run.first <= range.first && range.last <= run.last && run.mode == mode && run.is_of(range)
}

// The last run of the range's owner that starts before it.
fn last_before(runs: &Indexed, range: &Setting) -> Option<Run>
    ensures last { result ≡ last_started range.now range.now.first runs.now.list }
    ensures stands { IfSome result (λ r. IsIn r runs.now.list) }
{
    if range.first == 0 {
        return None;
    }
    runs.last_upto(range, range.first - 1)
}

fn low(runs: &Indexed, range: &Setting, mode: Mode) -> u64
    ensures { result ≡ low range.now mode runs.now.list }
{
    match last_before(runs, range) {
        Some(run) => run.low_beside(range, mode),
        None => range.first,
    }
}

fn high(runs: &Indexed, range: &Ranged, mode: Mode) -> u64
    ensures { result ≡ high range.now.setting mode runs.now.list }
{
    match runs.last_upto(&range.setting, range.setting.last + 1) {
        Some(run) => run.high_beside(&range.setting, mode),
        None => range.setting.last,
    }
}

// The range with the runs of the mode that it meets.
fn widened(runs: &Indexed, range: &Ranged, mode: Mode) -> Setting
    ensures { result ≡ widened_setting range.now.setting mode runs.now.list }
{
    Setting {
        first: low(runs, &range.setting, mode),
        last: high(runs, range, mode),
        ..range.setting
    }
}

fn is_split(runs: &Indexed, range: &Ranged) -> bool
    ensures { result ≡ is_split range.now.setting runs.now.list }
{
    match last_before(runs, &range.setting) {
        Some(run) => run.splits(&range.setting),
        None => false,
    }
}

// Leaves of the run that reaches the range what is in front of it.
fn trim(runs: &mut Indexed, range: &Setting)
    ensures { runs.new.list ≡ map (trim range.now) runs.old.list }
{
    if let Some(run) = last_before(runs, range) {
        let mut left = run;
        left.trim(range);
        if left.last < run.last {
            runs.end_at(&run, left.last);
        }
    }
}

// The owner's runs that start in the range go: one by one from the last one back, and after many, all that are left in one pass.
// To take one out costs about what it costs to go over some dozens, so this stays near the cheaper way.
fn take_started(runs: &mut Indexed, range: &Setting)
    ensures { runs.new.list ≡ filter (λ r. not (starts_in range.now r)) runs.old.list }
{
    for _ in 0..runs.sorted().list.len() / 32 + 32 {
        let Some(run) = runs.last_upto(range, range.last) else {
            return;
        };
        if run.first < range.first {
            return;
        }
        runs.remove(&run);
    }
    runs.drop_started(range);
}

fn keep(runs: &mut Indexed, range: &Setting)
    ensures { runs.new.list ≡ kept_runs range.now runs.old.list }
{
    take_started(runs, range);
    trim(runs, range);
}

// Cuts the range out, of which this is left behind it.
fn cut_to(runs: &mut Indexed, range: &Setting, rest: Option<Run>)
    requires ordered { range.now.first ≤ range.now.last }
    requires rest { rest ≡ right range.now runs.old.list }
    requires room { length (runs_without range.now runs.old.list) ≤ MOST_RUNS }
    ensures { runs.new.list ≡ runs_without range.now runs.old.list }
{
    keep(runs, range);
    if let Some(run) = rest {
        runs.insert(&run);
    }
}

fn cut(runs: &mut Indexed, range: &Setting)
    requires ordered { range.now.first ≤ range.now.last }
    requires room { length (runs_without range.now runs.old.list) ≤ MOST_RUNS }
    ensures { runs.new.list ≡ runs_without range.now runs.old.list }
{
    // Where the owner has nothing up to the range's end, nothing more is searched.
    let Some(run) = runs.last_upto(range, range.last) else {
        return;
    };
    // A run that starts with the range and ends in it is all that the range meets.
    if run.first == range.first && run.last <= range.last {
        runs.remove(&run);
    } else {
        cut_to(runs, range, run.rest(range));
    }
}

// Where the owner may have runs beside the range.
fn join_beside(runs: &mut Indexed, range: &Ranged, mode: Mode)
    requires room { length (runs_with range.now.setting mode runs.old.list) ≤ MOST_RUNS }
    ensures { runs.new.list ≡ runs_with range.now.setting mode runs.old.list }
{
    let wide = widened(runs, range, mode);
    cut(runs, &wide);
    runs.insert(&wide.run(mode));
}

// Where the owner has a run that starts up to the byte behind the range: this one, the last of them.
fn join_last(runs: &mut Indexed, range: &Ranged, mode: Mode, last: &Run)
    requires mode { range.now.setting.mode ≡ Some mode }
    requires few { length runs.old.list ≤ MOST_RUNS }
    requires room { length (runs_with range.now.setting mode runs.old.list) ≤ MOST_RUNS }
    requires stands { IsIn last.now runs.old.list }
    ensures { AreSet (Some mode) range.now.setting runs.old.list runs.new.list }
{
    // What is held already isn't taken out to be put in again.
    if !holds_all(last, &range.setting, mode) {
        join_beside(runs, range, mode);
    }
}

fn join(runs: &mut Indexed, range: &Ranged, mode: Mode)
    requires mode { range.now.setting.mode ≡ Some mode }
    requires few { length runs.old.list ≤ MOST_RUNS }
    requires room { length (runs_with range.now.setting mode runs.old.list) ≤ MOST_RUNS }
    ensures { AreSet (Some mode) range.now.setting runs.old.list runs.new.list }
{
    match runs.last_upto(&range.setting, range.setting.last + 1) {
        Some(last) => join_last(runs, range, mode, &last),
        None => runs.insert(&range.setting.run(mode)),
    }
}

pub(crate) fn is_full(runs: &Indexed, range: &Ranged) -> bool
    ensures { result ≡ is_full range.now.setting runs.now.list }
{
    if runs.sorted().list.len() + 2 <= MOST_RUNS {
        return false;
    }
    range.setting.mode.is_some() || is_split(runs, range)
}

/// In place, in room that is there.
pub(crate) fn set(runs: &mut Indexed, range: &Ranged) -> Result<(), NoRuns>
    requires few { length runs.old.list ≤ MOST_RUNS }
    ensures refused { IsErr result ↔ IsTrue (is_full range.now.setting runs.old.list) }
    ensures ok { OnOk result (AreSet range.now.setting.mode range.now.setting runs.old.list runs.new.list) }
    ensures err { OnErr result (runs.new ≡ runs.old) }
{
    if is_full(runs, range) {
        return Err(NoRuns);
    }
    match range.setting.mode {
        Some(mode) => join(runs, range, mode),
        None => cut(runs, &range.setting),
    }
    Ok(())
}

// What is left of the run that reaches beyond the range's end.
fn rest(runs: &Indexed, range: &Setting) -> Option<Run>
    ensures { result ≡ right range.now runs.now.list }
{
    match runs.last_upto(range, range.last) {
        Some(run) => run.rest(range),
        None => None,
    }
}

// How many runs start outside the range.
fn used_beside(runs: &Indexed, range: &Setting) -> u32
    requires few { length runs.now.list ≤ MOST_RUNS }
    ensures count { result ≡ length (filter (λ r. not (starts_in range.now r)) runs.now.list) }
    ensures few { result ≤ MOST_RUNS }
{
    (runs.sorted().list.len() - runs.started(range)) as u32
}

// How many there are without the range.
fn used_cut(runs: &Indexed, range: &Setting) -> u32
    requires few { length runs.now.list ≤ MOST_RUNS }
    ensures count { result ≡ length (runs_without range.now runs.now.list) }
    ensures few { result ≤ MOST_RUNS + 1 }
{
    sorted::used_with(used_beside(runs, range), rest(runs, range))
}

/// How many runs there would be after a setting.
pub(crate) fn used_after(runs: &Indexed, range: &Ranged) -> u32
    requires few { length runs.now.list ≤ MOST_RUNS }
    ensures { result ≡ length (set_runs range.now.setting runs.now.list) }
{
    match range.setting.mode {
        Some(mode) => used_cut(runs, &widened(runs, range, mode)) + 1,
        None => used_cut(runs, &range.setting),
    }
}
