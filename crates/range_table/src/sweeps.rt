//! Passes over a list of runs, in whatever order they stand.
ghost use Rattle.std.specs.Prelude.{◌≡◌, ◌≤◌, ◌++◌, length, not, false, take, drop};
ghost use Rattle.std.specs.List.{filter, AllByRecursion};
ghost use Rattle.range_table.specs.Runs.{is_of, starts_in};

use crate::file::FileId;
use crate::run::Setting;
use crate::run_list::RunList;
use owner_ids::{Host, OwnerId};

// Those from one place to another that don't start in the range move together behind those in front. Where they end.
pub(crate) fn gather(runs: &mut RunList, range: &Setting, from: usize, past: usize) -> usize
    requires order { from ≤ past }
    requires within { past ≤ length runs.old }
    requires front { AllByRecursion (λ r. starts_in range.now r ≡ false) (take from runs.old) }
    ensures within { result ≤ past }
    ensures kept { take result runs.new ≡ filter (λ r. not (starts_in range.now r)) (take past runs.old) }
    ensures rest { drop past runs.new ≡ drop past runs.old }
    ensures long { length runs.new ≡ length runs.old }
{
    let mut kept = from;
    for at in from..past {
        let run = *runs.get(at);
        if !run.starts_in(range) {
            runs.set(kept, &run);
            kept += 1;
        }
    }
    kept
}

/// Takes the runs that start in the range out, in one pass.
pub fn drop_started(runs: &mut RunList, range: &Setting)
    ensures { runs.new ≡ filter (λ r. not (starts_in range.now r)) runs.old }
{
    let len = runs.len();
    let kept = gather(runs, range, 0, len);
    runs.truncate(kept);
}

// What lies between two places goes, the last run first: then no other one of them moves.
fn remove_each(runs: &mut RunList, kept: usize, past: usize)
    requires order { kept ≤ past }
    requires within { past ≤ length runs.old }
    ensures { runs.new ≡ take kept runs.old ++ drop past runs.old }
{
    for gone in 0..past - kept {
        runs.remove(past - (gone + 1));
    }
}

// What lies between two places goes, in one pass over the runs behind it.
fn move_down(runs: &mut RunList, kept: usize, past: usize)
    requires order { kept ≤ past }
    requires within { past ≤ length runs.old }
    ensures { runs.new ≡ take kept runs.old ++ drop past runs.old }
{
    let len = runs.len();
    for at in past..len {
        let run = *runs.get(at);
        runs.set(kept + (at - past), &run);
    }
    runs.truncate(kept + (len - past));
}

// What lies between two places goes. To take a run out costs what it costs to move some dozens.
pub(crate) fn close(runs: &mut RunList, kept: usize, past: usize)
    requires order { kept ≤ past }
    requires within { past ≤ length runs.old }
    ensures { runs.new ≡ take kept runs.old ++ drop past runs.old }
{
    if (runs.len() - past) / 64 < past - kept {
        move_down(runs, kept, past);
    } else {
        remove_each(runs, kept, past);
    }
}

pub fn drop_owner_on_file(runs: &mut RunList, file: &FileId, owner: OwnerId)
    ensures { runs.new ≡ filter (λ r. not (is_of r file.now owner)) runs.old }
{
    let mut kept = 0;
    for at in 0..runs.len() {
        let run = *runs.get(at);
        if !run.is_by(file, owner) {
            runs.set(kept, &run);
            kept += 1;
        }
    }
    runs.truncate(kept);
}

pub fn drop_host<H: Host>(runs: &mut RunList, host: &H)
    ensures { runs.new ≡ filter (λ r. not (H.has host.now r.owner)) runs.old }
{
    let mut kept = 0;
    for at in 0..runs.len() {
        let run = *runs.get(at);
        if !host.has(run.owner) {
            runs.set(kept, &run);
            kept += 1;
        }
    }
    runs.truncate(kept);
}
