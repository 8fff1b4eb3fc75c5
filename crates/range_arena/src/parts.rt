//! Where the runs of a file lie that start up to a byte: those that can be in the way of a lock that ends with it.
ghost use Rattle.std.specs.Prelude.{◌≡◌, ◌≤◌, true, length, take};
ghost use Rattle.std.specs.List.{AllByRecursion};
ghost use Rattle.range_table.specs.Runs.{IsPlace, upto_place};
ghost use Rattle.range_table.specs.Parts.{before_file};

use range_table::FileId;
use range_table::places::{Part, place_between};
use range_table::run::Run;
use range_table::sorted_runs::SortedRuns;

/// The runs of the file that start at a byte or before it.
pub(crate) fn part_upto(runs: &SortedRuns, file: &FileId, byte: u64) -> Part
    ensures order { result.begin ≤ result.end }
    ensures within { result.end ≤ length runs.now.list }
    ensures front { AllByRecursion (λ r. before_file file.now r ≡ true) (take result.begin runs.now.list) }
    ensures place { IsPlace (upto_place file.now byte) runs.now.list result.end }
{
    let end = place_between(runs, 0, runs.list.len(), file, byte);
    // Most files have no run. The one in front is another's then, and nothing more is searched.
    if end == 0 || !runs.list.get(end - 1).file.is_same(file) {
        return Part { begin: end, end };
    }
    let begin = runs
        .list
        .partition_point(0, end, &|run: &Run| run.file.order(file).is_lt());
    Part { begin, end }
}
