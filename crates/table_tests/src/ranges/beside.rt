//! One random script through the arena table and the flat one, which is its definition in code.
ghost use Rattle.std.specs.Prelude.{◌<◌};

use super::table::{nth, set, used_after};
use crate::owner::intern;
use crate::random::next_word;
use owner_ids::{HostOf, OwnerId, Owners};
use range_arena::ArenaTable;
use range_table::{FileId, FlatTable, Mode, RangeTable, Ranged, Run, Setting, Wanted};
use std::alloc::Global;

/// How many steps the script has, and after how many all runs of both tables are compared.
const STEPS: u32 = 100_000;

const COMPARED: u32 = 10_000;

/// How many bytes of a file the script names: so many that a file comes to have thousands of runs.
const BYTES: u32 = 6_000;

/// The owners, of whom the first two are of host `a`.
type Asking = [OwnerId; 4];

fn next_random(random: &mut u32, bound: u32) -> u32
    requires { 0 < bound }
    ensures { result < bound }
{
    (next_word(random) >> 16) % bound
}

fn asking(alloc: Global, owners: &mut Owners) -> Option<Asking> {
    let second = intern(alloc, owners, "a/9/")?;
    let process = intern(alloc, owners, "p2")?;
    let other = intern(alloc, owners, "b/1/")?;
    let first = intern(alloc, owners, "a/-9/")?;
    Some([first, second, other, process])
}

// Mostly of a byte or two, now and then of many.
fn next_setting(random: &mut u32, asking: &Asking) -> Ranged {
    let owner = asking[next_random(random, 4) as usize];
    let file = FileId::new(next_random(random, 3).to_be_bytes().as_slice());
    let first = u64::from(next_random(random, BYTES));
    let most = if next_random(random, 64) == 0 {
        BYTES
    } else {
        2
    };
    let last = first + u64::from(next_random(random, most));
    let mode = match next_random(random, 3) {
        0 => None,
        1 => Some(Mode::Shared),
        _ => Some(Mode::Exclusive),
    };
    let setting = Setting::new(&file, owner, first, last, mode);
    Ranged { setting }
}

// What a run shows.
type Shown = (OwnerId, u64, u64, Mode);

fn shown(run: &Run) -> Shown {
    (run.owner, run.first, run.last, run.mode)
}

fn is_same(run: Option<Run>, other: Option<Run>) -> bool {
    match (run, other) {
        (Some(run), Some(other)) => run.file.is_same(&other.file) && shown(&run) == shown(&other),
        (None, None) => true,
        _ => false,
    }
}

// Whether both count alike what the setting would make. The flat one goes over all its runs for it.
fn count_alike<T: RangeTable, U: RangeTable>(table: &T, other: &U, asked: &Ranged) -> bool {
    used_after(table, asked) == used_after(other, asked)
}

// Whether both refuse the setting, or both make it, and then have as many runs as the first one said.
fn set_alike<T: RangeTable, U: RangeTable>(table: &mut T, other: &mut U, asked: &Ranged) -> bool {
    let after = used_after(table, asked);
    let done = set(table, asked);
    done == set(other, asked) && (!done || table.used() == after && other.used() == after)
}

// Whether both find the same in the way, and say so of this owner alike.
fn find_alike<T: RangeTable, U: RangeTable>(
    table: &T,
    other: &U,
    owners: &Owners,
    owner: OwnerId,
    wanted: &Wanted,
) -> bool {
    let found = table.first_conflict(owners, wanted);
    found.is_some() == table.is_blocked(wanted)
        && found.is_some() == other.is_blocked(wanted)
        && is_same(found, other.first_conflict(owners, wanted))
        && table.is_owner_in_way(owner, wanted) == other.is_owner_in_way(owner, wanted)
}

// Whether both have the same runs, in one order.
fn hold_alike<T: RangeTable, U: RangeTable>(table: &T, other: &U, owners: &Owners) -> bool {
    for i in 0..table.used() {
        if !is_same(nth(table, owners, i), nth(other, owners, i)) {
            return false;
        }
    }
    table.used() == other.used()
}

// Mostly a setting; seldom it is counted alone, or a host or an owner on a file goes.
fn step<T: RangeTable, U: RangeTable>(
    table: &mut T,
    other: &mut U,
    owners: &Owners,
    asking: &Asking,
    random: &mut u32,
) -> bool {
    let asked = next_setting(random, asking);
    match next_random(random, 10_000) {
        0 => {
            let host = HostOf { owners, name: b"a" };
            table.drop_host(&host);
            other.drop_host(&host);
            true
        }
        1..10 => {
            table.drop_owner_on_file(&asked.setting.file, asked.setting.owner);
            other.drop_owner_on_file(&asked.setting.file, asked.setting.owner);
            true
        }
        10..100 => count_alike(table, other, &asked),
        _ => {
            let owner = asking[next_random(random, 4) as usize];
            // The lock that is asked for, or that would be kept out where it is given up.
            let mode = asked.setting.mode.unwrap_or(Mode::Exclusive);
            let wanted = Wanted::new(asked.setting.run(mode));
            find_alike(table, other, owners, owner, &wanted) && set_alike(table, other, &asked)
        }
    }
}

// The first step at which they differ, if there is one.
fn first_difference<T: RangeTable, U: RangeTable>(
    table: &mut T,
    other: &mut U,
    owners: &Owners,
    asking: &Asking,
) -> Option<u32> {
    let mut random = 1;
    for i in 0..STEPS {
        let is_alike = step(table, other, owners, asking, &mut random);
        if !is_alike || (i % COMPARED == 0 && !hold_alike(table, other, owners)) {
            return Some(i);
        }
    }
    None
}

// Whether both are alike through the script and at its end, and have many runs then.
fn are_alike<T: RangeTable, U: RangeTable>(
    table: &mut T,
    other: &mut U,
    owners: &Owners,
    asking: &Asking,
) -> bool {
    first_difference(table, other, owners, asking).is_none()
        && hold_alike(table, other, owners)
        && table.used() > 1_000
}

/// The same of a flat table in which nothing is set and a fresh arena table. None where there is no memory.
pub(super) fn goes_beside_arena(
    alloc: Global,
    owners: &mut Owners,
    flat: &mut FlatTable,
) -> Option<bool> {
    let asking = asking(alloc, owners)?;
    let mut arena = ArenaTable::new(alloc).ok()?;
    Some(are_alike(&mut arena, flat, owners, &asking))
}
