//! Random settings and drops, after each of which the table answers as the plain list.
ghost use Rattle.std.specs.Prelude.{◌<◌};

use super::plain::{first_against, nth_on, starts_on};
use super::table::{nth, set};
use crate::owner::intern;
use held_locks::used_of;
use owner_ids::{HostOf, OwnerId, Owners};
use range_table::{FileId, FlatTable, Mode, RangeTable, Ranged, Setting, Wanted};
use std::alloc::Global;

// A generator of numbers, as C's old one.
#[derive(Drop)]
struct Numbers {
    state: u32,
}

impl Numbers {
    fn below(&mut self, bound: u32) -> u32
        requires { 0 < bound }
        ensures { result < bound }
    {
        self.state = self.state.wrapping_mul(1_103_515_245).wrapping_add(12_345);
        (self.state >> 16) % bound
    }
}

// Those who take part, in their order. The first two are of host a.
type Order = [OwnerId; 5];

// They get their numbers in another order.
fn order_of(alloc: Global, owners: &mut Owners) -> Option<Order> {
    let process = intern(alloc, owners, "p2")?;
    let b = intern(alloc, owners, "b/1/")?;
    let second = intern(alloc, owners, "a/9/x")?;
    let description = intern(alloc, owners, "d1")?;
    let first = intern(alloc, owners, "a/-9/x")?;
    Some([first, second, b, process, description])
}

fn file_of(number: u32) -> FileId {
    if number == 0 {
        FileId::new(&[7])
    } else {
        FileId::new(&[7, 0])
    }
}

fn setting_of(numbers: &mut Numbers, order: &Order) -> Ranged {
    let owner = order[numbers.below(5) as usize];
    let file = file_of(numbers.below(2));
    let first = u64::from(numbers.below(12));
    let last = first + u64::from(numbers.below(7));
    let mode = match numbers.below(3) {
        0 => None,
        1 => Some(Mode::Shared),
        _ => Some(Mode::Exclusive),
    };
    let setting = Setting::new(&file, owner, first, last, mode);
    Ranged { setting }
}

// Whether the runs of a file, of which the table's n-th is the first, are those of the list.
fn has_runs(
    table: &FlatTable,
    owners: &Owners,
    settings: &[Setting],
    order: &Order,
    file: &FileId,
    from: u32,
) -> bool {
    for n in 0..starts_on(settings, file, order) {
        let run = nth(table, owners, from.saturating_add(n));
        let Some(run) = run else {
            return false;
        };
        if !run.file.is_same(file)
            || nth_on(settings, file, order, n) != Some((run.owner, run.first, run.last))
        {
            return false;
        }
    }
    true
}

fn counts_agree(table: &FlatTable, owners: &Owners, settings: &[Setting], order: &Order) -> bool {
    let host = [order[0], order[1]];
    let on_one = starts_on(settings, &file_of(0), order);
    let on_other = starts_on(settings, &file_of(1), order);
    let of_host = starts_on(settings, &file_of(0), &host);
    let of_host_too = starts_on(settings, &file_of(1), &host);
    table.used() == on_one.saturating_add(on_other)
        && used_of(table, owners, b"a") == of_host.saturating_add(of_host_too)
        && has_runs(table, owners, settings, order, &file_of(0), 0)
        && has_runs(table, owners, settings, order, &file_of(1), on_one)
}

fn conflicts_agree(
    table: &FlatTable,
    owners: &Owners,
    settings: &[Setting],
    order: &Order,
    asked: &Ranged,
) -> bool {
    let setting = &asked.setting;
    let Some(mode) = setting.mode else {
        return true;
    };
    let wanted = Wanted::new(setting.run(mode));
    let found = match table.first_conflict(owners, &wanted) {
        Some(run) => Some((run.owner, run.first)),
        None => None,
    };
    found == first_against(settings, setting, order)
}

/// The settings of a table as a plain list, by whom they are, and the numbers that tell the next one.
#[derive(Drop)]
struct Listed {
    settings: Vec<Setting>,
    order: Order,
    numbers: Numbers,
}

impl Listed {
    fn drops_host(&mut self, table: &mut FlatTable, owners: &Owners) {
        table.drop_host(&HostOf { owners, name: b"a" });
        let (first, second) = (self.order[0], self.order[1]);
        self.settings
            .retain(|s| s.owner != first && s.owner != second);
    }

    fn closes(&mut self, table: &mut FlatTable, file: &FileId, owner: OwnerId) {
        table.drop_owner_on_file(file, owner);
        self.settings
            .retain(|s| s.owner != owner || !s.file.is_same(file));
    }

    // One random change on both sides. None where there is no memory, or no room in the table.
    fn change(&mut self, table: &mut FlatTable, owners: &Owners) -> Option<()> {
        let asked = setting_of(&mut self.numbers, &self.order);
        match self.numbers.below(16) {
            0 => self.drops_host(table, owners),
            1 => self.closes(table, &asked.setting.file, asked.setting.owner),
            _ => {
                if !set(table, &asked) {
                    return None;
                }
                self.settings.push(asked.setting).ok()?;
            }
        }
        Some(())
    }

    // Whether both are alike after one more change.
    fn round(&mut self, table: &mut FlatTable, owners: &Owners) -> Option<bool> {
        self.change(table, owners)?;
        let asked = setting_of(&mut self.numbers, &self.order);
        Some(
            counts_agree(table, owners, &self.settings, &self.order)
                && conflicts_agree(table, owners, &self.settings, &self.order, &asked),
        )
    }
}

fn rounds_agree(listed: &mut Listed, table: &mut FlatTable, owners: &Owners, rounds: u64) -> bool {
    for _ in 0..rounds {
        if listed.round(table, owners) != Some(true) {
            return false;
        }
    }
    true
}

/// Whether a table in which nothing is set answers as the list after each of so many random changes. None where there is no
/// memory to begin with.
pub(super) fn goes_in_rounds(
    alloc: Global,
    owners: &mut Owners,
    table: &mut FlatTable,
    rounds: u64,
) -> Option<bool> {
    let order = order_of(alloc, owners)?;
    let mut listed = Listed {
        settings: Vec::new(alloc),
        order,
        numbers: Numbers { state: 1 },
    };
    Some(rounds_agree(&mut listed, table, owners, rounds))
}
