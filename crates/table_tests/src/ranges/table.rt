//! A table with its owners, and the rows that it plays.
use super::beside::goes_beside_arena;
use super::scripts::goes_in_rounds;
use crate::owner::{intern, number};
use crate::row::{Case, Row, Span};
use held_locks::used_of;
use owner_ids::{OneOwner, OwnerId, Owners};
use range_table::{FileId, FlatTable, Mode, RangeTable, Ranged, Run, Setting, Wanted};
use std::alloc::Global;

fn file() -> FileId {
    FileId::new(&[1, 2, 3, 4])
}

/// A setting of the file.
fn of(owner: OwnerId, wanted: (Option<Mode>, Span)) -> Ranged {
    let (mode, span) = wanted;
    let setting = Setting::new(&file(), owner, span.first, span.last, mode);
    Ranged { setting }
}

/// The i-th run.
pub(super) fn nth<T: RangeTable>(table: &T, owners: &Owners, i: u32) -> Option<Run> {
    if i < table.used() {
        Some(table.runs(owners, i))
    } else {
        None
    }
}

/// Whether it was set.
pub(super) fn set<T: RangeTable>(table: &mut T, asked: &Ranged) -> bool {
    let s = &asked.setting;
    table.set(&s.file, s.owner, s.first, s.last, s.mode).is_ok()
}

/// How many runs there would be.
pub(super) fn used_after<T: RangeTable>(table: &T, asked: &Ranged) -> u32 {
    let s = &asked.setting;
    table.used_after(&s.file, s.owner, s.first, s.last, s.mode)
}

#[derive(Drop)]
pub(super) struct Held {
    alloc: Global,
    owners: Owners,
    table: FlatTable,
}

impl Held {
    fn number(&self, who: &str) -> Option<OwnerId> {
        number(self.alloc, &self.owners, who)
    }

    // Whether it was set.
    fn set(&mut self, owner: OwnerId, wanted: (Option<Mode>, Span)) -> bool {
        set(&mut self.table, &of(owner, wanted))
    }

    fn refuses(&self, owner: OwnerId, wanted: (Option<Mode>, Span)) -> bool {
        let (mode, span) = wanted;
        self.table
            .refuses(&file(), owner, span.first, span.last, mode)
    }

    // Single bytes 4, 6, 8, .. of an owner. Whether all were set.
    fn fill(&mut self, owner: OwnerId) -> bool {
        for i in 2..65_536u64 {
            let byte = i * 2;
            let span = Span {
                first: byte,
                last: byte,
            };
            if !self.set(owner, (Some(Mode::Exclusive), span)) {
                return false;
            }
        }
        true
    }

    // The first run in the way of an owner's write lock.
    fn in_the_way(&self, owner: OwnerId, span: Span) -> Option<Run> {
        let wanted = Wanted::new(Run {
            file: file(),
            owner,
            first: span.first,
            last: span.last,
            mode: Mode::Exclusive,
        });
        self.table.first_conflict(&self.owners, &wanted)
    }

    fn meets(&self, owner: OwnerId, span: Span, row: &Row<'_>) -> Option<bool> {
        let run = self.in_the_way(owner, span)?;
        let holder = self.number(row.whom)?;
        let [_, _, first, last] = row.numbers;
        Some(run.owner == holder && run.first == first && run.last == last)
    }

    fn is_idle(&self, owner: OwnerId) -> bool {
        self.table.used_of(&OneOwner { owner }) == 0
    }

    // The number is in use. Whether it went out of use, which it does where it has no run.
    fn release(&mut self, owner: OwnerId) -> Option<bool> {
        if self.owners.find(owner).is_none() {
            return None;
        }
        let idle = self.is_idle(owner);
        if idle {
            self.owners.release(owner);
        }
        Some(idle)
    }

    fn is_nth(&self, row: &Row<'_>) -> Option<bool> {
        let [place, first, last, _] = row.numbers;
        let run = nth(&self.table, &self.owners, u32::try_from(place).ok()?)?;
        Some(run.first == first && run.last == last)
    }

    // How many runs there would be.
    fn after(&self, owner: OwnerId, wanted: (Option<Mode>, Span)) -> u32 {
        used_after(&self.table, &of(owner, wanted))
    }

    // What an owner does, or is.
    fn goes_by(&mut self, owner: OwnerId, row: &Row<'_>) -> Option<bool> {
        match row.verb {
            "fill" => Some(self.fill(owner)),
            "idle" => Some(self.is_idle(owner)),
            "leaves" => self.release(owner),
            "stays" => Some(!self.release(owner)?),
            "close" => {
                self.table.drop_owner_on_file(&file(), owner);
                Some(true)
            }
            _ => self.asks(owner, row.span()?, row),
        }
    }

    // What an owner asks for.
    fn asks(&mut self, owner: OwnerId, span: Span, row: &Row<'_>) -> Option<bool> {
        let wanted = (row.mode, span);
        match row.verb {
            "set" => Some(self.set(owner, wanted)),
            "refused" => Some(!self.set(owner, wanted)),
            "refuses" => Some(self.refuses(owner, wanted)),
            "makes" => Some(u64::from(self.after(owner, wanted)) == row.numbers[2]),
            "meets" => self.meets(owner, span, row),
            "passes" => Some(self.in_the_way(owner, span).is_none()),
            _ => None,
        }
    }

    // What is no owner's.
    fn goes_with(&mut self, row: &Row<'_>) -> Option<bool> {
        let [count, ..] = row.numbers;
        match row.verb {
            "used" => Some(u64::from(self.table.used()) == count),
            "host" => {
                let used = used_of(&self.table, &self.owners, row.who.as_bytes());
                Some(u64::from(used) == count)
            }
            "run" => self.is_nth(row),
            "clear" => {
                self.table.clear();
                Some(true)
            }
            _ => None,
        }
    }
}

impl Case for Held {
    fn begin(alloc: Global) -> Option<Held> {
        let table = FlatTable::new(alloc).ok()?;
        Some(Held {
            alloc,
            owners: Owners::new(alloc),
            table,
        })
    }

    fn goes(&mut self, row: &Row<'_>) -> Option<bool> {
        let [rounds, ..] = row.numbers;
        if let Some(owner) = self.number(row.who) {
            return self.goes_by(owner, row);
        }
        match row.verb {
            "owner" => Some(intern(self.alloc, &mut self.owners, row.who).is_some()),
            "rounds" => goes_in_rounds(self.alloc, &mut self.owners, &mut self.table, rounds),
            "beside-arena" => goes_beside_arena(self.alloc, &mut self.owners, &mut self.table),
            _ => self.goes_with(row),
        }
    }
}
