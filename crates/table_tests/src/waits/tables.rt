//! The waiters beside the owners and the locks that they wait for, and the rows that these play.
ghost use Rattle.std.specs.Prelude.{None};

use crate::owner::{intern, number};
use crate::row::{Case, Row, Span};
use blocked_list::{NoSlots, NotWaiting, Quotas, Slots, Touched, Waiter};
use callbacks::{Callback, Destination, Message, ShortBytes};
use held_locks::RunsOfHosts;
use owner_ids::{OwnerId, Owners};
use range_table::{FileId, FlatTable, Mode, RangeTable, Run, Wanted};
use std::alloc::{AllocError, Global};

/// The file of this number.
fn file(number: u64) -> FileId {
    FileId::new(&number.to_be_bytes())
}

/// A lock of a file.
fn lock_on(file: FileId, owner: OwnerId, (mode, span): (Mode, Span)) -> Wanted {
    Wanted::new(Run {
        file,
        owner,
        first: span.first,
        last: span.last,
        mode,
    })
}

/// No host has a quota.
struct Unlimited;

impl Quotas for Unlimited {
    ghost by_host = { λ unlimited host. None };

    fn quota(&self, _host: &[u8]) -> Option<u32> {
        None
    }
}

// Nobody asks, since no host has a quota.
impl RunsOfHosts for Unlimited {
    ghost runs = { λ unlimited host. 0 };

    fn runs_of(&self, _host: &[u8]) -> u32 {
        0
    }
}

/// A callback that only its number tells apart.
fn callback(alloc: Global, number: i32) -> Result<Callback, AllocError> {
    Ok(Callback::new(
        Destination::Connection(1),
        Message::Notify {
            name: ShortBytes::copy_of(alloc, b"x")?,
            state: number,
        },
    ))
}

fn number_of(waiter: &Waiter) -> u64 {
    match waiter.callback().message() {
        Message::Notify { state, .. } => u64::from(state.unsigned_abs()),
        _ => u64::MAX,
    }
}

// Whether it waits then. None where there is no memory.
fn block(alloc: Global, slots: &mut Slots, wanted: Wanted, number: i32) -> Option<bool> {
    let waiter = Waiter::new(wanted, callback(alloc, number).ok()?);
    Some(slots.block(waiter).is_ok())
}

/// Grants the waiter at a place, and gives its number.
fn grant(slots: &mut Slots, place: Option<usize>) -> u64 {
    match place {
        Some(place) if place < slots.waiters().len() => {
            let waiter = slots.grant(place);
            let number = number_of(&waiter);
            // Called, its drop is proved once, and not here for each kind of message.
            drop(waiter);
            number
        }
        _ => 0,
    }
}

/// The tables together.
#[derive(Drop)]
pub(super) struct Tables {
    alloc: Global,
    owners: Owners,
    table: FlatTable,
    slots: Slots,
}

impl Tables {
    fn number(&self, who: &str) -> Option<OwnerId> {
        number(self.alloc, &self.owners, who)
    }

    // Whether it was set.
    fn set(&mut self, owner: OwnerId, (mode, span): (Option<Mode>, Span)) -> bool {
        self.table
            .set(&file(1), owner, span.first, span.last, mode)
            .is_ok()
    }

    fn block(&mut self, wanted: Wanted, number: u64) -> Option<bool> {
        let number = i32::try_from(number).ok()?;
        block(self.alloc, &mut self.slots, wanted, number)
    }

    // Whether waiting for it would close a cycle.
    fn is_deadlock(&self, wanted: &Wanted) -> bool {
        self.slots.closes_cycle(&self.table, &self.owners, wanted)
    }

    // So many wait, or as many as there are places, on files by turns.
    fn fill(&mut self, owner: OwnerId, count: u64) -> bool {
        for byte in 0..count.min(8_192) {
            let span = Span {
                first: byte,
                last: byte,
            };
            let wanted = lock_on(file(byte % 7), owner, (Mode::Shared, span));
            if self.block(wanted, byte) != Some(true) {
                return false;
            }
        }
        true
    }

    // The number of the waiter that is granted next, or 0.
    fn grants(&mut self) -> u64 {
        let place = self
            .slots
            .next_grantable(&self.table, &self.owners, &Unlimited, &Unlimited);
        grant(&mut self.slots, place)
    }

    // The same after a change of these bytes.
    fn grants_on(&mut self, touched: &Touched) -> u64 {
        let place = self
            .slots
            .next_grantable_on(&self.table, &self.owners, &Unlimited, &Unlimited, touched);
        grant(&mut self.slots, place)
    }

    // What an owner does, or is.
    fn goes_by(&mut self, owner: OwnerId, row: &Row<'_>) -> Option<bool> {
        let [number, ..] = row.numbers;
        match row.verb {
            "fill" => Some(self.fill(owner, number)),
            "waits" => Some(self.slots.has_owner(owner)),
            "waits-not" => Some(!self.slots.has_owner(owner)),
            "close" => {
                self.slots.drop_owner_on_file(&file(number), owner);
                Some(true)
            }
            _ => self.goes_in(owner, row.span()?, row),
        }
    }

    fn goes_in(&mut self, owner: OwnerId, span: Span, row: &Row<'_>) -> Option<bool> {
        if row.verb == "set" {
            return Some(self.set(owner, (row.mode, span)));
        }
        self.asks(lock_on(file(1), owner, (row.mode?, span)), row)
    }

    // What an owner asks for.
    fn asks(&mut self, wanted: Wanted, row: &Row<'_>) -> Option<bool> {
        let [_, _, number, _] = row.numbers;
        match row.verb {
            "block" => self.block(wanted, number),
            "full" => Some(!self.block(wanted, number)?),
            "cancel" => Some(self.slots.cancel(&wanted) == Ok(())),
            "absent" => Some(self.slots.cancel(&wanted) == Err(NotWaiting)),
            _ => self.may_wait(&wanted, row.verb),
        }
    }

    // Whether one may wait for it, or why one may not.
    fn may_wait(&self, wanted: &Wanted, verb: &str) -> Option<bool> {
        let is_deadlock = self.is_deadlock(wanted);
        let is_free = self.slots.free() > 0;
        match verb {
            "may-block" => Some(!is_deadlock && is_free),
            "deadlock" => Some(is_deadlock),
            "no-slots" => Some(!is_deadlock && !is_free),
            _ => None,
        }
    }

    // What becomes of so many places.
    fn goes_with(&mut self, verb: &str, count: usize) -> Option<bool> {
        match verb {
            "take" => Some(self.slots.take(count) == Ok(())),
            "too-many" => Some(self.slots.take(count) == Err(NoSlots)),
            "lend" => Some(lend(&mut self.slots, count)),
            "free" => Some(self.slots.free() == count),
            "waiters" => Some(self.slots.waiters().len() == count),
            _ => None,
        }
    }
}

// Takes places and gives them back.
fn lend(slots: &mut Slots, count: usize) -> bool {
    match slots.take(count) {
        Ok(()) => {
            slots.give(count);
            true
        }
        Err(NoSlots) => false,
    }
}

impl Case for Tables {
    fn begin(alloc: Global) -> Option<Tables> {
        let table = FlatTable::new(alloc).ok()?;
        let slots = Slots::new(alloc).ok()?;
        Some(Tables {
            alloc,
            owners: Owners::new(alloc),
            table,
            slots,
        })
    }

    fn goes(&mut self, row: &Row<'_>) -> Option<bool> {
        let [first, second, third, fourth] = row.numbers;
        if let Some(owner) = self.number(row.who) {
            return self.goes_by(owner, row);
        }
        match row.verb {
            "owner" => Some(intern(self.alloc, &mut self.owners, row.who).is_some()),
            "grants" => Some(self.grants() == first),
            "grants-on" => {
                let touched = Touched {
                    file: file(first),
                    first: second,
                    last: third,
                };
                Some(self.grants_on(&touched) == fourth)
            }
            "drop-host" => {
                self.slots.drop_host(&self.owners, row.who.as_bytes());
                Some(true)
            }
            "clear" => {
                self.slots.clear();
                Some(true)
            }
            _ => self.goes_with(row.verb, usize::try_from(first).ok()?),
        }
    }
}
