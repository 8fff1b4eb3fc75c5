//! What owners hold and who is known, row by row and in a random script. A row is a line:
//!
//! - `set a/7/A write 0 9`: the owner becomes known, and has set the bytes 0 to 9 to `write`, `read` or `none`.
//! - `meets b/8/A read 0 9`: of the locks in the way of its read lock on the whole file, the first is on the bytes 0 to 9.
//!   `passes a/7/A write`: no lock is in its way.
//! - `forget p5`: it is forgotten, if it holds nothing. `close p5`: it closes the file.
//! - `known p5`, `unknown p5`: whether it has a number. `right p5`: it has one exactly where it holds something.
//! - `drop-host a`, `clear`: the host's owners go, or all.
//! - `turns 3000`: after each of so many turns of a random script everybody is known exactly where he holds something.
//! - `used 3`: so many locks are held. `roomy`: more can be set.
use crate::owner::read_owner;
use crate::random::next_word;
use crate::row::{Case, Row, Span, Worked, play_each};
use crate::wrong::Wrong;
use held_locks::{Locks, NewSetting, Request};
use owner_ids::Owner;
use range_table::{ByteRange, FileId, FlatTable, Mode};
use std::alloc::Global;
use std::test::*;

const END: u64 = 9_223_372_036_854_775_807;

fn file() -> FileId {
    FileId::new(&[1, 2, 3, 4])
}

// Makes the owner known and sets. Whether it was set. None where there is no memory.
fn set(
    locks: &mut Locks<FlatTable>,
    owner: &Owner,
    (mode, span): (Option<Mode>, Span),
) -> Option<bool> {
    locks.admit(owner).ok()?;
    let change = NewSetting {
        file: file(),
        owner,
        range: ByteRange {
            first: span.first,
            last: span.last,
        },
        mode,
    };
    Some(locks.set(&change).is_ok())
}

// The first and last byte of the first lock in the way of a lock on the whole file.
fn in_the_way(locks: &Locks<FlatTable>, owner: &Owner, mode: Mode) -> Option<(u64, u64)> {
    let wanted = Request {
        file: file(),
        owner,
        range: ByteRange {
            first: 0,
            last: END,
        },
        mode,
    };
    match locks.first_conflict(&wanted) {
        Some(found) if locks.conflicts(&wanted) => Some((found.first, found.last)),
        _ => None,
    }
}

fn is_known(locks: &Locks<FlatTable>, owner: &Owner) -> bool {
    let (_, owners) = locks.parts();
    owners.number(owner).is_some()
}

fn holds(locks: &Locks<FlatTable>, owner: &Owner) -> bool {
    for i in 0..locks.used() {
        if locks.holder(i).owner == owner {
            return true;
        }
    }
    false
}

// What an owner asks for.
fn asks(locks: &mut Locks<FlatTable>, owner: &Owner, row: &Row<'_>) -> Option<bool> {
    let span = row.span()?;
    if row.verb == "set" {
        return set(locks, owner, (row.mode, span));
    }
    let found = in_the_way(locks, owner, row.mode?);
    match row.verb {
        "meets" => Some(found == Some((span.first, span.last))),
        "passes" => Some(found.is_none()),
        _ => None,
    }
}

// What an owner does, or is.
fn goes_by(locks: &mut Locks<FlatTable>, owner: &Owner, row: &Row<'_>) -> Option<bool> {
    match row.verb {
        "known" => Some(is_known(locks, owner)),
        "unknown" => Some(!is_known(locks, owner)),
        "right" => Some(holds(locks, owner) == is_known(locks, owner)),
        "forget" => {
            locks.forget_idle(owner);
            Some(true)
        }
        "close" => {
            locks.drop_owner_on_file(&file(), owner);
            Some(true)
        }
        _ => asks(locks, owner, row),
    }
}

/// The locks, and where the owners' bytes lie.
#[derive(Drop)]
struct Play {
    alloc: Global,
    locks: Locks<FlatTable>,
}

impl Play {
    fn by_owner(&mut self, row: &Row<'_>) -> Option<bool> {
        let owner = read_owner(self.alloc, row.who)?;
        goes_by(&mut self.locks, &owner, row)
    }
}

/// Those who take part in the random script.
const WHO: [&str; 4] = ["a/1/A", "a/2/A", "b/1/A", "d1"];

// A row of the random script: an owner sets a few bytes, or closes the file.
fn random_row(random: u32) -> Row<'static> {
    let first = u64::from(random >> 20 & 31);
    let last = first + u64::from(random >> 16 & 7);
    let (verb, mode) = match random >> 12 & 15 {
        0..8 => ("set", None),
        8..12 => ("set", Some(Mode::Exclusive)),
        12..15 => ("set", Some(Mode::Shared)),
        _ => ("close", None),
    };
    Row {
        verb,
        who: WHO[(random >> 28 & 3) as usize],
        whom: "",
        mode,
        numbers: [first, last, 0, 0],
    }
}

impl Play {
    // Whether everybody is known exactly where he holds something.
    fn are_right(&mut self, row: &Row<'_>) -> bool {
        for who in &WHO {
            let asked = Row {
                verb: "right",
                who: *who,
                ..*row
            };
            if self.by_owner(&asked) != Some(true) {
                return false;
            }
        }
        true
    }

    // An owner does something, and is forgotten if it holds nothing then.
    fn turn(&mut self, random: u32) -> bool {
        let row = random_row(random);
        let forgotten = Row {
            verb: "forget",
            ..row
        };
        self.by_owner(&row).is_some()
            && self.by_owner(&forgotten) == Some(true)
            && self.are_right(&row)
    }

    fn goes_in_turns(&mut self, turns: u64) -> bool {
        let mut random: u32 = 1;
        for _ in 0..turns {
            if !self.turn(next_word(&mut random)) {
                return false;
            }
        }
        true
    }
}

impl Case for Play {
    fn begin(alloc: Global) -> Option<Play> {
        let table = FlatTable::new(alloc).ok()?;
        Some(Play {
            alloc,
            locks: Locks::new(alloc, table),
        })
    }

    fn goes(&mut self, row: &Row<'_>) -> Option<bool> {
        match row.verb {
            "used" => Some(u64::from(self.locks.used()) == row.numbers[0]),
            "turns" => Some(self.goes_in_turns(row.numbers[0])),
            "roomy" => Some(!self.locks.is_short()),
            "drop-host" => {
                self.locks.drop_host(row.who.as_bytes());
                Some(true)
            }
            "clear" => {
                self.locks.clear();
                Some(true)
            }
            _ => self.by_owner(row),
        }
    }
}

const CASES: &[Worked] = &[
    (
        "test_after_lock",
        &[
            "set a/7/A write 0 9",
            "meets b/8/A read 0 9",
            "passes a/7/A write",
            "unknown b/8/A",
            "set a/7/A none 4 5",
            "set b/8/A read 9223372036854775807 9223372036854775807",
            "used 3",
            "meets b/8/A read 0 3",
            "meets a/7/A write 9223372036854775807 9223372036854775807",
            "passes a/7/A read",
            "roomy",
        ],
    ),
    (
        "owners_are_known_while_they_hold",
        &[
            "set a/7/A read 0 9",
            "forget a/7/A",
            "known a/7/A",
            "set b/8/A read 0 9",
            "forget b/8/A",
            "known b/8/A",
            "set p5 read 0 9",
            "forget p5",
            "known p5",
            "set p5 none 2 3",
            "forget p5",
            "known p5",
            "close p5",
            "known p5",
            "forget p5",
            "unknown p5",
            "drop-host a",
            "unknown a/7/A",
            "known b/8/A",
            "used 1",
            "clear",
            "unknown b/8/A",
            "used 0",
        ],
    ),
    ("a_random_script", &["turns 3000"]),
];

#[test]
fn locks_go_as_rows_say(rt: HostRuntime) -> Result<(), Wrong> {
    play_each::<Play>(rt.alloc(), CASES)
}
