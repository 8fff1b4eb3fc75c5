//! Owners and the numbers that they have. The numbers that rows ask for have places, from 0 on. A row is a line:
//!
//! - `intern p42`: the owner gets a number, which has the next place.
//! - `release 0`: the number at this place is used no longer.
//! - `same 3 0`, `differ 1 2`: whether the numbers at two places are the same.
//! - `is d7 2`: the number at this place is this owner's.
//! - `behind 0 1`: the number at the first place stands behind that at the second, and as itself.
//! - `host a 3`, `one 3 1`: so many of the numbers are of the host's owners, or are that at a place.
//! - `nobody a 1000`: no owner of the host has this number.
use crate::owner::{intern, read_owner};
use crate::row::{Case, Row, Worked, play_each};
use crate::wrong::Wrong;
use owner_ids::{Host, HostOf, OneOwner, OwnerId, OwnerOrder, Owners};
use std::alloc::Global;
use std::test::*;

#[derive(Drop)]
struct Play {
    alloc: Global,
    owners: Owners,
    numbers: Vec<OwnerId>,
}

fn count<H: Host>(numbers: &[OwnerId], host: &H) -> u64 {
    let mut count = 0u64;
    for number in numbers {
        if host.has(*number) {
            count = count.saturating_add(1);
        }
    }
    count
}

impl Play {
    fn number(&self, place: u64) -> Option<OwnerId> {
        self.numbers.get(usize::try_from(place).ok()?).copied()
    }

    fn intern(&mut self, who: &str) -> Option<bool> {
        let number = intern(self.alloc, &mut self.owners, who)?;
        self.numbers.push(number).ok()?;
        Some(true)
    }

    fn release(&mut self, number: OwnerId) -> bool {
        let is_used = self.owners.find(number).is_some();
        if is_used {
            self.owners.release(number);
        }
        is_used
    }

    fn is_of(&self, number: OwnerId, who: &str) -> Option<bool> {
        let owner = read_owner(self.alloc, who)?;
        Some(self.owners.find(number).is_some() && *self.owners.get(number) == owner)
    }

    fn is_behind(&self, last: OwnerId, first: OwnerId) -> bool {
        self.owners.compare(first, last).is_lt()
            && self.owners.compare(last, first).is_gt()
            && self.owners.compare(last, last).is_eq()
    }

    fn host<'a>(&'a self, name: &'a str) -> HostOf<'a> {
        HostOf {
            owners: &self.owners,
            name: name.as_bytes(),
        }
    }

    // Whether no owner of the host has this number.
    fn is_nobody(&self, host: &str, number: u64) -> Option<bool> {
        let number = u32::try_from(number).ok()?;
        Some(!self.host(host).has(number))
    }
}

impl Play {
    fn compares(&self, verb: &str, first: OwnerId, second: OwnerId) -> Option<bool> {
        match verb {
            "same" => Some(first == second),
            "differ" => Some(first != second),
            "behind" => Some(self.is_behind(first, second)),
            _ => None,
        }
    }

    // What a number does, or is.
    fn goes_of(&mut self, number: OwnerId, row: &Row<'_>) -> Option<bool> {
        match row.verb {
            "release" => Some(self.release(number)),
            "is" => self.is_of(number, row.who),
            "one" => {
                let one = OneOwner { owner: number };
                Some(count(&self.numbers, &one) == row.numbers[1])
            }
            _ => self.compares(row.verb, number, self.number(row.numbers[1])?),
        }
    }
}

impl Case for Play {
    fn begin(alloc: Global) -> Option<Play> {
        Some(Play {
            alloc,
            owners: Owners::new(alloc),
            numbers: Vec::new(alloc),
        })
    }

    fn goes(&mut self, row: &Row<'_>) -> Option<bool> {
        let [first, ..] = row.numbers;
        match row.verb {
            "intern" => self.intern(row.who),
            "host" => Some(count(&self.numbers, &self.host(row.who)) == first),
            "nobody" => self.is_nobody(row.who, first),
            _ => self.goes_of(self.number(first)?, row),
        }
    }
}

const CASES: &[Worked] = &[
    (
        "an_owner_has_one_number",
        &[
            "intern a/7/A",
            "intern p42",
            "intern d7000000000",
            "differ 0 1",
            "differ 1 2",
            "differ 2 0",
            "intern a/7/A",
            "same 3 0",
            "is d7000000000 2",
        ],
    ),
    (
        "a_number_goes_with_its_owner",
        &[
            "intern b/-8/B",
            "release 0",
            "intern p42",
            "intern b/-8/B",
            "differ 1 2",
            "is b/-8/B 2",
        ],
    ),
    (
        "numbers_stand_as_their_owners",
        &[
            "intern d1",
            "intern p2",
            "intern b/-1/",
            "intern a/5/B",
            "intern a/5/A",
            "intern a/-5/C",
            "behind 0 1",
            "behind 1 2",
            "behind 2 3",
            "behind 3 4",
            "behind 4 5",
            "host a 3",
            "one 3 1",
            "nobody a 1000",
        ],
    ),
];

#[test]
fn owners_have_numbers_as_rows_say(rt: HostRuntime) -> Result<(), Wrong> {
    play_each::<Play>(rt.alloc(), CASES)
}
