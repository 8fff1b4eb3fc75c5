//! What clients and processes ask, and what the table answers. A row is a line:
//!
//! - `owner p42`: the owner gets a number, which the rows below need.
//! - `set p42 write 0 9`: it has set the bytes 0 to 9 to `write`, `read` or `none`. `refused p42 none 1 1`: it has not, since
//!   the table is full. `refuses p42 none 1 1`: it would not.
//! - `meets b/8/B 0 9 = p42 3 5`: in the way of its write lock on the bytes 0 to 9, the first lock is that of `p42` on the bytes
//!   3 to 5. `passes b/8/B 0 9`: none is.
//! - `makes a/7/A write 0 9 = 2`: then there would be two runs.
//! - `fill a/7/A`: it sets each second byte from the byte 4 on, until the table is full.
//! - `close p42`: it closes the file. `clear`: nobody holds anything.
//! - `idle p42`: it holds nothing. `leaves p42`, `stays p42`: its number goes out of use, or may not.
//! - `rounds 200`: after each of so many random changes the table answers as a plain list.
//! - `beside-arena`: a random script makes the same of it and of an arena table.
//! - `used 2`, `host a 1`: so many runs there are, or are of the host. `run 0 0 2`: the run 0 is of the bytes 0 to 2.
use super::table::Held;
use crate::row::{Worked, play_each};
use crate::wrong::Wrong;
use std::test::*;

const CASES: &[Worked] = &[
    (
        "test_after_lock",
        &[
            "owner a/7/A",
            "owner b/8/B",
            "set a/7/A write 0 9",
            "meets b/8/B 0 9223372036854775807 = a/7/A 0 9",
            "set a/7/A none 3 5",
            "meets b/8/B 0 9223372036854775807 = a/7/A 0 2",
            "used 2",
            "run 0 0 2",
            "run 1 6 9",
        ],
    ),
    (
        "ends_of_file",
        &[
            "owner a/7/A",
            "owner b/8/B",
            "set a/7/A write 9223372036854775807 9223372036854775807",
            "set a/7/A write 9223372036854775807 9223372036854775807",
            "meets b/8/B 0 9223372036854775807 = a/7/A 9223372036854775807 9223372036854775807",
            "used 1",
        ],
    ),
    (
        "local_lines",
        &[
            "owner p42",
            "owner d7",
            "owner b/8/B",
            "set p42 write 3 5",
            "meets b/8/B 4 4 = p42 3 5",
            "meets d7 0 9223372036854775807 = p42 3 5",
            "close p42",
            "passes d7 0 9223372036854775807",
            "set d7 write 0 9223372036854775807",
            "meets b/8/B 1 1 = d7 0 9223372036854775807",
        ],
    ),
    (
        "quota_of_runs",
        &[
            "owner a/7/A",
            "set a/7/A write 0 9",
            "host a 1",
            "host b 0",
            "makes a/7/A write 20 20 = 2",
            "set a/7/A write 10 14",
            "makes a/7/A none 5 5 = 2",
            "makes a/7/A none 0 4 = 1",
        ],
    ),
    (
        "who_holds_nothing_may_go",
        &[
            "owner p1",
            "set p1 write 0 9",
            "stays p1",
            "clear",
            "idle p1",
            "leaves p1",
        ],
    ),
    ("a_random_script_beside_a_plain_list", &["rounds 200"]),
];

#[test]
fn the_table_goes_as_rows_say(rt: HostRuntime) -> Result<(), Wrong> {
    play_each::<Held>(rt.alloc(), CASES)
}

/// These two take their time, so each is a test of its own.
const TABLE_FULL: &[Worked] = &[(
    "table_full",
    &[
        "owner a/7/A",
        "owner b/8/B",
        "set a/7/A write 0 2",
        "fill a/7/A",
        "used 65535",
        "refused b/8/B write 200000 200000",
        "refuses a/7/A none 1 1",
        "refused a/7/A none 1 1",
        "meets b/8/B 1 1 = a/7/A 0 2",
        "set a/7/A none 4 4",
        "set a/7/A none 1 1",
        "used 65535",
    ],
)];

#[test]
fn table_full(rt: HostRuntime) -> Result<(), Wrong> {
    play_each::<Held>(rt.alloc(), TABLE_FULL)
}

const BOTH_TABLES: &[Worked] = &[("one_script_through_both_tables", &["beside-arena"])];

#[test]
fn one_script_through_both_tables(rt: HostRuntime) -> Result<(), Wrong> {
    play_each::<Held>(rt.alloc(), BOTH_TABLES)
}
