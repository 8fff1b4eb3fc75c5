//! Worked rows over the flat table, and the limit. A row is a line:
//!
//! - `owner a/7/`: the owner gets a number, which the rows below need.
//! - `set a/7/ write 0 9`: it has set the bytes 0 to 9 of file 1 to `write`, `read` or `none`.
//! - `block b/7/ read 0 0 = 12`: the waiter 12 waits for that lock. `full ..`: it can't, since no place is free.
//! - `may-block b/7/ read 0 0`: one may wait for it. `deadlock ..`, `no-slots ..`: one may not.
//! - `cancel b/7/ read 0 0`: who waits for it waits no longer. `absent ..`: nobody does.
//! - `grants 12`: the waiter 12 is granted next, or none if 0. `grants-on 2 0 9 12`: the same after a change of the
//!   bytes 0 to 9 of file 2.
//! - `fill a/7/ 14`: so many wait, one for each byte, on the files 0 to 6 by turns.
//! - `close a/7/ 3`: it closes file 3. `drop-host a`, `clear`: the host's waiters go, or all.
//! - `take 5`: so many places go to calls. `too-many 5`: fewer are free. `lend 5`: they come back.
//! - `waits a/7/`, `waits-not a/7/`: whether it waits. `free 1`, `waiters 7`: so many places are free, so many wait.
use super::tables::Tables;
use crate::row::{Worked, play_each};
use crate::wrong::{Wrong, reads};
use blocked_list::{NoSlots, NotWaiting};
use std::test::*;

#[test]
fn error_texts(rt: HostRuntime) {
    assert!(rt; reads(NoSlots.to_string(rt.alloc()), "16 NoSlots"));
    assert!(rt; reads(NotWaiting.to_string(rt.alloc()), "17 NotWaiting"));
}

const CASES: &[Worked] = &[
    // a holds 0 to 9 and d 20, b waits for 0 and a for 0 to 20; then d unlocks.
    (
        "settle_twice",
        &[
            "owner a/7/",
            "owner b/7/",
            "owner d/7/",
            "set a/7/ write 0 9",
            "set d/7/ write 20 20",
            "block b/7/ read 0 0 = 12",
            "block a/7/ read 0 20 = 13",
            "grants 0",
            "set d/7/ none 20 20",
            "grants-on 2 20 20 0",
            "grants-on 1 21 30 0",
            "grants-on 1 20 20 13",
            "set a/7/ read 0 20",
            "grants 12",
        ],
    ),
    // The bytes of those who wait begin or end just beside those that are looked at, or share one with them.
    (
        "touched_by_a_byte",
        &[
            "owner a/7/",
            "owner b/7/",
            "block a/7/ read 10 19 = 1",
            "block b/7/ read 15 30 = 2",
            "grants-on 1 0 9 0",
            "grants-on 1 31 40 0",
            "grants-on 1 20 40 2",
            "grants-on 1 20 40 0",
            "grants-on 1 0 10 1",
            "grants-on 1 0 40 0",
        ],
    ),
    // Many wait for a byte each, on some files; and one for all those bytes of one, alone at last on its file.
    (
        "one_of_many",
        &[
            "owner a/7/",
            "owner b/7/",
            "fill a/7/ 1400",
            "block b/7/ read 0 2000 = 2000",
            "grants-on 1 1394 1394 1394",
            "grants-on 2 700 2000 702",
            "grants-on 9 0 2000 0",
            "close a/7/ 1",
            "grants-on 1 2001 3000 0",
            "grants-on 1 1394 1394 2000",
            "grants-on 1 0 2000 0",
            "waiters 1199",
        ],
    ),
    // a holds 1 and b holds 2, for which a waits; then b asks for 1.
    (
        "deadlock",
        &[
            "owner a/7/",
            "owner b/7/",
            "set a/7/ write 1 1",
            "set b/7/ write 2 2",
            "block a/7/ write 2 2 = 17",
            "deadlock b/7/ write 1 1",
        ],
    ),
    // The same with a description.
    (
        "description_waits",
        &[
            "owner a/7/",
            "owner d7",
            "set a/7/ write 1 1",
            "set d7 write 2 2",
            "block a/7/ write 2 2 = 17",
            "may-block d7 write 1 1",
        ],
    ),
    // a waits for b, and c for a; then b asks for what c holds, and c for what b holds.
    (
        "longer_cycle",
        &[
            "owner a/7/",
            "owner b/7/",
            "owner c/7/",
            "set a/7/ write 1 1",
            "set b/7/ write 2 2",
            "set c/7/ write 4 4",
            "block a/7/ write 2 2 = 1",
            "block c/7/ read 1 1 = 2",
            "deadlock b/7/ read 4 4",
            "may-block c/7/ read 2 2",
        ],
    ),
    (
        "slots_full",
        &[
            "owner a/7/",
            "take 8000",
            "fill a/7/ 191",
            "free 1",
            "block a/7/ read 250 250 = 191",
            "full a/7/ read 250 250 = 192",
            "too-many 1",
            "cancel a/7/ read 250 250",
            "absent a/7/ read 250 250",
            "free 1",
        ],
    ),
    (
        "no_place",
        &[
            "owner a/7/",
            "take 8191",
            "may-block a/7/ read 0 0",
            "take 1",
            "no-slots a/7/ read 0 0",
        ],
    ),
    (
        "drops",
        &[
            "owner a/7/",
            "owner b/7/",
            "fill a/7/ 14",
            "fill b/7/ 7",
            "waits a/7/",
            "close a/7/ 3",
            "waiters 19",
            "drop-host a",
            "waiters 7",
            "waits-not a/7/",
            "lend 5",
            "clear",
            "free 8192",
        ],
    ),
];

#[test]
fn waiters_go_as_rows_say(rt: HostRuntime) -> Result<(), Wrong> {
    play_each::<Tables>(rt.alloc(), CASES)
}
