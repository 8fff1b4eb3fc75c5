//! Boots of hosts: a row for each order in which LOCKs and notices report them, two hosts side by side, and a full table.
use crate::wrong::{NO_MEMORY, Wrong, all_hold, nowhere};
use boot_states::Finding::{Reboot, Reported, SameBoot};
use boot_states::{BootStates, Finding, Kind, MOST_HOSTS, Report};
use std::alloc::Global;
use std::test::*;

/// A report by its number, and what it is to find.
#[derive(Clone, Copy)]
enum Turn {
    Lock(i32, Finding),
    Notice(i32, Finding),
}

use Turn::{Lock, Notice};

/// Whether the host's report finds what it is to find.
fn is_found(boots: &mut BootStates, name: &[u8], turn: Turn) -> bool {
    let (kind, state, finding) = match turn {
        Lock(state, finding) => (Kind::Lock, state, finding),
        Notice(state, finding) => (Kind::Notice, state, finding),
    };
    boots.hear(name, Report { kind, state }) == Ok(finding)
}

/// The reports of a host, in order.
struct Row {
    what: &'static str,
    turns: &'static [Turn],
}

const ROWS: &[Row] = &[
    Row {
        what: "a LOCK comes first, then the notice",
        turns: &[
            Lock(3, SameBoot),
            Lock(5, Reboot),
            Notice(8, Reported),
            Lock(5, SameBoot),
            Notice(8, SameBoot),
        ],
    },
    Row {
        what: "the notice comes first, then a LOCK",
        turns: &[
            Lock(3, SameBoot),
            Notice(8, Reboot),
            Lock(5, Reported),
            Lock(5, SameBoot),
            Notice(8, SameBoot),
        ],
    },
    Row {
        what: "boots in turn, reported by either first",
        turns: &[
            Lock(3, SameBoot),
            Notice(8, Reboot),
            Lock(5, Reported),
            Lock(7, Reboot),
            Notice(10, Reported),
            Notice(12, Reboot),
            Lock(9, Reported),
        ],
    },
    Row {
        what: "two boots, and the first one's notice is lost",
        turns: &[
            Lock(3, SameBoot),
            Lock(5, Reboot),
            Lock(7, Reboot),
            Notice(10, Reported),
            Lock(7, SameBoot),
        ],
    },
    Row {
        what: "two boots without a LOCK in between",
        turns: &[
            Lock(3, SameBoot),
            Notice(8, Reboot),
            Notice(10, Reboot),
            Lock(7, Reported),
            Notice(10, SameBoot),
        ],
    },
    Row {
        what: "0 says nothing in a LOCK",
        turns: &[
            Lock(0, SameBoot),
            Lock(3, SameBoot),
            Lock(0, SameBoot),
            Lock(3, SameBoot),
            Lock(0, SameBoot),
            Lock(5, Reboot),
        ],
    },
    Row {
        what: "0 is a notice's number as another",
        turns: &[
            Notice(0, Reboot),
            Notice(0, SameBoot),
            Notice(1, Reboot),
            Notice(0, Reboot),
        ],
    },
    Row {
        what: "both kinds come again and again",
        turns: &[
            Lock(3, SameBoot),
            Lock(3, SameBoot),
            Notice(8, Reboot),
            Notice(8, SameBoot),
            Lock(5, Reported),
            Lock(5, SameBoot),
            Notice(8, SameBoot),
        ],
    },
    Row {
        what: "the first LOCK comes behind a notice",
        turns: &[
            Notice(8, Reboot),
            Lock(3, SameBoot),
            Lock(5, Reboot),
            Notice(10, Reported),
            Lock(5, SameBoot),
        ],
    },
    Row {
        what: "the first LOCK comes behind two notices, and the next boot by a notice first",
        turns: &[
            Notice(8, Reboot),
            Notice(10, Reboot),
            Lock(3, SameBoot),
            Notice(12, Reboot),
            Lock(5, Reported),
        ],
    },
    Row {
        what: "the kinds have the same numbers, of either sign",
        turns: &[
            Lock(-1, SameBoot),
            Notice(-1, Reboot),
            Lock(1, Reported),
            Notice(-1, SameBoot),
            Lock(-1, Reboot),
            Notice(1, Reported),
        ],
    },
];

/// Whether each report of this host finds what it is to find.
fn are_found(boots: &mut BootStates, name: &[u8], turns: &[Turn]) -> bool {
    for turn in turns {
        if !is_found(boots, name, *turn) {
            return false;
        }
    }
    true
}

/// Each row is of a host of its own.
fn report_rows(boots: &mut BootStates) -> Result<(), Wrong> {
    for row in ROWS {
        if !are_found(boots, row.what.as_bytes(), row.turns) {
            return Err(Wrong {
                what: row.what,
                place: None,
            });
        }
    }
    Ok(())
}

/// Reports of two hosts, in turn.
const APART: &[(&[u8], Turn)] = &[
    (b"alpha", Lock(3, SameBoot)),
    (b"beta", Lock(5, SameBoot)),
    (b"alpha", Notice(8, Reboot)),
    (b"beta", Lock(7, Reboot)),
    (b"alpha", Lock(5, Reported)),
    (b"beta", Notice(8, Reported)),
    (b"alph", Lock(9, SameBoot)),
    (b"", Lock(9, SameBoot)),
    (b"alpha", Lock(9, Reboot)),
];

/// Whether no host's reports say anything of another.
fn are_apart(boots: &mut BootStates) -> Option<usize> {
    for (place, (name, turn)) in APART.iter().enumerate() {
        if !is_found(boots, *name, *turn) {
            return Some(place);
        }
    }
    None
}

/// Hosts with these numbers as their names report one boot each, of which nothing was known.
fn report_each(boots: &mut BootStates, first: u32, past: u32) -> bool {
    for host in first..past {
        if !is_found(boots, host.to_be_bytes().as_slice(), Lock(3, SameBoot)) {
            return false;
        }
    }
    true
}

/// The first host reports once more. One host more than there is room for takes the place of the second.
fn is_limited(boots: &mut BootStates) -> Result<(), Wrong> {
    let most = MOST_HOSTS as u32;
    let are_new = report_each(boots, 0, most) && boots.len() == MOST_HOSTS;
    let is_used = is_found(boots, 0u32.to_be_bytes().as_slice(), Lock(3, SameBoot));
    let is_more = report_each(boots, most, most + 1) && boots.len() == MOST_HOSTS;
    let is_left = is_found(boots, 0u32.to_be_bytes().as_slice(), Lock(5, Reboot));
    let are_left = is_found(boots, 2u32.to_be_bytes().as_slice(), Lock(5, Reboot));
    let is_gone = is_found(boots, 1u32.to_be_bytes().as_slice(), Lock(5, SameBoot));
    all_hold(&[
        ("there is room for all", are_new),
        ("the first reports again", is_used),
        ("one more takes a place", is_more),
        ("the first is remembered", is_left),
        ("the third is remembered", are_left),
        ("the second is forgotten", is_gone),
    ])
}

/// What is tried where no host has reported anything.
#[derive(Clone, Copy)]
enum Trial {
    Rows,
    Apart,
    Limit,
}

fn outcome(boots: &mut BootStates, trial: Trial) -> Result<(), Wrong> {
    match trial {
        Trial::Rows => report_rows(boots),
        Trial::Apart => nowhere("a report of one of two hosts", are_apart(boots)),
        Trial::Limit => is_limited(boots),
    }
}

fn try_out(alloc: Global, trial: Trial) -> Result<(), Wrong> {
    match BootStates::new(alloc) {
        Ok(mut boots) if boots.is_empty() => outcome(&mut boots, trial),
        _ => Err(NO_MEMORY),
    }
}

#[test]
fn a_boot_is_found_once(rt: HostRuntime) -> Result<(), Wrong> {
    try_out(rt.alloc(), Trial::Rows)
}

#[test]
fn hosts_boot_each_by_itself(rt: HostRuntime) -> Result<(), Wrong> {
    try_out(rt.alloc(), Trial::Apart)
}

#[test]
fn the_host_that_reported_nothing_for_longest_is_forgotten(rt: HostRuntime) -> Result<(), Wrong> {
    try_out(rt.alloc(), Trial::Limit)
}
