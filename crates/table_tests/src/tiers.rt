//! A number goes to another place and back again, in one tier, over its ends and over many tiers.
use crate::wrong::{NO_MEMORY, Wrong, nowhere};
use std::alloc::Global;
use std::test::*;
use tiered_vec::TieredList;

// How many numbers don't stand in the place of their own.
fn strays(list: &TieredList) -> usize {
    let mut count = 0usize;
    for at in 0..65_536usize {
        if list.get(at) as usize != at {
            count = count.saturating_add(1);
        }
    }
    count
}

// Whether just those from the low place to the high one stray while the number is there, and none once it is back.
fn goes(list: &mut TieredList, (high, low): (usize, usize)) -> bool {
    if low > high || high >= 65_536 {
        return false;
    }
    list.bring(high, low);
    let astray = if low < high { high - low + 1 } else { 0 };
    let is_there = list.get(low) as usize == high && strays(list) == astray;
    list.send(low, high);
    is_there && strays(list) == 0
}

const MOVES: &[(usize, usize)] = &[
    (5, 0),
    (1024, 1023),
    (2047, 1024),
    (2048, 1023),
    (5000, 1000),
    (65_535, 0),
    (7, 7),
];

// The place of the first move that goes otherwise.
fn wrong_move(list: &mut TieredList) -> Option<usize> {
    for (place, ends) in MOVES.iter().enumerate() {
        if !goes(list, *ends) {
            return Some(place);
        }
    }
    None
}

fn all_go(alloc: Global) -> Result<(), Wrong> {
    match TieredList::new(alloc) {
        Ok(mut list) => nowhere("a move", wrong_move(&mut list)),
        Err(_) => Err(NO_MEMORY),
    }
}

#[test]
fn there_and_back(rt: HostRuntime) -> Result<(), Wrong> {
    all_go(rt.alloc())
}
