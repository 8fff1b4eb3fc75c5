//! The two functions of the definitions that run: each once on its happy path, with values from the public rule.
use crate::wrong::{Wrong, nowhere};
use definition_laws::carried::make_fresh;
use definitions::own_state::next_own_state;
use std::test::*;

/// An own state, and the next one.
const STATES: &[(u32, u32)] = &[
    (0, 1),
    (1, 3),
    (2, 3),
    (2_147_483_646, 2_147_483_647),
    (2_147_483_647, 1),
];

/// The place of the first state that another follows.
fn wrong_state() -> Option<usize> {
    for (place, (own, next)) in STATES.iter().enumerate() {
        if next_own_state(*own) != *next {
            return Some(place);
        }
    }
    None
}

#[test]
fn own_states_follow(_rt: HostRuntime) -> Result<(), Wrong> {
    let _daemon = make_fresh();
    nowhere("an own state", wrong_state())
}
