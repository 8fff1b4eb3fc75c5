//! The numbers below 65,536 in an order of the caller's. One of them moves to another place in few
//! steps, wherever it stands: in a plain vector all the numbers between the two places would move.
#![tactic(auto)]

mod cells;
mod list;
mod tier;

pub use list::TieredList;
