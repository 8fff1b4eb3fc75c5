//! What follows from the definitions: laws, and rows that were worked by hand.
#![tactic(auto)]

pub mod carried;
pub mod laws;
pub mod rows;
