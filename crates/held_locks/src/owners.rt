//! What owners hold and what their numbers hold in a table is one thing.

mod allowance;
mod calls;
mod laws;

pub use allowance::Allowance;
pub use calls::{conflicts, conflicts_with, is_past, is_short, used_of};
