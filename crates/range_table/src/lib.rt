//! Byte-range locks: of each owner and byte, the newest setting wins, as POSIX fcntl says.
#![tactic(auto)]

mod alike;
mod byte_range;
mod file;
mod flat;
pub mod ordered;
pub mod places;
mod ranged;
pub mod run;
pub mod run_list;
pub mod sorted;
pub mod sorted_runs;
pub mod sweeps;
mod table;
mod wanted;
mod words;

pub use alike::{first_conflict_in_both, runs_in_both, used_in_both};
pub use byte_range::ByteRange;
pub use file::FileId;
pub use flat::FlatTable;
pub use ranged::Ranged;
pub use run::{Mode, NoRuns, Run, Setting};
pub use table::RangeTable;
pub use wanted::Wanted;
