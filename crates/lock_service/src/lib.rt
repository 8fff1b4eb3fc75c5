//! What a call of a client comes to, by procedure (XNFS; RFC 1813, appendix II). A plan is made first, which changes
//! nothing; then all memory is got; then the store is asked, at most once; and then the plan is done, without memory.
#![tactic(auto)]

mod cancel;
mod checks;
mod copies;
mod free_all;
mod granted;
mod listing;
mod local;
mod lock;
mod lock_ask;
mod lock_rules;
mod null;
mod quota;
mod share;
mod status;
mod steps;
mod telling;
mod test;
mod unlock;
mod unshare;
mod verdict;

pub use call_codec::Call;
pub use call_plans::{
    Plan, Starved, StoreAnswer, World, abandon, answered, commit, reserve, reserve_and_ask,
};
pub use listing::{list_hosts, list_table};
pub use local::{LinePlan, SetLine, close_file, get_lock, plan_set, set_lock};
pub use quota::set_quota;
pub use steps::{plan, plan_and_ask};
