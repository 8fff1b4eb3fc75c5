//! What stands over restarts: rows of hosts, notices, and reclaims in grace. Each law is the contract of a function that changes
//! nothing. One stands over each step, which `Book::apply` is proved to make; one over every legal history, which a journal is; and
//! of each there is what it comes to for the daemon's runs, and for the holds of the book that a server's threads share.
#![tactic(auto)]

mod reclaims;
mod restart;
mod rows;

pub use crate::reclaims::{
    holds_grant_honest_reclaims, honest_histories_grant, honest_histories_stay_under,
    honest_reclaim_is_granted, honest_reclaims_are_granted, honest_runs_stay_under,
    world_stays_under_the_list,
};
pub use crate::restart::{daemon_begins_anew, restart_begins_anew, restart_is_under_every_list};
pub use crate::rows::{
    histories_keep_rows, histories_monitor_hosts, holds_keep_rows, holds_monitor_hosts,
    kept_replies_stay_of_hosts_with_rows, lasting_store, lasting_store_of_book,
    lasting_store_of_shared, rows_stay, rows_stay_over_runs, standing_lock_has_row,
};
