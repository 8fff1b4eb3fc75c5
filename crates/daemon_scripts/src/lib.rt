//! Scripts of a daemon for tests, from bytes to bytes: what a client sends, what it is sent, and what the server calls. `script`
//! says what a line may be, and plays it through `Daemon::run`; `plays` does so over a store that may refuse, with the rows behind
//! each line. What they are made of stands in `test_kit`.
#![tactic(auto)]

mod counting;
mod events;
mod growths;
mod page;
mod plays;
mod script;
mod servers;
mod state;

pub use growths::play_in_want;
pub use page::{Page, read_xid};
pub use plays::{
    DaemonTask, Line, Server, are_rows_after, first_wrong, goes_well, lines_done, notifies, parted,
    with_daemon,
};
pub use script::{happens, streams};
pub use servers::{
    Misplayed, PIECE, Row, Streams, Way, all_hosts, memory, opened, play, play_by, play_rows,
    play_streams, play_with_all_hosts, play_with_hosts, played,
};
pub use state::are_rows;
