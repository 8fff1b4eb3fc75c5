//! The shared state with its journal: one entry for each event, in the order in which they took the book.
#![tactic(auto)]

mod book;
mod entries;
mod entry;
mod event;
mod fresh;
mod kept;
mod law;
mod line;
mod receipt;
mod repeat;
mod reply;
mod segment;
mod send;
mod snapshot;
mod starved;
mod state;
mod step_result;
mod take;

pub use book::Book;
pub use call_codec::{Dest, HostName};
pub use definitions::rules::Rules;
pub use entry::{Entry, Operation, SEGMENT};
pub use event::BookEvent;
pub use kept_replies::Peer;
pub use law::{
    early_message_refusal_is_given, early_refusal_is_given, histories_are_sound,
    histories_grant_reclaims_only, histories_tell_of_no_grant, history_goes_on,
    kept_reply_is_given, newest_entered, one_step, room_to_the_last_number,
    segments_are_one_history,
};
pub use local_ops::LocalAnswer;
pub use lock_service::StoreAnswer;
pub use owner_ids::Starved;
pub use receipt::{Receipt, Taken};
pub use reply::{RecordReply, Reply, Unanswered};
pub use segment::{ClosedSegment, NoRoom, Segment};
pub use snapshot::Snapshot;
pub use step_result::{Completion, EventStatus, StepResult};
