//! The daemon without its sockets: a fold over events of many connections and of the state that they share.
#![tactic(auto)]

mod connection;
mod daemon;
mod event;
mod event_outcome;
mod law;
mod noted;
mod outputs;
mod posted;
mod send_buffer;
mod sent;

pub use crate::connection::StreamConnection;
pub use crate::daemon::Daemon;
pub use crate::event::{Event, EventRefusal};
pub use crate::event_outcome::EventOutcome;
pub use crate::law::{
    early_message_refusal_is_told, early_refusal_is_told, grace_grants_reclaims_only,
    grace_tells_of_no_grant, kept_reply_is_given_again, one_run, runs_are_histories,
    runs_are_sound, starves_where_full,
};
pub use crate::outputs::Outputs;
pub use crate::posted::Posted;
pub use crate::send_buffer::SendBuffer;
pub use crate::sent::{Addressee, Sent};
pub use book::{Rules, StoreAnswer};
pub use byte_io::WriteFault;
pub use kept_replies::Peer;
pub use xdr_core::Frame;
