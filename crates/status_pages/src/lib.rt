//! The pages that `lockd serve` shows to operators: what is asked for (HTTP/1.1, RFC 9112), what is shown of a snapshot of the
//! state, and the bytes of each answer. It does no input or output.
#![tactic(auto)]

mod counters;
mod escape;
mod html;
mod json;
mod metrics;
mod page;
mod request;
mod responses;
mod rows;
mod starved;
mod text;
mod waiting;

pub use escape::escaped_is_plain;
pub use html::{Shown, index_page};
pub use json::{hosts_page, locks_page, status_page, waiters_page};
pub use metrics::{Numbers, StateNumbers, metrics_page};
pub use page::Page;
pub use request::{Asked, MOST_HEAD_BYTES, Reading, Refusal, read_request};
pub use responses::{ContentType, Delivery, Status, response};
pub use rows::{HostRow, Lists, LockRow, OwnerRow, Waiting};
pub use starved::Starved;
pub use waiting::{first_in_way, known_since};
