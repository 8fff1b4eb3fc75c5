//! The loop of a local connection: the lines of a local program are answered over one shared book.
#![tactic(auto)]

mod ending;
mod line_handler;
mod lines;
mod part;
mod signals;

pub use ending::LinesEnding;
pub use lines::{MOST_READ_BYTES, Served, serve_lines};
pub use signals::Signals;
