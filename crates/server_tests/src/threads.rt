//! The threads over one book: the channel of jobs, workers and the audit, and the loops of a server's other threads, over memory.
mod answering;
mod helping;
mod joining;
mod local;
mod memory;
mod overlapping;
pub(crate) mod parts;
mod reading;
mod restarting;
mod rounds;
mod sending;
mod stop_signals;
