//! The channel of jobs. Whoever puts or takes a job does so by a pass of its own, which remembers what was put and taken by it,
//! so that at the end it is known that what was put is what was taken and what is left, each job once.
#![tactic(auto)]

mod job;
mod passes;
mod queue;
mod seat;

pub use job::Job;
pub use passes::{Hand, Handing, View};
pub use queue::{Closed, JOBS, Queue, Slip};
pub use seat::{Channel, Keeper, Opened, Place, Seat};
