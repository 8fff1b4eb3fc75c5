//! The worked rows, by subject.
pub mod answers;
pub mod grace;
pub mod hosts;
pub mod limits;
pub mod lines;
pub mod locks;
pub mod quotas;
pub mod reclaims;
pub mod repeats;
pub mod versions;
pub mod waits;
