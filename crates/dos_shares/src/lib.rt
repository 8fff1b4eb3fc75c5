//! The table of DOS shares: what each owner does with a whole file, and what it denies the others (XNFS, NLM_SHARE;
//! RFC 1813, appendix II).
#![tactic(auto)]

mod access;
mod share;
mod shares;

pub use access::AccessBits;
pub use owner_ids::Starved;
pub use share::Share;
pub use shares::{MOST_SHARES, ShareError, Shares};
