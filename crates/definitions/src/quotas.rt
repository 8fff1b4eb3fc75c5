//! The quota that holds nobody back.

/// How many runs a host's owners may have where its quota is the full one: as many as the whole table may have. A new row has it.
pub const FULL_QUOTA: u32 = 65_536;
