//! Who waits for a lock: worked rows over the flat table, and the limit.
mod rows;
mod tables;
