//! The worked rows of `lockd pipe`, over readers and writers in memory.
mod loops;
mod rows;
