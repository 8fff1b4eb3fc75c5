//! What is to be written, with what is to be kept.
use crate::rows::{MyIdRef, RowNote, Watch};

/// A change of rows and watches, which owns what they are to keep, so that it takes no memory.
#[derive(Drop)]
pub enum Prepared<'a> {
    /// A row of this name, in which this state was seen.
    Monitor(Vec<u8>, i32),
    /// A note in the row of this name.
    Note(&'a [u8], RowNote),
    /// A watch, and a row of this name, which is that of its host.
    Watch(Vec<u8>, Watch),
    /// No watch of this watcher any more: of one host, or of all.
    Unwatch(Option<&'a [u8]>, &'a MyIdRef<'a>),
}
