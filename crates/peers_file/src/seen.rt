//! What of a file says that it changed.
use std::fs::Files;
use std::time::SystemTime;

/// The size of a file in bytes, and when it was written last.
#[derive(Clone, Copy, Debug, PartialEq, Eq)]
pub struct Seen {
    len: u64,
    modified: SystemTime,
}

/// What is seen of the file at this path. None where there is no regular file.
pub fn seen_at<R: Files>(rt: &R, path: &str) -> Option<Seen> {
    let metadata = rt.metadata(path).ok()?;
    if !metadata.is_file() {
        return None;
    }
    Some(Seen {
        len: metadata.len(),
        modified: metadata.modified().ok()?,
    })
}
