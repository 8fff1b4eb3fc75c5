//! Bytes of calls, and bytes that are compared with text.
use std::alloc::{AllocError, Global};
use test_kit::put_plain;

/// Appends the header of a call of the lock manager's version 4 under no credentials.
pub(crate) fn put_header(bytes: &mut Vec<u8>, xid: u32, procedure: u32) -> Result<(), AllocError> {
    for word in [xid, 0, 2, 100_021, 4, procedure, 0, 0, 0, 0] {
        bytes.extend_from_slice(word.to_be_bytes().as_slice())?;
    }
    Ok(())
}

/// Whether the bytes are these lines, and behind them these words.
pub(crate) fn are(alloc: Global, bytes: &[u8], lines: &str, words: &str) -> bool {
    let mut wanted = Vec::new(alloc);
    wanted.extend_from_slice(lines.as_bytes()).is_ok()
        && put_plain(&mut wanted, words)
        && bytes == wanted.as_slice()
}
