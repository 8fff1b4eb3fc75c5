//! Bytes as text, and values that are read and written again.
use std::alloc::{AllocError, Global};
use std::fmt::Display;
use xdr_core::{Cursor, Frame, Wire, read};

/// The words of four bytes that the text has (RFC 4506, section 3), each in hexadecimal digits: "4 2 0 61000000".
pub(crate) fn words(text: &str) -> Frame {
    let mut f = Frame::new();
    for word in text.split_whitespace() {
        let number = u32::from_str_radix(word, 16).unwrap_or(0xbad0_bad0);
        let _ = f.append(&number.to_be_bytes());
    }
    f
}

/// Whether the frame holds these words.
pub(crate) fn is_words(f: &Frame, text: &str) -> bool {
    f.as_slice() == words(text).as_slice()
}

/// The value that the bytes spell, whole, where it is written as they are.
pub(crate) fn round<'r, T: Wire<'r> + Drop>(bytes: &'r [u8]) -> Option<T> {
    let mut c = Cursor::new(bytes);
    let value: T = read(&mut c).ok()?;
    let mut f = Frame::new();
    let is_written = value.put(&mut f).is_ok();
    if is_written && c.len() == 0 && f.as_slice() == bytes {
        Some(value)
    } else {
        None
    }
}

/// Whether the bytes spell a value of this type, whole, which is written as they are.
pub(crate) fn is_round<'r, T: Wire<'r> + Drop>(bytes: &'r [u8]) -> bool {
    round::<T>(bytes).is_some()
}

/// Whether an error's text is this.
pub(crate) fn reads<E: Display + Drop>(alloc: Global, error: E, want: &str) -> bool {
    match error.to_string(alloc) {
        Ok(text) => text.as_str() == want,
        Err(AllocError) => false,
    }
}
