//! Lines of a script that count.
use crate::page::read_xid;
use std::alloc::{AllocError, Global};
use std::fmt::Write;

/// The numbers that a line counts through.
#[derive(Clone, Copy)]
pub(crate) struct Counting {
    pub(crate) from: u32,
    /// The last of them is the one before.
    pub(crate) to: u32,
    // The xid of the first.
    first: u32,
}

impl Counting {
    /// The first number, the one behind the last, and what goes with the first; and what stands behind them.
    pub(crate) fn read(text: &str) -> Option<(Counting, &str)> {
        let (from, behind) = text.split_once(" ")?;
        let (to, behind) = behind.split_once(" ")?;
        let (first, rest) = behind.split_once(" ").unwrap_or((behind, ""));
        let counting = Counting {
            from: read_xid(from)?,
            to: read_xid(to)?,
            first: read_xid(first)?,
        };
        Some((counting, rest))
    }

    /// What goes with a number: as much more as the number is more than the first one.
    pub(crate) fn beside(self, number: u32) -> u32 {
        self.first.wrapping_add(number.wrapping_sub(self.from))
    }
}

/// The text, with the number for each `%`.
pub(crate) fn filled(alloc: Global, text: &str, number: u32) -> Result<String, AllocError> {
    let mut whole = String::new(alloc);
    for character in text.chars() {
        if character == '%' {
            write!(whole, "{number}")?;
        } else {
            whole.push(character)?;
        }
    }
    Ok(whole)
}
