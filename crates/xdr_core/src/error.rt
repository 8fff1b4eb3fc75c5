//! Why bytes are not read, or not written.

use thiserror::Error;

/// Why bytes could not be read (RFC 4506). The cursor stands where it stood.
#[derive(Clone, Copy, Debug, PartialEq, Eq, Error)]
pub enum XdrError {
    /// Want of memory. No format answers it, since what is read borrows from the bytes.
    #[error("1 Starved")]
    Starved,
    /// An item passes the end of the bytes.
    #[error("2 Short")]
    Short,
    /// A word that is no bool: neither 0 nor 1 (section 4.4).
    #[error("3 BadBool")]
    BadBool,
    /// A word that the enumeration does not declare (section 4.3).
    #[error("4 BadEnum")]
    BadEnum,
    /// A length or a count past its bound, even where the bytes are short too.
    #[error("5 TooLong")]
    TooLong,
}

/// Why bytes are not the arguments of a call that a program answers (RFC 5531, section 9). The cursor stands where it stood.
#[derive(Clone, Copy, Debug, PartialEq, Eq, Error)]
pub enum CallError {
    /// Want of memory. No reading answers it, since what is read borrows from the bytes.
    #[error("1 Starved")]
    Starved,
    /// The program has no such procedure in the call's version (PROC_UNAVAIL).
    #[error("11 NoSuchProc")]
    NoSuchProc,
    /// No front of the bytes is the procedure's arguments (GARBAGE_ARGS).
    #[error("12 GarbageArgs")]
    GarbageArgs,
}

/// The bytes do not fit into the frame, which is unchanged.
#[derive(Clone, Copy, Debug, PartialEq, Eq, Error)]
#[error("25 FrameFull")]
pub struct FrameFull;
