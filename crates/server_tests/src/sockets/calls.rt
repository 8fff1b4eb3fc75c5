//! Calls, and what a peer says to one of the server's own, word for word.
use crate::words::put_header;
use std::alloc::AllocError;
use test_kit::put_plain;

/// A call: its mark, its procedure (RFC 1813, appendix II), and the words of its arguments.
#[derive(Clone, Copy)]
pub(crate) struct Call {
    mark: u32,
    procedure: u32,
    arguments: &'static str,
}

pub(crate) const NULL: Call = Call {
    mark: 0x8000_0028,
    procedure: 0,
    arguments: "",
};

/// The first owner on the host `client` locks the bytes 0 to 9 of the file aabbccdd, exclusively, and waits where it must. The
/// cookie is its number.
pub(crate) const LOCK_BY_FIRST: Call = Call {
    mark: 0x8000_0070,
    procedure: 2,
    arguments: "1 1000000 1 1 6 636c6965 6e740000 4 aabbccdd 1 1000000 1 0 0 0 a 0 0",
};

/// The same by the second.
pub(crate) const LOCK_BY_SECOND: Call = Call {
    arguments: "1 2000000 1 1 6 636c6965 6e740000 4 aabbccdd 1 2000000 2 0 0 0 a 0 0",
    ..LOCK_BY_FIRST
};

/// The first unlocks the same bytes.
pub(crate) const UNLOCK_BY_FIRST: Call = Call {
    mark: 0x8000_0060,
    procedure: 4,
    arguments: "1 1000000 6 636c6965 6e740000 4 aabbccdd 1 1000000 1 0 0 0 a",
};

/// Appends the record of the call under this xid, behind its mark.
pub(crate) fn put_call(to: &mut Vec<u8>, xid: u32, call: &Call) -> Result<(), AllocError> {
    to.extend_from_slice(call.mark.to_be_bytes().as_slice())?;
    put_header(to, xid, call.procedure)?;
    if put_plain(to, call.arguments) {
        Ok(())
    } else {
        Err(AllocError)
    }
}

/// What is said to a call: its mark, and its words behind the xid.
#[derive(Clone, Copy)]
pub(crate) struct Answer {
    mark: u32,
    words: &'static str,
}

/// Its reply_stat is neither MSG_ACCEPTED nor MSG_DENIED, so it is no reply (RFC 5531, section 9).
pub(crate) const NO_REPLY: Answer = Answer {
    mark: 0x8000_000c,
    words: "1 2",
};

/// The call was done, and the status is NLM4_DENIED (RFC 1813, appendix II). The cookie is empty.
pub(crate) const DENIED: Answer = Answer {
    mark: 0x8000_0020,
    words: "1 0 0 0 0 0 1",
};

/// Appends what is said to the call of this xid, behind its mark.
pub(crate) fn put_answer(to: &mut Vec<u8>, xid: &[u8], answer: &Answer) -> Result<(), AllocError> {
    to.extend_from_slice(answer.mark.to_be_bytes().as_slice())?;
    to.extend_from_slice(xid)?;
    if put_plain(to, answer.words) {
        Ok(())
    } else {
        Err(AllocError)
    }
}
