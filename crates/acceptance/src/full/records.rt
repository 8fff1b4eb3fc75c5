//! Calls, what they are answered, and the server's own calls, each in words (RFC 5531; RFC 1813, appendix II; XNFS), written by
//! hand and not by the daemon's own codec. The first word is the mark of the record's one fragment.

/// Of the lock manager.
const PROGRAM: u32 = 0x186b5;

/// The file of all locks.
const FILE: u32 = 0x01020304;

/// The one byte of its host's name, that of its handle, and its process.
#[derive(Clone, Copy)]
pub(super) struct Owner {
    name: u32,
    handle: u32,
    svid: u32,
}

pub(super) const A: Owner = Owner {
    name: 0x61000000,
    handle: 0x41000000,
    svid: 7,
};

pub(super) const B: Owner = Owner {
    name: 0x62000000,
    handle: 0x42000000,
    svid: 8,
};

/// The first of the bytes, and how many they are; with 0 they go on to the end of the file.
#[derive(Clone, Copy)]
pub(super) struct Span {
    pub(super) first: u32,
    pub(super) len: u32,
}

impl Span {
    pub(super) const WHOLE: Span = Span { first: 0, len: 0 };

    /// One byte.
    pub(super) fn byte(first: u32) -> Span {
        Span { first, len: 1 }
    }
}

/// What a call comes to.
#[derive(Clone, Copy)]
pub(super) enum Status {
    Granted,
    Denied,
    NoLocks,
    Blocked,
}

fn number_of(status: Status) -> u32 {
    match status {
        Status::Granted => 0,
        Status::Denied => 1,
        Status::NoLocks => 2,
        Status::Blocked => 3,
    }
}

/// How a lock is asked for, which is exclusive.
#[derive(Clone, Copy)]
pub(super) enum Asking {
    /// By LOCK, not to wait.
    Lock,
    /// By LOCK, and to wait.
    Block,
    /// By LOCK_MSG, and to wait.
    BlockMsg,
}

pub(super) fn lock(asking: Asking, xid: u32, owner: Owner, span: Span) -> [u32; 28] {
    let (number, block) = match asking {
        Asking::Lock => (2, 0),
        Asking::Block => (2, 1),
        Asking::BlockMsg => (7, 1),
    };
    let Owner { name, handle, svid } = owner;
    let Span { first, len } = span;
    [
        0x8000006c, xid, 0, 2, PROGRAM, 4, number, 0, 0, 0, 0, 4, xid, block, 1, 1, name, 4, FILE,
        1, handle, svid, 0, first, 0, len, 0, 3,
    ]
}

/// Of a lock that is waited for.
pub(super) fn cancel(xid: u32, owner: Owner, span: Span) -> [u32; 26] {
    let Owner { name, handle, svid } = owner;
    let Span { first, len } = span;
    [
        0x80000064, xid, 0, 2, PROGRAM, 4, 3, 0, 0, 0, 0, 4, xid, 1, 1, 1, name, 4, FILE, 1,
        handle, svid, 0, first, 0, len,
    ]
}

pub(super) fn unlock(xid: u32, owner: Owner, span: Span) -> [u32; 24] {
    let Owner { name, handle, svid } = owner;
    let Span { first, len } = span;
    [
        0x8000005c, xid, 0, 2, PROGRAM, 4, 4, 0, 0, 0, 0, 4, xid, 1, name, 4, FILE, 1, handle,
        svid, 0, first, 0, len,
    ]
}

/// How it is tested whether an exclusive lock could be had.
#[derive(Clone, Copy)]
pub(super) enum Testing {
    Test,
    TestMsg,
}

pub(super) fn test(testing: Testing, xid: u32, owner: Owner, span: Span) -> [u32; 25] {
    let number = match testing {
        Testing::Test => 1,
        Testing::TestMsg => 6,
    };
    let Owner { name, handle, svid } = owner;
    let Span { first, len } = span;
    [
        0x80000060, xid, 0, 2, PROGRAM, 4, number, 0, 0, 0, 0, 4, xid, 1, 1, name, 4, FILE, 1,
        handle, svid, 0, first, 0, len,
    ]
}

/// Of the file of this number, to read it, which denies others nothing or that they read it.
pub(super) fn share(xid: u32, owner: Owner, file: u32, is_alone: bool) -> [u32; 22] {
    let Owner { name, handle, .. } = owner;
    let deny = u32::from(is_alone);
    [
        0x80000054, xid, 0, 2, PROGRAM, 4, 20, 0, 0, 0, 0, 4, xid, 1, name, 4, file, 1, handle,
        deny, 1, 0,
    ]
}

pub(super) fn unshare(xid: u32, owner: Owner, file: u32) -> [u32; 22] {
    let Owner { name, handle, .. } = owner;
    [
        0x80000054, xid, 0, 2, PROGRAM, 4, 21, 0, 0, 0, 0, 4, xid, 1, name, 4, file, 1, handle, 0,
        1, 0,
    ]
}

/// Of the owner's host.
pub(super) fn free_all(xid: u32, owner: Owner) -> [u32; 14] {
    let Owner { name, .. } = owner;
    [
        0x80000034, xid, 0, 2, PROGRAM, 4, 23, 0, 0, 0, 0, 1, name, 5,
    ]
}

/// The reply to a LOCK, a CANCEL, an UNLOCK, or a TEST that nobody is in the way of.
pub(super) fn says(xid: u32, status: Status) -> [u32; 10] {
    let status = number_of(status);
    [0x80000024, xid, 1, 0, 0, 0, 0, 4, xid, status]
}

/// The reply to a TEST whose lock this owner is in the way of, by this one of his.
pub(super) fn held_by(xid: u32, owner: Owner, span: Span) -> [u32; 18] {
    let Owner { handle, svid, .. } = owner;
    let Span { first, len } = span;
    [
        0x80000044, xid, 1, 0, 0, 0, 0, 4, xid, 1, 1, svid, 1, handle, 0, first, 0, len,
    ]
}

/// The reply to a SHARE or an UNSHARE.
pub(super) fn says_of_share(xid: u32, status: Status) -> [u32; 11] {
    let status = number_of(status);
    [0x80000028, xid, 1, 0, 0, 0, 0, 4, xid, status, 0]
}

/// The reply that says nothing.
pub(super) fn done(xid: u32) -> [u32; 7] {
    [0x80000018, xid, 1, 0, 0, 0, 0]
}

/// SYSTEM_ERR.
pub(super) fn system_err(xid: u32) -> [u32; 7] {
    [0x80000018, xid, 1, 0, 0, 0, 5]
}

/// GRANTED, of an exclusive lock.
pub(super) fn granted(xid: u32, owner: Owner, span: Span) -> [u32; 26] {
    let Owner { name, handle, svid } = owner;
    let Span { first, len } = span;
    [
        0x80000064, xid, 0, 2, PROGRAM, 4, 5, 0, 0, 0, 0, 8, 1, xid, 1, 1, name, 4, FILE, 1,
        handle, svid, 0, first, 0, len,
    ]
}

/// LOCK_RES, to the LOCK_MSG of this cookie.
pub(super) fn lock_res(xid: u32, cookie: u32, status: Status) -> [u32; 14] {
    let status = number_of(status);
    [
        0x80000034, xid, 0, 2, PROGRAM, 4, 12, 0, 0, 0, 0, 4, cookie, status,
    ]
}
