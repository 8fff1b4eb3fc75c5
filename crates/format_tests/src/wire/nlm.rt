//! The lock manager's calls, results and messages, versions 1, 3 and 4 (RFC 1813, appendix II; XNFS).
use crate::words::{is_round, words};
use nlm4_types::{
    CallError, CancelArgs, LockArgs, NARROW, NlmCall, Notify, Res, ShareArgs, ShareRes, TestArgs,
    TestRes, UnlockArgs, Version, WIDE, is_known, one_call,
};
use xdr_core::{Cursor, Frame, one_front, written_is_read};

mod sent;

const LOCK_CALL: &str = "4 2 0 1 1 61000000 4 01020304 1 41000000 7 0 0 0 a 0 3";

const VERSION_3_LOCK: &str = "4 2 0 1 1 61000000 4 01020304 1 41000000 7 0 a 0 3";

const TEST_CALL: &str = "4 3 1 1 62000000 4 01020304 1 42000000 8 0 0 0 0";

const CANCEL_CALL: &str = "4 3 1 1 1 62000000 4 01020304 1 42000000 8 0 0 0 0";

const UNLOCK_CALL: &str = "4 3 1 62000000 4 01020304 1 42000000 8 0 0 0 0";

const SHARE_CALL: &str = "4 3d 1 63000000 4 01020304 1 43000000 0 1 0";

const FREE_ALL_CALL: &str = "1 61000000 3";

const LOCK_REPLY: &str = "4 2 0";

const SHARE_REPLY: &str = "4 3d 0 0";

const TEST_REPLY: &str = "4 3 1 1 7 1 41000000 0 0 0 a";

const LOCAL_HOLDER_REPLY: &str = "4 31 1 1 2a 0 0 3 0 3";

const GRANTED_CALL: &str = "8 1 1 1 1 62000000 4 01020304 1 42000000 8 0 0 0 a";

// Whether the words spell a value of this type, which is written as they are.
fn are_spelled(kind: &str, text: &str) -> bool {
    let f = words(text);
    let bytes = f.as_slice();
    match kind {
        "lock" => is_round::<LockArgs<WIDE>>(bytes),
        "narrow lock" => is_round::<LockArgs<NARROW>>(bytes),
        "test" => is_round::<TestArgs<WIDE>>(bytes),
        "cancel" => is_round::<CancelArgs<WIDE>>(bytes),
        "unlock" => is_round::<UnlockArgs<WIDE>>(bytes),
        "share" => is_round::<ShareArgs>(bytes),
        "notify" => is_round::<Notify>(bytes),
        "res" => is_round::<Res>(bytes),
        "share res" => is_round::<ShareRes>(bytes),
        "test res" => is_round::<TestRes<WIDE>>(bytes),
        _ => false,
    }
}

const VECTORS: &[(&str, &str)] = &[
    ("lock", LOCK_CALL),
    ("narrow lock", VERSION_3_LOCK),
    ("test", TEST_CALL),
    ("cancel", CANCEL_CALL),
    ("unlock", UNLOCK_CALL),
    ("share", SHARE_CALL),
    ("notify", FREE_ALL_CALL),
    ("res", LOCK_REPLY),
    ("share res", SHARE_REPLY),
    ("test res", TEST_REPLY),
    ("test res", LOCAL_HOLDER_REPLY),
    ("test", GRANTED_CALL),
];

#[test]
fn vectors_are_read_and_written() -> Result<(), &'static str> {
    one_call();
    one_front::<LockArgs<WIDE>>();
    written_is_read::<TestRes<NARROW>>();
    for (kind, text) in VECTORS {
        if !are_spelled(kind, text) {
            return Err(*kind);
        }
    }
    Ok(())
}

fn refusal(version: Version, procedure: u32, bytes: &[u8]) -> Option<CallError> {
    let mut c = Cursor::new(bytes);
    let answer = NlmCall::read(version, procedure, &mut c);
    if c.len() == bytes.len() {
        answer.err()
    } else {
        None
    }
}

// Whether the words ask for a lock of svid 7 at `a` on the bytes 0 to 9, in state 3.
fn is_lock(version: Version, procedure: u32, text: &str) -> bool {
    let f = words(text);
    let mut c = Cursor::new(f.as_slice());
    let args = match NlmCall::read(version, procedure, &mut c) {
        Ok(NlmCall::Lock(args) | NlmCall::LockMsg(args)) => args,
        _ => return false,
    };
    let alock = &args.alock;
    alock.caller_name.bytes == b"a".as_slice()
        && alock.fh.bytes == [1, 2, 3, 4].as_slice()
        && alock.oh.bytes == b"A".as_slice()
        && (alock.svid, alock.l_offset, alock.l_len, args.state) == (7, 0, 10, 3)
        && args.exclusive
        && !args.block
        && !args.reclaim
}

#[test]
fn calls_are_read(rt: HostRuntime) {
    assert!(rt; is_lock(Version::V4, 2, LOCK_CALL));
    assert!(rt; is_lock(Version::V3, 7, VERSION_3_LOCK));
}

// Whether the words are the arguments of the procedure in version 3, whole, and which versions have it.
fn are_arguments(procedure: u32, text: &str) -> bool {
    let f = words(text);
    let mut c = Cursor::new(f.as_slice());
    NlmCall::read(Version::V3, procedure, &mut c).is_ok()
        && c.len() == 0
        && is_known(Version::V4, procedure)
        && is_known(Version::V1, procedure) == (procedure <= 15)
}

const VERSION_3: &[(u32, &str)] = &[
    (0, ""),
    (1, "0 0 0 0 0 0 0 0"),
    (2, "0 0 0 0 0 0 0 0 0 0 0"),
    (3, "0 0 0 0 0 0 0 0 0"),
    (4, "0 0 0 0 0 0 0"),
    (6, "0 0 0 0 0 0 0 0"),
    (7, "0 0 0 0 0 0 0 0 0 0 0"),
    (8, "0 0 0 0 0 0 0 0 0"),
    (9, "0 0 0 0 0 0 0"),
    (15, "0 9"),
    (20, "0 0 0 0 3 3 0"),
    (21, "0 0 0 0 3 3 0"),
    (22, "0 0 0 0 0 0 0 0 0 0 0"),
    (23, "0 0"),
];

// The number of a procedure is the error.
#[test]
fn each_procedure_has_its_arguments() -> Result<(), u32> {
    for (procedure, text) in VERSION_3 {
        if !are_arguments(*procedure, text) {
            return Err(*procedure);
        }
    }
    Ok(())
}

#[test]
fn no_others_are_served(rt: HostRuntime) -> Result<(), u32> {
    assert!(rt; refusal(Version::V1, 20, &[]) == Some(CallError::NoSuchProc));
    for procedure in [5, 10, 11, 12, 13, 14, 16, 19, 24] {
        if refusal(Version::V4, procedure, &[]) != Some(CallError::NoSuchProc) {
            return Err(procedure);
        }
    }
    Ok(())
}

fn is_garbage(bytes: &[u8]) -> bool {
    refusal(Version::V4, 2, bytes) == Some(CallError::GarbageArgs)
}

fn fronts_are_garbage(text: &str) -> bool {
    let f = words(text);
    let bytes = f.as_slice();
    for n in 0..bytes.len() {
        if !is_garbage(&bytes[..n]) {
            return false;
        }
    }
    true
}

// A name of 1,025 bytes, filled up to words, between words.
fn around_a_name(before: &str, behind: &str) -> Frame {
    let mut f = words(before);
    let _ = f.append(&[0x61; 1028]);
    let _ = f.append(words(behind).as_slice());
    f
}

// Whether the name of FREE_ALL may have 1,025 bytes, and a word behind whole arguments is left.
fn long_name_is_taken() -> bool {
    let whole = around_a_name("401", "3 9");
    let mut c = Cursor::new(whole.as_slice());
    NlmCall::read(Version::V4, 23, &mut c).is_ok() && c.len() == 4
}

// A bool of 2, and a name's length of ffffffff.
const BAD_BOOL: &str = "4 2 2 1 1 61000000 4 01020304 1 41000000 7 0 0 0 a 0 3";

const BAD_LENGTH: &str = "4 2 0 1 ffffffff 61000000 4 01020304 1 41000000 7 0 0 0 a 0 3";

#[test]
fn garbage_is_refused(rt: HostRuntime) {
    assert!(rt; fronts_are_garbage(LOCK_CALL));
    assert!(rt; is_garbage(words(BAD_BOOL).as_slice()));
    assert!(rt; is_garbage(words(BAD_LENGTH).as_slice()));
    let long = around_a_name("4 2 0 1 401", "4 01020304 1 41000000 7 0 0 0 a 0 3");
    assert!(rt; is_garbage(long.as_slice()));
    assert!(rt; long_name_is_taken());
}
