//! A stock Linux 6.1 kernel client, as it was seen on the wire: each of its calls is read as what it asks, and answered by
//! the rules.
use call_codec::{Call, Reading};
use daemon_scripts::{Misplayed, play, read_xid};
use nlm4_types::{Lock, LockArgs, Netobj, NlmCall, TestArgs, Version, WIDE};
use std::alloc::Global;
use std::test::*;
use test_kit::{Terms, put_message};

/// Its calls with its own credentials, cookies and file handle, and what the rules answer; and what the server calls. It takes
/// back the lock that it waited for before it answers the grant. Then the server begins anew, and then the client.
const SCRIPT: &[&str] = &[
    "begins",
    "0x50468e7a host-lock 0x50468e7a 0 1 8 0x00000000 0x0000004d 77 100 1 0 3 = to-client 0x50468e7a 0",
    "0xc7445d8c guest-lock 0x35120000 0 1 7 0x30406775 0x65737400 0 0 10 0 3 = to-client 0x35120000 0",
    "0xc8445d8c guest-unlock 0x36120000 0 0 7 0x30406775 0x65737400 0 0 0 0 0 = to-client 0x36120000 0",
    "0xc9445d8c guest-lock 0x37120000 0 0 7 0x31406775 0x65737400 1 20 5 0 3 = to-client 0x37120000 0",
    "0xca445d8c guest-unlock 0x38120000 0 0 7 0x31406775 0x65737400 1 0 0 0 0 = to-client 0x38120000 0",
    "0xcb445d8c guest-test 0x39120000 0 1 7 0x32406775 0x65737400 2 0 0 0 0 = held-on-server 0x39120000",
    "0xcc445d8c guest-lock 0x3a120000 0 1 7 0x33406775 0x65737400 3 0 10 0 3 = to-client 0x3a120000 0",
    "0xcd445d8c guest-unlock 0x3f120000 0 0 7 0x33406775 0x65737400 3 0 0 0 0 = to-client 0x3f120000 0",
    "0xce445d8c guest-lock 0x3e120000 1 1 7 0x37406775 0x65737400 7 5 1 0 3 = to-client 0x3e120000 0",
    "0xcf445d8c guest-unlock 0x40120000 0 0 7 0x37406775 0x65737400 7 0 0 0 0 = to-client 0x40120000 0",
    "0xd0445d8c guest-test 0x41120000 0 1 7 0x38406775 0x65737400 8 100 1 0 0 = held-on-server 0x41120000",
    "0xd1445d8c guest-lock 0x42120000 0 1 7 0x39406775 0x65737400 9 100 1 0 3 = to-client 0x42120000 1",
    "0xd2445d8c guest-lock 0x43120000 1 1 8 0x31304067 0x75657374 10 100 1 0 3 = to-client 0x43120000 3",
    "0x50468e7b host-unlock 0x50468e7b 0 0 8 0x00000000 0x0000004d 77 100 1 0 0 = to-client 0x50468e7b 0",
    "sends guest 1 grant-to-guest",
    "0xd3445d8c guest-unlock 0x44120000 0 0 8 0x31304067 0x75657374 10 0 0 0 0 = to-client 0x44120000 0",
    "0xd4445d8c guest-lock 0x45120000 0 1 8 0x31314067 0x75657374 11 300 1 0 3 = to-client 0x45120000 0",
    "0xd5445d8c guest-unlock 0x49120000 0 0 8 0x31314067 0x75657374 11 0 0 0 0 = to-client 0x49120000 0",
    "0xd6445d8c guest-lock 0x4a120000 0 1 8 0x31354067 0x75657374 15 400 4 0 3 = to-client 0x4a120000 0",
    "answer 1 said 0",
    "quiet",
    "restarts",
    "sends guest 1 notice 3",
    "sends hosthold 2 notice 3",
    "0xd7445d8c guest-lock 0x4b120000 0 1 8 0x31354067 0x75657374 15 400 4 1 0 = to-client 0x4b120000 0",
    "grace-over",
    "1 notify-guest 5 = done",
    "0xd8445d8c guest-unlock 0x4c120000 0 0 8 0x31354067 0x75657374 15 0 0 0 0 = to-client 0x4c120000 0",
    "quiet",
];

#[test]
fn client_calls_are_answered(rt: HostRuntime) -> Result<(), Misplayed> {
    play(rt.alloc(), SCRIPT)
}

/// The FNV-1a hash of the 20 records as they came, one behind the other.
const HASH: u64 = 0x0571_80f9_413a_149a;

/// The front of its file handle, of 64 bytes.
const FILE: [u8; 4] = [0x43, 0, 0, 0x4d];

fn is_cookie(asked: &Terms, cookie: &Netobj<'_>) -> bool {
    let [number, ..] = asked.numbers;
    cookie.bytes.len() == 4
        && cookie.bytes == number.to_be_bytes().as_slice().get(4..).unwrap_or(&[])
}

fn is_lock(host: &str, asked: &Terms, alock: &Lock<'_, WIDE>) -> bool {
    let [_, _, _, _, _, _, svid, offset, len, ..] = asked.numbers;
    alock.caller_name.bytes == host.as_bytes()
        && alock.fh.bytes.len() == 64
        && alock.fh.bytes.starts_with(FILE.as_slice())
        && alock.svid.cast_unsigned() as u64 == svid
        && alock.l_offset == offset
        && alock.l_len == len
}

fn is_test(host: &str, asked: &Terms, args: &TestArgs<'_, WIDE>) -> bool {
    let [_, _, exclusive, ..] = asked.numbers;
    is_cookie(asked, &args.cookie)
        && args.exclusive == (exclusive == 1)
        && is_lock(host, asked, &args.alock)
}

fn is_lock_call(host: &str, asked: &Terms, args: &LockArgs<'_, WIDE>) -> bool {
    let [_, block, exclusive, _, _, _, _, _, _, reclaim, state, ..] = asked.numbers;
    is_cookie(asked, &args.cookie)
        && args.block == (block == 1)
        && args.exclusive == (exclusive == 1)
        && is_lock(host, asked, &args.alock)
        && args.reclaim == (reclaim == 1)
        && args.state.cast_unsigned() as u64 == state
}

// Whether it is read as what it asks of this host.
fn is_asked(host: &str, procedure: &str, asked: &Terms, call: &NlmCall<'_>) -> bool {
    match (procedure, call) {
        ("test", NlmCall::Test(args)) => is_test(host, asked, args),
        ("lock", NlmCall::Lock(args)) => is_lock_call(host, asked, args),
        ("unlock", NlmCall::Unlock(args)) => {
            is_cookie(asked, &args.cookie) && is_lock(host, asked, &args.alock)
        }
        _ => false,
    }
}

fn is_read(xid: u32, text: &str, record: &[u8]) -> bool {
    let Some((host, rest)) = text.split_once("-") else {
        return false;
    };
    let (procedure, terms) = rest.split_once(" ").unwrap_or((rest, ""));
    let host = if host == "guest" { host } else { "hosthold" };
    match Reading::read(record) {
        Reading::Asks {
            xid: read,
            call: Call::Nlm(Version::V4, call),
        } => read == xid && is_asked(host, procedure, &Terms::read(xid, terms), &call),
        _ => false,
    }
}

// The hash once this call came, too, which is to be read as what it asks; and how many came.
fn hashed(
    (hash, count): (u64, u32),
    record: &mut Vec<u8>,
    xid: u32,
    text: &str,
) -> Option<(u64, u32)> {
    record.clear();
    put_message(record, xid, text)?;
    let record = record.get(4..)?;
    if !is_read(xid, text, record) {
        return None;
    }
    let hash = record.iter().fold(hash, |hash, byte| {
        (hash ^ *byte as u64).wrapping_mul(0x100_0000_01b3)
    });
    Some((hash, count.wrapping_add(1)))
}

// The calls are the lines that begin with an xid in hexadecimal.
fn hash_of_calls(record: &mut Vec<u8>) -> Option<(u64, u32)> {
    let mut all = (0xcbf2_9ce4_8422_2325, 0);
    for line in SCRIPT {
        if line.starts_with("0x") {
            let (xid, rest) = line.split_once(" ")?;
            let (text, _) = rest.split_once(" = ")?;
            all = hashed(all, record, read_xid(xid)?, text)?;
        }
    }
    Some(all)
}

fn hash_of_records(alloc: Global) -> Option<(u64, u32)> {
    let mut record = Vec::new(alloc);
    let hash = hash_of_calls(&mut record);
    drop(record);
    hash
}

#[test]
fn client_calls_are_read(rt: HostRuntime) {
    assert_eq!(rt; hash_of_records(rt.alloc()), Some((HASH, 20)));
}
