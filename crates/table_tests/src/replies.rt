//! Kept replies: a full table, keys that differ in one part, and a random script beside a plain list.
use crate::random::next_word;
use crate::wrong::{NO_MEMORY, Wrong, all_hold, nowhere};
use bytes::Bytes;
use kept_replies::{Kept, KeptReplies, Key, MOST_KEPT, Peer};
use std::alloc::{AllocError, Global};
use std::test::*;

/// A reply is known by its number alone.
#[derive(Drop)]
struct Numbered(u32);

impl Kept for Numbered {
    ghost use Rattle.std.specs.Prelude.{[]};
    ghost use Rattle.definitions.specs.Replies.{SystemErr};

    ghost xid = { λ n. n.0 };

    ghost outcome = { λ _. SystemErr };

    ghost callbacks = { λ _. [] };
}

const PEER: Peer = Peer {
    address: *b"\0\0\0\0\0\0\0\0\0\0\xff\xff\x0a\0\0\x01",
    is_local: false,
};

const LOCAL: Peer = Peer {
    address: *b"\0\0\0\0\0\0\0\0\0\0\xff\xff\x0a\0\0\x01",
    is_local: true,
};

const OTHER: Peer = Peer {
    address: *b"\0\0\0\0\0\0\0\0\0\0\xff\xff\x0a\0\0\x02",
    is_local: false,
};

fn key(alloc: Global, peer: Peer, call: u32) -> Result<Key, AllocError> {
    let record = Bytes::from_vec(Vec::from_slice(alloc, call.to_be_bytes().as_slice())?)?;
    Ok(Key { peer, record })
}

/// Whether what is kept of the call is its own reply, or whether nothing is kept.
fn is_kept(found: Option<&Numbered>, call: Option<u32>) -> bool {
    match (found, call) {
        (Some(Numbered(number)), Some(call)) => *number == call,
        (None, None) => true,
        _ => false,
    }
}

/// Whether a look tells this of a peer's call.
fn looks(
    alloc: Global,
    kept: &KeptReplies<Numbered>,
    peer: Peer,
    call: u32,
    reply: Option<u32>,
) -> bool {
    match key(alloc, peer, call) {
        Ok(key) => is_kept(kept.look(&key), reply),
        Err(_) => false,
    }
}

/// Whether the call's use tells this of it.
fn finds(
    alloc: Global,
    kept: &mut KeptReplies<Numbered>,
    peer: Peer,
    call: u32,
    reply: Option<u32>,
) -> bool {
    match key(alloc, peer, call) {
        Ok(key) => is_kept(kept.find(&key), reply),
        Err(_) => false,
    }
}

/// Whether a look and then the call's use tell this of it.
fn tells(
    alloc: Global,
    kept: &mut KeptReplies<Numbered>,
    peer: Peer,
    call: u32,
    reply: Option<u32>,
) -> bool {
    looks(alloc, kept, peer, call, reply) && finds(alloc, kept, peer, call, reply)
}

/// Keeps the reply of a call. Whether nothing was kept under its key before. None where there is no memory.
fn keep(
    alloc: Global,
    kept: &mut KeptReplies<Numbered>,
    peer: Peer,
    call: u32,
    reply: u32,
) -> Option<bool> {
    let key = key(alloc, peer, call).ok()?;
    let is_new = kept.look(&key).is_none();
    match kept.keep(key, Numbered(reply)) {
        Ok(()) => Some(is_new),
        Err(_) => None,
    }
}

/// Keeps the call's number as its reply, where nothing was kept of it.
fn keeps(alloc: Global, kept: &mut KeptReplies<Numbered>, call: u32) -> bool {
    keep(alloc, kept, PEER, call, call) == Some(true)
}

const ASKED: &[(Peer, u32, Option<u32>)] = &[
    (PEER, 20, Some(20)),
    (Peer::PIPE, 20, Some(21)),
    (LOCAL, 20, None),
    (OTHER, 20, None),
    (PEER, 21, None),
];

fn tells_each(alloc: Global, kept: &mut KeptReplies<Numbered>) -> bool {
    for (peer, call, reply) in ASKED {
        if !tells(alloc, kept, *peer, *call, *reply) {
            return false;
        }
    }
    true
}

fn are_apart(alloc: Global, kept: &mut KeptReplies<Numbered>) -> Result<(), Wrong> {
    let are_new = keeps(alloc, kept, 20) && keep(alloc, kept, Peer::PIPE, 20, 21) == Some(true);
    let are_told = tells_each(alloc, kept);
    kept.clear();
    let are_gone = kept.is_empty() && looks(alloc, kept, PEER, 20, None);
    all_hold(&[
        ("both are new", are_new),
        ("each is its peer's and its record's", are_told),
        ("all go", are_gone),
    ])
}

fn keeps_each(alloc: Global, kept: &mut KeptReplies<Numbered>, first: u32, past: u32) -> bool {
    for call in first..past {
        if !keeps(alloc, kept, call) {
            return false;
        }
    }
    kept.len() == MOST_KEPT
}

/// The first call is used again, the second is looked at alone.
fn uses_first(alloc: Global, kept: &mut KeptReplies<Numbered>) -> bool {
    looks(alloc, kept, PEER, 1, Some(1)) && finds(alloc, kept, PEER, 0, Some(0))
}

/// Of the first three calls that one alone is kept which was used again.
fn leaves_used(alloc: Global, kept: &KeptReplies<Numbered>) -> bool {
    looks(alloc, kept, PEER, 0, Some(0))
        && looks(alloc, kept, PEER, 1, None)
        && looks(alloc, kept, PEER, 2, None)
}

fn are_limited(alloc: Global, kept: &mut KeptReplies<Numbered>) -> Result<(), Wrong> {
    let is_filled = keeps_each(alloc, kept, 0, MOST_KEPT as u32);
    let is_used = uses_first(alloc, kept);
    let is_full = keeps_each(alloc, kept, 2_000, 2_002);
    all_hold(&[
        ("there is room for all", is_filled),
        ("the first is used again", is_used),
        ("others take their places", is_full),
        ("the one that was used is left", leaves_used(alloc, kept)),
    ])
}

/// A reply whose key is there takes the place of the old one.
fn takes_place(alloc: Global, kept: &mut KeptReplies<Numbered>) -> Result<(), Wrong> {
    let are_new = keeps(alloc, kept, 1) && keeps(alloc, kept, 2);
    let is_old = keep(alloc, kept, PEER, 1, 7) == Some(false);
    let is_anew = looks(alloc, kept, PEER, 1, Some(7));
    all_hold(&[
        ("both are new", are_new),
        ("the reply is another", is_old && is_anew),
        ("two are kept", kept.len() == 2),
    ])
}

/// Whether the call is kept, which is then the newest use: the numbers are in order, the newest use first.
fn use_plain(plain: &mut Vec<u32>, call: u32) -> bool {
    let Some(place) = plain.iter().position(|kept| *kept == call) else {
        return false;
    };
    let found = plain.remove(place);
    plain.insert(0, found).is_ok()
}

fn keep_plain(plain: &mut Vec<u32>, call: u32) -> bool {
    let is_there = plain.insert(0, call).is_ok();
    plain.truncate(MOST_KEPT);
    is_there
}

/// One call. Whether both tell the same of it.
fn uses(alloc: Global, kept: &mut KeptReplies<Numbered>, plain: &mut Vec<u32>, call: u32) -> bool {
    if use_plain(plain, call) {
        tells(alloc, kept, PEER, call, Some(call))
    } else {
        tells(alloc, kept, PEER, call, None) && keeps(alloc, kept, call) && keep_plain(plain, call)
    }
}

/// The first random call of which they don't tell the same, or behind which they don't have as many.
fn wrong_turn(
    alloc: Global,
    kept: &mut KeptReplies<Numbered>,
    plain: &mut Vec<u32>,
) -> Option<usize> {
    let mut random: u32 = 1;
    for place in 0..6_000usize {
        let call = next_word(&mut random) >> 16 & 2_047;
        if !uses(alloc, kept, plain, call) || kept.len() != plain.len() {
            return Some(place);
        }
    }
    None
}

fn are_alike(alloc: Global, kept: &mut KeptReplies<Numbered>) -> Result<(), Wrong> {
    let mut plain = Vec::new(alloc);
    nowhere("a random script", wrong_turn(alloc, kept, &mut plain))
}

/// What is tried with replies of which none are kept yet.
#[derive(Clone, Copy)]
enum Trial {
    Apart,
    Limit,
    Anew,
    RandomScript,
}

fn outcome(alloc: Global, kept: &mut KeptReplies<Numbered>, trial: Trial) -> Result<(), Wrong> {
    match trial {
        Trial::Apart => are_apart(alloc, kept),
        Trial::Limit => are_limited(alloc, kept),
        Trial::Anew => takes_place(alloc, kept),
        Trial::RandomScript => are_alike(alloc, kept),
    }
}

/// All trials have their replies from here, since each function that has some owes a proof of their drop.
fn try_out(alloc: Global, trial: Trial) -> Result<(), Wrong> {
    match KeptReplies::new(alloc) {
        Ok(mut kept) => outcome(alloc, &mut kept, trial),
        Err(_) => Err(NO_MEMORY),
    }
}

#[test]
fn a_reply_is_its_peers_and_its_records(rt: HostRuntime) -> Result<(), Wrong> {
    try_out(rt.alloc(), Trial::Apart)
}

#[test]
fn kept_limit(rt: HostRuntime) -> Result<(), Wrong> {
    try_out(rt.alloc(), Trial::Limit)
}

#[test]
fn a_reply_takes_anothers_place(rt: HostRuntime) -> Result<(), Wrong> {
    try_out(rt.alloc(), Trial::Anew)
}

#[test]
fn random_uses_beside_a_plain_list(rt: HostRuntime) -> Result<(), Wrong> {
    try_out(rt.alloc(), Trial::RandomScript)
}
