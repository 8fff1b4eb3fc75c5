//! Shares of whole files: worked trials, a full table, and a random script beside a plain list.
use crate::random::next_bits;
use crate::wrong::{NO_MEMORY, Wrong, all_hold, nowhere, reads};
use dos_shares::{AccessBits, MOST_SHARES, Share, ShareError, Shares, Starved};
use std::alloc::{AllocError, Global};
use std::test::*;

/// Reading and writing.
type Both = (bool, bool);

const NONE: Both = (false, false);

const READ: Both = (true, false);

const WRITE: Both = (false, true);

/// A share as a plain value: its file, host and owner handle are of one byte each.
#[derive(Clone, Copy)]
struct Plain {
    file: u8,
    name: u8,
    oh: u8,
    deny: Both,
    access: Both,
}

impl Plain {
    fn owned(self, alloc: Global) -> Result<Share, AllocError> {
        new_share(
            alloc,
            (self.file, self.name, &[self.oh]),
            self.deny,
            self.access,
        )
    }

    fn is(self, held: &Share) -> bool {
        held.file() == [self.file].as_slice()
            && held.caller_name() == [self.name].as_slice()
            && held.oh() == [self.oh].as_slice()
            && held.deny() == AccessBits::new(self.deny.0, self.deny.1)
            && held.access() == AccessBits::new(self.access.0, self.access.1)
    }

    fn is_at_place_of(self, other: Plain) -> bool {
        (self.file, self.name, self.oh) == (other.file, other.name, other.oh)
    }

    fn is_refused_by(self, other: Plain) -> bool {
        let denied = (self.access.0 && other.deny.0) || (self.access.1 && other.deny.1);
        let denying = (self.deny.0 && other.access.0) || (self.deny.1 && other.access.1);
        self.file == other.file
            && (self.name, self.oh) != (other.name, other.oh)
            && (denied || denying)
    }
}

/// A share of a file, by an owner at a host.
fn new_share(
    alloc: Global,
    (file, name, oh): (u8, u8, &[u8]),
    deny: Both,
    access: Both,
) -> Result<Share, AllocError> {
    let file = Vec::from_slice(alloc, &[file])?;
    let name = Vec::from_slice(alloc, &[name])?;
    let oh = Vec::from_slice(alloc, oh)?;
    Ok(Share::new(
        file,
        name,
        oh,
        AccessBits::new(deny.0, deny.1),
        AccessBits::new(access.0, access.1),
    ))
}

fn is_all(shares: &Shares, list: &[Plain]) -> bool {
    for (held, plain) in shares.as_slice().iter().zip(list) {
        if !plain.is(held) {
            return false;
        }
    }
    shares.len() == list.len() && shares.is_empty() == list.is_empty()
}

/// What a share is answered.
type Answer = Result<(), ShareError>;

/// Asks for the share. None where there was no memory for it.
fn share(shares: &mut Shares, asked: Result<Share, AllocError>) -> Option<Answer> {
    match asked {
        Ok(asked) => Some(shares.share(asked)),
        Err(AllocError) => None,
    }
}

const HELD: Plain = Plain {
    file: 1,
    name: b'a',
    oh: 0x41,
    deny: WRITE,
    access: READ,
};

const WRITING: Plain = Plain {
    file: 1,
    name: b'b',
    oh: 0x41,
    deny: NONE,
    access: WRITE,
};

const READING: Plain = Plain {
    file: 1,
    name: b'a',
    oh: 0x41,
    deny: NONE,
    access: READ,
};

const DENIED: Answer = Err(ShareError::ShareDenied);

const CONFLICT: &[(Plain, Answer)] = &[(HELD, Ok(())), (WRITING, DENIED)];

const REPLACED: &[(Plain, Answer)] = &[(READING, Ok(())), (HELD, Ok(())), (WRITING, DENIED)];

/// The place of the first share that is answered otherwise.
fn wrong_answer(alloc: Global, shares: &mut Shares, asked: &[(Plain, Answer)]) -> Option<usize> {
    for (place, (plain, answer)) in asked.iter().enumerate() {
        if share(shares, plain.owned(alloc)) != Some(*answer) {
            return Some(place);
        }
    }
    None
}

/// Each share is answered so, one behind the other, and one is held then.
fn answers_each(
    alloc: Global,
    shares: &mut Shares,
    asked: &[(Plain, Answer)],
) -> Result<(), Wrong> {
    nowhere("an answer", wrong_answer(alloc, shares, asked))?;
    all_hold(&[("one share is held", is_all(shares, &[HELD]))])
}

#[test]
fn texts(rt: HostRuntime) -> Result<(), Wrong> {
    let denied = reads(
        ShareError::ShareDenied.to_string(rt.alloc()),
        "14 ShareDenied",
    );
    let full = reads(ShareError::NoShares.to_string(rt.alloc()), "15 NoShares");
    let starved = reads(Starved.to_string(rt.alloc()), "1 Starved");
    all_hold(&[("denied", denied), ("full", full), ("starved", starved)])
}

/// What a share of file 1 by the numbered owner of host 1 is answered.
fn share_numbered(alloc: Global, shares: &mut Shares, number: u32, deny: Both) -> Option<Answer> {
    let asked = new_share(alloc, (1, 1, &number.to_be_bytes()), deny, READ);
    share(shares, asked)
}

/// As many shares as there is room for.
fn fill(alloc: Global, shares: &mut Shares) -> bool {
    for number in 0..16_384 {
        if share_numbered(alloc, shares, number, NONE) != Some(Ok(())) {
            return false;
        }
    }
    shares.len() == MOST_SHARES
}

/// One more is refused, by what it denies first; who has a share may replace it.
fn is_full(alloc: Global, shares: &mut Shares) -> bool {
    let past = 16_384;
    share_numbered(alloc, shares, past, NONE) == Some(Err(ShareError::NoShares))
        && share_numbered(alloc, shares, past, READ) == Some(Err(ShareError::ShareDenied))
        && share_numbered(alloc, shares, 0, NONE) == Some(Ok(()))
        && shares.len() == MOST_SHARES
}

fn fills(alloc: Global, shares: &mut Shares) -> Result<(), Wrong> {
    let is_filled = fill(alloc, shares);
    let is_full = is_full(alloc, shares);
    shares.drop_host(&[2]);
    let keeps_others = shares.len() == MOST_SHARES;
    shares.drop_host(&[1]);
    all_hold(&[
        ("there is room for all", is_filled),
        ("there is room for no more", is_full),
        ("another host's shares stay", keeps_others),
        ("the host's shares go", shares.is_empty()),
    ])
}

/// What the script does next: a share of 2 files, 2 hosts and 2 handles, and a number for the call.
fn next(seed: &mut u64) -> (Plain, u64) {
    let bits = next_bits(seed);
    let plain = Plain {
        file: (bits & 1) as u8,
        name: (bits >> 1 & 1) as u8,
        oh: (bits >> 2 & 1) as u8,
        deny: (bits >> 3 & 3 == 0, bits >> 5 & 3 == 0),
        access: (bits >> 7 & 1 == 1, bits >> 8 & 1 == 1),
    };
    (plain, bits >> 9 & 31)
}

/// The same shares as a plain list, and how many were denied.
#[derive(Drop)]
struct Listed {
    list: Vec<Plain>,
    denied: u32,
}

impl Listed {
    fn unshare(&mut self, old: Plain) {
        self.list.retain(|held| !held.is_at_place_of(old));
    }

    fn is_denied(&mut self, new: Plain) -> bool {
        for held in self.list.as_slice() {
            if new.is_refused_by(*held) {
                self.denied = self.denied.wrapping_add(1);
                return true;
            }
        }
        false
    }

    /// Whether it is taken. None where there is no memory.
    fn share(&mut self, new: Plain) -> Option<bool> {
        if self.is_denied(new) {
            return Some(false);
        }
        self.unshare(new);
        self.list.push(new).ok()?;
        Some(true)
    }
}

/// One turn of the script, and whether both did the same.
fn turn(alloc: Global, shares: &mut Shares, listed: &mut Listed, seed: &mut u64) -> bool {
    let (plain, call) = next(seed);
    let mut is_same = true;
    match call {
        0 => {
            shares.clear();
            listed.list.clear();
        }
        1 => {
            shares.drop_host(&[plain.name]);
            listed.list.retain(|held| held.name != plain.name);
        }
        2..=6 => {
            shares.unshare(&[plain.file], &[plain.name], &[plain.oh]);
            listed.unshare(plain);
        }
        _ => {
            let answer = share(shares, plain.owned(alloc));
            is_same = match listed.share(plain) {
                Some(is_taken) => answer.is_some_and(|answer| answer.is_ok() == is_taken),
                None => false,
            };
        }
    }
    is_same && is_all(shares, listed.list.as_slice())
}

/// The first turn in which they differ.
fn wrong_turn(alloc: Global, shares: &mut Shares, listed: &mut Listed) -> Option<usize> {
    let mut seed = 7;
    for place in 0..4000usize {
        if !turn(alloc, shares, listed, &mut seed) {
            return Some(place);
        }
    }
    None
}

fn are_alike(alloc: Global, shares: &mut Shares) -> Result<(), Wrong> {
    let mut listed = Listed {
        list: Vec::new(alloc),
        denied: 0,
    };
    let wrong = wrong_turn(alloc, shares, &mut listed);
    let are_some_denied = listed.denied > 100 && listed.denied < 3000;
    drop(listed);
    nowhere("a random script", wrong)?;
    all_hold(&[("some are denied", are_some_denied)])
}

/// What is tried with shares of which there are none yet.
#[derive(Clone, Copy)]
enum Trial {
    Asked(&'static [(Plain, Answer)]),
    Full,
    RandomScript,
}

fn outcome(alloc: Global, shares: &mut Shares, trial: Trial) -> Result<(), Wrong> {
    match trial {
        Trial::Asked(asked) => answers_each(alloc, shares, asked),
        Trial::Full => fills(alloc, shares),
        Trial::RandomScript => are_alike(alloc, shares),
    }
}

/// All trials have their shares from here, since each function that has some owes a proof of their drop.
fn try_out(alloc: Global, trial: Trial) -> Result<(), Wrong> {
    match Shares::new(alloc) {
        Ok(mut shares) => outcome(alloc, &mut shares, trial),
        Err(_) => Err(NO_MEMORY),
    }
}

#[test]
fn share_conflict(rt: HostRuntime) -> Result<(), Wrong> {
    try_out(rt.alloc(), Trial::Asked(CONFLICT))
}

#[test]
fn share_replaced(rt: HostRuntime) -> Result<(), Wrong> {
    try_out(rt.alloc(), Trial::Asked(REPLACED))
}

#[test]
fn shares_full(rt: HostRuntime) -> Result<(), Wrong> {
    try_out(rt.alloc(), Trial::Full)
}

#[test]
fn random_script(rt: HostRuntime) -> Result<(), Wrong> {
    try_out(rt.alloc(), Trial::RandomScript)
}
