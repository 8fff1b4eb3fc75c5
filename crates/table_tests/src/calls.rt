//! The server's own calls: worked trials, a full table, and a random script beside a plain list.
ghost use Rattle.std.specs.Prelude.{◌<◌, IfSome, length};

use crate::random::next_bits;
use crate::wrong::{NO_MEMORY, Wrong, all_hold, nowhere};
use blocked_list::MOST_SLOTS;
use callbacks::{Callback, Caller, Destination, LocalLock, Message, OwnedLock, ShortBytes};
use nlm4_types::Version;
use out_calls::{OutCall, OutCalls};
use owner_ids::Owner;
use range_table::{FileId, Mode};
use std::alloc::{AllocError, Global};
use std::test::*;

const FIRST: u64 = 0x1_0000_0001;

/// A call to a host of one byte: GRANTED, GRANTED_MSG, SM_NOTIFY, or a line.
#[derive(Clone, Copy)]
enum Kind {
    Granted,
    Msg,
    Notice,
    Line,
}

fn lock(alloc: Global, name: u8) -> Result<OwnedLock, AllocError> {
    let fh = ShortBytes::copy_of(alloc, &[1, 2, 3, 4])?;
    let caller = Caller::copy_of(alloc, &[name], 8, b"B")?;
    Ok(OwnedLock {
        caller,
        fh,
        l_offset: 0,
        l_len: 10,
    })
}

fn line() -> Message {
    Message::GrantedLine {
        mode: Mode::Exclusive,
        lock: LocalLock {
            owner: Owner::Process(42),
            file: FileId::new(&[10]),
            offset: 0,
            len: 1,
        },
    }
}

fn message(alloc: Global, kind: Kind, name: u8) -> Result<Message, AllocError> {
    let version = Version::V4;
    let exclusive = true;
    match kind {
        Kind::Granted => {
            let lock = lock(alloc, name)?;
            Ok(Message::Granted {
                version,
                exclusive,
                lock,
            })
        }
        Kind::Msg => {
            let lock = lock(alloc, name)?;
            Ok(Message::GrantedMsg {
                version,
                exclusive,
                lock,
            })
        }
        Kind::Notice => {
            let name = ShortBytes::copy_of(alloc, b"server")?;
            Ok(Message::Notify { name, state: 3 })
        }
        Kind::Line => Ok(line()),
    }
}

fn destination(alloc: Global, kind: Kind, name: u8) -> Result<Destination, AllocError> {
    if let Kind::Line = kind {
        return Ok(Destination::Connection(1));
    }
    let host = ShortBytes::copy_of(alloc, &[name])?;
    Ok(Destination::Host(host))
}

fn callback(alloc: Global, kind: Kind, name: u8) -> Result<Callback, AllocError> {
    let to = destination(alloc, kind, name)?;
    let message = message(alloc, kind, name)?;
    Ok(Callback::new(to, message))
}

/// A call of this kind becomes due. Whether there was room and memory for it.
fn add(calls: &mut OutCalls, alloc: Global, number: u64, (kind, name): (Kind, u8)) -> bool {
    if calls.len() >= MOST_SLOTS {
        return false;
    }
    match callback(alloc, kind, name) {
        Ok(callback) => {
            calls.make_due(number, callback);
            true
        }
        Err(AllocError) => false,
    }
}

/// An answer ends the call of this number. Whether that was a grant to `b`, or None where there is no such call.
fn answer(calls: &mut OutCalls, number: u64) -> Option<bool> {
    let callback = calls.answered(number)?.into_callback();
    let is_to_b = callback.is_grant_to(b"b");
    // Called, its drop is proved once, and not here for each kind of message.
    drop(callback);
    Some(is_to_b)
}

/// The number of the call that is next, or 0.
fn next(calls: &OutCalls) -> u64 {
    calls.next_due().map_or(0, OutCall::number)
}

/// A grant that is answered once it was sent, and not twice.
fn is_answered(alloc: Global, calls: &mut OutCalls) -> bool {
    let is_added = add(calls, alloc, FIRST, (Kind::Granted, b'b'));
    let is_next = calls.of_xid(1).is_none() && next(calls) == FIRST;
    calls.sent();
    let is_sent = next(calls) == 0 && calls.of_xid(1).is_some() && calls.of_xid(2).is_none();
    let is_ended = answer(calls, FIRST) == Some(true) && calls.is_empty();
    is_added && is_next && is_sent && is_ended && answer(calls, FIRST).is_none()
}

/// Whether the call that is next is a grant to `c`, which was sent so often.
fn is_next_to_c(calls: &OutCalls, sendings: u8) -> bool {
    match calls.next_due() {
        Some(call) => {
            call.callback().to().is_host(b"c")
                && call.callback().message().is_grant()
                && call.sendings() == sendings
        }
        None => false,
    }
}

/// A grant to `c`, which was sent so often, is sent once more, and then nothing is heard.
fn is_sent_anew(calls: &mut OutCalls, sendings: u8) -> bool {
    let is_due = is_next_to_c(calls, sendings);
    calls.silent(FIRST + 1);
    let stays_due = next(calls) == FIRST + 1;
    calls.sent();
    calls.silent(FIRST + 1);
    is_due && stays_due
}

fn is_given_up(calls: &mut OutCalls) -> bool {
    for sendings in 0..3 {
        if !is_sent_anew(calls, sendings) {
            return false;
        }
    }
    calls.is_empty()
}

fn grants_end(alloc: Global, calls: &mut OutCalls) -> Result<(), Wrong> {
    let is_answered = is_answered(alloc, calls);
    let is_added = add(calls, alloc, FIRST + 1, (Kind::Granted, b'c'));
    let is_given_up = is_given_up(calls);
    all_hold(&[
        ("a grant is answered", is_answered),
        ("another is made due", is_added),
        ("it is given up", is_given_up),
    ])
}

/// As many notices as there is room for.
fn fill(alloc: Global, calls: &mut OutCalls) -> bool {
    for number in 0..8_192 {
        if !add(calls, alloc, number, (Kind::Notice, b'a')) {
            return false;
        }
    }
    calls.len() == MOST_SLOTS
}

fn sends_twenty(calls: &mut OutCalls) -> bool {
    for number in 0..20 {
        if next(calls) != number {
            return false;
        }
        calls.sent();
    }
    true
}

/// Those behind the first twenty are answered.
fn answer_others(calls: &mut OutCalls) {
    for number in 20..8_192 {
        answer(calls, number);
    }
}

fn hear_nothing(calls: &mut OutCalls) {
    for number in 0..20 {
        calls.silent(number);
    }
}

/// Twenty are sent three times, and never answered.
fn are_given_up(calls: &mut OutCalls) -> bool {
    for _ in 0..3 {
        if !sends_twenty(calls) {
            return false;
        }
        answer_others(calls);
        hear_nothing(calls);
    }
    calls.is_empty()
}

fn hosts_are_silent(alloc: Global, calls: &mut OutCalls) -> Result<(), Wrong> {
    let is_filled = fill(alloc, calls);
    let are_given_up = are_given_up(calls);
    all_hold(&[
        ("there is room for all", is_filled),
        ("they are given up", are_given_up),
    ])
}

const FIVE: &[(u64, Kind, u8)] = &[
    (FIRST, Kind::Msg, b'a'),
    (FIRST + 1, Kind::Granted, b'a'),
    (FIRST + 2, Kind::Notice, b'a'),
    (FIRST + 3, Kind::Line, b'a'),
    (FIRST + 4, Kind::Msg, b'b'),
];

fn adds_five(alloc: Global, calls: &mut OutCalls) -> bool {
    for (number, kind, name) in FIVE {
        if !add(calls, alloc, *number, (*kind, *name)) {
            return false;
        }
    }
    true
}

fn send_four(calls: &mut OutCalls) {
    for _ in 0..4 {
        calls.sent();
    }
}

/// The number of the sent call that the fifth's cookie names.
fn named_by_fifth(calls: &OutCalls) -> Option<u64> {
    calls
        .of_cookie(&(FIRST + 4).to_be_bytes())
        .map(OutCall::number)
}

/// The message forms alone are known by their cookie, which is all eight bytes of the number.
fn are_known(calls: &OutCalls) -> bool {
    named_by_fifth(calls) == Some(FIRST + 4)
        && calls.of_cookie(&FIRST.to_be_bytes()).is_some()
        && calls.of_cookie(&(FIRST + 1).to_be_bytes()).is_none()
        && calls.of_cookie(&[0, 0, 0, 1]).is_none()
}

fn drops_and_cookies_are_right(alloc: Global, calls: &mut OutCalls) -> Result<(), Wrong> {
    let are_added = adds_five(alloc, calls);
    send_four(calls);
    let is_line_gone = calls.len() == 4 && named_by_fifth(calls).is_none();
    calls.sent();
    let are_known = are_known(calls);
    calls.drop_host(b"a");
    let is_other_left = calls.len() == 2 && named_by_fifth(calls).is_some();
    calls.clear();
    all_hold(&[
        ("five are made due", are_added),
        ("a line ends when it is sent", is_line_gone),
        ("message forms are known", are_known),
        ("the other host's grant is left", is_other_left),
        ("all go", calls.is_empty()),
    ])
}

/// A call as a plain value.
#[derive(Clone, Copy)]
struct Plain {
    number: u64,
    kind: Kind,
    name: u8,
    sendings: u8,
    due: bool,
}

impl Plain {
    fn is(self, call: &OutCall) -> bool {
        call.number() == self.number
            && call.sendings() == self.sendings
            && call.is_due() == self.due
    }

    fn is_grant_to(self, name: u8) -> bool {
        self.name == name && matches!(self.kind, Kind::Granted | Kind::Msg)
    }
}

fn is_all(calls: &OutCalls, list: &[Plain]) -> bool {
    for (call, plain) in calls.as_slice().iter().zip(list) {
        if !plain.is(call) {
            return false;
        }
    }
    calls.len() == list.len()
}

fn send(list: &mut Vec<Plain>) {
    let Some(place) = list.iter().position(|plain| plain.due) else {
        return;
    };
    let mut plain = list.remove(place);
    if !matches!(plain.kind, Kind::Line) {
        plain.sendings = plain.sendings.wrapping_add(1);
        plain.due = false;
        let _ = list.insert(place, plain);
    }
}

fn place_of(list: &[Plain], number: u64) -> Option<usize>
    ensures { IfSome result (λ place. place < length list.now) }
{
    list.iter().position(|plain| plain.number == number)
}

/// The first of this number ends.
fn end(list: &mut Vec<Plain>, number: u64) {
    if let Some(place) = place_of(list, number) {
        list.remove(place);
    }
}

/// Nothing is heard of the first of this number.
fn repeat(list: &mut Vec<Plain>, number: u64) {
    let Some(place) = place_of(list, number) else {
        return;
    };
    let mut plain = list.remove(place);
    if plain.due {
        let _ = list.insert(place, plain);
    } else if plain.sendings < 3 {
        plain.due = true;
        let _ = list.push(plain);
    }
}

/// A call of this kind becomes due in both. Whether there was memory for it.
fn add_both(
    (calls, list): (&mut OutCalls, &mut Vec<Plain>),
    alloc: Global,
    number: u64,
    (kind, name): (Kind, u8),
) -> bool {
    let plain = Plain {
        number,
        kind,
        name,
        sendings: 0,
        due: true,
    };
    add(calls, alloc, number, (kind, name)) && list.push(plain).is_ok()
}

/// The least of the numbers of sent calls with this xid, or 0.
fn oldest(list: &[Plain], xid: u32) -> u64 {
    let mut found = 0;
    for plain in list {
        let is = plain.number % 4_294_967_296 == u64::from(xid) && plain.sendings > 0;
        if is && (found == 0 || plain.number < found) {
            found = plain.number;
        }
    }
    found
}

/// One turn of the script in both, and whether they are alike behind it.
fn turn(alloc: Global, calls: &mut OutCalls, list: &mut Vec<Plain>, bits: u64) -> bool {
    let low = bits % 4;
    let number = 4_294_967_296 * (1 + bits / 4 % 2) + low;
    let name = if bits / 8 % 2 == 0 { b'a' } else { b'b' };
    let kind = match bits / 16 % 4 {
        0 => Kind::Granted,
        1 => Kind::Msg,
        2 => Kind::Notice,
        _ => Kind::Line,
    };
    let mut has_memory = true;
    match bits / 64 % 16 {
        0 => {
            calls.drop_host(&[name]);
            list.retain(|plain| !plain.is_grant_to(name));
        }
        1..=4 => has_memory = add_both((calls, list), alloc, number, (kind, name)),
        5..=8 => {
            calls.sent();
            send(list);
        }
        9..=12 => {
            calls.silent(number);
            repeat(list, number);
        }
        _ => {
            answer(calls, number);
            end(list, number);
        }
    }
    let xid = low as u32;
    let found = calls.of_xid(xid).map_or(0, OutCall::number);
    has_memory && is_all(calls, list) && found == oldest(list, xid)
}

/// The first turn behind which they are not alike.
fn wrong_turn(alloc: Global, calls: &mut OutCalls, list: &mut Vec<Plain>) -> Option<usize> {
    let mut seed: u64 = 5;
    for place in 0..2000usize {
        if !turn(alloc, calls, list, next_bits(&mut seed)) {
            return Some(place);
        }
    }
    None
}

fn are_alike(alloc: Global, calls: &mut OutCalls) -> Result<(), Wrong> {
    let mut list = Vec::new(alloc);
    nowhere("a random script", wrong_turn(alloc, calls, &mut list))
}

/// What is tried with calls of which there are none yet.
#[derive(Clone, Copy)]
enum Trial {
    Grants,
    SilentHosts,
    DropsAndCookies,
    RandomScript,
}

fn outcome(alloc: Global, calls: &mut OutCalls, trial: Trial) -> Result<(), Wrong> {
    match trial {
        Trial::Grants => grants_end(alloc, calls),
        Trial::SilentHosts => hosts_are_silent(alloc, calls),
        Trial::DropsAndCookies => drops_and_cookies_are_right(alloc, calls),
        Trial::RandomScript => are_alike(alloc, calls),
    }
}

/// All trials have their calls from here, since each function that has some owes a proof of their drop.
fn try_out(alloc: Global, trial: Trial) -> Result<(), Wrong> {
    match OutCalls::new(alloc) {
        Ok(mut calls) => outcome(alloc, &mut calls, trial),
        Err(_) => Err(NO_MEMORY),
    }
}

#[test]
fn grant_refused(rt: HostRuntime) -> Result<(), Wrong> {
    try_out(rt.alloc(), Trial::Grants)
}

#[test]
fn silent_hosts(rt: HostRuntime) -> Result<(), Wrong> {
    try_out(rt.alloc(), Trial::SilentHosts)
}

#[test]
fn drops_and_cookies(rt: HostRuntime) -> Result<(), Wrong> {
    try_out(rt.alloc(), Trial::DropsAndCookies)
}

#[test]
fn random_script(rt: HostRuntime) -> Result<(), Wrong> {
    try_out(rt.alloc(), Trial::RandomScript)
}
