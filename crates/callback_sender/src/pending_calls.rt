//! Calls that wait for their answers, and the answers that came.
ghost use Rattle.std.specs.Prelude.{◌≡◌, ◌≢◌, [], ◌∷◌, true, false, if◌then◌else◌, IfOk, OnErr, IfSome, IfNone, position, option_map, filter, vec_capacity};
ghost use Rattle.rpc_msg.specs.Answered.{IsNoAnswer};
ghost use Rattle.callback_sender.specs.Waits.{HeardReply, no_waits, ends_with_reply, is_numbered, is_under, is_up, awaits, kept_under, IsReplyTo, NobodyAwaits, AddsCall, HearsReply, TakesCall};

use crate::settings::ends_with_reply;
use rpc_msg::Answer;
use std::alloc::{AllocError, Global};
use std::collections::VecDeque;
use std::marker::Model;
use std::time::Instant;

/// So many calls have a place at the start. The server has no more of its own.
const PLACES: usize = 8_192;

/// Whether the call of this number became due under this own state: that is what the number's high 32 bits are.
pub(crate) fn is_under(own_state: u32, number: u64) -> bool
    ensures { result ≡ is_under own_state number }
{
    number >> 32 == u64::from(own_state)
}

/// A reply that came, and the number of the call that it answers.
#[derive(Drop)]
pub(crate) struct ReceivedAnswer {
    number: u64,
    bytes: Vec<u8>,
}

impl Model for ReceivedAnswer {
    ghost use Rattle.callback_sender.specs.Waits.{HeardReply};

    ghost Value = { HeardReply };

    ghost view = { λ h. record { number = h.number; bytes = h.bytes.items } };
}

impl ReceivedAnswer {
    /// The number of its call.
    pub(crate) fn number(&self) -> u64
        ensures { result ≡ self.now.number }
    {
        self.number
    }

    /// The reply.
    pub(crate) fn into_bytes(self) -> Vec<u8>
        ensures { result.items ≡ self.bytes }
    {
        self.bytes
    }
}

/// A call that was sent.
#[derive(Clone, Copy, Drop)]
pub(crate) struct PendingCall {
    /// Its number. Its low 32 bits are the xid.
    number: u64,
    /// The place of its peer. None where it has no address.
    peer: Option<usize>,
    /// When it was sent, and when it falls silent.
    sent: Instant,
    until: Instant,
    /// Whether its reply ends it. Else a call of the peer's own does, and it may still fall silent.
    ends_with_reply: bool,
    is_answered: bool,
}

impl PendingCall {
    /// A call of this record, which is sent now.
    pub(crate) fn new(
        number: u64,
        bytes: &[u8],
        peer: Option<usize>,
        now: Instant,
        until: Instant,
    ) -> PendingCall
        ensures { result ≡ record { number = number; peer = peer; sent = now; until = until; ends_with_reply = ends_with_reply bytes.now; is_answered = false } }
    {
        PendingCall {
            number,
            peer,
            sent: now,
            until,
            ends_with_reply: ends_with_reply(bytes),
            is_answered: false,
        }
    }

    pub(crate) fn number(&self) -> u64
        ensures { result ≡ self.now.number }
    {
        self.number
    }

    /// The peer from which nothing came since it was sent, and when that was.
    pub(crate) fn mute_peer(&self) -> Option<(usize, Instant)>
        ensures { result ≡ (if self.now.is_answered then None else option_map (λ place. (place, self.now.sent)) self.now.peer) }
    {
        if self.is_answered {
            return None;
        }
        let peer = self.peer?;
        Some((peer, self.sent))
    }

    fn is_up(&self, now: Instant) -> bool
        ensures { result ≡ is_up now self.now }
    {
        now.checked_duration_since(self.until).is_some()
    }

    fn awaits(&self, peer: usize, xid: u32) -> bool
        ensures { result ≡ awaits peer xid self.now }
    {
        !self.is_answered && self.peer == Some(peer) && self.number & 0xffff_ffff == u64::from(xid)
    }
}

/// The calls that wait for their answers, in no order, and the answers that came, the oldest first. Contracts see both lists.
#[derive(Drop)]
pub(crate) struct PendingCalls {
    alloc: Global,
    calls: Vec<PendingCall>,
    heard: VecDeque<ReceivedAnswer>,
}

impl Model for PendingCalls {
    ghost use Rattle.std.specs.Prelude.{◌≤◌, vec_capacity};
    ghost use Rattle.callback_sender.specs.Waits.{Waits};

    ghost Value = { Waits };

    ghost view = { λ a. record { calls = a.calls.items; heard = a.heard.items } };

    ghost invariant = { λ a. 8192 ≤ vec_capacity a.calls };
}

// Keeps the calls that became due under this own state.
fn keep_calls(calls: &mut Vec<PendingCall>, own_state: u32)
    ensures calls { calls.new.items ≡ filter (λ (call : PendingCall). is_under own_state call.number) calls.old.items }
    ensures room { vec_capacity calls.new ≡ vec_capacity calls.old }
{
    calls.retain(|call| is_under(own_state, call.number));
}

// Keeps the answers to such calls.
fn keep_heard(heard: &mut VecDeque<ReceivedAnswer>, own_state: u32)
    ensures { heard.new.items ≡ filter (λ (h : HeardReply). is_under own_state h.number) heard.old.items }
{
    heard.retain(|answer| is_under(own_state, answer.number));
}

// Where the call of this number stands.
fn place_of(calls: &[PendingCall], number: u64) -> Option<usize>
    ensures { result ≡ position (is_numbered number) calls.now }
{
    calls.iter().position(|call| call.number == number)
}

// Where the first call stands that awaits the answer of this xid.
fn awaiting(calls: &[PendingCall], peer: usize, xid: u32) -> Option<usize>
    ensures { result ≡ position (awaits peer xid) calls.now }
{
    calls.iter().position(|call| call.awaits(peer, xid))
}

// Where the first call stands whose time is up.
fn silent(calls: &[PendingCall], now: Instant) -> Option<usize>
    ensures { result ≡ position (is_up now) calls.now }
{
    calls.iter().position(|call| call.is_up(now))
}

// The xid of the call that this record is a reply to.
fn replied_xid(bytes: &[u8]) -> Option<u32>
    ensures some { IfSome result (λ xid. IsReplyTo xid bytes.now) }
    ensures none { IfNone result (IsNoAnswer bytes.now) }
{
    let answer = Answer::read(bytes)?;
    Some(answer.xid)
}

impl PendingCalls {
    pub(crate) fn new(alloc: Global) -> Result<PendingCalls, AllocError>
        ensures { IfOk result (λ a. a ≡ no_waits) }
    {
        Ok(PendingCalls {
            alloc,
            calls: Vec::with_capacity(alloc, PLACES)?,
            heard: VecDeque::new(alloc),
        })
    }

    /// The call waits. Where it does so since it was sent before, it waits anew.
    pub(crate) fn add(&mut self, call: PendingCall)
        ensures { AddsCall PLACES call self.old self.new }
    {
        match place_of(&self.calls, call.number) {
            Some(place) => self.calls[place] = call,
            None => {
                // There is a place for each call of the server.
                let _ = self.calls.push(call);
            }
        }
    }

    /// A record came from this peer. It is kept where it is an answer that a call waits for, and tells whether it is. Refused:
    /// there is no memory to keep it, and nothing changed, so the call may be answered yet, and falls silent at its time.
    pub(crate) fn hear(&mut self, peer: usize, bytes: &[u8]) -> Result<bool, AllocError>
        ensures kept { result ≡ Ok true → HearsReply peer bytes.now self.old self.new }
        ensures other { result ≡ Ok false → (self.new ≡ self.old) × NobodyAwaits peer bytes.now self.old.calls }
        ensures stays { OnErr result (self.new ≡ self.old) }
    {
        let Some(xid) = replied_xid(bytes) else {
            return Ok(false);
        };
        let Some(place) = awaiting(&self.calls, peer, xid) else {
            return Ok(false);
        };
        let call = self.calls[place];
        let number = call.number;
        let bytes = Vec::from_slice(self.alloc, bytes)?;
        self.heard.push_back(ReceivedAnswer { number, bytes })?;
        if call.ends_with_reply {
            self.calls.swap_remove(place);
        } else {
            self.calls[place].is_answered = true;
        }
        Ok(true)
    }

    /// Takes the answer that came first.
    pub(crate) fn take_heard(&mut self) -> Option<ReceivedAnswer>
        ensures some { IfSome result (λ first. self.old ≡ record self.new { heard = first ∷ self.new.heard }) }
        ensures none { IfNone result ((self.new ≡ self.old) × (self.old.heard ≡ [])) }
    {
        self.heard.pop_front()
    }

    /// Takes a call whose time is up, if there is one.
    pub(crate) fn take_silent(&mut self, now: Instant) -> Option<PendingCall>
        ensures some { IfSome result (λ call. TakesCall call self.old self.new) }
        ensures up { IfSome result (λ call. is_up now call ≡ true) }
        ensures none { IfNone result ((self.new ≡ self.old) × (position (is_up now) self.old.calls ≡ None)) }
    {
        let place = silent(&self.calls, now)?;
        Some(self.calls.swap_remove(place))
    }

    /// When there is something to take.
    pub(crate) fn next(&self, now: Instant) -> Option<Instant>
        ensures heard { self.now.heard ≢ [] → result ≡ Some now }
        ensures none { IfNone result (self.now ≡ no_waits) }
    {
        if !self.heard.is_empty() {
            return Some(now);
        }
        self.calls.iter().map(|call| call.until).min()
    }

    /// The own state is this one now: of the calls and the answers just those stay whose call became due under it.
    pub(crate) fn keep_under(&mut self, own_state: u32)
        ensures { self.new ≡ kept_under own_state self.old }
    {
        keep_calls(&mut self.calls, own_state);
        keep_heard(&mut self.heard, own_state);
    }
}
