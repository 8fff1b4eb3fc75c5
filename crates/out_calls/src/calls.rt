//! The calls that wait to be sent or answered.
ghost use Rattle.std.specs.Prelude.{◌≡◌, ◌↔◌, ◌≤◌, ◌<◌, ◌++◌, ◌∷◌, [], length, IfOk, IsTrue, Option, None, Some, IfSome, IfNone, slice_index_or};
ghost use Rattle.std.specs.List.{position_or_len, remove};
ghost use Rattle.definitions.specs.Bytes.{first_that, without_first};
ghost use Rattle.definitions.specs.Outgoing.{Outgoing, Callback as SentCallback, due_now, next_due, is_numbered, without_call, after_sending, after_silence, call_of_xid, call_of_cookie, without_grants_to};
ghost use Rattle.definitions.specs.LockRules.{without_grants_of};
ghost use Rattle.definitions.specs.First.{IsFirstPlace};
ghost use Rattle.held_locks.specs.Asked.{view_of_request};
ghost use Rattle.out_calls.specs.Found.{found, kept_or};

use crate::call::{MOST_SENDINGS, OutCall};
use callbacks::{Callback, MOST_SLOTS};
use held_locks::Request;
use owner_ids::Starved;
use std::alloc::Global;
use std::marker::Model;

/// The server's own calls, in the order in which they became due. Contracts see the list of them.
///
/// Those that were sent and wait for their answer stand in front, and behind them those that are due: a call that becomes
/// due again goes to the end. So the next one to be sent is found without a walk.
///
/// Each has a place among the `MOST_SLOTS` that calls share with waiters, and whoever keeps that count takes the place
/// first. Room for all is reserved at the start, so no later call takes memory.
#[derive(Drop)]
pub struct OutCalls {
    calls: Vec<OutCall>,
    // How many were sent and wait: here stands the first that is due.
    sent: usize,
}

impl Model for OutCalls {
    ghost use Rattle.std.specs.Prelude.{List, ◌≤◌, length, vec_capacity};
    ghost use Rattle.definitions.specs.Outgoing.{Outgoing};
    ghost use Rattle.out_calls.specs.Order.{IsInOrder};

    ghost Value = { List Outgoing };

    ghost view = { λ o. o.calls.items };

    ghost invariant = { λ o. (length o.calls.items ≤ 8192) × (8192 ≤ vec_capacity o.calls) × IsInOrder o.sent o.calls.items };
}

impl OutCalls {
    /// No calls, with room for `MOST_SLOTS`, or `Starved` where there is no memory for it.
    pub fn new(alloc: Global) -> Result<OutCalls, Starved>
        ensures { IfOk result (λ calls. calls ≡ []) }
    {
        Ok(OutCalls {
            calls: Vec::with_capacity(alloc, MOST_SLOTS)?,
            sent: 0,
        })
    }

    pub fn len(&self) -> usize
        ensures len { result ≡ length self.now }
        ensures most { length self.now ≤ MOST_SLOTS }
    {
        self.calls.len()
    }

    pub fn is_empty(&self) -> bool
        ensures { IsTrue result ↔ (self.now ≡ []) }
    {
        self.calls.is_empty()
    }

    /// The calls, the one that became due last at the end.
    pub fn as_slice(&self) -> &[OutCall]
        ensures { result.now ≡ self.now }
    {
        self.calls.as_slice()
    }

    /// A call becomes due, behind the others, under this number.
    pub fn make_due(&mut self, number: u64, callback: Callback)
        requires { length self.old < MOST_SLOTS }
        ensures { self.new ≡ self.old ++ due_now number callback ∷ [] }
    {
        self.calls.push_reserved(OutCall::new(number, callback));
    }

    /// The call that is to be sent next: of those that are due, the one that became so first.
    pub fn next_due(&self) -> Option<&OutCall>
        ensures { found result ≡ next_due self.now }
    {
        match self.due_place() {
            Some(place) => Some(&self.calls[place]),
            None => None,
        }
    }

    /// The call that is to be sent next was sent. It waits for its answer, but for a local line, which ends. Where none is
    /// due nothing changes.
    pub fn sent(&mut self)
        ensures { self.new ≡ after_sending self.old }
    {
        if let Some(place) = self.due_place() {
            self.sent_at(place);
        }
    }

    /// The call that a reply of this xid belongs to (RFC 5531): of those that were sent, the oldest.
    pub fn of_xid(&self, xid: u32) -> Option<&OutCall>
        ensures { found result ≡ call_of_xid xid self.now }
    {
        let calls = self.calls.as_slice();
        let mut oldest: Option<&OutCall> = None;
        for call in calls {
            if call.is_answered_by(xid) {
                oldest = Some(older(oldest, call));
            }
        }
        oldest
    }

    /// The call that a GRANTED_RES with this cookie belongs to (XNFS, NLM_GRANTED_RES): a GRANTED_MSG that was sent.
    pub fn of_cookie(&self, cookie: &[u8]) -> Option<&OutCall>
        ensures { found result ≡ call_of_cookie cookie.now self.now }
    {
        let calls = self.calls.as_slice();
        let mut oldest: Option<&OutCall> = None;
        for call in calls {
            if call.is_answered_with(cookie) {
                oldest = Some(older(oldest, call));
            }
        }
        oldest
    }

    /// An answer ends the call of this number, which is given back. Where there is none nothing changes.
    pub fn answered(&mut self, number: u64) -> Option<OutCall>
        ensures call { result ≡ first_that (is_numbered number) self.old }
        ensures calls { self.new ≡ without_call number self.old }
    {
        let place = self.place_of(number)?;
        Some(self.take_out(place))
    }

    /// Nothing answered the call of this number. It becomes due again, behind the others, or is forgotten once it was
    /// sent `MOST_SENDINGS` times. Nothing changes where it is due already, or where there is none.
    pub fn silent(&mut self, number: u64)
        ensures { self.new ≡ after_silence number self.old }
    {
        if let Some(place) = self.place_of(number) {
            self.silent_at(number, place);
        }
    }

    /// Takes out the grants to a host that it has not answered (XNFS, NLM_FREE_ALL and SM_NOTIFY).
    pub fn drop_host(&mut self, name: &[u8])
        ensures { self.new ≡ without_grants_to name.now self.old }
    {
        self.calls.retain(|call| !call.is_grant_to(name));
        self.sent = first_due(self.calls.as_slice());
    }

    /// Takes out each GRANTED and GRANTED_MSG of this lock, due or sent: of the same owner, file, range and mode.
    pub fn end_grants(&mut self, wanted: &Request<'_>)
        ensures { self.new ≡ without_grants_of (view_of_request wanted.now) self.old }
    {
        self.calls.retain(|call| !call.tells_of(wanted));
        self.sent = first_due(self.calls.as_slice());
    }

    /// Takes out every call, as at a restart.
    pub fn clear(&mut self)
        ensures { self.new ≡ [] }
    {
        self.calls.clear();
        self.sent = 0;
    }

    // Where the next call to be sent stands: behind those that wait.
    fn due_place(&self) -> Option<usize>
        ensures { IsFirstPlace (λ c. c.is_due) self.now result }
    {
        if self.sent < self.calls.len() {
            Some(self.sent)
        } else {
            None
        }
    }

    // Where the first call of this number stands.
    fn place_of(&self, number: u64) -> Option<usize>
        ensures { IsFirstPlace (is_numbered number) self.now result }
    {
        self.calls.iter().position(|call| call.number() == number)
    }

    // Nothing answered the first call of this number, which stands here.
    fn silent_at(&mut self, number: u64, place: usize)
        requires { IsFirstPlace (is_numbered number) self.old (Some place) }
        ensures { self.new ≡ after_silence number self.old }
    {
        if self.calls[place].is_due() {
            return;
        }
        if self.calls[place].sendings() < MOST_SENDINGS {
            let call = self.take_out(place);
            self.calls.push_reserved(call.repeat());
        } else {
            drop(self.take_out(place));
        }
    }

    // The first due call, which stands here, was sent.
    fn sent_at(&mut self, place: usize)
        requires { IsFirstPlace (λ c. c.is_due) self.old (Some place) }
        ensures { self.new ≡ after_sending self.old }
    {
        if self.calls[place].ends_when_sent() {
            drop(self.take_out(place));
        } else {
            self.calls[place].send();
            self.sent += 1;
        }
    }

    // The call at this place goes, and those behind it stand one place further in front: the first that is due, too, where
    // the call was sent.
    fn take_out(&mut self, place: usize) -> OutCall
        requires { place < length self.old }
        ensures call { result ≡ slice_index_or self.old place result }
        ensures others { self.new ≡ remove self.old place }
        ensures room { length self.new < MOST_SLOTS }
    {
        let call = self.calls.remove(place);
        if place < self.sent {
            self.sent -= 1;
        }
        call
    }
}

// Where the first call stands that is due, or how many there are where none is.
fn first_due(calls: &[OutCall]) -> usize
    ensures { result ≡ position_or_len (λ c. c.is_due) calls.now }
{
    calls
        .iter()
        .position(|call| call.is_due())
        .unwrap_or(calls.len())
}

// Of two calls the one of lesser number; the first where they have one.
fn older<'a>(first: Option<&'a OutCall>, call: &'a OutCall) -> &'a OutCall
    ensures { result.now ≡ kept_or (found first.entry) call.now }
{
    match first {
        Some(first) if !call.is_older(first) => first,
        _ => call,
    }
}
