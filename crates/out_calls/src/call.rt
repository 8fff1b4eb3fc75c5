//! One call.
ghost use Rattle.std.specs.Prelude.{◌≡◌, ◌<◌, ◌≤◌, ◌&&◌, ◌^◌, eqb, ltb, true, false};
ghost use Rattle.definitions.specs.Bytes.{same_bytes, eight_bytes};
ghost use Rattle.definitions.specs.LockRules.{tells_of};
ghost use Rattle.definitions.specs.Outgoing.{Outgoing, Callback as SentCallback, due_now, once_more, xid_of, was_sent, is_grant_to, is_granted_msg, ends_when_sent};
ghost use Rattle.held_locks.specs.Asked.{view_of_request};

use crate::grants;
use callbacks::Callback;
use held_locks::Request;
use std::marker::Model;

/// How often a call is sent before a silence forgets it.
pub const MOST_SENDINGS: u8 = 3;

/// A call of the server's own: its number, what it says and to whom, how often it was sent, and whether it is due now.
#[derive(Drop)]
pub struct OutCall {
    number: u64,
    callback: Callback,
    sendings: u8,
    is_due: bool,
}

impl Model for OutCall {
    ghost use Rattle.std.specs.Prelude.{◌≡◌, ◌≤◌, ◌<◌, true};
    ghost use Rattle.definitions.specs.Outgoing.{Outgoing};

    ghost Value = { Outgoing };

    ghost view = { λ c. record { number = c.number; callback = c.callback; sendings = c.sendings; is_due = c.is_due } };

    ghost invariant = { λ c. (c.sendings ≤ 3) × (c.is_due ≡ true → c.sendings < 3) };
}

impl OutCall {
    /// A call that is due and was never sent.
    pub(crate) fn new(number: u64, callback: Callback) -> OutCall
        ensures { result ≡ due_now number callback }
    {
        OutCall {
            number,
            callback,
            sendings: 0,
            is_due: true,
        }
    }

    /// The number that the call got when it became due. Its low 32 bits are the xid (RFC 5531).
    pub fn number(&self) -> u64
        ensures { result ≡ self.now.number }
    {
        self.number
    }

    pub fn xid(&self) -> u32
        ensures { result ≡ xid_of self.now }
    {
        (self.number % 4_294_967_296) as u32
    }

    /// What it says, and to whom: the same at each sending.
    pub fn callback(&self) -> &Callback
        ensures { result.now ≡ self.now.callback }
    {
        &self.callback
    }

    /// Gives up what it says, and to whom.
    pub fn into_callback(self) -> Callback
        ensures { result ≡ self.callback }
    {
        self.callback
    }

    pub fn is_due(&self) -> bool
        ensures { result ≡ self.now.is_due }
    {
        self.is_due
    }

    /// How often it was sent, at most `MOST_SENDINGS` times.
    pub fn sendings(&self) -> u8
        ensures sent { result ≡ self.now.sendings }
        ensures most { result ≤ MOST_SENDINGS }
    {
        self.sendings
    }

    // Whether it was sent and a reply of this xid is its.
    pub(crate) fn is_answered_by(&self, xid: u32) -> bool
        ensures { result ≡ (eqb (xid_of self.now) xid && was_sent self.now) }
    {
        self.xid() == xid && self.sendings >= 1
    }

    // Whether it is a GRANTED_MSG that was sent and this is its cookie, the 8 bytes of its number.
    pub(crate) fn is_answered_with(&self, cookie: &[u8]) -> bool
        ensures { result ≡ (is_granted_msg self.now.callback.message && (same_bytes (eight_bytes self.now.number) cookie.now && was_sent self.now)) }
    {
        self.callback.message().is_granted_msg() && self.has_cookie(cookie) && self.sendings >= 1
    }

    fn has_cookie(&self, cookie: &[u8]) -> bool
        ensures { result ≡ same_bytes (eight_bytes self.now.number) cookie.now }
    {
        self.number.to_be_bytes().as_slice() == cookie
    }

    pub(crate) fn is_older(&self, other: &OutCall) -> bool
        ensures { result ≡ ltb self.now.number other.now.number }
    {
        self.number < other.number
    }

    pub(crate) fn is_grant_to(&self, name: &[u8]) -> bool
        ensures { result ≡ is_grant_to name.now self.now }
    {
        self.callback.is_grant_to(name)
    }

    pub(crate) fn tells_of(&self, wanted: &Request<'_>) -> bool
        ensures { result ≡ tells_of (view_of_request wanted.now) self.now.callback.message }
    {
        grants::tells_of(self.callback.message(), wanted)
    }

    pub(crate) fn ends_when_sent(&self) -> bool
        ensures { result ≡ ends_when_sent self.now.callback.message }
    {
        self.callback.message().ends_when_sent()
    }

    // It is sent once more, and no longer due.
    pub(crate) fn send(&mut self)
        requires { self.old.is_due ≡ true }
        ensures { self.new ≡ once_more self.old }
    {
        self.sendings += 1;
        self.is_due = false;
    }

    // It is due once more, as it was.
    pub(crate) fn repeat(self) -> OutCall
        requires { self.sendings < MOST_SENDINGS }
        ensures { result ≡ record self { is_due = true } }
    {
        OutCall {
            is_due: true,
            ..self
        }
    }
}
