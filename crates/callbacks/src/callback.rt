//! A message and whom it is for.
ghost use Rattle.std.specs.Prelude.{◌≡◌, ◌&&◌};
ghost use Rattle.definitions.specs.Outgoing.{is_to_host, is_grant};
ghost use Rattle.std.specs.Option.{option_copied};
ghost use Rattle.callbacks.specs.Grants.{host_of};
ghost use Rattle.callbacks.specs.Meanings.{view_of_destination, view_of_message};

use crate::message::Message;
use crate::short::ShortBytes;
use std::marker::Model;

/// Whom a call is for.
#[derive(Drop)]
pub enum Destination {
    /// A host, by its name.
    Host(ShortBytes),
    /// A local connection, by its number.
    Connection(u64),
}

impl Destination {
    /// Whether it is this host.
    pub fn is_host(&self, name: &[u8]) -> bool
        ensures { result ≡ is_to_host name.now (view_of_destination self.now) }
    {
        match self {
            Destination::Host(host) => host.as_slice() == name,
            Destination::Connection(_) => false,
        }
    }

    /// The name of the host.
    pub fn host(&self) -> Option<&[u8]>
        ensures { option_copied result ≡ host_of (view_of_destination self.now) }
    {
        match self {
            Destination::Host(host) => Some(host.as_slice()),
            Destination::Connection(_) => None,
        }
    }
}

/// What a call says, and to whom. It stays what it is however often it is sent.
pub struct Callback {
    to: Destination,
    message: Message,
}

// It is written out, so that no crate above proves again how each part of it is dropped.
impl Drop for Callback {
    fn drop(self) {
        let Callback { to: _, message: _ } = self;
    }
}

impl Model for Callback {
    ghost use Rattle.definitions.specs.Outgoing.{Callback as SentCallback};
    ghost use Rattle.callbacks.specs.Meanings.{view_of_destination, view_of_message};

    ghost Value = { SentCallback };

    ghost view = { λ l. record { to = view_of_destination l.to; message = view_of_message l.message } };
}

impl Callback {
    pub fn new(to: Destination, message: Message) -> Callback
        ensures { result ≡ record { to = view_of_destination to; message = view_of_message message } }
    {
        Callback { to, message }
    }

    pub fn to(&self) -> &Destination
        ensures { view_of_destination result.now ≡ self.now.to }
    {
        &self.to
    }

    pub fn message(&self) -> &Message
        ensures { view_of_message result.now ≡ self.now.message }
    {
        &self.message
    }

    /// Whether it is GRANTED or GRANTED_MSG to this host.
    pub fn is_grant_to(&self, name: &[u8]) -> bool
        ensures { result ≡ (is_grant self.now.message && is_to_host name.now self.now.to) }
    {
        self.message.is_grant() && self.to.is_host(name)
    }
}
