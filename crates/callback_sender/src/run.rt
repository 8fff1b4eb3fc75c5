//! The sender.
ghost use Rattle.std.specs.Prelude.{◌≡◌, [], IfOk};

use crate::locals::Locals;
use crate::peer_pool::PeerPool;
use crate::pending_calls::{PendingCall, PendingCalls};
use crate::settings::CallSettings;
use crate::turn::NonRecordEvent;
use crate::{CallSink, SentCall};
use book::Dest;
use ghost_list::History;
use mio::{Registry, Waker};
use peers_file::Addresses;
use std::alloc::Global;
use std::io;
use std::marker::Model;
use std::net::{Net, SocketAddr};
use std::time::{Clock, Instant};
use xdr_core::Frame;

/// Makes the server's own calls, on one thread. It keeps one connection to each peer while that answers. Contracts see the
/// calls that it was handed.
pub struct Sender<'a, R, D, A> {
    pub(crate) rt: &'a R,
    locals: &'a D,
    pub(crate) settings: CallSettings,
    pub(crate) addresses: A,
    pub(crate) peer_pool: PeerPool,
    pub(crate) pending_calls: PendingCalls,
    pub(crate) kept: Option<NonRecordEvent>,
    pub(crate) now: Instant,
    all: History<SentCall>,
}

// It is written out, so that no crate above proves again how each part is dropped.
impl<'a, R, D, A: Drop> Drop for Sender<'a, R, D, A> {
    fn drop(self) {
        let Sender {
            rt: _,
            locals: _,
            settings: _,
            addresses: _,
            peer_pool: _,
            pending_calls: _,
            kept: _,
            now: _,
            all: _,
        } = self;
    }
}

impl<'a, R, D, A> Model for Sender<'a, R, D, A> {
    ghost use Rattle.std.specs.Prelude.{List};
    ghost use Rattle.callback_sender.specs.Calls.{Call};
    ghost use Rattle.callback_sender.specs.SentCalls.{view_of_sent};

    ghost Value = { List Call };

    ghost view = { λ s. view_of_sent s.all.items };
}

impl<'a, R: Net + Clock, D: Locals, A: Addresses + Drop> Sender<'a, R, D, A> {
    /// Calls hosts where these addresses have them, at their ports, and these local programs. The error is the system's, or there
    /// is no memory.
    pub fn new(
        alloc: Global,
        rt: &'a R,
        settings: CallSettings,
        addresses: A,
        locals: &'a D,
    ) -> io::Result<Sender<'a, R, D, A>>
        ensures { IfOk result (λ s. s ≡ []) }
    {
        let now = Instant::now(rt)?;
        let pending_calls = PendingCalls::new(alloc)?;
        let mut peer_pool = PeerPool::new(rt, alloc)?;
        if let Some(registration) = settings.registration {
            peer_pool.register(registration, now);
        }
        Ok(Sender {
            rt,
            locals,
            settings,
            addresses,
            peer_pool,
            pending_calls,
            kept: None,
            now,
            all: History::new(),
        })
    }

    /// Where sockets are registered that are to wake the sender, under a token that no place has.
    pub fn registry(&self) -> &Registry {
        self.peer_pool.registry()
    }

    /// Wakes the sender, where something came due or it is to stop. It is asked for once.
    pub fn waker(&self) -> io::Result<Waker> {
        self.peer_pool.waker()
    }

    // The place of the host of this name, at the port of the record.
    fn place_of(&mut self, name: &[u8], bytes: &[u8]) -> Option<usize>
        ensures { self.new ≡ self.old }
    {
        let address = self.addresses.address(name)?;
        let at = SocketAddr::new(address, self.settings.port_of(bytes));
        self.peer_pool
            .place_of(at, self.settings.asks_of(bytes), self.now)
    }

    // A host that has no address is silent at once.
    fn call(&mut self, number: u64, name: &[u8], bytes: &[u8])
        ensures { self.new ≡ self.old }
    {
        let place = self.place_of(name, bytes);
        let later = self.now.checked_add(self.settings.silence);
        let until = match (place, later) {
            (Some(_), Some(later)) => later,
            _ => self.now,
        };
        self.pending_calls
            .add(PendingCall::new(number, bytes, place, self.now, until));
        if let Some(place) = place {
            self.peer_pool.send(self.rt, place, bytes, self.now, until);
        }
    }

    fn dispatch(&mut self, sent: &SentCall)
        ensures { self.new ≡ self.old }
    {
        match &sent.to {
            Dest::Host(name) => self.call(sent.number, name.as_slice(), sent.bytes.as_slice()),
            Dest::Connection(connection) => {
                // Where the connection has ended the line is thrown away.
                let _ = self.locals.tell(*connection, sent.bytes.as_slice());
            }
        }
    }
}

impl<'a, R: Net + Clock, D: Locals, A: Addresses + Drop> CallSink for Sender<'a, R, D, A> {
    ghost handed = { λ s. s };

    fn hand(&mut self, number: u64, to: Dest, bytes: Frame) {
        let sent = SentCall { number, to, bytes };
        self.dispatch(&sent);
        self.all = self.all.and(&sent);
    }
}
