//! Replies are written to the connections that their calls came on.
ghost use Rattle.std.specs.Prelude.{◌≡◌, []};

use crate::traffic::Traffic;
use connections::{Connection, ConnectionTable, Lost, Patience};
use line_loop::Signals;
use reply_outbox::{ReplySockets, SocketEffects};
use std::alloc::Global;
use std::sync::{Arc, Mutex, Wait};

// Waits for a peer until the server stops.
#[derive(Drop)]
struct UntilStop<'a, Q> {
    signals: &'a Q,
}

impl<'a, Q: Signals> Patience for UntilStop<'a, Q> {
    fn is_over(&self) -> bool {
        self.signals.is_stopping()
    }
}

/// The connections of callers, as an outbox writes to them.
#[derive(Drop)]
pub(crate) struct CallerSockets<'a, 'h, K, Q, R> {
    rt: &'a R,
    callers: &'a Mutex<ConnectionTable<K>>,
    // The connection of whoever answers, if it has one.
    home: Option<&'h Arc<Connection, Global>>,
    signals: &'a Q,
    // Where what is written is counted.
    traffic: Option<&'a Traffic>,
    effects: SocketEffects,
}

impl<'a, 'h, K: Drop, Q: Signals, R: Wait> CallerSockets<'a, 'h, K, Q, R> {
    /// Nothing was written yet. `home` is the connection of whoever answers, if it has one; all others are found in the connection
    /// table.
    pub(crate) fn new(
        rt: &'a R,
        callers: &'a Mutex<ConnectionTable<K>>,
        home: Option<&'h Arc<Connection, Global>>,
        signals: &'a Q,
        traffic: Option<&'a Traffic>,
    ) -> CallerSockets<'a, 'h, K, Q, R>
        ensures { result.effects ≡ [] }
    {
        CallerSockets {
            rt,
            callers,
            home,
            signals,
            traffic,
            effects: SocketEffects::new(),
        }
    }

    fn is_home(&self, number: u64) -> bool {
        self.home.is_some_and(|home| home.number() == number)
    }

    // Whoever answers waits for its own connection's peer, until the server stops, and not for another's.
    fn send(&self, to: &Connection, bytes: &[u8]) -> Result<(), Lost> {
        if self.is_home(to.number()) {
            let until_stop = UntilStop {
                signals: self.signals,
            };
            to.send_patiently(self.rt, bytes, &until_stop)
        } else {
            to.send(self.rt, bytes)
        }
    }

    // The connection table's lock is everybody's: who answers its own connection's calls needs no look at it.
    fn find(&self, number: u64) -> Option<Arc<Connection, Global>> {
        match self.home {
            Some(home) if home.number() == number => Arc::try_clone(home).ok(),
            _ => self.callers.lock(self.rt).find(number),
        }
    }
}

impl<'a, 'h, K: Drop, Q: Signals, R: Wait> ReplySockets for CallerSockets<'a, 'h, K, Q, R> {
    ghost effects = { λ s. s.effects };

    fn write(&mut self, connection: u64, bytes: &[u8], jobs: u64) {
        let Some(to) = self.find(connection) else {
            self.effects.add_break(connection);
            return;
        };
        match self.send(&to, bytes) {
            Ok(()) => {
                if let Some(traffic) = self.traffic {
                    traffic.add_sent(connection, bytes.len());
                }
                self.effects.add_write(connection, bytes)
            }
            Err(Lost) => self.effects.add_break(connection),
        }
        to.count_done(jobs);
    }

    fn shut(&mut self, connection: u64) {
        if let Some(to) = self.find(connection) {
            to.shut();
        }
        self.effects.add_shut(connection);
    }

    fn are_done(&mut self, connection: u64, jobs: u64) {
        if let Some(to) = self.find(connection) {
            to.count_done(jobs);
        }
    }

    fn call_is_due(&mut self) {
        self.signals.call_is_due();
    }
}
