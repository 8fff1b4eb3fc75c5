//! What the thread that started all others does.
use crate::signals::StopSignals;
use callback_sender::{Addresses, Datagrams, Locals, Sender};
use connections::MainLoop;
use hosts_db::HostStore;
use log::Log;
use range_table::RangeTable;
use std::io::Print;
use std::net::Net;
use std::sync::ledger::Ledger;
use std::sync::{Mutex, Wait};
use std::time::Clock;
use workers::Shared;

/// Says that the server is ready, and makes its own calls until it is stopped, between which it answers what comes by datagram.
#[derive(Drop)]
pub(crate) struct Sends<'a, R, D, A: Drop, N, T: RangeTable, S: HostStore, L: Ledger> {
    sender: Sender<'a, R, D, A>,
    datagrams: N,
    shared: &'a Mutex<Shared<T, S, L>>,
    stop_signals: &'a StopSignals,
    is_told: bool,
}

impl<'a, R, D, A: Drop, N, T: RangeTable, S: HostStore, L: Ledger> Sends<'a, R, D, A, N, T, S, L> {
    pub(crate) fn new(
        sender: Sender<'a, R, D, A>,
        datagrams: N,
        shared: &'a Mutex<Shared<T, S, L>>,
        stop_signals: &'a StopSignals,
    ) -> Sends<'a, R, D, A, N, T, S, L> {
        Sends {
            sender,
            datagrams,
            shared,
            stop_signals,
            is_told: false,
        }
    }

    /// Whether it was said that the server is ready.
    pub(crate) fn is_told(&self) -> bool {
        self.is_told
    }

    /// What answered datagrams, once it is over.
    pub(crate) fn into_datagrams(self) -> N {
        let Sends {
            sender: _,
            datagrams,
            shared: _,
            stop_signals: _,
            is_told: _,
        } = self;
        datagrams
    }
}

impl<'a, R, D, A, N, T, S, L> MainLoop<R> for Sends<'a, R, D, A, N, T, S, L>
where
    R: Net + Wait + Clock + Print + Log,
    D: Locals,
    A: Addresses + Drop,
    N: Datagrams,
    T: RangeTable,
    S: HostStore,
    L: Ledger,
{
    fn run(&mut self, rt: &R) {
        self.is_told = println!(rt; "ready").is_ok();
        if self.is_told {
            drop(
                self.sender
                    .run(self.shared, self.stop_signals, &mut self.datagrams),
            );
            self.sender.leave();
        }
    }
}
