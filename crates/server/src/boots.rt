//! Which boots hosts reported, and how the book is given a notice of one.
use crate::open_gate::OpenGate;
use boot_states::{BootStates, Finding, Kind, Report};
use bytes::Bytes;
use call_codec::put_record;
use callbacks::{Message, ShortBytes};
use datagram_calls::answer_datagram;
use hosts_db::HostStore;
use job_queue::{Job, Place};
use kept_replies::Peer;
use log::{Log, error};
use range_table::RangeTable;
use std::alloc::{AllocError, Global};
use std::sync::ledger::Ledger;
use std::sync::{Mutex, Wait};
use workers::{Shared, Worker};
use xdr_core::Frame;

/// The number of no connection: the reply to such a call goes to nobody.
const NO_CONNECTION: u64 = u64::MAX;

/// Who sends these notices: the server itself, under an address that no host has.
const ITSELF: Peer = Peer {
    address: *b"lockd\0\0\0\0\0\0\0\0\0\0\0",
    is_local: true,
};

/// The longest name of a host.
const MOST_NAME_BYTES: usize = 1_024;

// The number in the notice that the book is given where this report finds a reboot. Behind a notice it is the same one, so that
// the notice itself finds the state seen. Behind a LOCK it is the state under which the host was down before this boot: the even
// number of the two (XNFS: a state is odd while the host is up). No notice of the host carries that.
fn number_for_book(report: Report) -> i32 {
    match report.kind {
        Kind::Lock => report.state & !1,
        Kind::Notice => report.state,
    }
}

/// Which boots were reported, and what it takes to have the book take a notice. It is held while the book takes one, so that no
/// LOCK of the same boot comes between.
#[derive(Drop)]
pub(crate) struct Boots<P: Place, L: Ledger> {
    alloc: Global,
    states: BootStates,
    worker: Worker<P, L>,
    // How many notices the book took. Each has an xid of its own, so that none is taken for a repeat.
    count: u64,
}

impl<P: Place, L: Ledger> Boots<P, L> {
    pub(crate) fn new(alloc: Global, states: BootStates, worker: Worker<P, L>) -> Boots<P, L> {
        Boots {
            alloc,
            states,
            worker,
            count: 0,
        }
    }

    /// What it took to answer calls.
    pub(crate) fn into_worker(self) -> Worker<P, L> {
        self.worker
    }

    // The call by which a host notifies of its reboot, as a job of the server's own.
    fn notice(&mut self, host: &[u8], state: i32) -> Result<Job, AllocError> {
        let name = ShortBytes::copy_of(self.alloc, host.get(..MOST_NAME_BYTES).unwrap_or(host))?;
        let number = self.count;
        self.count = number.wrapping_add(1);
        let mut frame = Frame::new();
        // A record of such a call fits into an empty frame.
        let _ = put_record(number, &Message::Notify { name, state }, &mut frame);
        let record = Bytes::from_vec(Vec::from_slice(self.alloc, frame.as_slice())?)?;
        Ok(Job::new(NO_CONNECTION, ITSELF, number, record))
    }

    // The book takes a notice: what the host held before is dropped, and its watchers are called.
    fn notify<R: Wait + Log, T: RangeTable, S: HostStore>(
        &mut self,
        rt: &R,
        shared: &Mutex<Shared<T, S, L>>,
        host: &[u8],
        state: i32,
    ) {
        match self.notice(host, state) {
            Ok(job) => {
                drop(answer_datagram(rt, &mut self.worker, shared, &OpenGate, job));
            }
            Err(AllocError) => error!(rt; "no memory to drop what a host held before its reboot"),
        }
    }

    // What a report says of its host's boots. Where it finds a reboot, what the host held before is dropped. None: there is no
    // memory to remember the host.
    fn hear<R: Wait + Log, T: RangeTable, S: HostStore>(
        &mut self,
        rt: &R,
        shared: &Mutex<Shared<T, S, L>>,
        host: &[u8],
        report: Report,
    ) -> Option<Finding> {
        match self.states.hear(host, report) {
            Ok(finding) => {
                if finding == Finding::Reboot {
                    self.notify(rt, shared, host, number_for_book(report));
                }
                Some(finding)
            }
            Err(_) => None,
        }
    }

    /// A host asks for a lock in this state of its boot. Where that finds a reboot, what the host held before is dropped. Where
    /// there is no memory to remember the host, nothing is.
    pub(crate) fn hear_lock<R: Wait + Log, T: RangeTable, S: HostStore>(
        &mut self,
        rt: &R,
        shared: &Mutex<Shared<T, S, L>>,
        host: &[u8],
        state: i32,
    ) {
        let report = Report {
            kind: Kind::Lock,
            state,
        };
        let _ = self.hear(rt, shared, host, report);
    }

    /// A host notifies of a reboot, with this state. Where it is the first to report that boot, what the host held before is
    /// dropped at once, so that the notice itself finds the state seen. True: a LOCK, or this notice before, reported that boot
    /// already, so that the notice is to change nothing. False, too, where there is no memory to remember the host: nothing is
    /// dropped here then, and the notice does what it does without these reports.
    pub(crate) fn hear_notice<R: Wait + Log, T: RangeTable, S: HostStore>(
        &mut self,
        rt: &R,
        shared: &Mutex<Shared<T, S, L>>,
        host: &[u8],
        state: i32,
    ) -> bool {
        let report = Report {
            kind: Kind::Notice,
            state,
        };
        match self.hear(rt, shared, host, report) {
            Some(Finding::SameBoot | Finding::Reported) => true,
            Some(Finding::Reboot) | None => false,
        }
    }
}
