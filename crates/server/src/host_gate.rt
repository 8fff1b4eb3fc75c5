//! What is done before a call is answered: where its host is, and whether that began anew.
ghost use Rattle.std.specs.Prelude.{IfOk};
ghost use Rattle.caller_reports.specs.Nulls.{IsNull};

use crate::boots::Boots;
use crate::traffic::Traffic;
use bytes::Bytes;
use caller_reports::{CallerReport, null_call, report_in};
use hosts_db::HostStore;
use job_queue::{Job, Place};
use learned_addresses::{Heard, LearnedAddresses};
use log::{Log, error, warn};
use range_table::RangeTable;
use reply_outbox::{Gate, TakenTimes};
use std::alloc::{AllocError, Global};
use std::net::IpAddr;
use std::sync::ledger::Ledger;
use std::sync::{Mutex, Wait};
use std::time::{Clock, Duration, Instant};
use workers::Shared;

/// Where the program of a call stands, behind xid, message type and RPC version. Version and procedure follow.
const PROGRAM_AT: usize = 12;

/// What a gate that looks at hosts knows.
#[derive(Drop)]
pub(crate) struct HostBooks<'a, P: Place, L: Ledger> {
    /// Where hosts are, if that is learned.
    pub(crate) learned: Option<&'a Mutex<LearnedAddresses>>,
    /// Which boots of hosts were reported, if LOCKs report them.
    pub(crate) boots: Option<&'a Mutex<Boots<P, L>>>,
}

/// Looks who asks before each call is answered, behind another gate. Where neither is asked for, it does what that does.
#[derive(Drop)]
pub(crate) struct HostGate<'a, R, P: Place, L: Ledger, T: RangeTable, S: HostStore, G> {
    rt: &'a R,
    alloc: Global,
    shared: &'a Mutex<Shared<T, S, L>>,
    gate: &'a G,
    books: HostBooks<'a, P, L>,
    // Where the times of critical sections are counted, if they are.
    traffic: Option<&'a Traffic>,
    // None where the clock failed: time stands still then.
    started: Option<Instant>,
}

impl<'a, R: Clock, P: Place, L: Ledger, T: RangeTable, S: HostStore, G> HostGate<
    'a,
    R,
    P,
    L,
    T,
    S,
    G,
> {
    pub(crate) fn new(
        rt: &'a R,
        alloc: Global,
        shared: &'a Mutex<Shared<T, S, L>>,
        gate: &'a G,
        books: HostBooks<'a, P, L>,
        traffic: Option<&'a Traffic>,
    ) -> HostGate<'a, R, P, L, T, S, G> {
        HostGate {
            rt,
            alloc,
            shared,
            gate,
            books,
            traffic,
            started: Instant::now(rt).ok(),
        }
    }

    // How long the server runs.
    fn runs(&self) -> Duration {
        match (self.started, Instant::now(self.rt)) {
            (Some(started), Ok(now)) => now.duration_since(started),
            _ => Duration::ZERO,
        }
    }

    // The same in milliseconds.
    fn now(&self) -> u64 {
        u64::try_from(self.runs().as_millis()).unwrap_or(u64::MAX)
    }
}

// The text of an address.
fn text_of(alloc: Global, address: [u8; 16]) -> Result<String, AllocError> {
    let address = IpAddr::from(address).to_canonical();
    format!(in alloc; "{address}")
}

impl<'a, R: Wait + Clock + Log, P: Place, L: Ledger, T: RangeTable, S: HostStore, G> HostGate<
    'a,
    R,
    P,
    L,
    T,
    S,
    G,
> {
    // Has the store keep where a host is.
    fn keep(&self, learned: &Mutex<LearnedAddresses>, host: &[u8], address: [u8; 16], now: u64) {
        let Ok(text) = text_of(self.alloc, address) else {
            error!(self.rt; "no memory to store where a host is");
            return;
        };
        let kept = self.shared.lock(self.rt).locate(host, text.as_bytes());
        match kept {
            Ok(()) => {
                // Without memory the address is stored again later.
                let _ = learned.lock(self.rt).keep(host, address, now);
            }
            Err(_) => warn!(self.rt; "the store refused where a host is: {text}"),
        }
    }

    // A host asks for a lock from there. A store has its address before the call is answered, but for a second one within some
    // seconds.
    fn learn(&self, learned: &Mutex<LearnedAddresses>, host: &[u8], address: [u8; 16]) {
        let now = self.now();
        let heard = learned.lock(self.rt).hear(host, address, now);
        match heard {
            Ok(Heard::Known) => {}
            Ok(Heard::IsToBeKept) => self.keep(learned, host, address, now),
            Err(_) => error!(self.rt; "no memory for where a host is"),
        }
    }

    // Whether anything is looked for.
    fn looks(&self) -> bool {
        self.books.learned.is_some() || self.books.boots.is_some()
    }

    fn hear_lock(&self, job: &Job, host: &[u8], state: i32) {
        if let Some(learned) = self.books.learned {
            self.learn(learned, host, job.peer().address);
        }
        if let Some(boots) = self.books.boots {
            boots
                .lock(self.rt)
                .hear_lock(self.rt, self.shared, host, state);
        }
    }

    // Whether the boot that a notice reports was reported before.
    fn is_reported(&self, host: &[u8], state: i32) -> bool {
        match self.books.boots {
            Some(boots) => boots
                .lock(self.rt)
                .hear_notice(self.rt, self.shared, host, state),
            None => false,
        }
    }
}

// Whether a record may report anything, by the words of its program and its procedure (RFC 5531, section 9): all others, the most by
// far, aren't read.
fn may_report(record: &[u8]) -> bool {
    let Some((_, behind)) = record.split_at_checked(PROGRAM_AT) else {
        return false;
    };
    match behind.first_chunk::<12>() {
        Some([0, 1, 0x86, 0xb5, .., procedure]) => matches!(procedure, 2 | 7 | 22),
        Some([0, 1, 0x86, 0xb8, .., procedure]) => *procedure == 6,
        _ => false,
    }
}

// The call's record with procedure 0.
fn null_of(alloc: Global, record: &Bytes) -> Result<Bytes, AllocError>
    ensures { IfOk result (λ null. IsNull record.now null) }
{
    let null = null_call(alloc, record.as_slice())?;
    Ok(Bytes::from_vec(null)?)
}

impl<'a, R: Wait + Clock + Log, P: Place, L: Ledger, T: RangeTable, S: HostStore, G: Gate> Gate
    for HostGate<'a, R, P, L, T, S, G> {
    ghost use Rattle.std.specs.Prelude.{◌⊎◌};
    ghost use Rattle.caller_reports.specs.Nulls.{IsNull};

    ghost holds = { λ hosts. G.holds hosts.gate.now };

    // What the other gate has answered; or, in place of a notice, its call with procedure 0, which does nothing.
    ghost MayAnswer = { λ hosts asked answered. G.MayAnswer hosts.gate.now asked answered ⊎ IsNull asked answered };

    fn may_hold(&self) -> bool {
        self.gate.may_hold()
    }

    fn time(&self) -> u64 {
        match self.traffic {
            Some(_) => u64::try_from(self.runs().as_nanos()).unwrap_or(u64::MAX),
            None => 0,
        }
    }

    fn timed(&self, connection: u64, times: TakenTimes) {
        if let Some(traffic) = self.traffic {
            let waited = times.inside.saturating_sub(times.asked);
            let inside = times.left.saturating_sub(times.inside);
            traffic.add_section(connection, waited, inside);
        }
    }

    fn before(&self, job: &Job) -> Option<Bytes> {
        if let Some(record) = self.gate.before(job) {
            return Some(record);
        }
        if !self.looks() || !may_report(job.record().as_slice()) {
            return None;
        }
        match report_in(job.record().as_slice()) {
            CallerReport::Lock { host, state } => {
                self.hear_lock(job, host, state);
                None
            }
            CallerReport::Notice { host, state } => {
                if self.is_reported(host, state) {
                    null_of(self.alloc, job.record()).ok()
                } else {
                    None
                }
            }
            CallerReport::Nothing => None,
        }
    }
}
