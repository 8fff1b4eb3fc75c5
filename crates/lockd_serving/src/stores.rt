//! Where hosts are stored.
ghost use Rattle.std.specs.Prelude.{◌≡◌, Err, Some, IfOk, IfErr, IfSome, option_map};
ghost use Rattle.hosts_db.specs.KeptHosts.{IsStored};
ghost use Rattle.hosts_sql.specs.Refused.{refusal_of};
ghost use Rattle.lockd_serving.specs.Ran.{AreStored};

use crate::notes::{StartFailure, tell};
use config::FilePath;
use hosts_db::{HostStore, KeptHosts, MemHosts, StoreError};
use hosts_sql::{AdoptError, HostAddress, SqlHosts};
use pipe_loops::StreamFault;
use server::LearnedAddresses;
use sqlite::{Alter, Connection};
use std::alloc::Global;
use std::net::IpAddr;

/// The hosts of the program: in memory, or in a database. All that it serves stands over this one type.
pub(crate) type Hosts<S> = KeptHosts<MemHosts, SqlHosts<S>>;

/// A database, and what came of opening it.
#[derive(Drop)]
pub(crate) struct OpenedDatabase<'a, S: Alter> {
    /// Where it is.
    pub(crate) path: &'a FilePath,
    pub(crate) tried: Result<Connection<S>, sqlite::Error>,
    /// Whether it is to keep where hosts are.
    pub(crate) is_learning: bool,
}

/// Hosts, and where they were, if that is kept.
#[derive(Drop)]
pub(crate) struct FoundHosts<H> {
    pub(crate) hosts: H,
    pub(crate) learned: Option<LearnedAddresses>,
}

fn fault_of(refusal: StoreError) -> StreamFault
    ensures { refusal ≡ StoreError.StoreRefused → result ≡ StreamFault.StoreRefused }
{
    match refusal {
        StoreError::Starved => StreamFault::Starved,
        StoreError::StoreRefused => StreamFault::StoreRefused,
    }
}

// No hosts, in memory.
fn no_hosts<S: Alter + Drop>(alloc: Global) -> Result<FoundHosts<Hosts<S>>, StreamFault>
    ensures rows { IfOk result (λ found. AreStored None (⟦<Hosts<S> as HostStore>⟧.rows found.hosts)) }
    ensures refusals { IfOk result (λ found. ⟦<Hosts<S> as HostStore>⟧.refusals found.hosts ≡ 0) }
{
    match MemHosts::new(alloc, 0, Vec::new(alloc), Vec::new(alloc)) {
        Ok(hosts) => Ok(FoundHosts {
            hosts: KeptHosts::InMemory(hosts),
            learned: None,
        }),
        Err(refusal) => Err(fault_of(refusal)),
    }
}

// The bytes of an address, an IPv4 address in its mapped form.
fn octets_of(address: IpAddr) -> [u8; 16] {
    match address {
        IpAddr::V4(address) => address.to_ipv6_mapped().octets(),
        IpAddr::V6(address) => address.octets(),
    }
}

// Where hosts were, as a database has it.
fn learned_of(alloc: Global, addresses: &[HostAddress]) -> Result<LearnedAddresses, StreamFault> {
    let Ok(mut learned) = LearnedAddresses::new(alloc) else {
        return Err(StreamFault::Starved);
    };
    for host in addresses {
        if learned
            .restore(host.name(), octets_of(host.address()))
            .is_err()
        {
            return Err(StreamFault::Starved);
        }
    }
    Ok(learned)
}

// The hosts of a database that was taken, which keeps where they are, if that is asked for.
fn found_in<S: Alter + Drop>(
    alloc: Global,
    store: SqlHosts<S>,
    is_learning: bool,
) -> Result<FoundHosts<Hosts<S>>, StreamFault>
    ensures stored { IfOk result (λ found. IsStored found.hosts) }
    ensures refusals { ⟦<SqlHosts<S> as HostStore>⟧.refusals store ≡ 0 → IfOk result (λ found. ⟦<Hosts<S> as HostStore>⟧.refusals found.hosts ≡ 0) }
{
    let mut store = store;
    if !is_learning {
        return Ok(FoundHosts {
            hosts: KeptHosts::Stored(store),
            learned: None,
        });
    }
    store.keep_addresses();
    match learned_of(alloc, store.addresses()) {
        Ok(learned) => Ok(FoundHosts {
            hosts: KeptHosts::Stored(store),
            learned: Some(learned),
        }),
        Err(fault) => {
            drop(store);
            Err(fault)
        }
    }
}

// The fault of a database that isn't taken. A note says why, but for want of memory.
fn refused(host: &HostRuntime, path: &FilePath, why: &AdoptError) -> StreamFault
    ensures { refusal_of why.now ≡ StoreError.StoreRefused → result ≡ StreamFault.StoreRefused }
{
    let refusal = why.refusal();
    if refusal == StoreError::StoreRefused {
        let path = path.as_str();
        tell(host, StartFailure::NoHosts { path, why });
    }
    fault_of(refusal)
}

// The hosts that a database stores, where it could be opened. What is no database of hosts is left as it was, and a note says why.
fn stored_hosts<S: Alter + Drop>(
    host: &HostRuntime,
    opened: OpenedDatabase<'_, S>,
) -> Result<FoundHosts<Hosts<S>>, StreamFault>
    ensures refused { IfErr opened.entry.tried (λ _. result ≡ Err StreamFault.StoreRefused) }
    ensures stored { IfOk result (λ found. IsStored found.hosts) }
    ensures refusals { IfOk result (λ found. ⟦<Hosts<S> as HostStore>⟧.refusals found.hosts ≡ 0) }
{
    let OpenedDatabase {
        path,
        tried,
        is_learning,
    } = opened;
    match SqlHosts::adopt_opened(host.alloc(), tried) {
        Ok(store) => found_in(host.alloc(), store, is_learning),
        Err(why) => Err(refused(host, path, &why)),
    }
}

/// The hosts of a database, where one was opened, and else none, in memory. Where there is no such database a note says why. Beside
/// them stands where they were, if the database is to keep that.
pub(crate) fn hosts_of<S: Alter + Drop>(
    host: &HostRuntime,
    opened: Option<OpenedDatabase<'_, S>>,
) -> Result<FoundHosts<Hosts<S>>, StreamFault>
    ensures rows { IfOk result (λ found. AreStored (option_map (λ opened. opened.path.now) opened.entry) (⟦<Hosts<S> as HostStore>⟧.rows found.hosts)) }
    ensures refusals { IfOk result (λ found. ⟦<Hosts<S> as HostStore>⟧.refusals found.hosts ≡ 0) }
    ensures refused { IfSome opened.entry (λ opened. IfErr opened.tried (λ _. result ≡ Err StreamFault.StoreRefused)) }
    ensures stored { IfSome opened.entry (λ _. IfOk result (λ found. IsStored found.hosts)) }
{
    match opened {
        Some(opened) => stored_hosts(host, opened),
        None => no_hosts(host.alloc()),
    }
}
