//! The hosts of a program, which may have no database.
use crate::{HostRows, HostStore, StoreError, Writing};

/// Hosts in memory alone, or those that a store keeps. It is one type, so that what stands above it is built once in a program
/// which may have either.
#[derive(Drop)]
pub enum KeptHosts<M, S> {
    /// In memory alone.
    InMemory(M),
    /// In a store.
    Stored(S),
}

impl<M: HostStore, S: HostStore> HostStore for KeptHosts<M, S> {
    ghost use Rattle.hosts_db.specs.KeptHosts.{in_either, IsInEither};

    ghost rows = { in_either M.rows S.rows };

    ghost refusals = { in_either M.refusals S.refusals };

    ghost may_leave = { IsInEither M.may_leave S.may_leave };

    ghost may_refuse = { IsInEither M.may_refuse S.may_refuse };

    fn start(&mut self) -> Result<u32, StoreError> {
        match self {
            KeptHosts::InMemory(hosts) => hosts.start(),
            KeptHosts::Stored(hosts) => hosts.start(),
        }
    }

    fn write(&mut self, asked: Writing<'_>) -> Result<(), StoreError> {
        match self {
            KeptHosts::InMemory(hosts) => hosts.write(asked),
            KeptHosts::Stored(hosts) => hosts.write(asked),
        }
    }

    fn locate(&mut self, name: &[u8], address: &[u8]) -> Result<(), StoreError> {
        match self {
            KeptHosts::InMemory(hosts) => hosts.locate(name, address),
            KeptHosts::Stored(hosts) => hosts.locate(name, address),
        }
    }

    fn kept(&self) -> &HostRows {
        match self {
            KeptHosts::InMemory(hosts) => hosts.kept(),
            KeptHosts::Stored(hosts) => hosts.kept(),
        }
    }
}
