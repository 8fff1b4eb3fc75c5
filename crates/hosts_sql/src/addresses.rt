//! The addresses of a file that is taken.
ghost use Rattle.std.specs.Prelude.{◌≡◌, [], IsTrue, OnOk};
ghost use Rattle.sqlite.specs.State.{HasCleanDisk, IsLive, KeepsCommit, Survives};
ghost use Rattle.sqlite.specs.Held.{state};
ghost use Rattle.hosts_sql.specs.Own.{has_host_numbers, AllFit};
ghost use Rattle.hosts_sql.specs.Schemas.{IsHostSchema, TakesAddresses};
ghost use Rattle.hosts_sql.specs.Wrote.{IsWhole, hosts_in, hosts_of};

use crate::error::AdoptError;
use crate::loading::{load, out_of_range, read, repeated, told};
use crate::placing::finds_addresses;
use crate::tables::TablesVersion;
use hosts_db::{HostRows, MOST_NAME_BYTES};
use sqlite::{Alter, Connection, Row};
use std::alloc::Global;
use std::net::IpAddr;

/// The most addresses that a file may have.
const MOST_ADDRESSES: usize = 4_096;

/// Where a host was.
#[derive(Drop)]
pub struct HostAddress {
    name: Vec<u8>,
    address: IpAddr,
}

impl HostAddress {
    /// The host's name, of at most 1,024 bytes.
    pub fn name(&self) -> &[u8]
        ensures { result.now ≡ self.now.name.items }
    {
        self.name.as_slice()
    }

    /// Its IP address.
    pub fn address(&self) -> IpAddr
        ensures { result ≡ self.now.address }
    {
        self.address
    }
}

fn address_in(row: &Row) -> Result<HostAddress, AdoptError> {
    let name = told(row.get::<Vec<u8>>(1), "addresses", "name", row)?;
    let text = told(row.get::<String>(2), "addresses", "address", row)?;
    if name.len() > MOST_NAME_BYTES {
        return Err(out_of_range("addresses", "name", row));
    }
    match IpAddr::parse_ascii(text.as_bytes()) {
        Ok(address) => Ok(HostAddress { name, address }),
        Err(_) => Err(out_of_range("addresses", "address", row)),
    }
}

// Adds the address of this row, if there is room and its name is new.
fn keep_address(kept: &mut Vec<HostAddress>, row: &Row) -> Result<(), AdoptError> {
    let address = address_in(row)?;
    if kept.iter().any(|other| other.name() == address.name()) {
        return Err(repeated("addresses", row));
    }
    if kept.len() >= MOST_ADDRESSES {
        return Err(AdoptError::TooMany {
            table: "addresses",
            most: MOST_ADDRESSES,
        });
    }
    match kept.push(address) {
        Ok(()) => Ok(()),
        Err(_) => Err(AdoptError::Starved),
    }
}

fn addresses_in(alloc: Global, rows: &[Row]) -> Result<Vec<HostAddress>, AdoptError> {
    let mut kept = Vec::new(alloc);
    for row in rows {
        keep_address(&mut kept, row)?;
    }
    Ok(kept)
}

// Reads the addresses of the last commit, where it has a table of them. An error says what of them isn't as it may be.
fn load_addresses<S: Alter>(
    alloc: Global,
    conn: &mut Connection<S>,
) -> Result<Vec<HostAddress>, AdoptError>
    requires tables { HasCleanDisk (state S.Store conn.old) → IsTrue (state S.Store conn.old).is_open → TakesAddresses (state S.Store conn.old).committed.schema }
    ensures same { HasCleanDisk (state S.Store conn.new) → OnOk result ((state S.Store conn.new).committed ≡ (state S.Store conn.old).committed) }
    ensures kept { HasCleanDisk (state S.Store conn.new) → KeepsCommit (state S.Store conn.old) (state S.Store conn.new) }
    ensures crash { Survives (state S.Store conn.old) (state S.Store conn.new) (λ _. ⊥) }
{
    if !finds_addresses(conn) {
        return Ok(Vec::new(alloc));
    }
    match read(conn, "SELECT rowid AS id, * FROM addresses ORDER BY 1") {
        Ok(rows) => addresses_in(alloc, &rows),
        Err(error) => Err(AdoptError::Unread {
            table: "addresses",
            error,
        }),
    }
}

/// Reads all that the last commit has in the tables of a version, as `load` does, and answers the addresses.
pub(crate) fn load_all<S: Alter>(
    alloc: Global,
    conn: &mut Connection<S>,
    version: TablesVersion,
    kept: &mut HostRows,
) -> Result<Vec<HostAddress>, AdoptError>
    requires live { IsLive (state S.Store conn.old) }
    requires tables { IsTrue (state S.Store conn.old).is_open → IsHostSchema version (state S.Store conn.old).committed.schema }
    requires none { kept.old ≡ record { own = 0; rows = []; watches = [] } }
    ensures whole { HasCleanDisk (state S.Store conn.new) → OnOk result (IsWhole version (state S.Store conn.old).committed) }
    ensures rows { HasCleanDisk (state S.Store conn.new) → OnOk result (hosts_in (state S.Store conn.old) ≡ kept.new) }
    ensures numbers { HasCleanDisk (state S.Store conn.new) → OnOk result (AllFit has_host_numbers (hosts_of version (state S.Store conn.old).committed)) }
    ensures same { HasCleanDisk (state S.Store conn.new) → OnOk result ((state S.Store conn.new).committed ≡ (state S.Store conn.old).committed) }
    ensures kept { HasCleanDisk (state S.Store conn.new) → KeepsCommit (state S.Store conn.old) (state S.Store conn.new) }
    ensures crash { Survives (state S.Store conn.old) (state S.Store conn.new) (λ _. ⊥) }
{
    load(alloc, conn, version, kept)?;
    load_addresses(alloc, conn)
}
