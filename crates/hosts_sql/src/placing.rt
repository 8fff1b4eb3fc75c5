//! The statements on addresses.
ghost use Rattle.std.specs.Prelude.{◌≡◌, false, true, IsTrue, OnOk, OnErr};
ghost use Rattle.sqlite.specs.State.{HasCleanDisk, KeepsCommit, Survives};
ghost use Rattle.sqlite.specs.Held.{state};
ghost use Rattle.sql_transactions.specs.Work.{Committed, MayWork};
ghost use Rattle.hosts_sql.specs.Placing.{Behind, FindsAddresses, HasAddress, PutsAddress};
ghost use Rattle.hosts_sql.specs.Wrote.{HasTables, MayWriteHosts, WroteHosts};
ghost use Rattle.hosts_sql.specs.declared.tables.TablesVersion.TheVariants.{Second};

use crate::objects::has_addresses;
use sql_transactions::{One, Then, TransactionBody, transact};
use sqlite::types::ValueRef;
use sqlite::{Alter, Connection, Error, Transaction};

// Takes out the address of a host.
const DELETE_ADDRESS: &str = "DELETE FROM addresses WHERE name = ?1";

// Adds the address of a host.
const INSERT_ADDRESS: &str = "INSERT INTO addresses (name, address) VALUES (?1, ?2)";

/// Puts the address of a host in the place of the one of its name, or adds it.
#[derive(Clone, Copy)]
pub(crate) struct PutAddress<'a> {
    pub(crate) name: &'a [u8],
    pub(crate) text: &'a [u8],
}

impl TransactionBody for PutAddress<'_> {
    ghost works = { λ put. PutsAddress put.name.now put.text.now };

    fn run<S: Alter>(&self, tx: &mut Transaction<'_, S>) -> Result<(), Error> {
        let name = [ValueRef::Blob(self.name)];
        let row = [ValueRef::Blob(self.name), ValueRef::Text(self.text)];
        Then(One(DELETE_ADDRESS, &name), One(INSERT_ADDRESS, &row)).run(tx)
    }
}

/// Does the first work, where there is one, and then the other, in one transaction.
pub(crate) fn transact_behind<S: Alter, A: TransactionBody + Copy, B: TransactionBody + Copy>(
    conn: &mut Connection<S>,
    first: Option<A>,
    then: B,
) -> Result<(), Error>
    ensures ok { HasCleanDisk (state S.Store conn.new) → OnOk result (Committed (Behind A.works first (B.works then)) (state S.Store conn.old) (state S.Store conn.new)) }
    ensures err { HasCleanDisk (state S.Store conn.new) → OnErr result (KeepsCommit (state S.Store conn.old) (state S.Store conn.new)) }
    ensures crash { Survives (state S.Store conn.old) (state S.Store conn.new) (MayWork (Behind A.works first (B.works then)) (state S.Store conn.old)) }
{
    match first {
        Some(work) => transact(conn, &Then(work, then)),
        None => transact(conn, &then),
    }
}

/// Puts the address in a transaction of its own. The rows of the other tables stay.
pub(crate) fn write_address<S: Alter>(
    conn: &mut Connection<S>,
    address: PutAddress<'_>,
) -> Result<(), Error>
    requires tables { HasTables Second (state S.Store conn.old) }
    requires there { FindsAddresses true true (state S.Store conn.old) }
    ensures put { HasCleanDisk (state S.Store conn.new) → OnOk result (HasAddress address.entry.name.now address.entry.text.now (state S.Store conn.new).committed) }
    ensures ok { HasCleanDisk (state S.Store conn.new) → OnOk result (WroteHosts (λ h. h) (state S.Store conn.old) (state S.Store conn.new)) }
    ensures err { HasCleanDisk (state S.Store conn.new) → OnErr result (KeepsCommit (state S.Store conn.old) (state S.Store conn.new)) }
    ensures crash { Survives (state S.Store conn.old) (state S.Store conn.new) (MayWriteHosts (λ h. h) (state S.Store conn.old)) }
{
    transact(conn, &address)
}

/// Whether the last commit has a table of addresses.
pub(crate) fn finds_addresses<S: Alter>(conn: &Connection<S>) -> bool
    ensures { IsTrue result → FindsAddresses true true (state S.Store conn.now) }
{
    conn.is_autocommit() && has_addresses(conn.schema())
}

/// Whether the last commit has none.
pub(crate) fn lacks_addresses<S: Alter>(conn: &Connection<S>) -> bool
    ensures { IsTrue result → FindsAddresses true false (state S.Store conn.now) }
{
    conn.is_autocommit() && !has_addresses(conn.schema())
}
