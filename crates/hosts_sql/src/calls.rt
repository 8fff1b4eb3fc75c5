//! The calls that write, over the rows in memory.
ghost use Rattle.std.specs.Prelude.{false, true, is_some, OnOk, OnErr};
ghost use Rattle.sqlite.specs.State.{HasCleanDisk, KeepsCommit, Survives};
ghost use Rattle.sqlite.specs.Held.{state};
ghost use Rattle.definitions.specs.Hosts.{after_store, Watched};
ghost use Rattle.hosts_db.specs.Writings.{view_of_writing, IsNew};
ghost use Rattle.hosts_sql.specs.Placing.{FindsAddresses};
ghost use Rattle.hosts_sql.specs.Wrote.{HasTables, IsAsKept, MayWriteHosts, WroteHosts};
ghost use Rattle.hosts_sql.specs.declared.tables.TablesVersion.TheVariants.{Second};
ghost use Rattle.hosts_sql.specs.Holds.{Holds};

use crate::making::MakeAddresses;
use crate::notes::write_note;
use crate::placing::PutAddress;
use crate::statements::{
    delete_watches, insert_host, make_and_start, put_host_and_watch, put_watch, set_own,
};
use crate::tables::TablesVersion;
use crate::upgrade::upgrade;
use hosts_db::{HostRows, MyIdRef, Writing};
use sqlite::{Alter, Connection, Error};

/// Sets the own state of a file with the tables of this version, or with no object, and leaves it with those of
/// schema 2 and that of addresses, where it is asked for, all in one transaction.
pub(crate) fn write_start<S: Alter>(
    conn: &mut Connection<S>,
    version: Option<TablesVersion>,
    own: u32,
    addresses: Option<MakeAddresses>,
) -> Result<(), Error>
    requires holds { Holds version (state S.Store conn.old) }
    requires lacking { FindsAddresses (is_some addresses) false (state S.Store conn.old) }
    ensures ok { HasCleanDisk (state S.Store conn.new) → OnOk result (WroteHosts (λ h. record h { own = own }) (state S.Store conn.old) (state S.Store conn.new)) }
    ensures err { HasCleanDisk (state S.Store conn.new) → OnErr result (KeepsCommit (state S.Store conn.old) (state S.Store conn.new)) }
    ensures crash { Survives (state S.Store conn.old) (state S.Store conn.new) (MayWriteHosts (λ h. record h { own = own }) (state S.Store conn.old)) }
{
    match version {
        None => make_and_start(conn, own, addresses),
        Some(TablesVersion::First) => upgrade(conn, own, addresses),
        Some(TablesVersion::Second) => set_own(conn, own, addresses),
    }
}

// Puts a watch, and the row of its host with its address, where it has none, in one transaction.
fn write_watch<S: Alter>(
    conn: &mut Connection<S>,
    rows: &HostRows,
    mon: &[u8],
    my_id: &MyIdRef<'_>,
    private: &[u8; 16],
    address: Option<PutAddress<'_>>,
) -> Result<(), Error>
    requires tables { HasTables Second (state S.Store conn.old) }
    requires kept { IsAsKept (state S.Store conn.old) rows.now }
    requires addressed { FindsAddresses (is_some address) true (state S.Store conn.old) }
    ensures ok { HasCleanDisk (state S.Store conn.new) → OnOk result (WroteHosts (λ h. after_store h (Watched mon.now my_id.now private.now)) (state S.Store conn.old) (state S.Store conn.new)) }
    ensures err { HasCleanDisk (state S.Store conn.new) → OnErr result (KeepsCommit (state S.Store conn.old) (state S.Store conn.new)) }
    ensures crash { Survives (state S.Store conn.old) (state S.Store conn.new) (MayWriteHosts (λ h. after_store h (Watched mon.now my_id.now private.now)) (state S.Store conn.old)) }
{
    if rows.has_host(mon) {
        return put_watch(conn, mon, my_id, private);
    }
    put_host_and_watch(conn, rows.own(), mon, my_id, private, address)
}

/// Makes this change, in one transaction. Where it makes the row of a host, the address is put with it.
pub(crate) fn write_change<S: Alter>(
    conn: &mut Connection<S>,
    rows: &HostRows,
    asked: Writing<'_>,
    address: Option<PutAddress<'_>>,
) -> Result<(), Error>
    requires tables { HasTables Second (state S.Store conn.old) }
    requires kept { IsAsKept (state S.Store conn.old) rows.now }
    requires addressed { FindsAddresses (is_some address) true (state S.Store conn.old) }
    requires new { IsNew rows.now (view_of_writing asked) }
    ensures ok { HasCleanDisk (state S.Store conn.new) → OnOk result (WroteHosts (λ h. after_store h (view_of_writing asked.entry)) (state S.Store conn.old) (state S.Store conn.new)) }
    ensures err { HasCleanDisk (state S.Store conn.new) → OnErr result (KeepsCommit (state S.Store conn.old) (state S.Store conn.new)) }
    ensures crash { Survives (state S.Store conn.old) (state S.Store conn.new) (MayWriteHosts (λ h. after_store h (view_of_writing asked.entry)) (state S.Store conn.old)) }
{
    match asked {
        Writing::Monitor { name, state } => insert_host(conn, name, rows.own(), state, address),
        Writing::Note { name, note } => write_note(conn, rows, name, note),
        Writing::Watch {
            mon_name,
            my_id,
            private_bytes,
        } => write_watch(conn, rows, mon_name, my_id, private_bytes, address),
        Writing::Unwatch { mon_name, my_id } => delete_watches(conn, mon_name, my_id),
    }
}
