//! The upgrade of a file of hosts from schema 1 to schema 2.
ghost use Rattle.std.specs.Prelude.{◌≡◌, [], false, is_some, IsTrue, OnOk, OnErr};
ghost use Rattle.sqlite.specs.State.{HasCleanDisk, KeepsCommit, Survives};
ghost use Rattle.sqlite.specs.Held.{state};
ghost use Rattle.hosts_sql.specs.Tables.{first_hosts_name};
ghost use Rattle.hosts_sql.specs.Placing.{FindsAddresses};
ghost use Rattle.hosts_sql.specs.Wrote.{HasTables, MayWriteHosts, WroteHosts, rows_of};
ghost use Rattle.hosts_sql.specs.declared.tables.TablesVersion.TheVariants.{First};

use crate::making::{HOSTS, Make, MakeAddresses};
use crate::placing::transact_behind;
use sql_transactions::{One, Then};
use sqlite::{Alter, Connection, Error, params};

/// Makes a file of schema 1 one of schema 2 and sets the own state, in one transaction: each host has its row and the
/// full quota, and the table of schema 1 stays, with no row. The table of addresses is made, where it is asked for. After an error, and after a crash before the commit, the
/// file is as it was.
pub(crate) fn upgrade<S: Alter>(
    conn: &mut Connection<S>,
    own: u32,
    addresses: Option<MakeAddresses>,
) -> Result<(), Error>
    requires tables { HasTables First (state S.Store conn.old) }
    requires lacking { FindsAddresses (is_some addresses) false (state S.Store conn.old) }
    ensures ok { HasCleanDisk (state S.Store conn.new) → OnOk result (WroteHosts (λ h. record h { own = own }) (state S.Store conn.old) (state S.Store conn.new)) }
    ensures emptied { HasCleanDisk (state S.Store conn.new) → OnOk result (rows_of first_hosts_name (state S.Store conn.new).committed ≡ []) }
    ensures err { HasCleanDisk (state S.Store conn.new) → OnErr result (KeepsCommit (state S.Store conn.old) (state S.Store conn.new)) }
    ensures crash { Survives (state S.Store conn.old) (state S.Store conn.new) (MayWriteHosts (λ h. record h { own = own }) (state S.Store conn.old)) }
{
    let _schema = conn.schema();
    let copy = One(
        "INSERT INTO hosts2 (name, epoch, seen, quota) SELECT *, 65536 FROM hosts",
        &[],
    );
    let empty = One("DELETE FROM hosts", &[]);
    let row = One("UPDATE own SET version = 2, state = ?1", params![own]);
    let moves = Then(Then(copy, empty), row);
    transact_behind(conn, addresses, Then(Make(HOSTS), moves))
}
