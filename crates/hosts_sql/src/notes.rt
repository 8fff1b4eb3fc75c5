//! What is noted in the row of a host, in the database.
ghost use Rattle.std.specs.Prelude.{◌≡◌, OnOk, OnErr};
ghost use Rattle.sqlite.specs.State.{HasCleanDisk, KeepsCommit, Survives};
ghost use Rattle.sqlite.specs.Held.{state};
ghost use Rattle.definitions.specs.Hosts.{after_store};
ghost use Rattle.hosts_db.specs.Notes.{view_of_note, noted_row};
ghost use Rattle.hosts_sql.specs.Wrote.{HasTables, IsAsKept, MayWriteHosts, WroteHosts};
ghost use Rattle.hosts_sql.specs.declared.tables.TablesVersion.TheVariants.{Second};

use crate::statements::{delete_host, replace_host};
use hosts_db::{HostRow, HostRows, RowNote};
use sqlite::{Alter, Connection, Error};

// What stands beside the name of this row, with the note.
fn beside_name(note: RowNote, row: &HostRow) -> (u32, i32, u32)
    ensures { record row.now { epoch = result.0; seen = result.1; quota = result.2 } ≡ noted_row note row.now }
{
    match note {
        RowNote::Seen(seen) => (row.epoch(), seen, row.quota()),
        RowNote::Epoch(epoch) => (epoch, row.seen(), row.quota()),
        RowNote::Quota(runs) => (row.epoch(), row.seen(), runs),
    }
}

/// Notes it in the database, in one transaction.
pub(crate) fn write_note<S: Alter>(
    conn: &mut Connection<S>,
    rows: &HostRows,
    name: &[u8],
    note: RowNote,
) -> Result<(), Error>
    requires tables { HasTables Second (state S.Store conn.old) }
    requires kept { IsAsKept (state S.Store conn.old) rows.now }
    ensures ok { HasCleanDisk (state S.Store conn.new) → OnOk result (WroteHosts (λ h. after_store h (view_of_note name.now note)) (state S.Store conn.old) (state S.Store conn.new)) }
    ensures err { HasCleanDisk (state S.Store conn.new) → OnErr result (KeepsCommit (state S.Store conn.old) (state S.Store conn.new)) }
    ensures crash { Survives (state S.Store conn.old) (state S.Store conn.new) (MayWriteHosts (λ h. after_store h (view_of_note name.now note)) (state S.Store conn.old)) }
{
    let _in_order = rows.hosts();
    let Some(row) = rows.host(name) else {
        return delete_host(conn, name);
    };
    let (epoch, seen, quota) = beside_name(note, row);
    replace_host(conn, name, epoch, seen, quota)
}
