//! Reads the tables into memory.
ghost use Rattle.std.specs.Prelude.{◌≡◌, ◌<◌, ◌≤◌, [], map, length, true, Ok, IsTrue, IfOk, OnOk};
ghost use Rattle.sqlite.specs.Given.{IsPlain};
ghost use Rattle.sqlite.specs.Listing.{understood};
ghost use Rattle.sqlite.specs.State.{HasCleanDisk, IsLive, IsUnchanged, KeepsCommit, Survives};
ghost use Rattle.sqlite.specs.Held.{state};
ghost use Rattle.definitions.specs.Bytes.{bytes_cmp};
ghost use Rattle.hosts_sql.specs.Maps.{host_row, watch_row, my_of, key_cmp};
ghost use Rattle.hosts_sql.specs.Shown.{host_of, number_at, watch_of};
ghost use Rattle.hosts_sql.specs.Reading.{AreApart, ShowsOwn, Tells, hosts_of_tree, watches_of_tree};
ghost use Rattle.hosts_sql.specs.Own.{is_host, is_watched, has_host_numbers, AreOwn, AllFit};
ghost use Rattle.hosts_sql.specs.Schemas.{IsHostSchema};
ghost use Rattle.hosts_sql.specs.Tables.{own_name, watches_name};
ghost use Rattle.hosts_sql.specs.Wrote.{HasOwnRow, IsWhole, hosts_of, hosts_text, hosts_in, number, rows_of};

use crate::error::AdoptError;
use crate::rowids::{are_own_hosts, are_own_watches};
use crate::tables::TablesVersion;
use hosts_db::{
    FULL_QUOTA, HostRow, HostRows, MOST_HOSTS, MOST_NAME_BYTES, MOST_WATCHES, MyIdRef, Watch,
};
use sqlite::{Alter, Connection, Error, ErrorCode, Row};
use std::alloc::Global;

/// The rows that a query shows of the last commit.
pub(crate) fn read<S: Alter>(conn: &mut Connection<S>, sql: &str) -> Result<Vec<Row>, Error>
    requires plain { HasCleanDisk (state S.Store conn.old) → IsTrue (state S.Store conn.old).is_open → IsPlain (understood (state S.Store conn.old).committed.schema sql.now) }
    ensures ok { HasCleanDisk (state S.Store conn.new) → IfOk result (λ rows. Tells sql.now (state S.Store conn.old).committed rows.items) }
    ensures same { HasCleanDisk (state S.Store conn.new) → OnOk result (IsUnchanged (state S.Store conn.old) (state S.Store conn.new)) }
    ensures kept { HasCleanDisk (state S.Store conn.new) → KeepsCommit (state S.Store conn.old) (state S.Store conn.new) }
    ensures crash { Survives (state S.Store conn.old) (state S.Store conn.new) (λ _. ⊥) }
{
    if !conn.is_autocommit() {
        return Err(Error::SqliteFailure(ErrorCode::TransactionState));
    }
    let select = conn.prepare(sql)?;
    select.query_all(conn, &[])
}

/// A value of this column is out of its range in this row, whose first column is the rowid.
pub(crate) fn out_of_range(table: &'static str, column: &'static str, row: &Row) -> AdoptError {
    AdoptError::OutOfRange {
        table,
        column,
        rowid: row.get::<i64>(0).unwrap_or(0),
    }
}

/// What was read of this column of a row, or why it wasn't.
pub(crate) fn told<T: Drop>(
    read: Result<T, Error>,
    table: &'static str,
    column: &'static str,
    row: &Row,
) -> Result<T, AdoptError>
    ensures { IfOk result (λ x. read ≡ Ok x) }
{
    match read {
        Ok(value) => Ok(value),
        Err(Error::SqliteFailure(code)) => Err(AdoptError::Unread {
            table,
            error: Error::SqliteFailure(code),
        }),
        Err(_) => Err(out_of_range(table, column, row)),
    }
}

fn own_in(rows: &[Row], version: TablesVersion) -> Result<u32, AdoptError>
    ensures ok { IfOk result (ShowsOwn (number version) rows.now) }
    ensures fits { IfOk result (λ own. own < 2147483648) }
{
    let [row] = rows else {
        return Err(AdoptError::OwnRows(rows.len()));
    };
    let id = told(row.get::<u32>(0), "own", "id", row)?;
    let found = told(row.get::<u32>(1), "own", "version", row)?;
    let own = told(row.get::<u32>(2), "own", "state", row)?;
    if id != 1 {
        return Err(out_of_range("own", "id", row));
    }
    let wanted = version.number();
    if found != wanted {
        return Err(AdoptError::UnknownVersion {
            version: found,
            wanted,
        });
    }
    if own >= 2_147_483_648 {
        return Err(out_of_range("own", "state", row));
    }
    Ok(own)
}

// The table of the hosts in this version.
fn hosts_table_of(version: TablesVersion) -> &'static str {
    match version {
        TablesVersion::First => "hosts",
        TablesVersion::Second => "hosts2",
    }
}

fn host_in(table: &'static str, row: &Row) -> Result<HostRow, AdoptError>
    ensures host { IfOk result (λ host. host ≡ host_row (host_of row.now)) }
    ensures numbers { IfOk result (λ _. has_host_numbers row.now ≡ true) }
{
    let name = told(row.get::<Vec<u8>>(1), table, "name", row)?;
    let epoch = told(row.get::<u32>(2), table, "epoch", row)?;
    let seen = told(row.get::<i32>(3), table, "seen", row)?;
    let quota = told(row.get::<u32>(4), table, "quota", row)?;
    if name.len() > MOST_NAME_BYTES {
        return Err(out_of_range(table, "name", row));
    }
    if epoch >= 2_147_483_648 {
        return Err(out_of_range(table, "epoch", row));
    }
    if quota > FULL_QUOTA {
        return Err(out_of_range(table, "quota", row));
    }
    Ok(HostRow::new(name, epoch, seen, quota))
}

/// The key of this row is there twice.
pub(crate) fn repeated(table: &'static str, row: &Row) -> AdoptError {
    AdoptError::Repeated {
        table,
        rowid: row.get::<i64>(0).unwrap_or(0),
    }
}

// Each of these hosts, if there is room and each name is there once.
fn keep_hosts(table: &'static str, kept: &mut HostRows, rows: &[Row]) -> Result<(), AdoptError>
    requires { kept.old.rows ≡ [] }
    ensures ok { OnOk result (kept.new ≡ record kept.old { rows = hosts_of_tree rows.now }) }
    ensures apart { OnOk result (AreApart bytes_cmp (map host_of rows.now)) }
    ensures numbers { OnOk result (AllFit has_host_numbers rows.now) }
{
    for (at, row) in rows.iter().enumerate() {
        let host = host_in(table, row)?;
        if kept.has_host(host.name()) {
            return Err(repeated(table, row));
        }
        if kept.is_host_past_limit(host.name()) {
            return Err(AdoptError::TooMany {
                table,
                most: MOST_HOSTS,
            });
        }
        kept.put_host(host);
    }
    Ok(())
}

fn read_own<S: Alter>(conn: &mut Connection<S>, version: TablesVersion) -> Result<u32, AdoptError>
    requires { HasCleanDisk (state S.Store conn.old) → IsTrue (state S.Store conn.old).is_open → IsHostSchema version (state S.Store conn.old).committed.schema }
    ensures row { HasCleanDisk (state S.Store conn.new) → OnOk result (HasOwnRow (number version) (rows_of own_name (state S.Store conn.old).committed)) }
    ensures state { HasCleanDisk (state S.Store conn.new) → IfOk result (λ own. number_at (rows_of own_name (state S.Store conn.old).committed) 3 ≡ own) }
    ensures fits { IfOk result (λ own. own < 2147483648) }
    ensures same { HasCleanDisk (state S.Store conn.new) → OnOk result (IsUnchanged (state S.Store conn.old) (state S.Store conn.new)) }
    ensures kept { HasCleanDisk (state S.Store conn.new) → KeepsCommit (state S.Store conn.old) (state S.Store conn.new) }
    ensures crash { Survives (state S.Store conn.old) (state S.Store conn.new) (λ _. ⊥) }
{
    match read(conn, "SELECT * FROM own") {
        Ok(rows) => own_in(&rows, version),
        Err(error) => Err(AdoptError::Unread {
            table: "own",
            error,
        }),
    }
}

// A host of schema 1 shows the full quota.
fn hosts_query(version: TablesVersion) -> &'static str
    ensures { result.now ≡ hosts_text version }
{
    match version {
        TablesVersion::First => "SELECT rowid AS id, *, 65536 FROM hosts ORDER BY 1",
        TablesVersion::Second => "SELECT rowid AS id, * FROM hosts2 ORDER BY 1",
    }
}

fn read_hosts<S: Alter>(
    conn: &mut Connection<S>,
    version: TablesVersion,
    kept: &mut HostRows,
) -> Result<(), AdoptError>
    requires tables { HasCleanDisk (state S.Store conn.old) → IsTrue (state S.Store conn.old).is_open → IsHostSchema version (state S.Store conn.old).committed.schema }
    requires none { kept.old.rows ≡ [] }
    ensures ok { HasCleanDisk (state S.Store conn.new) → OnOk result (kept.new ≡ record kept.old { rows = hosts_of_tree (hosts_of version (state S.Store conn.old).committed) }) }
    ensures own { HasCleanDisk (state S.Store conn.new) → OnOk result (AreOwn is_host (hosts_of version (state S.Store conn.old).committed)) }
    ensures numbers { HasCleanDisk (state S.Store conn.new) → OnOk result (AllFit has_host_numbers (hosts_of version (state S.Store conn.old).committed)) }
    ensures watches { OnOk result (kept.new.watches ≡ kept.old.watches) }
    ensures same { HasCleanDisk (state S.Store conn.new) → OnOk result (IsUnchanged (state S.Store conn.old) (state S.Store conn.new)) }
    ensures kept { HasCleanDisk (state S.Store conn.new) → KeepsCommit (state S.Store conn.old) (state S.Store conn.new) }
    ensures crash { Survives (state S.Store conn.old) (state S.Store conn.new) (λ _. ⊥) }
{
    let table = hosts_table_of(version);
    let rows = match read(conn, hosts_query(version)) {
        Ok(rows) => rows,
        Err(error) => return Err(AdoptError::Unread { table, error }),
    };
    if !are_own_hosts(&rows) {
        return Err(AdoptError::UnsoundRows(table));
    }
    keep_hosts(table, kept, &rows)
}

// A watch of copies of these: the numbers are program, version and procedure.
fn watch_of_parts(
    alloc: Global,
    mon: &[u8],
    my: &[u8],
    numbers: (i32, i32, i32),
    private: &[u8; 16],
) -> Result<Watch, AdoptError>
    requires mon { length mon.now ≤ 1024 }
    requires my { length my.now ≤ 1024 }
    ensures { IfOk result (λ watch. watch ≡ watch_row (record { mon = mon.now; my = my_of my.now numbers.0 numbers.1 numbers.2 }, private.now)) }
{
    let (prog, vers, proc) = numbers;
    match Watch::new(alloc, mon, &MyIdRef::new(my, prog, vers, proc), private) {
        Ok(watch) => Ok(watch),
        Err(_) => Err(AdoptError::Starved),
    }
}

// The private bytes of a watch's row.
fn private_in(row: &Row) -> Result<[u8; 16], AdoptError>
    ensures { IfOk result (λ private. private ≡ (watch_of row.now).1) }
{
    let bytes = told(row.get::<Vec<u8>>(6), "watches", "priv", row)?;
    if bytes.len() != 16 {
        return Err(out_of_range("watches", "priv", row));
    }
    let mut private = [0; 16];
    private.copy_from_slice(&bytes);
    Ok(private)
}

fn watch_in(alloc: Global, row: &Row) -> Result<Watch, AdoptError>
    ensures { IfOk result (λ watch. watch ≡ watch_row (watch_of row.now)) }
{
    let mon = told(row.get::<Vec<u8>>(1), "watches", "mon", row)?;
    let my = told(row.get::<Vec<u8>>(2), "watches", "my", row)?;
    let prog = told(row.get::<i32>(3), "watches", "prog", row)?;
    let vers = told(row.get::<i32>(4), "watches", "vers", row)?;
    let proc = told(row.get::<i32>(5), "watches", "proc", row)?;
    let private = private_in(row)?;
    if mon.len() > MOST_NAME_BYTES {
        return Err(out_of_range("watches", "mon", row));
    }
    if my.len() > MOST_NAME_BYTES {
        return Err(out_of_range("watches", "my", row));
    }
    watch_of_parts(alloc, &mon, &my, (prog, vers, proc), &private)
}

// Each of these watches, if there is room and each key is there once.
fn keep_watches(alloc: Global, kept: &mut HostRows, rows: &[Row]) -> Result<(), AdoptError>
    requires { kept.old.watches ≡ [] }
    ensures ok { OnOk result (kept.new ≡ record kept.old { watches = watches_of_tree rows.now }) }
    ensures apart { OnOk result (AreApart key_cmp (map watch_of rows.now)) }
{
    for (at, row) in rows.iter().enumerate() {
        let watch = watch_in(alloc, row)?;
        if kept.has_watch(watch.mon_name(), &watch.my_id()) {
            return Err(repeated("watches", row));
        }
        if kept.watches().len() >= MOST_WATCHES {
            return Err(AdoptError::TooMany {
                table: "watches",
                most: MOST_WATCHES,
            });
        }
        kept.put_watch(watch);
    }
    Ok(())
}

fn read_watches<S: Alter>(
    alloc: Global,
    conn: &mut Connection<S>,
    version: TablesVersion,
    kept: &mut HostRows,
) -> Result<(), AdoptError>
    requires tables { HasCleanDisk (state S.Store conn.old) → IsTrue (state S.Store conn.old).is_open → IsHostSchema version (state S.Store conn.old).committed.schema }
    requires none { kept.old.watches ≡ [] }
    ensures ok { HasCleanDisk (state S.Store conn.new) → OnOk result (kept.new ≡ record kept.old { watches = watches_of_tree (rows_of watches_name (state S.Store conn.old).committed) }) }
    ensures own { HasCleanDisk (state S.Store conn.new) → OnOk result (AreOwn is_watched (rows_of watches_name (state S.Store conn.old).committed)) }
    ensures same { HasCleanDisk (state S.Store conn.new) → OnOk result (IsUnchanged (state S.Store conn.old) (state S.Store conn.new)) }
    ensures kept { HasCleanDisk (state S.Store conn.new) → KeepsCommit (state S.Store conn.old) (state S.Store conn.new) }
    ensures crash { Survives (state S.Store conn.old) (state S.Store conn.new) (λ _. ⊥) }
{
    let rows = match read(conn, "SELECT rowid AS id, * FROM watches ORDER BY 1") {
        Ok(rows) => rows,
        Err(error) => {
            return Err(AdoptError::Unread {
                table: "watches",
                error,
            });
        }
    };
    if !are_own_watches(&rows) {
        return Err(AdoptError::UnsoundRows("watches"));
    }
    keep_watches(alloc, kept, &rows)
}

/// Reads the rows of the last commit from the tables of a version. A host of schema 1 has the full quota. An error says
/// what of them isn't as it may be.
pub(crate) fn load<S: Alter>(
    alloc: Global,
    conn: &mut Connection<S>,
    version: TablesVersion,
    kept: &mut HostRows,
) -> Result<(), AdoptError>
    requires live { IsLive (state S.Store conn.old) }
    requires tables { IsTrue (state S.Store conn.old).is_open → IsHostSchema version (state S.Store conn.old).committed.schema }
    requires none { kept.old ≡ record { own = 0; rows = []; watches = [] } }
    ensures whole { HasCleanDisk (state S.Store conn.new) → OnOk result (IsWhole version (state S.Store conn.old).committed) }
    ensures rows { HasCleanDisk (state S.Store conn.new) → OnOk result (hosts_in (state S.Store conn.old) ≡ kept.new) }
    ensures numbers { HasCleanDisk (state S.Store conn.new) → OnOk result (AllFit has_host_numbers (hosts_of version (state S.Store conn.old).committed)) }
    ensures same { HasCleanDisk (state S.Store conn.new) → OnOk result (IsUnchanged (state S.Store conn.old) (state S.Store conn.new)) }
    ensures kept { HasCleanDisk (state S.Store conn.new) → KeepsCommit (state S.Store conn.old) (state S.Store conn.new) }
    ensures crash { Survives (state S.Store conn.old) (state S.Store conn.new) (λ _. ⊥) }
{
    let own = read_own(conn, version)?;
    read_hosts(conn, version, kept)?;
    kept.set_own(own);
    read_watches(alloc, conn, version, kept)
}
