//! The statements that write, each with what it makes of the rows.
ghost use Rattle.std.specs.Prelude.{◌≡◌, pos, false, true, is_some, IsTrue, OnOk, OnErr};
ghost use Rattle.std.specs.Option.{option_copied};
ghost use Rattle.sqlite.specs.Values.{bound};
ghost use Rattle.sqlite.specs.State.{HasCleanDisk, KeepsCommit, Survives};
ghost use Rattle.sqlite.specs.Held.{state};
ghost use Rattle.definitions.specs.Bytes.{same_bytes, list_without};
ghost use Rattle.definitions.specs.Hosts.{HostRow, has_row, after_store, Monitor, Watched, Unwatched, is_named};
ghost use Rattle.hosts_sql.specs.Given.{my_given, watch_given, watch_params};
ghost use Rattle.hosts_sql.specs.Maps.{with_listed_host, with_listed_watch};
ghost use Rattle.hosts_sql.specs.Placing.{FindsAddresses};
ghost use Rattle.hosts_sql.specs.Wrote.{HasTables, IsFresh, MayWriteHosts, WroteHosts, hosts_in};
ghost use Rattle.hosts_sql.specs.declared.tables.TablesVersion.TheVariants.{Second};

use crate::making::{HOSTS, Make, MakeAddresses};
use crate::placing::{PutAddress, transact_behind};
use hosts_db::{FULL_QUOTA, MyIdRef};
use sql_transactions::{One, Then, run_one, run_two, transact};
use sqlite::types::ValueRef;
use sqlite::{Alter, Connection, Error, params};

// Adds the row of a host.
const INSERT_HOST: &str = "INSERT INTO hosts2 (name, epoch, seen, quota) VALUES (?1, ?2, ?3, ?4)";

// Takes out the row of a host.
const DELETE_HOST: &str = "DELETE FROM hosts2 WHERE name = ?1";

/// Adds the row of a new host, and puts its address, where one is given.
pub(crate) fn insert_host<S: Alter>(
    conn: &mut Connection<S>,
    name: &[u8],
    epoch: u32,
    seen: i32,
    address: Option<PutAddress<'_>>,
) -> Result<(), Error>
    requires tables { HasTables Second (state S.Store conn.old) }
    requires new { HasCleanDisk (state S.Store conn.old) → IsTrue (state S.Store conn.old).is_open → has_row (hosts_in (state S.Store conn.old)) name.now ≡ false }
    requires own { HasCleanDisk (state S.Store conn.old) → IsTrue (state S.Store conn.old).is_open → (hosts_in (state S.Store conn.old)).own ≡ epoch }
    requires addressed { FindsAddresses (is_some address) true (state S.Store conn.old) }
    ensures ok { HasCleanDisk (state S.Store conn.new) → OnOk result (WroteHosts (λ h. after_store h (Monitor name.now seen)) (state S.Store conn.old) (state S.Store conn.new)) }
    ensures err { HasCleanDisk (state S.Store conn.new) → OnErr result (KeepsCommit (state S.Store conn.old) (state S.Store conn.new)) }
    ensures crash { Survives (state S.Store conn.old) (state S.Store conn.new) (MayWriteHosts (λ h. after_store h (Monitor name.now seen)) (state S.Store conn.old)) }
{
    let host = One(INSERT_HOST, params![name, epoch, seen, FULL_QUOTA]);
    transact_behind(conn, address, host)
}

/// Puts a host's row in the place of the row of its name, or adds it.
pub(crate) fn replace_host<S: Alter>(
    conn: &mut Connection<S>,
    name: &[u8],
    epoch: u32,
    seen: i32,
    quota: u32,
) -> Result<(), Error>
    requires tables { HasTables Second (state S.Store conn.old) }
    ensures ok { HasCleanDisk (state S.Store conn.new) → OnOk result (WroteHosts (with_listed_host name.now (record { epoch = epoch; seen = seen; quota = quota })) (state S.Store conn.old) (state S.Store conn.new)) }
    ensures err { HasCleanDisk (state S.Store conn.new) → OnErr result (KeepsCommit (state S.Store conn.old) (state S.Store conn.new)) }
    ensures crash { Survives (state S.Store conn.old) (state S.Store conn.new) (MayWriteHosts (with_listed_host name.now (record { epoch = epoch; seen = seen; quota = quota })) (state S.Store conn.old)) }
{
    run_two(
        conn,
        DELETE_HOST,
        params![name],
        INSERT_HOST,
        params![name, epoch, seen, quota],
    )
}

/// Takes out the row of a host.
pub(crate) fn delete_host<S: Alter>(conn: &mut Connection<S>, name: &[u8]) -> Result<(), Error>
    requires tables { HasTables Second (state S.Store conn.old) }
    ensures ok { HasCleanDisk (state S.Store conn.new) → OnOk result (WroteHosts (λ h. record h { rows = list_without (is_named name.now) h.rows }) (state S.Store conn.old) (state S.Store conn.new)) }
    ensures err { HasCleanDisk (state S.Store conn.new) → OnErr result (KeepsCommit (state S.Store conn.old) (state S.Store conn.new)) }
    ensures crash { Survives (state S.Store conn.old) (state S.Store conn.new) (MayWriteHosts (λ h. record h { rows = list_without (is_named name.now) h.rows }) (state S.Store conn.old)) }
{
    run_one(conn, DELETE_HOST, params![name])
}

// Takes out the watch of a key.
const DELETE_WATCH: &str =
    "DELETE FROM watches WHERE mon = ?1 AND my = ?2 AND prog = ?3 AND vers = ?4 AND proc = ?5";

// Adds the row of a watch.
const INSERT_WATCH: &str =
    "INSERT INTO watches (mon, my, prog, vers, proc, priv) VALUES (?1, ?2, ?3, ?4, ?5, ?6)";

/// What the statement is given that takes out the watches of a watcher.
fn watcher<'a>(my_id: &MyIdRef<'a>) -> [ValueRef<'a>; 4]
    ensures { bound result ≡ my_given my_id.now }
{
    [
        ValueRef::Blob(my_id.my_name()),
        ValueRef::Int(i64::from(my_id.prog())),
        ValueRef::Int(i64::from(my_id.vers())),
        ValueRef::Int(i64::from(my_id.proc())),
    ]
}

/// What the statement is given that takes out a watch.
fn watch_key<'a>(mon: &'a [u8], my_id: &MyIdRef<'a>) -> [ValueRef<'a>; 5]
    ensures { bound result ≡ watch_given mon.now my_id.now }
{
    let [my, prog, vers, proc] = watcher(my_id);
    [ValueRef::Blob(mon), my, prog, vers, proc]
}

/// What the statement is given that adds a watch.
fn watch_row<'a>(mon: &'a [u8], my_id: &MyIdRef<'a>, private: &'a [u8; 16]) -> [ValueRef<'a>; 6]
    ensures { bound result ≡ watch_params (record { mon = mon.now; my = my_id.now }) private.now }
{
    let [mon, my, prog, vers, proc] = watch_key(mon, my_id);
    [
        mon,
        my,
        prog,
        vers,
        proc,
        ValueRef::Blob(private.as_slice()),
    ]
}

/// Puts a watch in the place of the watch of its key, or adds it.
pub(crate) fn put_watch<S: Alter>(
    conn: &mut Connection<S>,
    mon: &[u8],
    my_id: &MyIdRef<'_>,
    private: &[u8; 16],
) -> Result<(), Error>
    requires tables { HasTables Second (state S.Store conn.old) }
    ensures ok { HasCleanDisk (state S.Store conn.new) → OnOk result (WroteHosts (with_listed_watch (record { mon = mon.now; my = my_id.now }) private.now) (state S.Store conn.old) (state S.Store conn.new)) }
    ensures err { HasCleanDisk (state S.Store conn.new) → OnErr result (KeepsCommit (state S.Store conn.old) (state S.Store conn.new)) }
    ensures crash { Survives (state S.Store conn.old) (state S.Store conn.new) (MayWriteHosts (with_listed_watch (record { mon = mon.now; my = my_id.now }) private.now) (state S.Store conn.old)) }
{
    let key = watch_key(mon, my_id);
    let row = watch_row(mon, my_id, private);
    run_two(conn, DELETE_WATCH, &key, INSERT_WATCH, &row)
}

/// Adds the row of a new host, puts its address, where one is given, and a watch of it.
pub(crate) fn put_host_and_watch<'a, S: Alter>(
    conn: &mut Connection<S>,
    epoch: u32,
    mon: &'a [u8],
    my_id: &'a MyIdRef<'a>,
    private: &'a [u8; 16],
    address: Option<PutAddress<'a>>,
) -> Result<(), Error>
    requires tables { HasTables Second (state S.Store conn.old) }
    requires new { HasCleanDisk (state S.Store conn.old) → IsTrue (state S.Store conn.old).is_open → has_row (hosts_in (state S.Store conn.old)) mon.now ≡ false }
    requires own { HasCleanDisk (state S.Store conn.old) → IsTrue (state S.Store conn.old).is_open → (hosts_in (state S.Store conn.old)).own ≡ epoch }
    requires addressed { FindsAddresses (is_some address) true (state S.Store conn.old) }
    ensures ok { HasCleanDisk (state S.Store conn.new) → OnOk result (WroteHosts (λ h. after_store h (Watched mon.now my_id.now private.now)) (state S.Store conn.old) (state S.Store conn.new)) }
    ensures err { HasCleanDisk (state S.Store conn.new) → OnErr result (KeepsCommit (state S.Store conn.old) (state S.Store conn.new)) }
    ensures crash { Survives (state S.Store conn.old) (state S.Store conn.new) (MayWriteHosts (λ h. after_store h (Watched mon.now my_id.now private.now)) (state S.Store conn.old)) }
{
    let key = watch_key(mon, my_id);
    let row = watch_row(mon, my_id, private);
    let host = One(INSERT_HOST, params![mon, epoch, 0i32, FULL_QUOTA]);
    let none = One(DELETE_WATCH, &key);
    let watch = One(INSERT_WATCH, &row);
    transact_behind(conn, address, Then(Then(host, none), watch))
}

/// Takes out the watches of a watcher: of one host, or of all.
pub(crate) fn delete_watches<S: Alter>(
    conn: &mut Connection<S>,
    mon: Option<&[u8]>,
    my_id: &MyIdRef<'_>,
) -> Result<(), Error>
    requires tables { HasTables Second (state S.Store conn.old) }
    ensures ok { HasCleanDisk (state S.Store conn.new) → OnOk result (WroteHosts (λ h. after_store h (Unwatched (option_copied mon.entry) my_id.now)) (state S.Store conn.old) (state S.Store conn.new)) }
    ensures err { HasCleanDisk (state S.Store conn.new) → OnErr result (KeepsCommit (state S.Store conn.old) (state S.Store conn.new)) }
    ensures crash { Survives (state S.Store conn.old) (state S.Store conn.new) (MayWriteHosts (λ h. after_store h (Unwatched (option_copied mon.entry) my_id.now)) (state S.Store conn.old)) }
{
    match mon {
        Some(name) => run_one(conn, DELETE_WATCH, &watch_key(name, my_id)),
        None => run_one(
            conn,
            "DELETE FROM watches WHERE my = ?1 AND prog = ?2 AND vers = ?3 AND proc = ?4",
            &watcher(my_id),
        ),
    }
}

/// Makes the tables and the row of the own state, and the table of addresses, where it is asked for, in one transaction.
pub(crate) fn make_and_start<S: Alter>(
    conn: &mut Connection<S>,
    own: u32,
    addresses: Option<MakeAddresses>,
) -> Result<(), Error>
    requires { IsFresh (state S.Store conn.old) }
    ensures ok { HasCleanDisk (state S.Store conn.new) → OnOk result (WroteHosts (λ h. record h { own = own }) (state S.Store conn.old) (state S.Store conn.new)) }
    ensures err { HasCleanDisk (state S.Store conn.new) → OnErr result (KeepsCommit (state S.Store conn.old) (state S.Store conn.new)) }
    ensures crash { Survives (state S.Store conn.old) (state S.Store conn.new) (MayWriteHosts (λ h. record h { own = own }) (state S.Store conn.old)) }
{
    let _schema = conn.schema();
    let own_table = Make(
        "CREATE TABLE own (id INTEGER PRIMARY KEY CHECK (id = 1), version INTEGER NOT NULL, state INTEGER NOT NULL) STRICT",
    );
    let watches_table = Make(
        "CREATE TABLE watches (mon BLOB NOT NULL, my BLOB NOT NULL, prog INTEGER NOT NULL, vers INTEGER NOT NULL, proc INTEGER NOT NULL, priv BLOB NOT NULL, PRIMARY KEY (mon, my, prog, vers, proc)) STRICT",
    );
    let row = One(
        "INSERT INTO own (id, version, state) VALUES (1, 2, ?1)",
        params![own],
    );
    let tables = Then(Then(own_table, Make(HOSTS)), watches_table);
    match addresses {
        Some(more) => transact(conn, &Then(Then(tables, row), more)),
        None => transact(conn, &Then(tables, row)),
    }
}

/// Sets the own state, where the tables are there, and makes that of addresses, where it is asked for, in one transaction.
pub(crate) fn set_own<S: Alter>(
    conn: &mut Connection<S>,
    own: u32,
    addresses: Option<MakeAddresses>,
) -> Result<(), Error>
    requires tables { HasTables Second (state S.Store conn.old) }
    requires lacking { FindsAddresses (is_some addresses) false (state S.Store conn.old) }
    ensures ok { HasCleanDisk (state S.Store conn.new) → OnOk result (WroteHosts (λ h. record h { own = own }) (state S.Store conn.old) (state S.Store conn.new)) }
    ensures err { HasCleanDisk (state S.Store conn.new) → OnErr result (KeepsCommit (state S.Store conn.old) (state S.Store conn.new)) }
    ensures crash { Survives (state S.Store conn.old) (state S.Store conn.new) (MayWriteHosts (λ h. record h { own = own }) (state S.Store conn.old)) }
{
    let _schema = conn.schema();
    let row = One("UPDATE own SET state = ?1", params![own]);
    transact_behind(conn, addresses, row)
}
