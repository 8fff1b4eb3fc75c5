//! Whether a schema is that of the tables, and of which version.
ghost use Rattle.std.specs.Prelude.{◌≡◌, [], ◌∷◌, IsTrue, OnOk};
ghost use Rattle.hosts_sql.specs.Wrote.{number};
ghost use Rattle.sqlite_value.specs.declared.value.Value.TheVariants.{Null};
ghost use Rattle.sqlite_value.specs.declared.keys.Collation.TheVariants.{Binary};
ghost use Rattle.hosts_sql.specs.Tables.{addresses_columns, addresses_table, first_hosts_columns, first_hosts_table, hosts_columns, hosts_table, id_column, keyed_table, no_schema, one_key, own_columns, own_table, required_column, watches_columns, watches_table};

use crate::error::AdoptError;
use sqlite::types::Value;
use sqlite_schema::schema::{Column, Kind, Schema, Stamps, Table};
use sqlite_value::keys::{Collation, Order};

/// The version of the tables: hosts have a quota from the second on.
#[derive(Clone, Copy)]
pub(crate) enum TablesVersion {
    First,
    Second,
}

impl TablesVersion {
    /// The number that the table of the own state has.
    pub(crate) fn number(self) -> u32
        ensures { result ≡ number self }
    {
        match self {
            TablesVersion::First => 1,
            TablesVersion::Second => 2,
        }
    }
}

/// The schema has no object.
pub(crate) fn is_none(schema: &Schema) -> bool
    ensures none { IsTrue result → schema.now ≡ no_schema }
    ensures told { schema.now ≡ no_schema → IsTrue result }
{
    schema.tables.is_empty() && schema.indexes.is_empty() && schema.views.is_empty()
}

// ---- columns

// A column that is NOT NULL.
fn is_required(column: &Column, name: &[u8], kind: Kind) -> bool
    ensures { IsTrue result → column.now ≡ required_column name.now kind }
{
    column.name.as_slice() == name
        && column.kind == kind
        && column.is_strict
        && column.not_null
        && matches!(column.default, Value::Null)
        && column.collation == Collation::Binary
}

fn is_id(column: &Column) -> bool
    ensures { IsTrue result → column.now ≡ id_column }
{
    column.name.as_slice() == b"id".as_slice()
        && column.kind == Kind::Integer
        && column.is_strict
        && !column.not_null
        && matches!(column.default, Value::Null)
        && column.collation == Collation::Binary
}

// Where the test of a column failed, it is the one that differs.
fn unless_it_differs(
    is_right: bool,
    table: &'static str,
    column: &'static str,
) -> Result<(), AdoptError>
    ensures { OnOk result (IsTrue is_right) }
{
    if is_right {
        Ok(())
    } else {
        Err(AdoptError::DifferentColumn { table, column })
    }
}

fn miscounted(table: &'static str, columns: &[Column], wanted: usize) -> AdoptError {
    AdoptError::ColumnCount {
        table,
        found: columns.len(),
        wanted,
    }
}

fn check_own_columns(columns: &[Column]) -> Result<(), AdoptError>
    ensures { OnOk result (columns.now ≡ own_columns) }
{
    match columns {
        [a, b, c] => {
            unless_it_differs(is_id(a), "own", "id")?;
            unless_it_differs(is_required(b, b"version", Kind::Integer), "own", "version")?;
            unless_it_differs(is_required(c, b"state", Kind::Integer), "own", "state")
        }
        _ => Err(miscounted("own", columns, 3)),
    }
}

fn check_hosts_columns(columns: &[Column]) -> Result<(), AdoptError>
    ensures { OnOk result (columns.now ≡ hosts_columns) }
{
    match columns {
        [a, b, c, d] => {
            unless_it_differs(is_required(a, b"name", Kind::Blob), "hosts2", "name")?;
            unless_it_differs(is_required(b, b"epoch", Kind::Integer), "hosts2", "epoch")?;
            unless_it_differs(is_required(c, b"seen", Kind::Integer), "hosts2", "seen")?;
            unless_it_differs(is_required(d, b"quota", Kind::Integer), "hosts2", "quota")
        }
        _ => Err(miscounted("hosts2", columns, 4)),
    }
}

fn check_first_columns(columns: &[Column]) -> Result<(), AdoptError>
    ensures { OnOk result (columns.now ≡ first_hosts_columns) }
{
    match columns {
        [a, b, c] => {
            unless_it_differs(is_required(a, b"name", Kind::Blob), "hosts", "name")?;
            unless_it_differs(is_required(b, b"epoch", Kind::Integer), "hosts", "epoch")?;
            unless_it_differs(is_required(c, b"seen", Kind::Integer), "hosts", "seen")
        }
        _ => Err(miscounted("hosts", columns, 3)),
    }
}

fn check_watches_columns(columns: &[Column]) -> Result<(), AdoptError>
    ensures { OnOk result (columns.now ≡ watches_columns) }
{
    match columns {
        [a, b, c, d, e, f] => {
            unless_it_differs(is_required(a, b"mon", Kind::Blob), "watches", "mon")?;
            unless_it_differs(is_required(b, b"my", Kind::Blob), "watches", "my")?;
            unless_it_differs(is_required(c, b"prog", Kind::Integer), "watches", "prog")?;
            unless_it_differs(is_required(d, b"vers", Kind::Integer), "watches", "vers")?;
            unless_it_differs(is_required(e, b"proc", Kind::Integer), "watches", "proc")?;
            unless_it_differs(is_required(f, b"priv", Kind::Blob), "watches", "priv")
        }
        _ => Err(miscounted("watches", columns, 6)),
    }
}

fn check_addresses_columns(columns: &[Column]) -> Result<(), AdoptError>
    ensures { OnOk result (columns.now ≡ addresses_columns) }
{
    match columns {
        [a, b] => {
            unless_it_differs(is_required(a, b"name", Kind::Blob), "addresses", "name")?;
            unless_it_differs(
                is_required(b, b"address", Kind::Text),
                "addresses",
                "address",
            )
        }
        _ => Err(miscounted("addresses", columns, 2)),
    }
}

// ---- tables

fn are_none(stamps: &Stamps) -> bool
    ensures { IsTrue result → stamps.now ≡ record { places = []; terms = []; formats = [] } }
{
    stamps.places.is_empty() && stamps.terms.roots.is_empty() && stamps.formats.is_empty()
}

fn is_key(table: &Table, key: &[usize]) -> bool
    ensures { IsTrue result → (table.now.uniques ≡ key.now ∷ []) }
{
    match table.uniques.as_slice() {
        [only] => only.as_slice() == key,
        _ => false,
    }
}

fn is_order(orders: &[Order]) -> bool
    ensures { IsTrue result → (orders.now ≡ one_key ∷ []) }
{
    match orders {
        [only] => only.digits == 0,
        _ => false,
    }
}

// A table with this key.
fn is_keyed(table: &Table, name: &[u8], key: &[usize]) -> bool
    ensures { IsTrue result → table.now ≡ keyed_table name.now table.now.tree table.now.columns key.now one_key }
{
    table.name.as_slice() == name
        && table.key.is_none()
        && table.primary.as_slice() == key
        && is_key(table, key)
        && is_order(table.orders.as_slice())
        && table.checks.roots.is_empty()
        && table.references.is_empty()
        && table.computed.is_empty()
        && are_none(&table.stamps)
        && !table.is_counted
}

// A table whose rowid is its key, whatever its columns and its CHECKs are.
fn is_own_keyed(table: &Table, key: &[usize]) -> bool
    requires { (key.now ≡ 0 ∷ []) }
    ensures { IsTrue result → table.now.columns ≡ own_columns → table.now ≡ own_table table.now.tree table.now.checks }
{
    table.name.as_slice() == b"own".as_slice()
        && table.key == Some(0)
        && table.primary.as_slice() == key
        && table.uniques.is_empty()
        && table.orders.is_empty()
        && table.references.is_empty()
        && table.computed.is_empty()
        && are_none(&table.stamps)
        && !table.is_counted
}

/// The table of the own state, whatever its CHECKs are.
pub(crate) fn check_own_table(table: &Table) -> Result<(), AdoptError>
    ensures { OnOk result (table.now ≡ own_table table.now.tree table.now.checks) }
{
    check_own_columns(table.columns.as_slice())?;
    if is_own_keyed(table, &[0]) {
        Ok(())
    } else {
        Err(AdoptError::DifferentTable("own"))
    }
}

/// The table of the hosts in schema 2.
pub(crate) fn check_hosts_table(table: &Table) -> Result<(), AdoptError>
    ensures { OnOk result (table.now ≡ hosts_table table.now.tree) }
{
    check_hosts_columns(table.columns.as_slice())?;
    if is_keyed(table, b"hosts2", &[1]) {
        Ok(())
    } else {
        Err(AdoptError::DifferentTable("hosts2"))
    }
}

/// And in schema 1.
pub(crate) fn check_first_table(table: &Table) -> Result<(), AdoptError>
    ensures { OnOk result (table.now ≡ first_hosts_table table.now.tree) }
{
    check_first_columns(table.columns.as_slice())?;
    if is_keyed(table, b"hosts", &[1]) {
        Ok(())
    } else {
        Err(AdoptError::DifferentTable("hosts"))
    }
}

/// The table of the watches.
pub(crate) fn check_watches_table(table: &Table) -> Result<(), AdoptError>
    ensures { OnOk result (table.now ≡ watches_table table.now.tree) }
{
    check_watches_columns(table.columns.as_slice())?;
    if is_keyed(table, b"watches", &[1, 2, 3, 4, 5]) {
        Ok(())
    } else {
        Err(AdoptError::DifferentTable("watches"))
    }
}

/// The table of the addresses.
pub(crate) fn check_addresses_table(table: &Table) -> Result<(), AdoptError>
    ensures { OnOk result (table.now ≡ addresses_table table.now.tree) }
{
    check_addresses_columns(table.columns.as_slice())?;
    if is_keyed(table, b"addresses", &[1]) {
        Ok(())
    } else {
        Err(AdoptError::DifferentTable("addresses"))
    }
}
