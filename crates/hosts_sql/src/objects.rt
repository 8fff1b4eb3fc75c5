//! Which objects a schema has: those of a version, and none beside them but SQLite's own.
ghost use Rattle.std.specs.Prelude.{◌≡◌, None, true, length, IsTrue, OnOk, IfOk, option_map, nat_lt, ◌==◌};
ghost use Rattle.std.specs.Option.{option_copied};
ghost use Rattle.std.specs.List.{list_all, position_from};
ghost use Rattle.hosts_sql.specs.Schemas.{HasTable, IsHostSchema, TakesAddresses, checks_in, has_no_other, is_expected, is_of_hosts, table_in, tree_in};
ghost use Rattle.hosts_sql.specs.Placing.{has_addresses};
ghost use Rattle.sqlite_schema.specs.Names.{table_named, index_named};
ghost use Rattle.sqlite_catalog.specs.Change.{is_reserved};
ghost use Rattle.hosts_sql.specs.Tables.{addresses_name, first_hosts_name, first_hosts_table, hosts_name, hosts_table, own_name, own_table, watches_name, watches_table};

use crate::error::AdoptError;
use crate::tables::{
    TablesVersion, check_addresses_table, check_first_table, check_hosts_table, check_own_table,
    check_watches_table,
};
use sqlite_schema::names::same_name;
use sqlite_schema::schema::{Index, Schema, Table};
use std::alloc::Global;

// A name of SQLite's own, as sqlite_stat1.
fn is_reserved(name: &[u8]) -> bool
    ensures { result ≡ is_reserved name.now }
{
    same_name(&name[..name.len().min(7)], b"sqlite_")
}

fn is_of_hosts(name: &[u8]) -> bool
    ensures { result ≡ is_of_hosts name.now }
{
    same_name(name, b"own")
        || same_name(name, b"hosts2")
        || same_name(name, b"watches")
        || same_name(name, b"hosts")
        || same_name(name, b"addresses")
}

// One of the hosts' tables or of SQLite's own.
fn is_expected(table: &Table) -> bool
    ensures { result ≡ is_expected table.now }
{
    (is_of_hosts(table.name.as_slice()) || is_reserved(table.name.as_slice()))
        && table.references.len() == 0
        && !table.is_counted
}

// A copy of the name, where there is memory for it.
fn further(alloc: Global, name: &[u8]) -> AdoptError {
    let Ok(text) = std::str::from_utf8(name) else {
        return AdoptError::UnnamedObject;
    };
    match String::from_str(alloc, text) {
        Ok(name) => AdoptError::FurtherObject(name),
        Err(_) => AdoptError::UnnamedObject,
    }
}

// The first object that is neither the hosts' nor SQLite's own.
fn other_in(schema: &Schema) -> Option<&[u8]> {
    if let Some(table) = schema.tables.as_slice().iter().find(|t| !is_expected(t)) {
        return Some(table.name.as_slice());
    }
    if let Some(index) = schema
        .indexes
        .as_slice()
        .iter()
        .find(|i| !is_reserved(i.name.as_slice()))
    {
        return Some(index.name.as_slice());
    }
    match schema.views.as_slice() {
        [view, ..] => Some(view.name.as_slice()),
        _ => None,
    }
}

fn are_expected(tables: &[Table]) -> bool
    ensures { result ≡ list_all is_expected tables.now }
{
    tables.iter().all(|t| is_expected(t))
}

fn are_reserved(indexes: &[Index]) -> bool
    ensures { result ≡ list_all (λ i. is_reserved i.name) indexes.now }
{
    indexes.iter().all(|i| is_reserved(i.name.as_slice()))
}

fn has_no_view(schema: &Schema) -> bool
    ensures { result ≡ (length schema.now.views == 0) }
{
    schema.views.len() == 0
}

fn has_no_other(schema: &Schema) -> bool
    ensures { result ≡ has_no_other schema.now }
{
    are_expected(schema.tables.as_slice())
        && are_reserved(schema.indexes.as_slice())
        && has_no_view(schema)
}

fn check_others(alloc: Global, schema: &Schema) -> Result<(), AdoptError>
    ensures { OnOk result (has_no_other schema.now ≡ true) }
{
    if has_no_other(schema) {
        return Ok(());
    }
    match other_in(schema) {
        Some(name) => Err(further(alloc, name)),
        None => Err(AdoptError::UnnamedObject),
    }
}

fn table_in<'a>(schema: &'a Schema, name: &[u8]) -> Option<&'a Table>
    ensures { option_copied result ≡ table_in schema.now name.now }
{
    schema.tables.as_slice().iter().find(|t| t.is_named(name))
}

// The place of the first table in this tree.
fn place_in(tables: &[Table], tree: u32) -> Option<usize>
    ensures { result ≡ position_from (λ u. u.tree == tree) 0 tables.now }
{
    tables.iter().position(|t| t.tree == tree)
}

fn are_same(one: Option<usize>, other: Option<usize>) -> bool
    ensures { IsTrue result → one ≡ other }
{
    match (one, other) {
        (Some(a), Some(b)) => a == b,
        _ => false,
    }
}

// The first table in this tree is the one of this name.
fn is_alone(schema: &Schema, name: &[u8], tree: u32) -> bool
    ensures { IsTrue result → (position_from (λ u. u.tree == tree) 0 schema.now.tables ≡ table_named schema.now name.now) }
{
    are_same(
        place_in(schema.tables.as_slice(), tree),
        schema.table_named(name),
    )
}

// Both, or the table lies in no tree of its own.
fn unless_it_is_shared(schema: &Schema, name: &'static str, tree: u32) -> Result<(), AdoptError>
    ensures alone { OnOk result (position_from (λ u. u.tree == tree) 0 schema.now.tables ≡ table_named schema.now name.now) }
    ensures low { OnOk result (nat_lt tree 65536 ≡ true) }
{
    if is_alone(schema, name.as_bytes(), tree) && tree < 65_536 {
        Ok(())
    } else {
        Err(AdoptError::DifferentTable(name))
    }
}

#[tactic(auto, using(crate::proofs::Schemas::own_there))]
fn check_own(schema: &Schema) -> Result<(), AdoptError>
    ensures { OnOk result (HasTable schema.now (own_table (tree_in schema.now own_name) (checks_in schema.now own_name))) }
{
    let Some(table) = table_in(schema, b"own") else {
        return Err(AdoptError::MissingTable("own"));
    };
    check_own_table(table)?;
    unless_it_is_shared(schema, "own", table.tree)?;
    Ok(())
}

#[tactic(auto, using(crate::proofs::Schemas::hosts_there))]
fn check_hosts(schema: &Schema) -> Result<(), AdoptError>
    ensures { OnOk result (HasTable schema.now (hosts_table (tree_in schema.now hosts_name))) }
{
    let Some(table) = table_in(schema, b"hosts2") else {
        return Err(AdoptError::MissingTable("hosts2"));
    };
    check_hosts_table(table)?;
    unless_it_is_shared(schema, "hosts2", table.tree)?;
    Ok(())
}

#[tactic(auto, using(crate::proofs::Schemas::first_there))]
fn check_first(schema: &Schema) -> Result<(), AdoptError>
    ensures { OnOk result (HasTable schema.now (first_hosts_table (tree_in schema.now first_hosts_name))) }
{
    let Some(table) = table_in(schema, b"hosts") else {
        return Err(AdoptError::MissingTable("hosts2"));
    };
    check_first_table(table)?;
    unless_it_is_shared(schema, "hosts", table.tree)?;
    Ok(())
}

#[tactic(auto, using(crate::proofs::Schemas::watches_there))]
fn check_watches(schema: &Schema) -> Result<(), AdoptError>
    ensures { OnOk result (HasTable schema.now (watches_table (tree_in schema.now watches_name))) }
{
    let Some(table) = table_in(schema, b"watches") else {
        return Err(AdoptError::MissingTable("watches"));
    };
    check_watches_table(table)?;
    unless_it_is_shared(schema, "watches", table.tree)?;
    Ok(())
}

// The table of schema 1, if there is one, is what it was there.
#[tactic(auto, using(crate::proofs::Schemas::old_there, crate::proofs::Schemas::none_there))]
fn check_old(schema: &Schema) -> Result<(), AdoptError>
    ensures { OnOk result (table_in schema.now first_hosts_name ≡ option_map (λ t. first_hosts_table t.tree) (table_in schema.now first_hosts_name)) }
{
    match table_in(schema, b"hosts") {
        Some(table) => check_first_table(table),
        None => Ok(()),
    }
}

// The table of the addresses, if there is one, is what it should be.
#[tactic(auto, using(crate::proofs::Schemas::addresses_there, crate::proofs::Schemas::no_addresses_there))]
fn check_addresses(schema: &Schema) -> Result<(), AdoptError>
    ensures { OnOk result (TakesAddresses schema.now) }
{
    let Some(table) = table_in(schema, b"addresses") else {
        return Ok(());
    };
    check_addresses_table(table)?;
    unless_it_is_shared(schema, "addresses", table.tree)?;
    Ok(())
}

/// Whether there is a table of addresses.
pub(crate) fn has_addresses(schema: &Schema) -> bool
    ensures { result ≡ has_addresses schema.now }
{
    table_in(schema, b"addresses").is_some()
}

/// The version whose tables the schema has, in whatever order and trees, if it has no other object but SQLite's own. A file that
/// was upgraded from schema 1 has the table of its hosts, too, and each may have one of addresses.
pub(crate) fn version_of(alloc: Global, schema: &Schema) -> Result<TablesVersion, AdoptError>
    ensures { IfOk result (λ version. IsHostSchema version schema.now) }
{
    check_others(alloc, schema)?;
    check_own(schema)?;
    check_watches(schema)?;
    check_addresses(schema)?;
    if table_in(schema, b"hosts2").is_some() {
        check_hosts(schema)?;
        check_old(schema)?;
        return Ok(TablesVersion::Second);
    }
    check_first(schema)?;
    if schema.index_named(b"hosts2").is_some() {
        return Err(AdoptError::UnnamedObject);
    }
    Ok(TablesVersion::First)
}
