//! Rows as JSON.
ghost use Rattle.std.specs.Prelude.{◌≡◌, length, IfOk, OnOk};
ghost use Rattle.serde_json.specs.Written.{IsInOrder};
ghost use Rattle.serde_json.specs.Data.{Data, string, put as with_member};
ghost use Rattle.serde_json.specs.View.{view, members_view};
ghost use Rattle.event_counts.specs.Numbers.{happened_number};
ghost use Rattle.status_pages.specs.Json.{count_data, IsTextOf, HasBytes, hex_data, last_data, range_members, local_members, svid_members, HasNames, IsArrayText, IsArrayOf};

use crate::counters::{HAPPENINGS, NamedHappening};
use crate::metrics::{METRICS, Metric, Numbers};
use crate::rows::{HostRow, LockRow, OwnerRow, Waiting};
use crate::starved::Starved;
use crate::waiting::first_in_way;
use event_counts::Counts;
use serde_json::{Map, Value, put};
use std::alloc::Global;

/// The last byte of a lock that goes to the end of its file.
const LAST_BYTE: u64 = 0x7fff_ffff_ffff_ffff;

type Members = Map<String, Value>;

// Bytes as text, or null where they are not UTF-8.
fn text_value(alloc: Global, bytes: &[u8]) -> Result<Value, Starved>
    ensures { IfOk result (λ v. IsTextOf bytes.now (view v)) }
{
    match str::from_utf8(bytes) {
        Ok(text) => Ok(Value::try_from_str(alloc, text)?),
        Err(_) => Ok(Value::Null),
    }
}

fn hex_value(alloc: Global, bytes: &[u8]) -> Result<Value, Starved>
    ensures { IfOk result (λ v. view v ≡ hex_data bytes.now) }
{
    Ok(Value::String(hex::encode(alloc, bytes)?))
}

fn put_bytes(
    map: &mut Members,
    alloc: Global,
    key: &str,
    hex_key: &str,
    bytes: &[u8],
) -> Result<(), Starved>
    ensures { OnOk result (HasBytes key.now hex_key.now bytes.now (members_view map.old.entries) (members_view map.new.entries)) }
{
    let text = text_value(alloc, bytes)?;
    put(map, alloc, key, text)?;
    let digits = hex_value(alloc, bytes)?;
    put(map, alloc, hex_key, digits)?;
    Ok(())
}

fn put_text(map: &mut Members, alloc: Global, key: &str, text: &str) -> Result<(), Starved>
    ensures { OnOk result (members_view map.new.entries ≡ with_member key.now (string text.now) (members_view map.old.entries)) }
{
    let value = Value::try_from_str(alloc, text)?;
    put(map, alloc, key, value)?;
    Ok(())
}

fn last_value(last: u64) -> Value
    ensures { view result ≡ last_data last }
{
    if last < LAST_BYTE {
        Value::from(last)
    } else {
        Value::Null
    }
}

fn put_range(map: &mut Members, alloc: Global, row: &LockRow) -> Result<(), Starved>
    ensures { OnOk result (members_view map.new.entries ≡ range_members row.now (members_view map.old.entries)) }
{
    let file = hex_value(alloc, &row.file)?;
    put(map, alloc, "file", file)?;
    let mode = if row.is_exclusive { "write" } else { "read" };
    put_text(map, alloc, "mode", mode)?;
    put(map, alloc, "first", Value::from(row.first))?;
    put(map, alloc, "last", last_value(row.last))?;
    Ok(())
}

fn put_local(map: &mut Members, alloc: Global, kind: &str, number: u64) -> Result<(), Starved>
    ensures { OnOk result (members_view map.new.entries ≡ local_members kind.now number (members_view map.old.entries)) }
{
    put_text(map, alloc, "kind", kind)?;
    put(map, alloc, "host", Value::Null)?;
    put(map, alloc, "host_hex", Value::Null)?;
    put(map, alloc, "svid", Value::Null)?;
    put(map, alloc, "oh", Value::Null)?;
    put(map, alloc, "oh_hex", Value::Null)?;
    put(map, alloc, "number", Value::from(number))?;
    Ok(())
}

// What a host's owner shows beside its bytes.
fn put_svid(map: &mut Members, alloc: Global, svid: i32) -> Result<(), Starved>
    ensures { OnOk result (members_view map.new.entries ≡ svid_members svid (members_view map.old.entries)) }
{
    put_text(map, alloc, "kind", "host")?;
    put(map, alloc, "svid", Value::from(svid))?;
    put(map, alloc, "number", Value::Null)?;
    Ok(())
}

// The bytes of a host's owner.
fn put_names(map: &mut Members, alloc: Global, name: &[u8], oh: &[u8]) -> Result<(), Starved>
    ensures { OnOk result (HasNames name.now oh.now (members_view map.old.entries) (members_view map.new.entries)) }
{
    put_bytes(map, alloc, "host", "host_hex", name)?;
    put_bytes(map, alloc, "oh", "oh_hex", oh)?;
    Ok(())
}

fn put_owner(map: &mut Members, alloc: Global, owner: &OwnerRow) -> Result<(), Starved> {
    match owner {
        OwnerRow::Host { name, svid, oh } => {
            put_svid(map, alloc, *svid)?;
            put_names(map, alloc, name.as_slice(), oh.as_slice())
        }
        OwnerRow::Process(number) => put_local(map, alloc, "process", u64::from(*number)),
        OwnerRow::Description(number) => put_local(map, alloc, "description", *number),
    }
}

fn put_lock(map: &mut Members, alloc: Global, row: &LockRow) -> Result<(), Starved> {
    put_range(map, alloc, row)?;
    put_owner(map, alloc, &row.owner)
}

fn lock_value(alloc: Global, row: &LockRow) -> Result<Value, Starved> {
    let mut map = Map::new(alloc);
    put_lock(&mut map, alloc, row)?;
    Ok(Value::Object(map))
}

// The lock that is in the way of a waiter, or null where none is.
fn holder_value(alloc: Global, holder: Option<&LockRow>) -> Result<Value, Starved> {
    match holder {
        Some(lock) => lock_value(alloc, lock),
        None => Ok(Value::Null),
    }
}

fn put_waiter(
    map: &mut Members,
    alloc: Global,
    locks: &[LockRow],
    waiter: &Waiting,
    now: u64,
) -> Result<(), Starved> {
    put_lock(map, alloc, &waiter.lock)?;
    let seconds = now.saturating_sub(waiter.since);
    put(map, alloc, "waits_seconds", Value::from(seconds))?;
    let holder = holder_value(alloc, first_in_way(locks, &waiter.lock))?;
    put(map, alloc, "in_way", holder)?;
    Ok(())
}

fn waiter_value(
    alloc: Global,
    locks: &[LockRow],
    waiter: &Waiting,
    now: u64,
) -> Result<Value, Starved> {
    let mut map = Map::new(alloc);
    put_waiter(&mut map, alloc, locks, waiter, now)?;
    Ok(Value::Object(map))
}

fn put_host_row(
    map: &mut Members,
    alloc: Global,
    own_state: u32,
    host: &HostRow,
) -> Result<(), Starved> {
    put_bytes(map, alloc, "host", "host_hex", host.name.as_slice())?;
    put(map, alloc, "epoch", Value::from(host.epoch))?;
    put(map, alloc, "seen", Value::from(host.seen))?;
    put(map, alloc, "quota", Value::from(host.quota))?;
    put(map, alloc, "locks", Value::from(host.runs))?;
    let heard = host.epoch == own_state;
    put(map, alloc, "heard", Value::Bool(heard))?;
    Ok(())
}

fn host_value(alloc: Global, own_state: u32, host: &HostRow) -> Result<Value, Starved> {
    let mut map = Map::new(alloc);
    put_host_row(&mut map, alloc, own_state, host)?;
    Ok(Value::Object(map))
}

// A list as JSON.
fn array_text(alloc: Global, values: Vec<Value>) -> Result<Vec<u8>, Starved>
    ensures { IfOk result (λ page. IsArrayText values.items page.items) }
{
    let array = Value::Array(values);
    Ok(array.to_vec(alloc)?)
}

/// The page `/locks.json`: an array with an object for each lock, in their order. Its keys are `file`, `mode`, `first`, `last`
/// (null: to the end), `kind` (host, process, description), `host`, `host_hex`, `svid`, `oh`, `oh_hex` and `number`; what doesn't
/// apply is null. `host` and `oh` are null where they are not UTF-8.
pub fn locks_page(alloc: Global, locks: &[LockRow]) -> Result<Vec<u8>, Starved>
    ensures { IfOk result (λ page. IsArrayOf (length locks.now) page.items) }
{
    let mut values = Vec::with_capacity(alloc, locks.len())?;
    for lock in locks {
        values.push(lock_value(alloc, lock)?)?;
    }
    let page = array_text(alloc, values)?;
    Ok(page)
}

/// The page `/waiters.json`: an array with an object for each waiter, in the order of waiting. Beside the keys of the lock that is
/// wanted it has `waits_seconds`, how long it is known to wait, and `in_way`, the first lock in its way, or null.
pub fn waiters_page(
    alloc: Global,
    locks: &[LockRow],
    waiters: &[Waiting],
    now: u64,
) -> Result<Vec<u8>, Starved>
    ensures { IfOk result (λ page. IsArrayOf (length waiters.now) page.items) }
{
    let mut values = Vec::with_capacity(alloc, waiters.len())?;
    for waiter in waiters {
        values.push(waiter_value(alloc, locks, waiter, now)?)?;
    }
    let page = array_text(alloc, values)?;
    Ok(page)
}

/// The page `/hosts.json`: an array with an object for each stored host, in order of name: `host`, `host_hex`, `epoch`, `seen`,
/// `quota`, `locks`, and `heard`, whether it knows of this own state.
pub fn hosts_page(alloc: Global, own_state: u32, hosts: &[HostRow]) -> Result<Vec<u8>, Starved>
    ensures { IfOk result (λ page. IsArrayOf (length hosts.now) page.items) }
{
    let mut values = Vec::with_capacity(alloc, hosts.len())?;
    for host in hosts {
        values.push(host_value(alloc, own_state, host)?)?;
    }
    let page = array_text(alloc, values)?;
    Ok(page)
}

fn put_samples(
    map: &mut Members,
    alloc: Global,
    numbers: &Numbers,
    metric: &Metric<'_>,
) -> Result<(), Starved> {
    for sample in metric.samples {
        put(
            map,
            alloc,
            sample.key,
            Value::from(numbers.get(sample.number)),
        )?;
    }
    Ok(())
}

// How many events there were of a kind.
fn put_happened(
    map: &mut Members,
    alloc: Global,
    counts: &Counts,
    happened: &NamedHappening<'_>,
) -> Result<(), Starved>
    ensures { OnOk result (members_view map.new.entries ≡ with_member happened.now.key.now (count_data (happened_number counts.now.events happened.now.what)) (members_view map.old.entries)) }
{
    let count = counts.happened(happened.what);
    put(map, alloc, happened.key, Value::from(count))?;
    Ok(())
}

fn put_all_happened(map: &mut Members, alloc: Global, counts: &Counts) -> Result<(), Starved> {
    for happened in HAPPENINGS {
        put_happened(map, alloc, counts, happened)?;
    }
    Ok(())
}

/// The page `/status.json`: an object with the program's version, the numbers of `/metrics`, and how many events there were of each
/// kind.
pub fn status_page(
    alloc: Global,
    numbers: &Numbers,
    counts: &Counts,
    version: &str,
) -> Result<Vec<u8>, Starved>
    ensures { IfOk result (λ page. (d : Data) × IsInOrder page.items d) }
{
    let mut map = Map::new(alloc);
    put_text(&mut map, alloc, "version", version)?;
    for metric in METRICS {
        put_samples(&mut map, alloc, numbers, metric)?;
    }
    put_all_happened(&mut map, alloc, counts)?;
    Ok(Value::Object(map).to_vec(alloc)?)
}
