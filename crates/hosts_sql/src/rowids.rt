//! Whether rows are what their table asks for, and are told apart by their rowids.
ghost use Rattle.std.specs.Prelude.{◌≡◌, true, IsTrue, IfSome};
ghost use Rattle.std.specs.declared.cmp.Ordering.TheVariants.{Less};
ghost use Rattle.std.specs.Ordering.{int_cmp};
ghost use Rattle.sqlite_value.specs.declared.value.Value.TheVariants.{Int};
ghost use Rattle.sqlite_trees.specs.Tree.{rowid};
ghost use Rattle.hosts_sql.specs.Own.{is_host, is_watched, AreOwn};

use sqlite::Row;

// The first of these columns is the rowid.
fn host_id(row: &Row) -> Option<i64>
    ensures { IfSome result (λ id. (rowid row.now ≡ Int id) × (is_host row.now ≡ true)) }
{
    match (row.get::<i64>(0), row.get::<Vec<u8>>(1)) {
        (Ok(id), Ok(_)) => Some(id),
        _ => None,
    }
}

fn watch_id(row: &Row) -> Option<i64>
    ensures { IfSome result (λ id. (rowid row.now ≡ Int id) × (is_watched row.now ≡ true)) }
{
    let (Ok(id), Ok(_), Ok(_)) = (
        row.get::<i64>(0),
        row.get::<Vec<u8>>(1),
        row.get::<Vec<u8>>(2),
    ) else {
        return None;
    };
    match (row.get::<i64>(3), row.get::<i64>(4), row.get::<i64>(5)) {
        (Ok(_), Ok(_), Ok(_)) => Some(id),
        _ => None,
    }
}

fn is_above(last: Option<i64>, id: i64) -> bool
    ensures { IsTrue result → IfSome last (λ l. int_cmp l id ≡ Less) }
{
    match last {
        Some(before) => before < id,
        None => true,
    }
}

/// Whether these rows are hosts, in order of rowid.
pub(crate) fn are_own_hosts(rows: &[Row]) -> bool
    ensures { IsTrue result → AreOwn is_host rows.now }
{
    let mut last = None;
    for (at, row) in rows.iter().enumerate() {
        let Some(id) = host_id(row) else {
            return false;
        };
        if !is_above(last, id) {
            return false;
        }
        last = Some(id);
    }
    true
}

/// Whether these rows are watches, in order of rowid.
pub(crate) fn are_own_watches(rows: &[Row]) -> bool
    ensures { IsTrue result → AreOwn is_watched rows.now }
{
    let mut last = None;
    for (at, row) in rows.iter().enumerate() {
        let Some(id) = watch_id(row) else {
            return false;
        };
        if !is_above(last, id) {
            return false;
        }
        last = Some(id);
    }
    true
}
