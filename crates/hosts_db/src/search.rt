//! Places in the rows and watches, which stand in order.
ghost use Rattle.std.specs.Prelude.{◌≡◌, ◌≤◌, vec_len, vec_capacity};
ghost use Rattle.definitions.specs.Bytes.{IsAscending};
ghost use Rattle.definitions.specs.Hosts.{row_cmp, watch_cmp};
ghost use Rattle.hosts_db.specs.Places.{IsInside, IsPlace, len_after, put_at_place, row_named, watch_keyed};

use crate::rows::{HostRow, MyIdRef, Watch};

/// How many hosts there may be.
pub const MOST_HOSTS: usize = 4096;

/// How many watches there may be.
pub const MOST_WATCHES: usize = 1024;

// Where the host is, or where it would go.
pub(crate) fn place_of_host(rows: &[HostRow], name: &[u8]) -> Result<usize, usize>
    requires { IsAscending row_cmp rows.now }
    ensures { IsPlace row_cmp (row_named name.now) rows.now result }
{
    rows.binary_search_by(|row| row.order(name))
}

// Where the watch is, or where it would go.
pub(crate) fn place_of_watch(
    watches: &[Watch],
    mon_name: &[u8],
    my_id: &MyIdRef<'_>,
) -> Result<usize, usize>
    requires { IsAscending watch_cmp watches.now }
    ensures { IsPlace watch_cmp (watch_keyed mon_name.now my_id.now) watches.now result }
{
    watches.binary_search_by(|watch| watch.order(mon_name, my_id))
}

// Writes the item there, or inserts it there.
pub(crate) fn put_in<T: Drop>(items: &mut Vec<T>, place: Result<usize, usize>, item: T)
    requires inside { IsInside place (vec_len items.old) (vec_capacity items.old) }
    ensures items { items.new.items ≡ put_at_place items.old.items place item }
    ensures len { vec_len items.new ≡ len_after (vec_len items.old) place }
    ensures capacity { vec_capacity items.old ≤ vec_capacity items.new }
{
    match place {
        Ok(at) => items[at] = item,
        Err(at) => match items.insert(at, item) {
            Ok(()) => {}
            Err(_) => unreachable!(),
        },
    }
}
