//! The lists.
ghost use Rattle.std.specs.Prelude.{◌≡◌, map, IfOk};
ghost use Rattle.definitions.specs.Starts.{runs};
ghost use Rattle.lock_state.specs.Listed.{request_wanted};
ghost use Rattle.status_lists.specs.Views.{view_of_lock_row, request_of_row, view_of_host_row, runs_shown, runs_of_host, AreListsOf};

use crate::rows::{host_row, lock_row};
use book::Book;
use held_locks::{Locks, RunHolder};
use hosts_db::HostStore;
use lock_state::World;
use range_table::RangeTable;
use status_pages::{HostRow, Lists, LockRow, Starved};
use std::alloc::Global;

// Copies of all locks, in order of file, first byte and owner.
fn locks_of<R: RangeTable>(alloc: Global, locks: &Locks<R>) -> Result<Vec<LockRow>, Starved>
    ensures { IfOk result (λ rows. map view_of_lock_row rows.items ≡ runs locks.now.settings) }
{
    let Some(all) = locks.listing() else {
        return Err(Starved);
    };
    let mut rows = Vec::with_capacity(alloc, locks.used() as usize)?;
    for i in 0..locks.used() {
        let holder = locks.listed(&all, i);
        let row = lock_row(alloc, &holder)?;
        rows.push(row)?;
    }
    Ok(rows)
}

/// What those who wait want, in the order of waiting. `Starved`: there is no memory for a copy.
pub fn waiters_of<R: RangeTable, S: HostStore>(
    alloc: Global,
    world: &World<R, S>,
) -> Result<Vec<LockRow>, Starved>
    ensures { IfOk result (λ rows. map request_of_row rows.items ≡ map request_wanted world.now.world.waiters) }
{
    let mut rows = Vec::with_capacity(alloc, world.waiting())?;
    for place in 0..world.waiting() {
        let wanted = world.wanted_at(place);
        let holder = RunHolder {
            file: wanted.file,
            owner: wanted.owner,
            first: wanted.range.first,
            last: wanted.range.last,
            mode: wanted.mode,
        };
        let row = lock_row(alloc, &holder)?;
        rows.push(row)?;
    }
    Ok(rows)
}

fn hosts_of<R: RangeTable, S: HostStore>(
    alloc: Global,
    world: &World<R, S>,
) -> Result<Vec<HostRow>, Starved>
    ensures rows { IfOk result (λ rows. map view_of_host_row rows.items ≡ world.now.world.hosts.rows) }
    ensures runs { IfOk result (λ rows. map runs_shown rows.items ≡ map (runs_of_host world.now.world.settings) world.now.world.hosts.rows) }
{
    let hosts = world.store().kept().hosts();
    let mut rows = Vec::with_capacity(alloc, hosts.len())?;
    for host in hosts {
        let runs = world.locks().used_of(host.name());
        let row = host_row(alloc, host, runs)?;
        rows.push(row)?;
    }
    Ok(rows)
}

/// Copies of all locks, waiters and hosts of the state. `Starved`: there is no memory for them.
pub fn lists_of<R: RangeTable, S: HostStore>(
    alloc: Global,
    book: &Book<R, S>,
) -> Result<Lists, Starved>
    ensures { IfOk result (λ lists. AreListsOf book.now.journal.end.world lists) }
{
    let world = book.world();
    let hosts = hosts_of(alloc, world)?;
    let waiters = waiters_of(alloc, world)?;
    let locks = locks_of(alloc, world.locks())?;
    Ok(Lists {
        locks,
        waiters,
        hosts,
    })
}
