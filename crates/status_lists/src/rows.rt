//! Rows of the state as they are shown.
ghost use Rattle.std.specs.Prelude.{◌≡◌, IfOk};
ghost use Rattle.owner_ids.specs.Views.{view_of_owner};
ghost use Rattle.held_locks.specs.Asked.{view_of_lock_holder};
ghost use Rattle.range_table.specs.Modes.{view_of_mode};
ghost use Rattle.status_lists.specs.Views.{mode_of_row, view_of_owner_row, view_of_lock_row, view_of_host_row};

use held_locks::RunHolder;
use hosts_db::HostRow as StoredHost;
use owner_ids::Owner;
use range_table::Mode;
use status_pages::{HostRow, LockRow, OwnerRow, Starved};
use std::alloc::Global;

fn owner_row(alloc: Global, owner: &Owner) -> Result<OwnerRow, Starved>
    ensures { IfOk result (λ row. view_of_owner_row row ≡ view_of_owner owner.now) }
{
    match owner {
        Owner::Remote { name, svid, oh } => {
            let name = Vec::from_slice(alloc, name.as_slice())?;
            let oh = Vec::from_slice(alloc, oh.as_slice())?;
            let svid = *svid;
            Ok(OwnerRow::Host { name, svid, oh })
        }
        Owner::Process(pid) => Ok(OwnerRow::Process(*pid)),
        Owner::Description(number) => Ok(OwnerRow::Description(*number)),
    }
}

fn is_exclusive(mode: Mode) -> bool
    ensures { mode_of_row result ≡ view_of_mode mode }
{
    match mode {
        Mode::Shared => false,
        Mode::Exclusive => true,
    }
}

/// A copy of what an owner holds.
pub(crate) fn lock_row(alloc: Global, holder: &RunHolder<'_>) -> Result<LockRow, Starved>
    ensures { IfOk result (λ row. view_of_lock_row row ≡ view_of_lock_holder holder.now) }
{
    let owner = owner_row(alloc, holder.owner)?;
    let file = Vec::from_slice(alloc, holder.file.as_bytes())?;
    Ok(LockRow {
        file,
        owner,
        first: holder.first,
        last: holder.last,
        is_exclusive: is_exclusive(holder.mode),
    })
}

/// A copy of a host's row, whose owners have so many runs.
pub(crate) fn host_row(alloc: Global, host: &StoredHost, runs: u32) -> Result<HostRow, Starved>
    ensures row { IfOk result (λ row. view_of_host_row row ≡ host.now) }
    ensures runs { IfOk result (λ row. row.runs ≡ runs) }
{
    Ok(HostRow {
        name: Vec::from_slice(alloc, host.name())?,
        epoch: host.epoch(),
        seen: host.seen(),
        quota: host.quota(),
        runs,
    })
}
