//! What a table answers, in the words of owners.
ghost use Rattle.std.specs.Prelude.{◌≡◌, ◌++◌, ◌∷◌, [], true};
ghost use Rattle.definitions.specs.Conflict.{conflicts, conflicts_with};
ghost use Rattle.definitions.specs.Owners.{is_of_host};
ghost use Rattle.definitions.specs.Quotas.{is_past};
ghost use Rattle.definitions.specs.Starts.{is_short, used, used_of};
ghost use Rattle.owner_ids.specs.Names.{names_of_owners};
ghost use Rattle.held_locks.specs.Stands.{WhereStands, WhereSets, WhereAsks, WhereMeets};

use crate::owners::allowance::Allowance;
use owner_ids::{HostOf, OwnerId, Owners};
use range_table::{RangeTable, Ranged, Wanted};

// How many runs the owners have.
fn used<T: RangeTable>(table: &T, owners: &Owners) -> u32
    ensures { WhereStands (names_of_owners owners.now) (T.settings table.now) (λ settings. result ≡ used settings) }
{
    let _owners = owners;
    table.used()
}

/// How many runs the owners of a host have.
pub fn used_of<T: RangeTable>(table: &T, owners: &Owners, host: &[u8]) -> u32
    ensures { WhereStands (names_of_owners owners.now) (T.settings table.now) (λ settings. result ≡ used_of host.now settings) }
{
    table.used_of(&HostOf { owners, name: host })
}

// How many runs the owners would have after a setting.
fn used_after<T: RangeTable>(table: &T, owners: &Owners, range: &Ranged) -> u32
    ensures { WhereSets (names_of_owners owners.now) (T.settings table.now) range.now.setting (λ settings t. result ≡ used (settings ++ t ∷ [])) }
{
    let _owners = owners;
    let setting = &range.setting;
    table.used_after(
        &setting.file,
        setting.owner,
        setting.first,
        setting.last,
        setting.mode,
    )
}

/// Whether after a setting of one of a host's owners, who have so many runs and may have so many, they would have more than they may,
/// and more than they have. No runs of theirs are counted.
pub fn is_past<T: RangeTable>(
    table: &T,
    owners: &Owners,
    host: &[u8],
    allowance: Allowance,
    range: &Ranged,
) -> bool
    ensures { WhereSets (names_of_owners owners.now) (T.settings table.now) range.now.setting (λ settings t. allowance.used ≡ used_of host.now settings → is_of_host host.now t.owner ≡ true → result ≡ is_past settings t host.now allowance.quota) }
{
    let _host = host;
    if !allowance.is_near() {
        return false;
    }
    allowance.is_past(used(table, owners), used_after(table, owners, range))
}

/// Whether another owner's mode is in the way of a lock.
pub fn conflicts<T: RangeTable>(table: &T, owners: &Owners, wanted: &Wanted) -> bool
    ensures { WhereAsks (names_of_owners owners.now) (T.settings table.now) wanted.now (λ settings r. result ≡ conflicts settings r) }
{
    let _owners = owners;
    let _run = wanted.run();
    table.is_blocked(wanted)
}

/// Whether a mode of this owner is in the way of another's lock.
pub fn conflicts_with<T: RangeTable>(
    table: &T,
    owners: &Owners,
    wanted: &Wanted,
    owner: OwnerId,
) -> bool
    ensures { WhereMeets (names_of_owners owners.now) (T.settings table.now) wanted.now owner (λ settings r y. result ≡ conflicts_with settings r y) }
{
    let _owners = owners;
    let _run = wanted.run();
    table.is_owner_in_way(owner, wanted)
}

/// Whether fewer than 2 of 65,536 runs are free.
pub fn is_short<T: RangeTable>(table: &T, owners: &Owners) -> bool
    ensures { WhereStands (names_of_owners owners.now) (T.settings table.now) (λ settings. result ≡ is_short 65536 settings) }
{
    used(table, owners) > 65_534
}
