//! How many runs each number has.
ghost use Rattle.std.specs.Prelude.{◌≡◌, ◌<◌, ◌≤◌, ◌↔◌, ◌-◌, ◌++◌, ◌∷◌, ℕ, [], Some, None, cond, length, not, IsErr, OnOk, OnErr, slice_index_or, slice_set};
ghost use Rattle.std.specs.List.{filter};
ghost use Rattle.definitions.specs.Owners.{Owner as SaidOwner};
ghost use Rattle.owner_ids.specs.Names.{names_of_owners, is_owned_by};
ghost use Rattle.range_table.specs.Settings.{Held, IsRefused, IsUsed, mode_at, is_by};
ghost use Rattle.held_locks.specs.Asked.{new_setting_by_number};
ghost use Rattle.owner_ids.specs.Views.{view_of_owner};
ghost use Rattle.held_locks.specs.Tied.{AreCounts, IsCountedAnew, WereCounted};

use crate::asked::NewSetting;
use crate::host_runs::HostRuns;
use owner_ids::{Host, HostOf, Owner, OwnerId, Owners, Starved};
use range_table::{FileId, NoRuns, RangeTable};

/// Room for the count of a number. The counts stay.
pub(crate) fn make_place(counts: &mut Vec<u32>, number: OwnerId) -> Result<(), Starved>
    ensures place { OnOk result (number < length counts.new.items) }
    ensures more { length counts.old.items ≤ length counts.new.items }
    ensures err { OnErr result (length counts.old.items ≤ number) }
    ensures few { length counts.old.items ≤ 4294967296 → length counts.new.items ≤ 4294967296 }
    ensures counts { (n : ℕ) → slice_index_or counts.new.items n 0 ≡ slice_index_or counts.old.items n 0 }
{
    let len = number as usize + 1;
    if counts.len() < len {
        counts.resize(len, 0)?;
    }
    Ok(())
}

// The runs of a number, which alone has changed, where there were and are so many in all.
fn recount(counts: &mut Vec<u32>, number: OwnerId, before: u32, after: u32)
    requires place { number < length counts.old.items }
    requires part { slice_index_or counts.old.items number 0 ≤ before }
    requires rest { before - slice_index_or counts.old.items number 0 ≤ after }
    ensures { counts.new.items ≡ slice_set counts.old.items number (after - (before - slice_index_or counts.old.items number 0)) }
{
    let others = before - counts[number as usize];
    counts[number as usize] = after - others;
}

// Counts the runs of an owner who alone has changed, and its host's, where there were so many in all.
fn count_anew<R: RangeTable>(
    table: &R,
    counts: &mut Vec<u32>,
    hosts: &mut HostRuns,
    number: OwnerId,
    owner: &Owner,
    before: u32,
)
    requires place { number < length counts.old.items }
    requires counted { WereCounted number counts.old.items before (R.settings table.now) }
    ensures counted { AreCounts (R.settings table.now) counts.new.items }
    ensures places { length counts.new.items ≡ length counts.old.items }
    ensures hosts { (held : Held) → IsUsed held before → IsCountedAnew (view_of_owner owner.now) held (mode_at (R.settings table.now)) hosts.old hosts.new }
{
    let after = table.used();
    recount(counts, number, before, after);
    hosts.recount(owner, before, after);
}

/// Sets what a number holds, and counts its runs and its host's. Refused, nothing has changed.
pub(crate) fn set<R: RangeTable>(
    table: &mut R,
    counts: &mut Vec<u32>,
    hosts: &mut HostRuns,
    number: OwnerId,
    setting: &NewSetting<'_>,
) -> Result<(), NoRuns>
    requires place { number < length counts.old.items }
    requires counted { AreCounts (R.settings table.old) counts.old.items }
    ensures refused { IsErr result ↔ IsRefused (mode_at (R.settings table.old)) (new_setting_by_number number setting.now) }
    ensures ok { OnOk result (R.settings table.new ≡ R.settings table.old ++ new_setting_by_number number setting.now ∷ []) }
    ensures err { OnErr result (R.settings table.new ≡ R.settings table.old) }
    ensures counted { AreCounts (R.settings table.new) counts.new.items }
    ensures places { length counts.new.items ≡ length counts.old.items }
    ensures hosts { OnOk result (IsCountedAnew (view_of_owner setting.now.owner.now) (mode_at (R.settings table.old)) (mode_at (R.settings table.new)) hosts.old hosts.new) }
    ensures hosts_stay { OnErr result (hosts.new ≡ hosts.old) }
{
    let before = table.used();
    table.set(
        &setting.file,
        number,
        setting.range.first,
        setting.range.last,
        setting.mode,
    )?;
    count_anew(table, counts, hosts, number, setting.owner, before);
    Ok(())
}

/// Takes what an owner of this number holds of a file out, and counts its runs and its host's.
pub(crate) fn drop_owner_on_file<R: RangeTable>(
    table: &mut R,
    counts: &mut Vec<u32>,
    hosts: &mut HostRuns,
    file: &FileId,
    owner: &Owner,
    number: OwnerId,
)
    requires place { number < length counts.old.items }
    requires counted { AreCounts (R.settings table.old) counts.old.items }
    ensures settings { R.settings table.new ≡ filter (λ s. not (is_by file.now number s)) (R.settings table.old) }
    ensures counted { AreCounts (R.settings table.new) counts.new.items }
    ensures places { length counts.new.items ≡ length counts.old.items }
    ensures hosts { IsCountedAnew (view_of_owner owner.now) (mode_at (R.settings table.old)) (mode_at (R.settings table.new)) hosts.old hosts.new }
{
    let before = table.used();
    table.drop_owner_on_file(file, number);
    count_anew(table, counts, hosts, number, owner, before);
}

/// The numbers of some owners have no runs from now on.
pub(crate) fn clear_host<H: Host>(counts: &mut Vec<u32>, host: &H)
    requires { length counts.old.items ≤ 4294967296 }
    ensures counts { (n : ℕ) → slice_index_or counts.new.items n 0 ≡ cond (H.has host.now n) 0 (slice_index_or counts.old.items n 0) }
    ensures places { length counts.new.items ≡ length counts.old.items }
{
    for number in 0..counts.len() {
        if host.has(number as OwnerId) {
            counts[number] = 0;
        }
    }
}

/// Takes the numbers of a host's owners out of use.
pub(crate) fn release_host(owners: &mut Owners, most: usize, name: &[u8])
    requires few { most ≤ 4294967296 }
    requires within { (n : ℕ) (x : SaidOwner) → names_of_owners owners.old n ≡ Some x → n < most }
    ensures { (n : ℕ) → names_of_owners owners.new n ≡ cond (is_owned_by (names_of_owners owners.old) name.now n) None (names_of_owners owners.old n) }
{
    for number in 0..most {
        let number = number as OwnerId;
        if (HostOf { owners, name }).has(number) {
            owners.release(number);
        }
    }
}
