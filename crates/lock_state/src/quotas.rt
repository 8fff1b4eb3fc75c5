//! What the quotas of hosts hold back.
ghost use Rattle.std.specs.Prelude.{◌≡◌, ◌||◌, false};
ghost use Rattle.definitions.specs.Quotas.{quotas_of, exceeds, is_refused, lacks_room};
ghost use Rattle.definitions.specs.Starts.{is_short, refuses};
ghost use Rattle.owner_ids.specs.Views.{view_of_owner};
ghost use Rattle.blocked_list.specs.Quotas.{is_limited};
ghost use Rattle.held_locks.specs.Asked.{view_of_request, view_of_new_setting};

use blocked_list::laws::unlimited_exceeds_nothing;
use blocked_list::{Quotas, limit_of};
use held_locks::{Locks, NewSetting, Request};
use hosts_db::HostStore;
use owner_ids::Owner;
use range_table::RangeTable;

/// The quotas that a store keeps.
#[derive(Clone, Copy)]
pub(crate) struct Stored<'a, S: HostStore> {
    pub(crate) store: &'a S,
}

impl<'a, S: HostStore> Quotas for Stored<'a, S> {
    ghost by_host = { λ stored. quotas_of (S.rows stored.store.now) };

    fn quota(&self, host: &[u8]) -> Option<u32> {
        match self.store.host(host) {
            Some(row) => Some(row.quota()),
            None => None,
        }
    }
}

/// Whether a quota can hold the owner back.
pub(crate) fn is_limited<Q: Quotas>(quotas: &Q, owner: &Owner) -> bool
    ensures { result ≡ is_limited (Q.by_host quotas.now) (view_of_owner owner.now) }
{
    limit_of(quotas, owner).is_some()
}

/// Whether others than those who wait for its bytes may have been held back by what a change of this owner's can free: by
/// want of runs, or by a quota of its host.
pub(crate) fn may_free<R: RangeTable, Q: Quotas>(
    locks: &Locks<R>,
    quotas: &Q,
    owner: &Owner,
) -> bool
    ensures { result ≡ (is_short 65536 locks.now.settings || is_limited (Q.by_host quotas.now) (view_of_owner owner.now)) }
{
    locks.is_short() || is_limited(quotas, owner)
}

/// Whether the setting goes past its owner's host's quota, where enough runs are free for it.
fn is_held_back<R: RangeTable, Q: Quotas>(
    locks: &Locks<R>,
    quotas: &Q,
    setting: &NewSetting<'_>,
) -> bool
    ensures { refuses 65536 locks.now.settings (view_of_new_setting setting.now) ≡ false → result ≡ exceeds (Q.by_host quotas.now) locks.now.settings (view_of_new_setting setting.now) }
{
    unlimited_exceeds_nothing();
    match limit_of(quotas, setting.owner) {
        Some(limit) => locks.is_past(setting, limit.host, limit.quota),
        None => false,
    }
}

/// Whether the setting is refused: for want of runs, or by its owner's host's quota.
pub(crate) fn is_refused<R: RangeTable, Q: Quotas>(
    locks: &Locks<R>,
    quotas: &Q,
    setting: &NewSetting<'_>,
) -> bool
    ensures { result ≡ is_refused 65536 (Q.by_host quotas.now) locks.now.settings (view_of_new_setting setting.now) }
{
    locks.refuses(setting) || is_held_back(locks, quotas, setting)
}

/// Whether a lock finds no room: fewer than 2 runs are free, or it goes past its owner's host's quota.
pub(crate) fn lacks_room<R: RangeTable, Q: Quotas>(
    locks: &Locks<R>,
    quotas: &Q,
    wanted: &Request<'_>,
) -> bool
    ensures { result ≡ lacks_room 65536 (Q.by_host quotas.now) locks.now.settings (view_of_request wanted.now) }
{
    locks.is_short() || is_held_back(locks, quotas, &wanted.setting())
}
