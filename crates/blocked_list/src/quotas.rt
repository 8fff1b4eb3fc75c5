//! What holds an owner back besides the locks of others: its host's quota of runs.
ghost use Rattle.std.specs.Prelude.{◌≡◌};
ghost use Rattle.owner_ids.specs.Views.{view_of_owner};
ghost use Rattle.blocked_list.specs.Quotas.{IsLimit};

use definitions::quotas::FULL_QUOTA;
use owner_ids::Owner;

/// How many runs the owners of each host may have, on all files together.
pub trait Quotas {
    ghost use Rattle.definitions.specs.Quotas.{Quotas};

    /// The quotas by host; a host may have none.
    ghost by_host: { Self → Quotas };

    /// The quota of the host of this name, where it has one.
    fn quota(&self, host: &[u8]) -> Option<u32>
        ensures { result ≡ by_host self.now host.now };
}

/// A host's quota that can hold its owners back.
#[derive(Clone, Copy)]
pub struct Limit<'a> {
    pub host: &'a [u8],
    pub quota: u32,
}

/// The quota that can hold an owner back: its host's, where there is one and it isn't the full one. Local owners have none.
pub fn limit_of<'a, Q: Quotas>(quotas: &Q, owner: &'a Owner) -> Option<Limit<'a>>
    ensures { IsLimit (Q.by_host quotas.now) (view_of_owner owner.now) result }
{
    let Owner::Remote { name, .. } = owner else {
        return None;
    };
    match quotas.quota(name) {
        Some(quota) if quota < FULL_QUOTA => Some(Limit { host: name, quota }),
        _ => None,
    }
}
