//! The owners of a host, and one owner alone.
ghost use Rattle.std.specs.Prelude.{◌==◌};
ghost use Rattle.owner_ids.specs.Names.{names_of_owners, is_owned_by};

use crate::order::Host;
use crate::owners::{OwnerId, Owners};

/// The owners in use that a client of the host named.
#[derive(Clone, Copy)]
pub struct HostOf<'a> {
    pub owners: &'a Owners,
    pub name: &'a [u8],
}

impl<'a> Host for HostOf<'a> {
    ghost has = { λ host. is_owned_by (names_of_owners host.owners.now) host.name.now };

    fn has(&self, owner: OwnerId) -> bool {
        match self.owners.find(owner) {
            Some(found) => found.is_of_host(self.name),
            None => false,
        }
    }
}

/// One number, whether it is in use or not. Where a table has no run of it, it may be released.
#[derive(Clone, Copy)]
pub struct OneOwner {
    pub owner: OwnerId,
}

impl Host for OneOwner {
    ghost has = { λ one n. n == one.owner };

    fn has(&self, owner: OwnerId) -> bool {
        owner == self.owner
    }
}
