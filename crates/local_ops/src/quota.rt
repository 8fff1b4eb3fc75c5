//! A host's quota in a line.
ghost use Rattle.std.specs.Prelude.{◌≤◌};

use crate::host_name::HostName;

/// A host, and how many runs its owners may have, at most 65,536.
#[derive(Drop)]
pub struct Quota {
    pub name: HostName<240>,
    pub runs: u32,
    pub ghost most: { runs ≤ 65536 },
}
