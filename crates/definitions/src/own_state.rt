//! The rule of the own state as code, beside its definition.
ghost use Rattle.std.specs.Prelude.{◌≡◌};
ghost use Rattle.definitions.specs.Hosts.{next_own};

/// The own state that a restart gives, where `own` is stored (XNFS, NSM): the least odd number above it,
/// so odd says that the daemon is up. After 2^31 - 1, the greatest that a call can carry, comes 1.
pub fn next_own_state(own: u32) -> u32
    ensures { result ≡ next_own own }
{
    if own >= 0x7fff_ffff {
        1
    } else {
        own + 1 + own % 2
    }
}
