//! What a version shows of an answer (XNFS, nlm_stats and nlm_holder).

ghost use Rattle.std.specs.Prelude.{◌≡◌, ◌≤◌, ◌<◌, ◌^◌};
ghost use Rattle.definitions.specs.Ranges.{shown_len as len_said};
ghost use Rattle.definitions.specs.Shown.{narrow_stat, shown_stat, narrow_len as narrow_len_said, offset_in, len_in};
ghost use Rattle.nlm4_types.specs.Shown.{ShownIsSpelled};
ghost use Rattle.nlm4_types.specs.Version.{view_of_version};
ghost use Rattle.nlm4_types.specs.Stat.{view_of_stat, number_of_stat};

use crate::stat::Stat;
use crate::version::Version;

/// A file's last byte, 2^63-1.
pub const TOP: u64 = i64::MAX as u64;

/// The greatest offset of 4 bytes.
const NARROW_TOP: u64 = u32::MAX as u64;

impl Stat {
    /// The status as versions 1 and 3 show it: 0 to 4 alone. What they have no word for is a denial.
    pub fn narrowed(self) -> Stat
        ensures value { view_of_stat result ≡ narrow_stat (view_of_stat self) }
        ensures low { number_of_stat (view_of_stat result) ≤ 4 }
    {
        match self {
            Stat::Granted
            | Stat::Denied
            | Stat::DeniedNolocks
            | Stat::Blocked
            | Stat::DeniedGracePeriod => self,
            Stat::Deadlck | Stat::Rofs | Stat::StaleFh | Stat::Fbig | Stat::Failed => Stat::Denied,
        }
    }

    /// The status as the version shows it.
    pub fn shown_in(self, version: Version) -> Stat
        ensures { view_of_stat result ≡ shown_stat (view_of_version version) (view_of_stat self) }
    {
        match version {
            Version::V4 => self,
            Version::V1 | Version::V3 => self.narrowed(),
        }
    }
}

impl Version {
    /// The offset that a holder of a run shows: its first byte, but in versions 1 and 3 2^32-1 at most.
    pub fn offset_shown(self, first: u64) -> u64
        ensures { result ≡ offset_in (view_of_version self) first }
    {
        match self {
            Version::V4 => first,
            Version::V1 | Version::V3 => first.min(NARROW_TOP),
        }
    }

    /// The length that a holder of a run shows: 0 where its last byte is the greatest offset of the version, or lies
    /// behind it.
    pub fn len_shown(self, first: u64, last: u64) -> u64
        requires { last < 2 ^ 63 }
        ensures { result ≡ len_in (view_of_version self) first last }
    {
        match self {
            Version::V4 => shown_len(first, last),
            Version::V1 | Version::V3 => narrow_len(first, last),
        }
    }
}

/// The length of a run as version 4 and local lines show it: 0 where it goes to a file's last byte.
pub fn shown_len(first: u64, last: u64) -> u64
    requires { last < 2 ^ 63 }
    ensures { result ≡ len_said first last }
{
    if last == TOP {
        0
    } else {
        (last + 1).saturating_sub(first)
    }
}

fn narrow_len(first: u64, last: u64) -> u64
    ensures { result ≡ narrow_len_said first last }
{
    if last >= NARROW_TOP {
        0
    } else {
        (last + 1).saturating_sub(first)
    }
}

/// What a version shows of a holder has a spelling in it, so it is written as it is.
#[tactic(auto, using(crate::proofs::Spelled::shown_is_spelled))]
pub fn shown_holder_is_spelled()
    ensures { ShownIsSpelled }
{}
