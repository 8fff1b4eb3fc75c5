ghost use Rattle.std.specs.Prelude.{◌≡◌};
ghost use Rattle.std.specs.Option.{option_map};
ghost use Rattle.nlm4_types.specs.Version.{view_of_version, version_number, numbered_version};

/// The lock manager's program (XNFS; RFC 1813, appendix II).
pub const PROGRAM: u32 = 100_021;

/// A version of the protocol that is served (XNFS; RFC 1813, appendix II).
#[derive(Clone, Copy, PartialEq, Eq)]
pub enum Version {
    V1,
    V3,
    V4,
}

impl Version {
    /// The version that calls number so, if it is served.
    pub fn from_number(number: u32) -> Option<Version>
        ensures { option_map view_of_version result ≡ numbered_version number }
    {
        match number {
            1 => Some(Version::V1),
            3 => Some(Version::V3),
            4 => Some(Version::V4),
            _ => None,
        }
    }

    /// Its number in a call's header.
    pub fn number(self) -> u32
        ensures { result ≡ version_number (view_of_version self) }
    {
        match self {
            Version::V1 => 1,
            Version::V3 => 3,
            Version::V4 => 4,
        }
    }
}
