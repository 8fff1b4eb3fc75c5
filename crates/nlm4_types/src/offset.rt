//! Offsets and lengths: 8 bytes in version 4, 4 bytes in versions 1 and 3.

ghost use Rattle.std.specs.Prelude.{◌≡◌, ◌==◌};
ghost use Rattle.nlm4_types.specs.Offset.{clamped_number};

use xdr_core::{Cursor, Frame, FrameFull, Wire, XdrError};

/// The bytes of an offset in version 4.
pub const WIDE: u32 = 8;

/// The bytes of an offset in versions 1 and 3.
pub const NARROW: u32 = 4;

/// An offset or a length that has a spelling of so many bytes.
#[derive(Clone, Copy)]
pub(crate) struct Offset<const BYTES: u32> {
    pub number: u64,
    pub ghost within: { clamped_number (BYTES == 8) number ≡ number },
}

impl<const BYTES: u32> Offset<BYTES> {
    ghost use Rattle.nlm4_types.specs.Offset.{clamped_number};

    /// The number, or the greatest one that has a spelling.
    pub(crate) fn new(number: u64) -> Self
        ensures { result.number ≡ clamped_number (BYTES == 8) number }
    {
        let number = if BYTES == WIDE {
            number
        } else {
            number.min(u32::MAX as u64)
        };
        Offset { number }
    }
}

#[tactic(auto, unfolding(crate::specs::Offset::offset))]
impl<'r, const BYTES: u32> Wire<'r> for Offset<BYTES> {
    ghost use Rattle.std.specs.Prelude.{ℕ};
    ghost use Rattle.nlm4_types.specs.Offset.{offset};

    ghost Value = { ℕ };

    ghost view = { λ v. v.number };

    ghost codec = { offset (BYTES == 8) };

    fn get(c: &mut Cursor<'r>) -> Result<Self, XdrError> {
        if BYTES == WIDE {
            let number = u64::get(c)?;
            Ok(Offset { number })
        } else {
            let number = u32::get(c)? as u64;
            Ok(Offset { number })
        }
    }

    fn put(&self, f: &mut Frame) -> Result<(), FrameFull> {
        if BYTES == WIDE {
            self.number.put(f)
        } else {
            (self.number as u32).put(f)
        }
    }
}
