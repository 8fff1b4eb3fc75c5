ghost use Rattle.std.specs.Prelude.{◌≡◌, ◌==◌};
ghost use Rattle.nlm4_types.specs.Offset.{clamped_number};

use crate::offset::Offset;
use xdr_core::{Cursor, Frame, FrameFull, Opaque, Wire, XdrError, pairs};

/// Opaque bytes of the protocol.
pub type Netobj<'r> = Opaque<'r, 1024>;

/// A name, of any bytes.
pub type Name<'r> = Opaque<'r, 1024>;

/// A lock that is asked for (nlm4_lock; nlm_lock where `BYTES` is 4). The length 0 is to the last byte of a file.
#[derive(Clone, Copy)]
pub struct Lock<'r, const BYTES: u32> {
    pub caller_name: Name<'r>,
    pub fh: Netobj<'r>,
    pub oh: Netobj<'r>,
    pub svid: i32,
    pub l_offset: u64,
    pub l_len: u64,
    pub ghost offset_within: { clamped_number (BYTES == 8) l_offset ≡ l_offset },
    pub ghost len_within: { clamped_number (BYTES == 8) l_len ≡ l_len },
}

#[tactic(auto, unfolding(crate::specs::Lock::lock))]
impl<'r, const BYTES: u32> Wire<'r> for Lock<'r, BYTES> {
    ghost use Rattle.definitions.specs.Nlm as nlm;
    ghost use Rattle.nlm4_types.specs.Lock.{view_of_lock, lock};

    ghost Value = { nlm.Lock };

    ghost view = { view_of_lock };

    ghost codec = { lock (BYTES == 8) };

    fn get(c: &mut Cursor<'r>) -> Result<Self, XdrError> {
        let pairs!(caller_name, fh, oh, svid, offset, len) = Wire::get(c)?;
        let offset: Offset<BYTES> = offset;
        let len: Offset<BYTES> = len;
        Ok(Lock {
            caller_name,
            fh,
            oh,
            svid,
            l_offset: offset.number,
            l_len: len.number,
        })
    }

    fn put(&self, f: &mut Frame) -> Result<(), FrameFull> {
        let Lock {
            caller_name,
            fh,
            oh,
            svid,
            l_offset,
            l_len,
        } = *self;
        let offset = Offset::<BYTES> { number: l_offset };
        let len = Offset::<BYTES> { number: l_len };
        pairs!(caller_name, fh, oh, svid, offset, len).put(f)
    }
}

impl<'r, const BYTES: u32> Lock<'r, BYTES> {
    ghost use Rattle.nlm4_types.specs.Lock.{view_of_lock, clamped_lock};

    /// The lock with offsets of so many bytes. With 8 it is the same lock; with 4 an offset or a length past 4 bytes is
    /// the greatest number of 4 bytes.
    pub fn with_offsets<const TO: u32>(self) -> Lock<'r, TO>
        ensures { view_of_lock result ≡ clamped_lock (TO == 8) (view_of_lock self.entry) }
    {
        Lock {
            caller_name: self.caller_name,
            fh: self.fh,
            oh: self.oh,
            svid: self.svid,
            l_offset: Offset::<TO>::new(self.l_offset).number,
            l_len: Offset::<TO>::new(self.l_len).number,
        }
    }
}
