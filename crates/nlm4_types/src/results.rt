ghost use Rattle.std.specs.Prelude.{◌≡◌, ◌==◌, is_some};
ghost use Rattle.definitions.specs.Nlm.{is_denial};
ghost use Rattle.nlm4_types.specs.Offset.{clamped_number};
ghost use Rattle.nlm4_types.specs.Stat.{view_of_stat};

use crate::lock::Netobj;
use crate::offset::Offset;
use crate::stat::Stat;
use xdr_core::{Cursor, Frame, FrameFull, Wire, XdrError, get_record, pairs, put_record};

/// The result of a call about a lock (nlm4_res).
#[derive(Clone, Copy)]
pub struct Res<'r> {
    pub cookie: Netobj<'r>,
    pub stat: Stat,
}

#[tactic(auto, unfolding(crate::specs::Results::res))]
impl<'r> Wire<'r> for Res<'r> {
    ghost use Rattle.definitions.specs.Nlm as nlm;
    ghost use Rattle.nlm4_types.specs.Results.{view_of_res, res};

    ghost Value = { nlm.Res };

    ghost view = { view_of_res };

    ghost codec = { res };

    fn get(c: &mut Cursor<'r>) -> Result<Self, XdrError> {
        get_record!(c, Res, cookie, stat)
    }

    fn put(&self, f: &mut Frame) -> Result<(), FrameFull> {
        put_record!(self, f, cookie, stat)
    }
}

/// Who holds a lock that is in the way (nlm4_holder; nlm_holder where `BYTES` is 4). The length 0 is to the last byte of
/// a file.
#[derive(Clone, Copy)]
pub struct Holder<'r, const BYTES: u32> {
    pub exclusive: bool,
    pub svid: i32,
    pub oh: Netobj<'r>,
    pub l_offset: u64,
    pub l_len: u64,
    pub ghost offset_within: { clamped_number (BYTES == 8) l_offset ≡ l_offset },
    pub ghost len_within: { clamped_number (BYTES == 8) l_len ≡ l_len },
}

#[tactic(auto, unfolding(crate::specs::Results::holder))]
impl<'r, const BYTES: u32> Wire<'r> for Holder<'r, BYTES> {
    ghost use Rattle.definitions.specs.Nlm as nlm;
    ghost use Rattle.nlm4_types.specs.Results.{view_of_holder, holder};

    ghost Value = { nlm.Holder };

    ghost view = { view_of_holder };

    ghost codec = { holder (BYTES == 8) };

    fn get(c: &mut Cursor<'r>) -> Result<Self, XdrError> {
        let pairs!(exclusive, svid, oh, offset, len) = Wire::get(c)?;
        let offset: Offset<BYTES> = offset;
        let len: Offset<BYTES> = len;
        Ok(Holder {
            exclusive,
            svid,
            oh,
            l_offset: offset.number,
            l_len: len.number,
        })
    }

    fn put(&self, f: &mut Frame) -> Result<(), FrameFull> {
        let Holder {
            exclusive,
            svid,
            oh,
            l_offset,
            l_len,
        } = *self;
        let offset = Offset::<BYTES> { number: l_offset };
        let len = Offset::<BYTES> { number: l_len };
        pairs!(exclusive, svid, oh, offset, len).put(f)
    }
}

/// The result of TEST (nlm4_testres): a holder exactly where the status is that the lock is denied.
#[derive(Clone, Copy)]
pub struct TestRes<'r, const BYTES: u32> {
    pub cookie: Netobj<'r>,
    pub stat: Stat,
    pub holder: Option<Holder<'r, BYTES>>,
    pub ghost held: { is_some holder ≡ is_denial (view_of_stat stat) },
}

#[tactic(auto, unfolding(crate::specs::Results::testres, xdr_core::specs::Formats::tagged, xdr_core::specs::Formats::both))]
impl<'r, const BYTES: u32> Wire<'r> for TestRes<'r, BYTES> {
    ghost use Rattle.definitions.specs.Nlm as nlm;
    ghost use Rattle.nlm4_types.specs.Results.{view_of_testres, testres};

    ghost Value = { nlm.TestRes };

    ghost view = { view_of_testres };

    ghost codec = { testres (BYTES == 8) };

    fn get(c: &mut Cursor<'r>) -> Result<Self, XdrError> {
        let mut at = c.fork();
        let (cookie, stat) = Wire::get(&mut at)?;
        let holder = if matches!(stat, Stat::Denied) {
            Some(Holder::get(&mut at)?)
        } else {
            None
        };
        *c = at;
        Ok(TestRes {
            cookie,
            stat,
            holder,
        })
    }

    fn put(&self, f: &mut Frame) -> Result<(), FrameFull> {
        match self.holder {
            Some(holder) => ((self.cookie, self.stat), holder).put(f),
            None => (self.cookie, self.stat).put(f),
        }
    }
}

impl<'r, const BYTES: u32> Holder<'r, BYTES> {
    ghost use Rattle.nlm4_types.specs.Results.{view_of_holder, clamped_holder};

    /// The holder with offsets of so many bytes. With 8 it is the same holder; with 4 an offset or a length past 4 bytes
    /// is the greatest number of 4 bytes.
    pub(crate) fn with_offsets<const TO: u32>(self) -> Holder<'r, TO>
        ensures { view_of_holder result ≡ clamped_holder (TO == 8) (view_of_holder self.entry) }
    {
        Holder {
            exclusive: self.exclusive,
            svid: self.svid,
            oh: self.oh,
            l_offset: Offset::<TO>::new(self.l_offset).number,
            l_len: Offset::<TO>::new(self.l_len).number,
        }
    }
}

impl<'r, const BYTES: u32> TestRes<'r, BYTES> {
    ghost use Rattle.nlm4_types.specs.Results.{view_of_testres, clamped_testres};

    /// The result with such a holder.
    pub(crate) fn with_offsets<const TO: u32>(self) -> TestRes<'r, TO>
        ensures { view_of_testres result ≡ clamped_testres (TO == 8) (view_of_testres self.entry) }
    {
        let holder = match self.holder {
            Some(holder) => Some(holder.with_offsets()),
            None => None,
        };
        TestRes {
            cookie: self.cookie,
            stat: self.stat,
            holder,
        }
    }
}
