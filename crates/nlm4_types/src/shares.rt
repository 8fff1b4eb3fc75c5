ghost use Rattle.std.specs.Prelude.{◌≡◌};

use crate::access::{Access, DenyMode};
use crate::lock::{Name, Netobj};
use crate::stat::Stat;
use xdr_core::{Cursor, Frame, FrameFull, Wire, XdrError, get_record, put_record};

/// The arguments of SHARE and UNSHARE (nlm4_shareargs).
#[derive(Clone, Copy)]
pub struct ShareArgs<'r> {
    pub cookie: Netobj<'r>,
    pub caller_name: Name<'r>,
    pub fh: Netobj<'r>,
    pub oh: Netobj<'r>,
    /// What the share denies the others.
    pub mode: DenyMode,
    /// What its owner does.
    pub access: Access,
    pub reclaim: bool,
}

#[tactic(auto, unfolding(crate::specs::Share::shareargs))]
impl<'r> Wire<'r> for ShareArgs<'r> {
    ghost use Rattle.definitions.specs.Nlm as nlm;
    ghost use Rattle.nlm4_types.specs.Share.{view_of_shareargs, shareargs};

    ghost Value = { nlm.ShareArgs };

    ghost view = { view_of_shareargs };

    ghost codec = { shareargs };

    fn get(c: &mut Cursor<'r>) -> Result<Self, XdrError> {
        get_record!(
            c,
            ShareArgs,
            cookie,
            caller_name,
            fh,
            oh,
            mode,
            access,
            reclaim
        )
    }

    fn put(&self, f: &mut Frame) -> Result<(), FrameFull> {
        put_record!(self, f, cookie, caller_name, fh, oh, mode, access, reclaim)
    }
}

/// The result of SHARE and UNSHARE (nlm4_shareres).
#[derive(Clone, Copy)]
pub struct ShareRes<'r> {
    pub cookie: Netobj<'r>,
    pub stat: Stat,
    pub sequence: i32,
}

#[tactic(auto, unfolding(crate::specs::Share::shareres))]
impl<'r> Wire<'r> for ShareRes<'r> {
    ghost use Rattle.definitions.specs.Nlm as nlm;
    ghost use Rattle.nlm4_types.specs.Share.{view_of_shareres, shareres};

    ghost Value = { nlm.ShareRes };

    ghost view = { view_of_shareres };

    ghost codec = { shareres };

    fn get(c: &mut Cursor<'r>) -> Result<Self, XdrError> {
        get_record!(c, ShareRes, cookie, stat, sequence)
    }

    fn put(&self, f: &mut Frame) -> Result<(), FrameFull> {
        put_record!(self, f, cookie, stat, sequence)
    }
}
