//! Results of calls about a lock.
ghost use Rattle.std.specs.Prelude.{◌≡◌, is_some};
ghost use Rattle.definitions.specs.Nlm.{is_denial};
ghost use Rattle.nlm4_types.specs.Stat.{view_of_stat};

use crate::short::ShortBytes;
use nlm4_types::Stat;

/// The result of LOCK, CANCEL and UNLOCK (RFC 1813, appendix II, nlm4_res).
#[derive(Drop)]
pub struct OwnedRes {
    pub cookie: ShortBytes,
    pub stat: Stat,
}

/// Who holds a lock that is in the way (nlm4_holder). The length 0 is to the last byte.
#[derive(Drop)]
pub struct OwnedHolder {
    pub exclusive: bool,
    pub svid: i32,
    pub oh: ShortBytes,
    pub l_offset: u64,
    pub l_len: u64,
}

/// The result of TEST (nlm4_testres): a holder exactly where the status is that the lock is denied.
#[derive(Drop)]
pub struct OwnedTestRes {
    pub cookie: ShortBytes,
    pub stat: Stat,
    pub holder: Option<OwnedHolder>,
    pub ghost held: { is_some holder ≡ is_denial (view_of_stat stat) },
}
