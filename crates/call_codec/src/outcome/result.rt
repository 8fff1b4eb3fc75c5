//! The results of procedures.
ghost use Rattle.std.specs.Prelude.{◌≡◌, ◌+◌, ◌≤◌, ◌++◌, ◌↔◌, length, IsOk, OnOk, OnErr};
ghost use Rattle.nlm4_types.specs.Share.{view_of_shareres};
ghost use Rattle.call_codec.specs.OutcomeValues.{view_of_result, view_of_told_share_res};
ghost use Rattle.call_codec.specs.Replies.{result_bytes};

use callbacks::{OwnedRes, OwnedTestRes, ShortBytes};
use nlm4_types::{Stat, Version};
use nsm_types::{NsmResult, SmStat, SmStatRes};
use xdr_core::{Frame, FrameFull};

/// The result of SHARE and UNSHARE (RFC 1813, appendix II, nlm4_shareres).
#[derive(Drop)]
pub struct OwnedShareRes {
    pub cookie: ShortBytes,
    pub stat: Stat,
    pub sequence: i32,
}

/// What follows the header of a reply that says SUCCESS (RFC 1813, appendix II; XNFS).
#[derive(Drop)]
pub enum CallResult {
    /// Of a procedure that returns nothing: NULL, the message forms, GRANTED_RES, FREE_ALL, SM_NULL, SM_SIMU_CRASH and
    /// SM_NOTIFY.
    Nothing,
    /// Of LOCK, NM_LOCK, CANCEL and UNLOCK.
    Res(OwnedRes),
    /// Of TEST. It is spelled as the version of its call shows it.
    TestRes(Version, OwnedTestRes),
    /// Of SHARE and UNSHARE.
    ShareRes(OwnedShareRes),
    /// Of SM_STAT and SM_MON.
    Monitor(SmStatRes),
    /// Of SM_UNMON and SM_UNMON_ALL.
    State(SmStat),
}

impl CallResult {
    /// Writes the result (RFC 4506). It fits behind a header of 64 bytes.
    pub(crate) fn put(&self, f: &mut Frame) -> Result<(), FrameFull>
        ensures fits { length f.old ≤ 64 → IsOk result }
        ensures room { IsOk result ↔ (length f.old + length (result_bytes (view_of_result self.now)) ≤ 4096) }
        ensures ok { OnOk result (f.new ≡ f.old ++ result_bytes (view_of_result self.now)) }
        ensures err { OnErr result (f.new ≡ f.old) }
    {
        match self {
            CallResult::Nothing => f.append(&[]),
            CallResult::Res(res) => res.lent().put_result(f),
            CallResult::TestRes(version, res) => res.lent().put_in(*version, f),
            CallResult::ShareRes(res) => lent_share_res(res).put_result(f),
            CallResult::Monitor(res) => NsmResult::StatRes(*res).put(f),
            CallResult::State(res) => NsmResult::Stat(*res).put(f),
        }
    }
}

fn lent_share_res(res: &OwnedShareRes) -> nlm4_types::ShareRes<'_>
    ensures { view_of_shareres result ≡ view_of_told_share_res res.now }
{
    nlm4_types::ShareRes {
        cookie: res.cookie.lent(),
        stat: res.stat,
        sequence: res.sequence,
    }
}
