//! What is sent, behind the header of its call or reply.

ghost use Rattle.std.specs.Prelude.{◌≡◌, ◌+◌, ◌≤◌, ◌++◌, ◌↔◌, length, IsOk, OnOk, OnErr};
ghost use Rattle.nsm_types.specs.Messages.{message_bytes, result_bytes, SpellsMessage, SpellsResult};

use crate::arguments::{StatChge, Status};
use crate::results::{SmStat, SmStatRes};
use xdr_core::{Frame, FrameFull, Wire};

/// A call that the monitor makes: SM_NOTIFY to each host after a restart, and `status` to a watcher.
#[derive(Clone, Copy)]
pub enum NsmMessage<'r> {
    Notify(StatChge<'r>),
    Status(Status<'r>),
}

impl<'r> NsmMessage<'r> {
    /// Writes its arguments. They fit behind a header of 64 bytes.
    #[tactic(auto, using(crate::proofs::Fits::stat_chge_fits, crate::proofs::Fits::status_fits))]
    pub fn put(&self, f: &mut Frame) -> Result<(), FrameFull>
        ensures fits { length f.old ≤ 64 → IsOk result }
        ensures room { IsOk result ↔ (length f.old + length (message_bytes self.now) ≤ 4096) }
        ensures ok { OnOk result (f.new ≡ f.old ++ message_bytes self.now) }
        ensures err { OnErr result (f.new ≡ f.old) }
        ensures spelled { OnOk result (SpellsMessage (message_bytes self.now) self.now) }
    {
        match self {
            NsmMessage::Notify(notice) => notice.put(f),
            NsmMessage::Status(status) => status.put(f),
        }
    }
}

/// What follows the header of a reply: nothing for SM_NULL, SM_SIMU_CRASH and SM_NOTIFY.
#[derive(Clone, Copy)]
pub enum NsmResult {
    Nothing,
    StatRes(SmStatRes),
    Stat(SmStat),
}

impl NsmResult {
    /// Writes the result. It fits behind a header of 64 bytes.
    #[tactic(auto, using(crate::proofs::Fits::sm_stat_res_fits, crate::proofs::Fits::sm_stat_fits))]
    pub fn put(&self, f: &mut Frame) -> Result<(), FrameFull>
        ensures fits { length f.old ≤ 64 → IsOk result }
        ensures room { IsOk result ↔ (length f.old + length (result_bytes self.now) ≤ 4096) }
        ensures ok { OnOk result (f.new ≡ f.old ++ result_bytes self.now) }
        ensures err { OnErr result (f.new ≡ f.old) }
        ensures spelled { OnOk result (SpellsResult (result_bytes self.now) self.now) }
    {
        match self {
            NsmResult::Nothing => f.append(&[]),
            NsmResult::StatRes(answer) => answer.put(f),
            NsmResult::Stat(answer) => answer.put(f),
        }
    }
}
