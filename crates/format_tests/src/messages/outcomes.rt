//! What calls come to, and the replies that tell it (RFC 5531, section 9).
ghost use Rattle.std.specs.Prelude.{◌≤◌, length};

use super::memory::Memory;
use crate::words::is_words;
use call_codec::{CallResult, Outcome, OwnedShareRes, Refusal};
use callbacks::OwnedHolder;
use nlm4_types::{Stat, Version};
use nsm_types::{MonitorRes, SmStat, SmStatRes};
use std::process::Abort;
use xdr_core::Frame;

/// Whether the reply in an empty frame is these words.
fn tells(told: CallResult, xid: u32, text: &str) -> bool {
    reply_is(Outcome::Success(told), xid, text)
}

fn reply_is(outcome: Outcome, xid: u32, text: &str) -> bool {
    let mut f = Frame::new();
    outcome.put_reply(xid, &mut f).is_ok() && is_words(&f, text)
}

impl<R: Abort> Memory<'_, R> {
    /// A status with a cookie of the 4 bytes of an xid.
    fn stat(&self, xid: u32, stat: Stat) -> CallResult {
        CallResult::Res(self.res(xid, stat))
    }

    fn tested(&self, version: Version, holder: Option<OwnedHolder>) -> CallResult {
        CallResult::TestRes(version, self.test_res(holder))
    }

    // A denial whose cookie and owner have 1,024 bytes each.
    fn longest(&self) -> CallResult {
        let mut holder = self.holder(0, 0);
        holder.oh = self.short(&[2; 1024]);
        let mut res = self.test_res(Some(holder));
        res.cookie = self.short(&[1; 1024]);
        CallResult::TestRes(Version::V4, res)
    }

    fn shared(&self) -> CallResult {
        CallResult::ShareRes(OwnedShareRes {
            cookie: self.short(&[0, 0, 0, 61]),
            stat: Stat::Granted,
            sequence: 0,
        })
    }
}

#[test]
fn results_of_locks(rt: HostRuntime) {
    let memory = Memory::new(&rt, rt.alloc());
    assert!(rt; tells(CallResult::Nothing, 1, "1 1 0 0 0 0"));
    assert!(rt; tells(memory.stat(2, Stat::Granted), 2, "2 1 0 0 0 0 4 2 0"));
    assert!(rt; tells(memory.stat(5, Stat::Fbig), 5, "5 1 0 0 0 0 4 5 8"));
}

const DENIED: &str = "3 1 0 0 0 0 4 3 1 1 7 1 41000000 0 0 0 a";

// In version 3 offsets and lengths have 4 bytes.
const DENIED_IN_VERSION_3: &str = "3 1 0 0 0 0 4 3 1 1 7 1 41000000 ffffffff 0";

#[test]
fn results_of_tests(rt: HostRuntime) {
    let memory = Memory::new(&rt, rt.alloc());
    let denied = memory.tested(Version::V4, Some(memory.holder(0, 10)));
    assert!(rt; tells(denied, 3, DENIED));
    let narrow = memory.tested(Version::V3, Some(memory.holder(0xffff_ffff, 0)));
    assert!(rt; tells(narrow, 3, DENIED_IN_VERSION_3));
    assert!(rt; tells(memory.tested(Version::V4, None), 3, "3 1 0 0 0 0 4 3 0"));
}

#[test]
fn results_of_shares_and_hosts(rt: HostRuntime) {
    let memory = Memory::new(&rt, rt.alloc());
    assert!(rt; tells(memory.shared(), 61, "3d 1 0 0 0 0 4 3d 0 0"));
    let watched = CallResult::Monitor(SmStatRes {
        res: MonitorRes::Succ,
        state: 1,
    });
    assert!(rt; tells(watched, 12, "c 1 0 0 0 0 0 1"));
    assert!(rt; tells(CallResult::State(SmStat { state: 3 }), 12, "c 1 0 0 0 0 3"));
}

const REFUSALS: &[(Refusal, &str)] = &[
    (Refusal::RpcMismatch, "1 1 1 0 2 2"),
    (Refusal::BadCredential, "1 1 1 1 1"),
    (Refusal::ProgUnavail, "1 1 0 0 0 1"),
    (Refusal::ProgMismatch { low: 1, high: 4 }, "1 1 0 0 0 2 1 4"),
    (Refusal::ProcUnavail, "1 1 0 0 0 3"),
    (Refusal::GarbageArgs, "1 1 0 0 0 4"),
];

#[test]
fn refusals(rt: HostRuntime) -> Result<(), &'static str> {
    assert!(rt; reply_is(Outcome::SystemErr, 1, "1 1 0 0 0 5"));
    for (refusal, text) in REFUSALS {
        if !reply_is(Outcome::Refuses(*refusal), 1, text) {
            return Err(*text);
        }
    }
    Ok(())
}

/// Whether the reply to the call 2 fits behind so many bytes, and how many there are then.
fn fits_behind(told: CallResult, count: usize) -> (bool, usize) {
    let mut f = Frame::new();
    for _ in 0..count {
        let _ = f.append(&[7]);
    }
    let fits = Outcome::Success(told).put_reply(2, &mut f).is_ok();
    (fits, f.len())
}

#[test]
fn a_reply_is_whole_or_absent(rt: HostRuntime) {
    let memory = Memory::new(&rt, rt.alloc());
    // It has 36 bytes: they fit behind 4,060 bytes. Behind 4,064 its header does, and its result doesn't.
    assert!(rt; fits_behind(memory.stat(2, Stat::Granted), 4060) == (true, 4096));
    assert!(rt; fits_behind(memory.stat(2, Stat::Granted), 4064) == (false, 4064));
    let whole = 24 + 1028 + 4 + 8 + 1028 + 16;
    assert!(rt; fits_behind(memory.longest(), 0) == (true, whole));
}
