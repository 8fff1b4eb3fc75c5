//! What is sent, behind the header of its call or reply.

ghost use Rattle.std.specs.Prelude.{◌≡◌, ◌+◌, ◌≤◌, ◌++◌, ◌↔◌, length, IsOk, OnOk, OnErr, ◌==◌};
ghost use Rattle.nlm4_types.specs.Version.{view_of_version};
ghost use Rattle.nlm4_types.specs.Lock.{view_of_lock};
ghost use Rattle.nlm4_types.specs.Share.{view_of_shareres, shareres};
ghost use Rattle.nlm4_types.specs.Results.{view_of_res, view_of_testres, res};
ghost use Rattle.nlm4_types.specs.Messages.{args_bytes, bytes_of_grant, testres_bytes, procedure_of, message_bytes, SpellsArgs, SpellsGrant, SpellsTestRes, SpellsMessage};

use crate::arguments::TestArgs;
use crate::lock::{Lock, Netobj};
use crate::offset::{NARROW, WIDE};
use crate::results::{Res, TestRes};
use crate::shares::ShareRes;
use crate::version::Version;
use xdr_core::{Frame, FrameFull, Opaque, Wire};

impl<'r> Res<'r> {
    /// Writes the result. It fits behind a header of 64 bytes.
    #[tactic(auto, using(crate::proofs::Fits::res_fits))]
    pub fn put_result(&self, f: &mut Frame) -> Result<(), FrameFull>
        ensures fits { length f.old ≤ 64 → IsOk result }
        ensures room { IsOk result ↔ (length f.old + length (res.written (view_of_res self.now)) ≤ 4096) }
        ensures ok { OnOk result (f.new ≡ f.old ++ res.written (view_of_res self.now)) }
        ensures err { OnErr result (f.new ≡ f.old) }
        ensures spelled { OnOk result (res.Spells (res.written (view_of_res self.now)) (view_of_res self.now)) }
    {
        self.put(f)
    }
}

impl<'r> ShareRes<'r> {
    /// Writes the result. It fits behind a header of 64 bytes.
    #[tactic(auto, using(crate::proofs::Fits::shareres_fits))]
    pub fn put_result(&self, f: &mut Frame) -> Result<(), FrameFull>
        ensures fits { length f.old ≤ 64 → IsOk result }
        ensures room { IsOk result ↔ (length f.old + length (shareres.written (view_of_shareres self.now)) ≤ 4096) }
        ensures ok { OnOk result (f.new ≡ f.old ++ shareres.written (view_of_shareres self.now)) }
        ensures err { OnErr result (f.new ≡ f.old) }
        ensures spelled { OnOk result (shareres.Spells (shareres.written (view_of_shareres self.now)) (view_of_shareres self.now)) }
    {
        self.put(f)
    }
}

impl<'r> TestRes<'r, WIDE> {
    /// Writes the result in the version. An offset or a length of versions 1 and 3 that passes 4 bytes, which no holder
    /// that they show has, is written as the greatest of 4 bytes. It fits behind a header of 64 bytes.
    #[tactic(auto, using(crate::proofs::Fits::testres_fits))]
    pub fn put_in(&self, version: Version, f: &mut Frame) -> Result<(), FrameFull>
        ensures fits { length f.old ≤ 64 → IsOk result }
        ensures room { IsOk result ↔ (length f.old + length (testres_bytes (view_of_version version) (view_of_testres self.now)) ≤ 4096) }
        ensures ok { OnOk result (f.new ≡ f.old ++ testres_bytes (view_of_version version) (view_of_testres self.now)) }
        ensures err { OnErr result (f.new ≡ f.old) }
        ensures spelled { OnOk result (SpellsTestRes (view_of_version version) (testres_bytes (view_of_version version) (view_of_testres self.now)) (view_of_testres self.now)) }
    {
        match version {
            Version::V4 => self.with_offsets::<WIDE>().put(f),
            Version::V1 | Version::V3 => self.with_offsets::<NARROW>().put(f),
        }
    }
}

/// A lock that is granted to a waiter (nlm4_testargs of GRANTED and GRANTED_MSG).
#[derive(Clone, Copy)]
pub struct GrantedArgs<'r> {
    /// The number of the call, whose 8 bytes are the cookie.
    pub number: u64,
    pub exclusive: bool,
    pub alock: Lock<'r, WIDE>,
}

impl<'r> GrantedArgs<'r> {
    /// Writes the arguments in the version. An offset or a length of versions 1 and 3 that passes 4 bytes, which no call
    /// of these versions asks for, is written as the greatest of 4 bytes. It fits behind a header of 64 bytes.
    #[tactic(auto, using(crate::proofs::Fits::grant_fits, crate::proofs::Eight::eight_bytes_written))]
    pub fn put_in(&self, version: Version, f: &mut Frame) -> Result<(), FrameFull>
        ensures fits { length f.old ≤ 64 → IsOk result }
        ensures room { IsOk result ↔ (length f.old + length (bytes_of_grant (view_of_version version) self.now) ≤ 4096) }
        ensures ok { OnOk result (f.new ≡ f.old ++ bytes_of_grant (view_of_version version) self.now) }
        ensures err { OnErr result (f.new ≡ f.old) }
        ensures spelled { OnOk result (SpellsGrant (view_of_version version) (bytes_of_grant (view_of_version version) self.now) self.now) }
    {
        let number = self.number.to_be_bytes();
        let cookie = Opaque { bytes: &number };
        match version {
            Version::V4 => put_args(cookie, self.exclusive, self.alock, f),
            Version::V1 | Version::V3 => {
                let alock = self.alock.with_offsets::<NARROW>();
                put_args(cookie, self.exclusive, alock, f)
            }
        }
    }
}

/// A call that the server makes of a client's lock manager.
#[derive(Clone, Copy)]
pub enum NlmMessage<'r> {
    Granted(GrantedArgs<'r>),
    GrantedMsg(GrantedArgs<'r>),
    TestRes(TestRes<'r, WIDE>),
    LockRes(Res<'r>),
    CancelRes(Res<'r>),
    UnlockRes(Res<'r>),
}

impl<'r> NlmMessage<'r> {
    /// The number of its procedure, in each version.
    pub fn procedure(&self) -> u32
        ensures { result ≡ procedure_of self.now }
    {
        match self {
            NlmMessage::Granted(_) => 5,
            NlmMessage::GrantedMsg(_) => 10,
            NlmMessage::TestRes(_) => 11,
            NlmMessage::LockRes(_) => 12,
            NlmMessage::CancelRes(_) => 13,
            NlmMessage::UnlockRes(_) => 14,
        }
    }

    /// Writes its arguments in the version. They fit behind a header of 64 bytes.
    pub fn put_in(&self, version: Version, f: &mut Frame) -> Result<(), FrameFull>
        ensures fits { length f.old ≤ 64 → IsOk result }
        ensures room { IsOk result ↔ (length f.old + length (message_bytes (view_of_version version) self.now) ≤ 4096) }
        ensures ok { OnOk result (f.new ≡ f.old ++ message_bytes (view_of_version version) self.now) }
        ensures err { OnErr result (f.new ≡ f.old) }
        ensures spelled { OnOk result (SpellsMessage (view_of_version version) (message_bytes (view_of_version version) self.now) self.now) }
    {
        match self {
            NlmMessage::Granted(grant) | NlmMessage::GrantedMsg(grant) => grant.put_in(version, f),
            NlmMessage::TestRes(answer) => answer.put_in(version, f),
            NlmMessage::LockRes(answer)
            | NlmMessage::CancelRes(answer)
            | NlmMessage::UnlockRes(answer) => answer.put_result(f),
        }
    }
}

fn put_args<'r, const BYTES: u32>(
    cookie: Netobj<'r>,
    exclusive: bool,
    alock: Lock<'r, BYTES>,
    f: &mut Frame,
) -> Result<(), FrameFull>
    ensures room { IsOk result ↔ (length f.old + length (args_bytes (BYTES == 8) cookie.entry.bytes.now exclusive (view_of_lock alock.entry)) ≤ 4096) }
    ensures ok { OnOk result (f.new ≡ f.old ++ args_bytes (BYTES == 8) cookie.entry.bytes.now exclusive (view_of_lock alock.entry)) }
    ensures err { OnErr result (f.new ≡ f.old) }
    ensures spelled { OnOk result (SpellsArgs (BYTES == 8) (args_bytes (BYTES == 8) cookie.entry.bytes.now exclusive (view_of_lock alock.entry)) cookie.entry.bytes.now exclusive (view_of_lock alock.entry)) }
{
    TestArgs {
        cookie,
        exclusive,
        alock,
    }
    .put(f)
}
