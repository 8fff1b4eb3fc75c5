ghost use Rattle.std.specs.Prelude.{◌≡◌, ◌==◌, ◌++◌, List, ℕ, true, false, Err, IfOk, OnErr, ◌↔◌};
ghost use Rattle.xdr_core.specs.Codec.{Front, Gives};
ghost use Rattle.xdr_core.specs.declared.error.CallError.TheVariants.{Starved, NoSuchProc, GarbageArgs};
ghost use Rattle.definitions.specs.Nlm as nlm;
ghost use Rattle.nlm4_types.specs.Version.{view_of_version, is_wide};
ghost use Rattle.nlm4_types.specs.Call.{view_of_call, is_known_in, call_of, call};

use crate::arguments::{CancelArgs, LockArgs, TestArgs, UnlockArgs};
use crate::notify::Notify;
use crate::offset::{NARROW, WIDE};
use crate::results::Res;
use crate::shares::ShareArgs;
use crate::version::Version;
use xdr_core::{CallError, Cursor, Wire, XdrError};

/// A call of a procedure that the server answers, whatever its version. It borrows from the record.
#[derive(Clone, Copy)]
pub enum NlmCall<'r> {
    Null,
    Test(TestArgs<'r, WIDE>),
    Lock(LockArgs<'r, WIDE>),
    Cancel(CancelArgs<'r, WIDE>),
    Unlock(UnlockArgs<'r, WIDE>),
    TestMsg(TestArgs<'r, WIDE>),
    LockMsg(LockArgs<'r, WIDE>),
    CancelMsg(CancelArgs<'r, WIDE>),
    UnlockMsg(UnlockArgs<'r, WIDE>),
    GrantedRes(Res<'r>),
    Share(ShareArgs<'r>),
    Unshare(ShareArgs<'r>),
    NmLock(LockArgs<'r, WIDE>),
    FreeAll(Notify<'r>),
}

/// Whether the server answers the procedure in this version: version 1 ends with procedure 15 (XNFS), and
/// what a server sends to its clients alone is none of them.
pub fn is_known(version: Version, procedure: u32) -> bool
    ensures { result ≡ is_known_in (view_of_version version) procedure }
{
    match procedure {
        0..=4 | 6..=9 | 15 => true,
        20..=23 => version != Version::V1,
        _ => false,
    }
}

impl<'r> NlmCall<'r> {
    /// Reads the arguments of a procedure. Bytes behind them are left.
    pub fn read(
        version: Version,
        procedure: u32,
        c: &mut Cursor<'r>,
    ) -> Result<NlmCall<'r>, CallError>
        // A front of the bytes spells the arguments, and the cursor stands behind it.
        ensures found { IfOk result (λ made. Front (call (view_of_version version) procedure).Spells c.old (view_of_call made) c.new) }
        // No front is a spelling of the procedure's arguments.
        ensures garbage { result ≡ Err GarbageArgs → (text rest : List ℕ) (v : nlm.NlmCall) → (call (view_of_version version) procedure).Spells text v → c.old ≡ text ++ rest → ⊥ }
        ensures unknown { (result ≡ Err NoSuchProc) ↔ (is_known_in (view_of_version version) procedure ≡ false) }
        ensures stays { OnErr result (c.new ≡ c.old) }
        ensures fed { result ≡ Err Starved → ⊥ }
    {
        if !is_known(version, procedure) {
            return Err(CallError::NoSuchProc);
        }
        let _start = c.fork();
        match known(version, procedure, c) {
            Ok(made) => Ok(made),
            Err(_) => Err(CallError::GarbageArgs),
        }
    }
}

/// Of any bytes at most one front spells the arguments of a procedure, and it spells one call.
pub fn one_call()
    ensures { (version : nlm.Version) (procedure : ℕ) (a b x y : List ℕ) (v w : nlm.NlmCall) → (call version procedure).Spells a v → (call version procedure).Spells b w → a ++ x ≡ b ++ y → (a ≡ b) × (v ≡ w) }
{}

fn known<'r>(version: Version, procedure: u32, c: &mut Cursor<'r>) -> Result<NlmCall<'r>, XdrError>
    ensures exact { Gives view_of_call result c.old c.new ((call_of (is_wide (view_of_version version)) procedure).read c.old) }
{
    match version {
        Version::V4 => arguments::<WIDE>(procedure, c),
        Version::V1 | Version::V3 => arguments::<NARROW>(procedure, c),
    }
}

#[tactic(auto, unfolding(crate::specs::Call::call_of, xdr_core::specs::Choices::case, xdr_core::specs::Choices::alone, xdr_core::specs::Choices::nothing))]
fn arguments<'r, const BYTES: u32>(
    procedure: u32,
    c: &mut Cursor<'r>,
) -> Result<NlmCall<'r>, XdrError>
    ensures exact { Gives view_of_call result c.old c.new ((call_of (BYTES == 8) procedure).read c.old) }
{
    Ok(match procedure {
        0 => NlmCall::Null,
        1 => NlmCall::Test(TestArgs::<BYTES>::get(c)?.widened()),
        2 => NlmCall::Lock(LockArgs::<BYTES>::get(c)?.widened()),
        3 => NlmCall::Cancel(CancelArgs::<BYTES>::get(c)?.widened()),
        4 => NlmCall::Unlock(UnlockArgs::<BYTES>::get(c)?.widened()),
        6 => NlmCall::TestMsg(TestArgs::<BYTES>::get(c)?.widened()),
        7 => NlmCall::LockMsg(LockArgs::<BYTES>::get(c)?.widened()),
        8 => NlmCall::CancelMsg(CancelArgs::<BYTES>::get(c)?.widened()),
        9 => NlmCall::UnlockMsg(UnlockArgs::<BYTES>::get(c)?.widened()),
        15 => NlmCall::GrantedRes(Res::get(c)?),
        20 => NlmCall::Share(ShareArgs::get(c)?),
        21 => NlmCall::Unshare(ShareArgs::get(c)?),
        22 => NlmCall::NmLock(LockArgs::<BYTES>::get(c)?.widened()),
        23 => NlmCall::FreeAll(Notify::get(c)?),
        _ => return Err(XdrError::BadEnum),
    })
}
