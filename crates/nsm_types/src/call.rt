ghost use Rattle.std.specs.Prelude.{◌≡◌, ◌++◌, ◌↔◌, List, ℕ, false, Err, IfOk, OnErr};
ghost use Rattle.definitions.specs.Nsm as nsm;
ghost use Rattle.xdr_core.specs.Codec.{Front, Gives};
ghost use Rattle.xdr_core.specs.declared.error.CallError.TheVariants.{Starved, NoSuchProc, GarbageArgs};
ghost use Rattle.nsm_types.specs.Call.{view_of_call, is_known_number, arguments_of, call};

use crate::arguments::{Mon, MonId, MyId, SmName, StatChge};
use xdr_core::{CallError, Cursor, Wire, XdrError};

/// The status monitor's program (XNFS).
pub const PROGRAM: u32 = 100_024;

/// Its only version.
pub const VERSION: u32 = 1;

/// A call of the status monitor (XNFS, the status monitor). It borrows from the record.
#[derive(Clone, Copy)]
pub enum NsmCall<'r> {
    Null,
    Stat(SmName<'r>),
    Mon(Mon<'r>),
    Unmon(MonId<'r>),
    UnmonAll(MyId<'r>),
    SimuCrash,
    Notify(StatChge<'r>),
}

/// Whether the monitor has the procedure: 0 to 6.
pub fn is_known(procedure: u32) -> bool
    ensures { result ≡ is_known_number procedure }
{
    procedure <= 6
}

impl<'r> NsmCall<'r> {
    /// Reads the arguments of a procedure. Bytes behind them are left.
    pub fn read(procedure: u32, c: &mut Cursor<'r>) -> Result<NsmCall<'r>, CallError>
        // A front of the bytes spells the arguments, and the cursor stands behind it.
        ensures found { IfOk result (λ made. Front (call procedure).Spells c.old (view_of_call made) c.new) }
        // No front is a spelling of the procedure's arguments.
        ensures garbage { result ≡ Err GarbageArgs → (text rest : List ℕ) (v : nsm.NsmCall) → (call procedure).Spells text v → c.old ≡ text ++ rest → ⊥ }
        ensures unknown { (result ≡ Err NoSuchProc) ↔ (is_known_number procedure ≡ false) }
        ensures stays { OnErr result (c.new ≡ c.old) }
        ensures fed { result ≡ Err Starved → ⊥ }
    {
        if !is_known(procedure) {
            return Err(CallError::NoSuchProc);
        }
        let _start = c.fork();
        match arguments(procedure, c) {
            Ok(made) => Ok(made),
            Err(_) => Err(CallError::GarbageArgs),
        }
    }
}

/// Of any bytes at most one front spells the arguments of a procedure, and it spells one call.
pub fn one_call()
    ensures { (procedure : ℕ) (a b x y : List ℕ) (v w : nsm.NsmCall) → (call procedure).Spells a v → (call procedure).Spells b w → a ++ x ≡ b ++ y → (a ≡ b) × (v ≡ w) }
{}

#[tactic(auto, unfolding(crate::specs::Call::arguments_of, xdr_core::specs::Choices::case, xdr_core::specs::Choices::alone, xdr_core::specs::Choices::nothing))]
fn arguments<'r>(procedure: u32, c: &mut Cursor<'r>) -> Result<NsmCall<'r>, XdrError>
    ensures exact { Gives view_of_call result c.old c.new ((arguments_of procedure).read c.old) }
{
    Ok(match procedure {
        0 => NsmCall::Null,
        1 => NsmCall::Stat(SmName::get(c)?),
        2 => NsmCall::Mon(Mon::get(c)?),
        3 => NsmCall::Unmon(MonId::get(c)?),
        4 => NsmCall::UnmonAll(MyId::get(c)?),
        5 => NsmCall::SimuCrash,
        6 => NsmCall::Notify(StatChge::get(c)?),
        _ => return Err(XdrError::BadEnum),
    })
}
