//! LOCK, NM_LOCK and LOCK_MSG (XNFS, NLM_LOCK, NLM_NM_LOCK and NLM_LOCK_MSG).
ghost use Rattle.std.specs.Prelude.{◌≡◌, IfOk};
ghost use Rattle.std.specs.Option.{option_map};
ghost use Rattle.nlm4_types.specs.Version.{view_of_version};
ghost use Rattle.nlm4_types.specs.Arguments.{view_of_lockargs};
ghost use Rattle.lock_service.specs.Locking.{answer_by, form_by, is_message, is_monitored, row_by};
ghost use Rattle.lock_service.specs.Procedures.{lock_told};
ghost use Rattle.lock_service.specs.Tellings.{places};
ghost use Rattle.call_plans.specs.Planned.{IsPlan, AsksOnlyIf};
ghost use Rattle.lock_service.specs.Asks.{view_of_new_host};
ghost use Rattle.lock_service.specs.Verdicts.{IsVerdict, OnlyAsksIf};

use crate::checks::place_of;
use crate::copies::wanted_of;
use crate::lock_ask::{Grant, GrantCall, LockAsk, NewHost};
use crate::lock_rules::lock_rules;
use crate::telling::{Form, ResultCall, Telling};
use crate::verdict::Verdict;
use call_plans::Plan;
use grace::CallKind;
use hosts_db::HostStore;
use lock_state::World;
use nlm4_types::{LockArgs, Version, WIDE};
use owner_ids::Starved;
use range_table::RangeTable;

/// The three calls that lock.
#[derive(Clone, Copy)]
pub(crate) enum LockCall {
    /// LOCK: its host is told of a restart, and of a grant by GRANTED.
    Lock,
    /// NM_LOCK: its host is not told of a restart.
    NmLock,
    /// LOCK_MSG: as LOCK, but its host is told of the grant by GRANTED_MSG, and LOCK_RES takes a place.
    LockMsg,
}

pub(crate) fn plan<R: RangeTable, S: HostStore>(
    world: &World<R, S>,
    version: Version,
    args: &LockArgs<'_, WIDE>,
    call: LockCall,
) -> Result<Plan, Starved>
    ensures plan { IfOk result (λ made. IsPlan (lock_told call version args.now world.now.world) world.now.world made) }
    ensures asks { IfOk result (AsksOnlyIf (is_monitored call)) }
{
    let telling = Telling {
        form: call.form(),
        result: ResultCall::Lock,
        version,
        cookie: args.cookie,
        host: args.alock.caller_name,
    };
    verdict(world, version, args, call)?.told(world.alloc(), world.free_slots(), &telling)
}

// What one of them comes to.
fn verdict<R: RangeTable, S: HostStore>(
    world: &World<R, S>,
    version: Version,
    args: &LockArgs<'_, WIDE>,
    call: LockCall,
) -> Result<Verdict, Starved>
    ensures verdict { IfOk result (λ made. IsVerdict (answer_by call world.now.world (view_of_version version) (view_of_lockargs args.now)) (places (form_by call)) world.now.world made) }
    ensures asks { IfOk result (OnlyAsksIf (is_monitored call)) }
{
    let kind = CallKind::Locking {
        reclaim: args.reclaim,
    };
    let place = match place_of(world, kind, &args.alock) {
        Ok(place) => place,
        Err(stat) => return Ok(Verdict::of_stat(stat)),
    };
    let wanted = wanted_of(world.alloc(), &place, args.exclusive, &args.alock)?;
    let ask = LockAsk {
        wanted,
        block: args.block,
        reclaim: args.reclaim,
        row: call.row(args),
        grant: Grant::Call(GrantCall {
            by_message: call.is_message(),
            version,
            exclusive: args.exclusive,
            lock: args.alock,
        }),
        reserved: call.form().places(),
    };
    lock_rules(world, ask)
}

impl LockCall {
    // How it is told, and how a grant is, once it has waited.
    fn form(self) -> Form
        ensures { result ≡ form_by self }
    {
        match self {
            LockCall::LockMsg => Form::Message,
            LockCall::Lock | LockCall::NmLock => Form::Reply,
        }
    }

    fn is_message(self) -> bool
        ensures { result ≡ is_message self }
    {
        match self {
            LockCall::LockMsg => true,
            LockCall::Lock | LockCall::NmLock => false,
        }
    }

    fn row<'r>(self, args: &LockArgs<'r, WIDE>) -> Option<NewHost<'r>>
        ensures { option_map view_of_new_host result ≡ row_by self (view_of_lockargs args.now) }
    {
        match self {
            LockCall::NmLock => None,
            LockCall::Lock | LockCall::LockMsg => Some(NewHost {
                name: args.alock.caller_name.bytes,
                state: args.state,
            }),
        }
    }
}
