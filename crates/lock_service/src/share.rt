//! SHARE: an owner does something with a file and denies the others something (XNFS, NLM_SHARE).
ghost use Rattle.std.specs.Prelude.{◌≡◌, false, IfOk};
ghost use Rattle.definitions.specs.Nlm as nlm;
ghost use Rattle.definitions.specs.World.{World as SaidWorld, the_limits};
ghost use Rattle.definitions.specs.Answer.{nlm_answer, share_told, share_of as share_said};
ghost use Rattle.definitions.specs.Rulings.{decided_ruling};
ghost use Rattle.nlm4_types.specs.Stat.{view_of_stat};
ghost use Rattle.nlm4_types.specs.Version.{view_of_version};
ghost use Rattle.nlm4_types.specs.Access.{view_of_access};
ghost use Rattle.nlm4_types.specs.Share.{view_of_shareargs};
ghost use Rattle.call_plans.specs.Planned.{IsPlan, AsksOnlyIf, FitsChange, FitsDue, changed_world, told_in};

use crate::checks::check_file;
use crate::copies::cookie_of;
use call_codec::{CallResult, Outcome, OwnedShareRes};
use call_plans::{Change, Plan, PlannedAnswer, Response};
use dos_shares::{AccessBits, Share, ShareError};
use grace::CallKind;
use hosts_db::HostStore;
use lock_state::World;
use nlm4_types::{Access as AskedAccess, ShareArgs, Stat, Version};
use owner_ids::Starved;
use range_table::RangeTable;
use std::alloc::Global;

#[inline(never)]
pub(crate) fn plan<R: RangeTable, S: HostStore>(
    world: &World<R, S>,
    version: Version,
    args: &ShareArgs<'_>,
) -> Result<Plan, Starved>
    ensures plan { IfOk result (λ made. IsPlan (nlm_answer the_limits world.now.world (view_of_version version) (nlm.ShareCall (view_of_shareargs args.now))) world.now.world made) }
    ensures asks { IfOk result (AsksOnlyIf false) }
{
    let alloc = world.alloc();
    let kind = CallKind::Sharing {
        reclaim: args.reclaim,
    };
    if let Err(stat) = check_file(world, kind, args.fh.bytes) {
        return told(alloc, version, args, stat, Change::Nothing);
    }
    let share = share_of(alloc, args)?;
    match world.shares().check(&share) {
        Ok(()) => told(alloc, version, args, Stat::Granted, Change::Share(share)),
        Err(ShareError::ShareDenied) => told(alloc, version, args, Stat::Denied, Change::Nothing),
        Err(ShareError::NoShares) => told(
            alloc,
            version,
            args,
            Stat::DeniedNolocks,
            Change::Nothing,
        ),
    }
}

/// A status is told as the version shows it, with what changes.
pub(crate) fn told(
    alloc: Global,
    version: Version,
    args: &ShareArgs<'_>,
    stat: Stat,
    change: Change,
) -> Result<Plan, Starved>
    ensures plan { IfOk result (λ made. (w : SaidWorld) → FitsChange change w → IsPlan (decided_ruling (share_told (view_of_version version) (view_of_shareargs args.now) (record { says = view_of_stat stat; world = changed_world change w }))) w made) }
    ensures asks { IfOk result (AsksOnlyIf false) }
{
    let Ok(told) = reply(alloc, version, args, stat) else {
        drop(change);
        return Err(Starved);
    };
    Ok(Plan::Decided(PlannedAnswer { told, change }))
}

// The status as the call's version shows it.
fn reply(
    alloc: Global,
    version: Version,
    args: &ShareArgs<'_>,
    stat: Stat,
) -> Result<Response, Starved>
    ensures told { IfOk result (λ made. (w : SaidWorld) → told_in made w ≡ share_told (view_of_version version) (view_of_shareargs args.now) (record { says = view_of_stat stat; world = w })) }
    ensures fits { IfOk result (λ made. (w : SaidWorld) → FitsDue made w) }
{
    let cookie = cookie_of(alloc, &args.cookie)?;
    let res = OwnedShareRes {
        cookie,
        stat: stat.shown_in(version),
        sequence: 0,
    };
    Response::reply(alloc, Outcome::Success(CallResult::ShareRes(res)))
}

/// The share that a call names.
pub(crate) fn share_of(alloc: Global, args: &ShareArgs<'_>) -> Result<Share, Starved>
    ensures { IfOk result (λ share. share ≡ share_said (view_of_shareargs args.now)) }
{
    let file = Vec::from_slice(alloc, args.fh.bytes)?;
    let name = Vec::from_slice(alloc, args.caller_name.bytes)?;
    let oh = Vec::from_slice(alloc, args.oh.bytes)?;
    Ok(Share::new(file, name, oh, access_of(args.mode), access_of(args.access)))
}

fn access_of(asked: AskedAccess) -> AccessBits
    ensures { result ≡ view_of_access asked }
{
    match asked {
        AskedAccess::None => AccessBits::new(false, false),
        AskedAccess::Read => AccessBits::new(true, false),
        AskedAccess::Write => AccessBits::new(false, true),
        AskedAccess::Both => AccessBits::new(true, true),
    }
}
