//! UNSHARE: an owner's share of a file goes (XNFS, NLM_UNSHARE).
ghost use Rattle.std.specs.Prelude.{false, IfOk};
ghost use Rattle.definitions.specs.Nlm as nlm;
ghost use Rattle.definitions.specs.World.{the_limits};
ghost use Rattle.definitions.specs.Answer.{nlm_answer};
ghost use Rattle.nlm4_types.specs.Share.{view_of_shareargs};
ghost use Rattle.nlm4_types.specs.Version.{view_of_version};
ghost use Rattle.call_plans.specs.Planned.{IsPlan, AsksOnlyIf};

use crate::checks::check_file;
use crate::share::{share_of, told};
use call_plans::{Change, Plan};
use grace::CallKind;
use hosts_db::HostStore;
use lock_state::World;
use nlm4_types::{ShareArgs, Stat, Version};
use owner_ids::Starved;
use range_table::RangeTable;

#[inline(never)]
pub(crate) fn plan<R: RangeTable, S: HostStore>(
    world: &World<R, S>,
    version: Version,
    args: &ShareArgs<'_>,
) -> Result<Plan, Starved>
    ensures plan { IfOk result (λ made. IsPlan (nlm_answer the_limits world.now.world (view_of_version version) (nlm.Unshare (view_of_shareargs args.now))) world.now.world made) }
    ensures asks { IfOk result (AsksOnlyIf false) }
{
    let alloc = world.alloc();
    if let Err(stat) = check_file(world, CallKind::Unsharing, args.fh.bytes) {
        return told(alloc, version, args, stat, Change::Nothing);
    }
    let share = share_of(alloc, args)?;
    told(alloc, version, args, Stat::Granted, Change::Unshare(share))
}
