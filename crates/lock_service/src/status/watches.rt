//! SM_MON, SM_UNMON and SM_UNMON_ALL: who watches which host (XNFS). They act for a local peer alone.
ghost use Rattle.std.specs.Prelude.{◌≡◌, true, IfOk};
ghost use Rattle.definitions.specs.Hosts.{Unwatched, Watched};
ghost use Rattle.definitions.specs.Nsm.{SmMon, SmUnmon, SmUnmonAll};
ghost use Rattle.definitions.specs.Replies.{SystemErr};
ghost use Rattle.definitions.specs.World.{World as SaidWorld, the_limits};
ghost use Rattle.definitions.specs.Answer.{gives, gives_state, nsm_answer, ruling_after_store};
ghost use Rattle.callbacks.specs.Meanings.{view_of_told_my_id};
ghost use Rattle.nsm_types.specs.Arguments.{view_of_my_id};
ghost use Rattle.call_plans.specs.Planned.{view_of_asked, CanAskFor, IsPlan};

use super::stat;
use call_codec::Outcome;
use call_plans::{Asked, Change, Plan, PlannedAnswer, Response, World};
use callbacks::{self, ShortBytes};
use hosts_db::HostStore;
use nsm_types::{Mon, MonId, MonitorRes, MyId};
use owner_ids::Starved;
use range_table::RangeTable;
use std::alloc::Global;

/// SM_MON: the store is asked to keep the watch. STAT_FAIL to a peer that isn't local, and where the store refuses.
pub(crate) fn mon<R: RangeTable, S: HostStore>(
    world: &World<R, S>,
    local: bool,
    args: &Mon<'_>,
) -> Result<Plan, Starved>
    ensures { IfOk result (λ made. IsPlan (nsm_answer the_limits world.now.world local (SmMon args.now.mon_name.bytes.now (view_of_my_id args.now.my_id) args.now.private_bytes.bytes.now)) world.now.world made) }
{
    if !local {
        return stat::plan(world, MonitorRes::Fail);
    }
    let told = stat::monitored(world, MonitorRes::Succ)?;
    let Ok(refused) = stat::monitored(world, MonitorRes::Fail) else {
        drop(told);
        return Err(Starved);
    };
    let Ok(asked) = watched(world.alloc(), args) else {
        drop(told);
        drop(refused);
        return Err(Starved);
    };
    Ok(Plan::AfterStore {
        asked,
        agreed: PlannedAnswer {
            told,
            change: Change::Nothing,
        },
        refused,
    })
}

// What the store is asked to keep.
fn watched(alloc: Global, args: &Mon<'_>) -> Result<Asked, Starved>
    ensures asked { IfOk result (λ asked. view_of_asked asked ≡ Watched args.now.mon_name.bytes.now (view_of_my_id args.now.my_id) args.now.private_bytes.bytes.now) }
    ensures asks { IfOk result (λ asked. (w : SaidWorld) → CanAskFor asked w) }
{
    let mut private_bytes = [0; 16];
    private_bytes.copy_from_slice(args.private_bytes.bytes);
    let mon_name = ShortBytes::copy_of(alloc, args.mon_name.bytes)?;
    let my_id = copy_of(alloc, &args.my_id)?;
    Ok(Asked::Watched {
        mon_name,
        my_id,
        private_bytes,
    })
}

/// SM_UNMON: the watch of that host and watcher goes.
pub(crate) fn unmon<R: RangeTable, S: HostStore>(
    world: &World<R, S>,
    local: bool,
    args: &MonId<'_>,
) -> Result<Plan, Starved>
    ensures { IfOk result (λ made. IsPlan (nsm_answer the_limits world.now.world local (SmUnmon args.now.mon_name.bytes.now (view_of_my_id args.now.my_id))) world.now.world made) }
{
    if !local {
        return stat::state(world);
    }
    let mon_name = ShortBytes::copy_of(world.alloc(), args.mon_name.bytes)?;
    unwatched(world, Some(mon_name), &args.my_id)
}

/// SM_UNMON_ALL: every watch of that watcher goes.
pub(crate) fn unmon_all<R: RangeTable, S: HostStore>(
    world: &World<R, S>,
    local: bool,
    my_id: &MyId<'_>,
) -> Result<Plan, Starved>
    ensures { IfOk result (λ made. IsPlan (nsm_answer the_limits world.now.world local (SmUnmonAll (view_of_my_id my_id.now))) world.now.world made) }
{
    if !local {
        return stat::state(world);
    }
    unwatched(world, None, my_id)
}

// The store is asked to drop the watches of a watcher: of one host, or of all.
fn unwatched<R: RangeTable, S: HostStore>(
    world: &World<R, S>,
    mon_name: Option<ShortBytes>,
    my_id: &MyId<'_>,
) -> Result<Plan, Starved>
    ensures { IfOk result (λ made. IsPlan (ruling_after_store world.now.world (Unwatched mon_name (view_of_my_id my_id.now)) gives_state (gives world.now.world SystemErr)) world.now.world made) }
{
    let Ok(my_id) = copy_of(world.alloc(), my_id) else {
        drop(mon_name);
        return Err(Starved);
    };
    let asked = Asked::Unwatched { mon_name, my_id };
    let Ok(told) = stat::own(world) else {
        drop(asked);
        return Err(Starved);
    };
    let Ok(refused) = Response::reply(world.alloc(), Outcome::SystemErr) else {
        drop(asked);
        drop(told);
        return Err(Starved);
    };
    Ok(Plan::AfterStore {
        asked,
        agreed: PlannedAnswer {
            told,
            change: Change::Nothing,
        },
        refused,
    })
}

fn copy_of(alloc: Global, my_id: &MyId<'_>) -> Result<callbacks::OwnedMyId, Starved>
    ensures { IfOk result (λ copy. view_of_told_my_id copy ≡ view_of_my_id my_id.now) }
{
    Ok(callbacks::OwnedMyId {
        my_name: ShortBytes::copy_of(alloc, my_id.my_name.bytes)?,
        prog: my_id.prog,
        vers: my_id.vers,
        proc: my_id.proc,
    })
}
