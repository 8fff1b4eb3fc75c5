//! SM_NOTIFY: a host tells its state. One that has begun anew loses what it held, and those who watch it are told (XNFS).
ghost use Rattle.std.specs.Prelude.{◌≡◌, IfOk};
ghost use Rattle.definitions.specs.Hosts.{Seen};
ghost use Rattle.definitions.specs.World.{World as SaidWorld, the_limits};
ghost use Rattle.definitions.specs.Answer.{notify_answer};
ghost use Rattle.call_plans.specs.Planned.{view_of_asked, CanAskFor, IsPlan};
ghost use Rattle.lock_service.specs.Dropping.{dropped_if_room};

use super::stat;
use call_codec::{CallResult, Outcome};
use call_plans::{Asked, Change, Plan, PlannedAnswer, Response, SharedOutcome, World};
use callbacks::ShortBytes;
use hosts_db::HostStore;
use nsm_types::{SmName, StatChge};
use owner_ids::Starved;
use range_table::RangeTable;
use std::alloc::Global;

/// Nothing changes for a host without a row, or whose state is the one that was seen.
pub(crate) fn plan<R: RangeTable, S: HostStore>(
    world: &World<R, S>,
    args: &StatChge<'_>,
) -> Result<Plan, Starved>
    ensures { IfOk result (λ made. IsPlan (notify_answer the_limits world.now.world args.now.mon_name.bytes.now args.now.state) world.now.world made) }
{
    match world.row(args.mon_name.bytes) {
        Some(row) if row.seen() != args.state => dropped(world, &args.mon_name, args.state),
        _ => stat::nothing(world),
    }
}

// The store is asked to keep the state, and then the host is dropped. It needs a place for each who watches the host. What
// is deepest to drop is got last, or dropped by a call: in place, each of its parts is proved here.
fn dropped<R: RangeTable, S: HostStore>(
    world: &World<R, S>,
    name: &SmName<'_>,
    state: i32,
) -> Result<Plan, Starved>
    ensures { IfOk result (λ made. IsPlan (dropped_if_room world.now.world name.now.bytes.now state) world.now.world made) }
{
    let alloc = world.alloc();
    if world.watch_count(name.bytes) > world.free_slots() {
        return stat::failed(world);
    }
    let gone = Vec::from_slice(alloc, name.bytes)?;
    let due = world.status_callbacks(name.bytes, state)?;
    let outcome = SharedOutcome::of(alloc, Outcome::Success(CallResult::Nothing))?;
    let agreed = PlannedAnswer {
        told: Response { outcome, due },
        change: Change::DropHost(gone),
    };
    let Ok(refused) = Response::reply(alloc, Outcome::SystemErr) else {
        drop(agreed);
        return Err(Starved);
    };
    let Ok(asked) = seen(alloc, name, state) else {
        drop(agreed);
        drop(refused);
        return Err(Starved);
    };
    Ok(Plan::AfterStore {
        asked,
        agreed,
        refused,
    })
}

fn seen(alloc: Global, name: &SmName<'_>, state: i32) -> Result<Asked, Starved>
    ensures asked { IfOk result (λ asked. view_of_asked asked ≡ Seen name.now.bytes.now state) }
    ensures asks { IfOk result (λ asked. (w : SaidWorld) → CanAskFor asked w) }
{
    Ok(Asked::Seen {
        name: ShortBytes::copy_of(alloc, name.bytes)?,
        state,
    })
}
