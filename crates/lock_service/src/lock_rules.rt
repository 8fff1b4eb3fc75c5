//! LOCK, NM_LOCK, LOCK_MSG and the lines `setlk` and `setlkw`: one set of rules, in their order (XNFS, NLM_LOCK; POSIX,
//! fcntl).
ghost use Rattle.std.specs.Prelude.{◌≡◌, true, IfOk};
ghost use Rattle.std.specs.Option.{is_some, option_map};
ghost use Rattle.definitions.specs.Hosts.{Hosts, Monitor};
ghost use Rattle.definitions.specs.LockRules.{lock_rules as rules_said, blocked_lock as blocked_said, after_row as after_row_said, row_asked};
ghost use Rattle.definitions.specs.World.{the_limits, slots_free, with_hosts};
ghost use Rattle.callbacks.specs.Meanings.{view_of_told_lock, view_of_message};
ghost use Rattle.nlm4_types.specs.Lock.{view_of_lock};
ghost use Rattle.nlm4_types.specs.Stat.{view_of_stat};
ghost use Rattle.call_plans.specs.Planned.{changed_world, FitsChange};
ghost use Rattle.lock_service.specs.Asks.{view_of_ask, view_of_grant_call, view_of_granted, kept_out as kept_out_said, view_of_grant, view_of_grant_line, view_of_new_host};
ghost use Rattle.lock_service.specs.Verdicts.{IsAfterRow, IsVerdict, IsVerdictWith, OnlyAsksIf};

use crate::lock_ask::{Grant, GrantCall, LockAsk, NewHost};
use crate::verdict::Verdict;
use call_plans::{Asked, Change};
use callbacks::{Callback, Caller, Destination, LocalLock, Message, ShortBytes};
use hosts_db::HostStore;
use lock_state::World;
use nlm4_types::Stat;
use owner_ids::Starved;
use range_table::{Mode, RangeTable};
use std::alloc::Global;

/// What the rules say of it. Changes nothing.
pub(crate) fn lock_rules<R: RangeTable, S: HostStore>(
    world: &World<R, S>,
    ask: LockAsk<'_>,
) -> Result<Verdict, Starved>
    ensures verdict { IfOk result (λ made. IsVerdict (rules_said the_limits world.now.world (view_of_ask ask.entry (slots_free the_limits world.now.world))) ask.entry.reserved world.now.world made) }
    ensures asks { IfOk result (OnlyAsksIf (is_some ask.entry.row)) }
{
    if world.conflicts(&ask.wanted.request()) {
        return kept_out(world, ask);
    }
    if world.lacks_room(&ask.wanted.request()) {
        drop(ask.wanted);
        return Ok(Verdict::of_stat(Stat::DeniedNolocks));
    }
    behind_row(world, ask.row, Stat::Granted, Change::Lock(ask.wanted))
}

// Another lock is in the way: its owner waits, where it asked to. A reclaim never waits. Not inlined: what is granted needs no stack
// for a callback.
#[inline(never)]
fn kept_out<R: RangeTable, S: HostStore>(
    world: &World<R, S>,
    ask: LockAsk<'_>,
) -> Result<Verdict, Starved>
    ensures verdict { IfOk result (λ made. IsVerdict (kept_out_said world.now.world (view_of_ask ask.entry (slots_free the_limits world.now.world))) ask.entry.reserved world.now.world made) }
    ensures asks { IfOk result (OnlyAsksIf (is_some ask.entry.row)) }
{
    if ask.reclaim || !ask.block {
        drop(ask.wanted);
        return Ok(Verdict::of_stat(Stat::Denied));
    }
    blocked(world, ask)
}

// Its owner waits, unless it waits for just this already, or that would close a cycle, or no place is free.
fn blocked<R: RangeTable, S: HostStore>(
    world: &World<R, S>,
    ask: LockAsk<'_>,
) -> Result<Verdict, Starved>
    ensures verdict { IfOk result (λ made. IsVerdict (blocked_said world.now.world (view_of_ask ask.entry (slots_free the_limits world.now.world))) ask.entry.reserved world.now.world made) }
    ensures asks { IfOk result (OnlyAsksIf (is_some ask.entry.row)) }
{
    if world.is_waiting(&ask.wanted.request()) {
        drop(ask.wanted);
        return behind_row(world, ask.row, Stat::Blocked, Change::Nothing);
    }
    if world.closes_cycle(&ask.wanted.request()) {
        drop(ask.wanted);
        return Ok(Verdict::of_stat(Stat::Deadlck));
    }
    if world.free_slots() <= ask.reserved {
        drop(ask.wanted);
        return Ok(Verdict::of_stat(Stat::DeniedNolocks));
    }
    let Ok(callback) = ask.grant.callback(world.alloc()) else {
        drop(ask.wanted);
        return Err(Starved);
    };
    behind_row(
        world,
        ask.row,
        Stat::Blocked,
        Change::Wait(ask.wanted, callback),
    )
}

// A status, and what changes, after the row of the host that has none.
fn behind_row<R: RangeTable, S: HostStore>(
    world: &World<R, S>,
    row: Option<NewHost<'_>>,
    stat: Stat,
    change: Change,
) -> Result<Verdict, Starved>
    requires fits { FitsChange change world.now.world }
    requires fits_after { (hosts : Hosts) → FitsChange change (with_hosts world.now.world hosts) }
    ensures verdict { IfOk result (λ made. IsVerdictWith change (after_row_said world.now.world (row_asked world.now.world (option_map view_of_new_host row.entry)) (view_of_stat stat) (changed_world change)) world.now.world made) }
    ensures asks { IfOk result (OnlyAsksIf (is_some row.entry)) }
{
    let Some(host) = row else {
        return Ok(Verdict::Decided { stat, change });
    };
    if world.has_row(host.name) {
        return Ok(Verdict::Decided { stat, change });
    }
    after_row(world.alloc(), &host, stat, change)
}

fn after_row(
    alloc: Global,
    host: &NewHost<'_>,
    stat: Stat,
    change: Change,
) -> Result<Verdict, Starved>
    ensures verdict { IfOk result (λ made. IsAfterRow (Monitor host.now.name.now host.now.state) stat change made) }
    ensures asks { IfOk result (OnlyAsksIf true) }
{
    let Ok(name) = ShortBytes::copy_of(alloc, host.name) else {
        drop(change);
        return Err(Starved);
    };
    Ok(Verdict::AfterStore {
        asked: Asked::Monitor {
            name,
            state: host.state,
        },
        stat,
        change,
    })
}

impl Grant<'_> {
    // What is sent when the lock is granted.
    fn callback(&self, alloc: Global) -> Result<Callback, Starved>
        ensures { IfOk result (λ callback. callback ≡ view_of_grant self.now) }
    {
        match self {
            Grant::Call(call) => call.callback(alloc),
            Grant::Line {
                connection,
                mode,
                lock,
            } => line_callback(*connection, *mode, lock),
        }
    }
}

fn line_callback(connection: u64, mode: Mode, lock: &LocalLock) -> Result<Callback, Starved>
    ensures { IfOk result (λ callback. callback ≡ view_of_grant_line connection mode lock.now) }
{
    let lock = LocalLock {
        owner: lock.owner.clone()?,
        file: lock.file,
        offset: lock.offset,
        len: lock.len,
    };
    Ok(Callback::new(
        Destination::Connection(connection),
        Message::GrantedLine { mode, lock },
    ))
}

impl GrantCall<'_> {
    fn callback(&self, alloc: Global) -> Result<Callback, Starved>
        ensures { IfOk result (λ callback. callback ≡ view_of_grant_call self.now) }
    {
        let name = self.lock.caller_name.bytes;
        let host = ShortBytes::copy_of(alloc, name)?;
        let caller = Caller::copy_of(alloc, name, self.lock.svid, self.lock.oh.bytes)?;
        let fh = ShortBytes::copy_of(alloc, self.lock.fh.bytes)?;
        let lock = callbacks::OwnedLock {
            caller,
            fh,
            l_offset: self.lock.l_offset,
            l_len: self.lock.l_len,
        };
        Ok(Callback::new(Destination::Host(host), self.message(lock)))
    }

    fn message(&self, lock: callbacks::OwnedLock) -> Message
        requires { view_of_told_lock lock ≡ view_of_lock self.now.lock }
        ensures { view_of_message result ≡ view_of_granted self.now }
    {
        let GrantCall {
            version,
            exclusive,
            ..
        } = *self;
        if self.by_message {
            Message::GrantedMsg {
                version,
                exclusive,
                lock,
            }
        } else {
            Message::Granted {
                version,
                exclusive,
                lock,
            }
        }
    }
}
