//! Answers to the server's own calls (RFC 5531; XNFS, NLM_GRANTED, NLM_GRANTED_MSG and SM_NOTIFY).
ghost use Rattle.std.specs.Prelude.{◌≡◌, List, true, Option, Some};
ghost use Rattle.std.specs.Option.{option_map};
ghost use Rattle.definitions.specs.Nlm as nlm;
ghost use Rattle.definitions.specs.Hosts.{NotAsked};
ghost use Rattle.definitions.specs.Outgoing.{call_of_cookie, call_of_xid, is_granted_msg};
ghost use Rattle.definitions.specs.World.{the_limits};
ghost use Rattle.definitions.specs.Ranges.{owner_of};
ghost use Rattle.definitions.specs.Rulings.{ruled_answer};
ghost use Rattle.definitions.specs.Grants.{answer_rules, answered_success, answered_otherwise, granted_res_rules};
ghost use Rattle.definitions.specs.Step.{KeptPair, Answer, Applied, settled_after};
ghost use Rattle.definitions.specs.Replay.{fits};
ghost use Rattle.nlm4_types.specs.Stat.{view_of_stat};
ghost use Rattle.out_calls.specs.Found.{found};
ghost use Rattle.call_codec.specs.Answers.{view_of_answer};
ghost use Rattle.call_plans.specs.Planned.{view_of_stored, refusal_count};
ghost use Rattle.lock_state.specs.Answered.{call_at, lock_at};
ghost use Rattle.lock_state.specs.Seen.{IsIdle, Knows};
ghost use Rattle.call_plans.specs.Answers.{IsDone, IsFoundForgotten, IsGrant, IsGrantForgotten, IsNotice, IsTurnedForgotten, is_granted, grant_told, change_by, view_of_store_result};

use call_codec::AnswerReading;
use callbacks::Message;
use hosts_db::{HostStore, StoreError};
use lock_state::{AnswerKey, World};
use nlm4_types::Stat;
use out_calls::OutCall;
use range_table::RangeTable;
use step_order::StoreAnswer;

/// Does what an answer to one of the server's own calls asks for, and grants what waited for it. An answer that belongs to
/// no call that was sent changes nothing. It takes no memory. The world, and the question to the store, are those of the
/// rules; where the store refuses, its rows stay.
pub fn answered<R: RangeTable, S: HostStore>(
    world: &mut World<R, S>,
    reading: &AnswerReading,
) -> StoreAnswer
    ensures world { world.new.world ≡ settled_after the_limits (ruled_answer (view_of_stored result) (answer_rules the_limits world.old.world (view_of_answer reading.now))) }
    ensures fits { (kept : List KeptPair) → fits the_limits (record { world = world.old.world; kept = kept }) (record { event = Answer (view_of_answer reading.now); completion = Applied; store = view_of_stored result }) ≡ true }
    ensures refusals { world.new.refusals ≡ refusal_count (view_of_stored result) world.old.refusals }
    ensures forgotten { IsTurnedForgotten reading.now world.old.world world.new }
{
    match reading {
        AnswerReading::Unreadable => StoreAnswer::NotAsked,
        AnswerReading::AcceptedSuccess { xid, stat } => succeeded(world, *xid, *stat),
        AnswerReading::OtherAnswer { xid } => {
            ended(world, *xid);
            StoreAnswer::NotAsked
        }
    }
}

/// Does what a GRANTED_RES says (XNFS, NLM_GRANTED_RES): it answers the GRANTED_MSG that carried its cookie. Where none did
/// that was sent, nothing changes. It takes no memory. Whoever waits for what is free then is not granted yet.
pub fn granted_res<R: RangeTable, S: HostStore>(world: &mut World<R, S>, cookie: &[u8], stat: Stat)
    ensures world { world.new.world ≡ (granted_res_rules the_limits world.old.world cookie.now (view_of_stat stat)).world }
    ensures refusals { world.new.refusals ≡ world.old.refusals }
    ensures forgotten { stat ≡ Stat.Denied → IsFoundForgotten is_granted_msg (call_of_cookie cookie.now world.old.world.calls) world.old.world.calls world.new }
{
    let key = AnswerKey::Cookie(cookie);
    let Some(call) = world.call_of(key) else {
        return;
    };
    let number = call.number();
    if call.callback().message().is_granted_msg() {
        let _ = granted(world, key, number, Some(stat));
    }
}

// A call that was done.
fn succeeded<R: RangeTable, S: HostStore>(
    world: &mut World<R, S>,
    xid: u32,
    stat: Option<Stat>,
) -> StoreAnswer
    ensures done { IsDone (answered_success the_limits world.old.world (option_map view_of_stat stat) (call_of_xid xid world.old.world.calls)) (view_of_stored result) world.old world.new }
    ensures forgotten { stat ≡ Some Stat.Denied → IsFoundForgotten is_granted (call_of_xid xid world.old.world.calls) world.old.world.calls world.new }
{
    let key = AnswerKey::Xid(xid);
    let Some(call) = world.call_of(key) else {
        return StoreAnswer::NotAsked;
    };
    let number = call.number();
    match call.callback().message() {
        Message::Granted { .. } => {
            if granted(world, key, number, stat) {
                world.settle();
            }
        }
        // GRANTED_RES answers it.
        Message::GrantedMsg { .. } => {}
        Message::Notify { .. } => return noticed(world, xid, number),
        _ => ended(world, xid),
    }
    StoreAnswer::NotAsked
}

// The call that the answer belongs to ends.
fn ended<R: RangeTable, S: HostStore>(world: &mut World<R, S>, xid: u32)
    ensures { IsDone (answered_otherwise world.old.world (call_of_xid xid world.old.world.calls)) NotAsked world.old world.new }
{
    if let Some(call) = world.call_of(AnswerKey::Xid(xid)) {
        let number = call.number();
        drop(world.end(number));
    }
}

// The client's answer to a grant, by its status. Whether the locks changed.
fn granted<R: RangeTable, S: HostStore>(
    world: &mut World<R, S>,
    key: AnswerKey<'_>,
    number: u64,
    stat: Option<Stat>,
) -> bool
    requires { IsGrant number (call_at key world.old.world.calls) }
    ensures told { record { says = change_by result; world = world.new.world } ≡ grant_told world.old.world (option_map view_of_stat stat) (call_at key.entry world.old.world.calls) }
    ensures refusals { world.new.refusals ≡ world.old.refusals }
    ensures forgotten { stat ≡ Some Stat.Denied → IsGrantForgotten number world.old.world.calls world.new }
{
    match stat {
        Some(Stat::Denied) => refused(world, key, number),
        Some(Stat::DeniedGracePeriod) => {
            world.silent(number);
            false
        }
        _ => {
            drop(world.end(number));
            false
        }
    }
}

// The client doesn't want the lock any more: its range is unlocked. Whether the locks changed.
fn refused<R: RangeTable, S: HostStore>(
    world: &mut World<R, S>,
    key: AnswerKey<'_>,
    number: u64,
) -> bool
    requires { IsGrant number (call_at key world.old.world.calls) }
    ensures told { record { says = change_by result; world = world.new.world } ≡ grant_told world.old.world (Some nlm.DENIED) (call_at key.entry world.old.world.calls) }
    ensures refusals { world.new.refusals ≡ world.old.refusals }
    ensures forgotten { IsGrantForgotten number world.old.world.calls world.new }
{
    let unlocked = world.unlock_grant(key);
    let ended = world.end(number);
    forget(world, ended.as_ref());
    drop(ended);
    unlocked
}

// Whoever was granted a lock is forgotten, unless he holds one or waits.
fn forget<R: RangeTable, S: HostStore>(world: &mut World<R, S>, call: Option<&OutCall>)
    ensures world { world.new.world ≡ world.old.world }
    ensures refusals { world.new.refusals ≡ world.old.refusals }
    ensures forgotten { (alock : nlm.Lock) → lock_at (found call.entry) ≡ Some alock → IsIdle world.old.world (owner_of alock) → Knows world.new (owner_of alock) → ⊥ }
{
    let Some(call) = call else {
        return;
    };
    if let Some(lock) = call.callback().message().granted_lock() {
        world.forget_idle(lock.caller.owner());
    }
}

// A host has heard of the restart.
fn noticed<R: RangeTable, S: HostStore>(
    world: &mut World<R, S>,
    xid: u32,
    number: u64,
) -> StoreAnswer
    requires { IsNotice number (call_of_xid xid world.old.world.calls) }
    ensures { (stat : Option nlm.Stat) → IsDone (answered_success the_limits world.old.world stat (call_of_xid xid world.old.world.calls)) (view_of_stored result) world.old world.new }
{
    let store = store_answer(world.acked(xid));
    drop(world.end(number));
    store
}

fn store_answer(acked: Option<Result<(), StoreError>>) -> StoreAnswer
    ensures { view_of_stored result ≡ view_of_store_result acked }
{
    match acked {
        None => StoreAnswer::NotAsked,
        Some(Ok(())) => StoreAnswer::Yes,
        Some(Err(_)) => StoreAnswer::Refused,
    }
}
