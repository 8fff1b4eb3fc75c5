//! What an answer to one of the server's own calls changes (XNFS, NLM_GRANTED, NLM_GRANTED_MSG and SM_NOTIFY).
ghost use Rattle.std.specs.Prelude.{◌≡◌, Some, List};
ghost use Rattle.std.specs.Option.{option_copied};
ghost use Rattle.definitions.specs.Bytes.{first_that};
ghost use Rattle.definitions.specs.Outgoing.{call_of_xid, is_numbered, without_call};
ghost use Rattle.definitions.specs.Moves.{AreRanges};
ghost use Rattle.definitions.specs.Quotas.{quotas_of};
ghost use Rattle.definitions.specs.Waits.{Waiter as SaidWaiter};
ghost use Rattle.definitions.specs.World.{with_calls};
ghost use Rattle.callbacks.specs.Meanings.{view_of_found_lock, view_of_told_lock};
ghost use Rattle.out_calls.specs.Found.{found};
ghost use Rattle.lock_state.specs.ReadyAt.{IsReadyAt};
ghost use Rattle.lock_state.specs.Whole.{AreShown};
ghost use Rattle.lock_state.specs.Answered.{call_at, lock_at, host_at, IsUnlocked, IsAcked};

use crate::quotas::{Stored, is_refused};
use crate::unsettled::{Unsettled, set_on};
use crate::world::World;
use blocked_list::Quotas;
use callbacks::OwnedLock;
use held_locks::{Locks, NewSetting};
use hosts_db::{HostStore, StoreError};
use out_calls::{OutCall, OutCalls};
use range_table::RangeTable;

/// Which of the server's own calls an answer belongs to: of those that were sent, the oldest.
#[derive(Clone, Copy)]
pub enum AnswerKey<'a> {
    /// The xid of a reply (RFC 5531).
    Xid(u32),
    /// The cookie of a GRANTED_RES, which answers a GRANTED_MSG (XNFS, NLM_GRANTED_RES).
    Cookie(&'a [u8]),
}

impl<R: RangeTable, S: HostStore> World<R, S> {
    /// The call that an answer belongs to.
    pub fn call_of(&self, key: AnswerKey<'_>) -> Option<&OutCall>
        ensures { found result ≡ call_at key.entry self.now.world.calls }
    {
        find(&self.calls, key)
    }

    /// An answer ends the call of this number, which is given back. Its place is free. Where there is none nothing changes.
    pub fn end(&mut self, number: u64) -> Option<OutCall>
        ensures call { result ≡ first_that (is_numbered number) self.old.world.calls }
        ensures ended { self.new ≡ record self.old { world = with_calls self.old.world (without_call number self.old.world.calls) } }
    {
        let before = self.calls.len();
        let call = self.calls.answered(number);
        self.slots.give(before - self.calls.len());
        call
    }

    /// Unlocks the range of the grant that an answer belongs to. Whether the locks changed: they stay where that would
    /// take a run and fewer than 2 are free or the host's quota is full, and where the answer belongs to no grant. The call
    /// stays.
    pub fn unlock_grant(&mut self, key: AnswerKey<'_>) -> bool
        ensures unlocked { IsUnlocked (quotas_of self.old.world.hosts) (lock_at (call_at key.entry self.old.world.calls)) result self.old.world.settings self.new.world.settings }
        ensures stays { self.new ≡ record self.old { world = record self.old.world { settings = self.new.world.settings } } }
    {
        let quotas = Stored { store: &self.store };
        match lock_of(&self.calls, key) {
            Some(lock) => give_up(&mut self.locks, &mut self.unsettled, &quotas, lock),
            None => false,
        }
    }

    /// Stores the own state as that which the host of this reply's call has acknowledged. `None` where the reply belongs
    /// to no call that is for a host; then nothing changes. Where the store refuses, its rows stay. The call stays.
    pub fn acked(&mut self, xid: u32) -> Option<Result<(), StoreError>>
        ensures { IsAcked (host_at (call_of_xid xid self.old.world.calls)) result self.old self.new }
    {
        let own = self.store.own();
        match host_of(&self.calls, xid) {
            Some(name) => Some(self.store.acked(name, own)),
            None => None,
        }
    }
}

fn find<'a>(calls: &'a OutCalls, key: AnswerKey<'_>) -> Option<&'a OutCall>
    ensures { found result ≡ call_at key.entry calls.now }
{
    match key {
        AnswerKey::Xid(xid) => calls.of_xid(xid),
        AnswerKey::Cookie(cookie) => calls.of_cookie(cookie),
    }
}

// The host of the call that a reply of this xid belongs to.
fn host_of(calls: &OutCalls, xid: u32) -> Option<&[u8]>
    ensures { option_copied result ≡ host_at (call_of_xid xid calls.now) }
{
    match calls.of_xid(xid) {
        Some(call) => call.callback().to().host(),
        None => None,
    }
}

// The lock that the grant of an answer is for.
fn lock_of<'a>(calls: &'a OutCalls, key: AnswerKey<'_>) -> Option<&'a OwnedLock>
    ensures { view_of_found_lock result ≡ lock_at (call_at key.entry calls.now) }
{
    match find(calls, key) {
        Some(call) => call.callback().message().granted_lock(),
        None => None,
    }
}

// Its owner holds nothing of the lock's range any more.
fn give_up<R: RangeTable, Q: Quotas>(
    locks: &mut Locks<R>,
    unsettled: &mut Unsettled,
    quotas: &Q,
    lock: &OwnedLock,
) -> bool
    ensures unlocked { IsUnlocked (Q.by_host quotas.now) (Some (view_of_told_lock lock.now)) result locks.old.settings locks.new.settings }
    ensures names { locks.new.names ≡ locks.old.names }
    ensures shown { AreShown locks.old.settings → AreShown locks.new.settings }
    ensures ready { (waiters : List SaidWaiter) → AreRanges waiters → IsReadyAt unsettled.old (Q.by_host quotas.now) locks.old.settings waiters → IsReadyAt unsettled.new (Q.by_host quotas.now) locks.new.settings waiters }
{
    let change = NewSetting {
        file: lock.file(),
        owner: lock.caller.owner(),
        range: lock.range(),
        mode: None,
    };
    if is_refused(locks, quotas, &change) {
        return false;
    }
    set_on(locks, unsettled, quotas, &change).is_ok()
}
