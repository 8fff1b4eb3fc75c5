//! The state, and what is read of it.
ghost use Rattle.std.specs.Prelude.{◌≡◌, [], IfOk};
ghost use Rattle.definitions.specs.Options.{view_of_rules};
ghost use Rattle.definitions.specs.World.{opening_with, first_number};
ghost use Rattle.grace.specs.Meanings.{view_of_phase};

use crate::unsettled::Unsettled;
use blocked_list::Slots;
use callbacks::ShortBytes;
use definitions::rules::Rules;
use dos_shares::Shares;
use grace::Phase;
use held_locks::Locks;
use hosts_db::HostStore;
use out_calls::OutCalls;
use owner_ids::Starved;
use range_table::RangeTable;
use std::alloc::Global;
use std::marker::Model;

/// Locks, waiters, shares, the phase, the stored hosts, and the server's own calls. A contract sees them as one world,
/// beside it who is known, so that a lock of it takes no memory, and how often the store has refused.
#[derive(Drop)]
pub struct World<R: RangeTable, S: HostStore> {
    pub(crate) alloc: Global,
    pub(crate) own_name: ShortBytes,
    pub(crate) rules: Rules,
    pub(crate) locks: Locks<R>,
    pub(crate) slots: Slots,
    pub(crate) shares: Shares,
    pub(crate) phase: Phase,
    pub(crate) store: S,
    pub(crate) calls: OutCalls,
    pub(crate) next: u64,
    pub(crate) unsettled: Unsettled,
}

impl<R: RangeTable, S: HostStore> Model for World<R, S> {
    ghost use Rattle.owner_ids.specs.Names.{names_of_owners};
    ghost use Rattle.definitions.specs.Options.{view_of_rules};
    ghost use Rattle.definitions.specs.Quotas.{quotas_of};
    ghost use Rattle.blocked_list.specs.Waiting.{waiters_by};
    ghost use Rattle.grace.specs.Meanings.{view_of_phase};
    ghost use Rattle.lock_state.specs.Seen.{Seen};
    ghost use Rattle.lock_state.specs.Whole.{IsWhole};

    ghost Value = { Seen };

    ghost view = { λ w. record {
      world = record {
        own_name = w.own_name;
        rules = view_of_rules w.rules;
        settings = w.locks.settings;
        waiters = waiters_by (names_of_owners w.locks.names) w.slots.waiters;
        shares = w.shares;
        phase = view_of_phase w.phase;
        hosts = S.rows w.store;
        calls = w.calls;
        next = w.next;
      };
      names = w.locks.names;
      refusals = S.refusals w.store;
    } };

    ghost invariant = { λ w. IsWhole w.locks.settings w.locks.names w.slots w.calls (quotas_of (S.rows w.store)) w.unsettled };
}

impl<R: RangeTable + Drop, S: HostStore + Drop> World<R, S> {
    /// The store's rows and nothing else, in grace, with room for all waiters, shares and calls. The name is the server's
    /// own. Its rules last as long as it does.
    pub fn new(
        alloc: Global,
        table: R,
        store: S,
        own_name: ShortBytes,
        rules: Rules,
    ) -> Result<World<R, S>, Starved>
        requires { R.settings table ≡ [] }
        ensures { IfOk result (λ made. made ≡ record { world = opening_with own_name (view_of_rules rules) (S.rows store); names = []; refusals = S.refusals store }) }
    {
        let shares = Shares::new(alloc)?;
        let calls = OutCalls::new(alloc)?;
        let slots = Slots::new(alloc)?;
        let next = first_number(store.own());
        Ok(World {
            alloc,
            own_name,
            rules,
            locks: Locks::new(alloc, table),
            slots,
            shares,
            phase: Phase::Grace,
            store,
            calls,
            next,
            unsettled: Unsettled::Nowhere,
        })
    }
}

impl<R: RangeTable, S: HostStore> World<R, S> {
    /// The allocator that the state was made with.
    pub fn alloc(&self) -> Global {
        self.alloc
    }

    pub fn locks(&self) -> &Locks<R>
        ensures settings { result.now.settings ≡ self.now.world.settings }
        ensures names { result.now.names ≡ self.now.names }
    {
        &self.locks
    }

    pub fn shares(&self) -> &Shares
        ensures { result.now ≡ self.now.world.shares }
    {
        &self.shares
    }

    pub fn phase(&self) -> Phase
        ensures { view_of_phase result ≡ self.now.world.phase }
    {
        self.phase
    }

    pub fn store(&self) -> &S
        ensures rows { S.rows result.now ≡ self.now.world.hosts }
        ensures refusals { S.refusals result.now ≡ self.now.refusals }
    {
        &self.store
    }
}

// The number of the first call under this own state.
pub(crate) fn first_number(own: u32) -> u64
    ensures { result ≡ first_number own }
{
    own as u64 * 4_294_967_296 + 1
}
