//! Who is granted next.
ghost use Rattle.std.specs.Prelude.{◌≡◌, ◌<◌, ◌+◌, ◌*◌, false, length, IfSome};
ghost use Rattle.definitions.specs.Starts.{is_short};
ghost use Rattle.owner_ids.specs.Names.{names_of_owners};
ghost use Rattle.definitions.specs.First.{IsFirstPlace};
ghost use Rattle.blocked_list.specs.Standing.{WhereCounted};
ghost use Rattle.blocked_list.specs.Hulls.{IsFirstUpto};
ghost use Rattle.blocked_list.specs.Ready.{IsFirstReady, IsFirstReadyOn, is_ready_on};

use crate::hulls::{BLOCKS, TOGETHER};
use crate::quotas::Quotas;
use crate::slots::Slots;
use crate::touched::Touched;
use held_locks::RunsOfHosts;
use owner_ids::Owners;
use range_table::RangeTable;

impl Slots {
    /// Where the first waiter stands whose lock nobody is in the way of, nor its host's quota, where 2 runs are free; then it
    /// can be granted. How many runs the hosts have is told by `hosts`.
    pub fn next_grantable<T: RangeTable, H: RunsOfHosts, Q: Quotas>(
        &self,
        table: &T,
        owners: &Owners,
        hosts: &H,
        quotas: &Q,
    ) -> Option<usize>
        ensures bound { IfSome result (λ place. place < length self.now.waiters) }
        ensures first { WhereCounted (names_of_owners owners.now) (T.settings table.now) self.now.waiters (H.runs hosts.now) (λ settings waiters. IsFirstReady (Q.by_host quotas.now) settings waiters result) }
    {
        if held_locks::is_short(table, owners) {
            return None;
        }
        for place in 0..self.waiters.len() {
            if self.waiters[place].is_free(table, owners, hosts, quotas) {
                return Some(place);
            }
        }
        None
    }

    /// The same after a change of these bytes alone, where nobody who waits for others can be granted: the table is asked
    /// only of those who wait for one of them, up to the one that is found. Those of the file are told by two binary
    /// searches, so others who wait cost a few comparisons of files.
    pub fn next_grantable_on<T: RangeTable, H: RunsOfHosts, Q: Quotas>(
        &self,
        table: &T,
        owners: &Owners,
        hosts: &H,
        quotas: &Q,
        touched: &Touched,
    ) -> Option<usize>
        ensures bound { IfSome result (λ place. place < length self.now.waiters) }
        ensures first { WhereCounted (names_of_owners owners.now) (T.settings table.now) self.now.waiters (H.runs hosts.now) (λ settings waiters. IsFirstReadyOn touched.now (Q.by_host quotas.now) settings waiters result) }
    {
        self.first_on(table, owners, hosts, quotas, touched)
    }

    // The first that is ready, of those who wait for one of these bytes. Where many wait for the file, those are passed over
    // who stand with none that waits for a byte near.
    fn first_on<T: RangeTable, H: RunsOfHosts, Q: Quotas>(
        &self,
        table: &T,
        owners: &Owners,
        hosts: &H,
        quotas: &Q,
        touched: &Touched,
    ) -> Option<usize>
        ensures bound { IfSome result (λ place. place < length self.now.waiters) }
        ensures first { WhereCounted (names_of_owners owners.now) (T.settings table.now) self.now.waiters (H.runs hosts.now) (λ settings waiters. IsFirstPlace (is_ready_on touched.now (Q.by_host quotas.now) settings) waiters result) }
    {
        if held_locks::is_short(table, owners) {
            return None;
        }
        let part = self.by_file.part(&self.waiters, &touched.file);
        if self.are_many(part) {
            return self.first_of_all(table, owners, hosts, quotas, touched);
        }
        for place in part {
            let place = usize::from(*place);
            if self.waiters[place].is_freed(table, owners, hosts, quotas, touched) {
                return Some(place);
            }
        }
        None
    }

    // Whether those of a file are more than there are bounds, and an eighth of all who wait.
    fn are_many(&self, part: &[u16]) -> bool {
        BLOCKS < part.len() && self.waiters.len() / 8 <= part.len()
    }

    // The same, where 2 runs are free, by a walk over the bounds of those who stand together.
    fn first_of_all<T: RangeTable, H: RunsOfHosts, Q: Quotas>(
        &self,
        table: &T,
        owners: &Owners,
        hosts: &H,
        quotas: &Q,
        touched: &Touched,
    ) -> Option<usize>
        ensures bound { IfSome result (λ place. place < length self.now.waiters) }
        ensures first { WhereCounted (names_of_owners owners.now) (T.settings table.now) self.now.waiters (H.runs hosts.now) (λ settings waiters. is_short 65536 settings ≡ false → IsFirstPlace (is_ready_on touched.now (Q.by_host quotas.now) settings) waiters result) }
    {
        let _free = self.free();
        for block in 0..BLOCKS {
            let first = self.first_near(table, owners, hosts, quotas, touched, block);
            if first.is_some() {
                return first;
            }
        }
        None
    }

    // The first of those who stand together, where none in front of them is ready. Nobody is looked at where no byte of these
    // lies within their bounds.
    fn first_near<T: RangeTable, H: RunsOfHosts, Q: Quotas>(
        &self,
        table: &T,
        owners: &Owners,
        hosts: &H,
        quotas: &Q,
        touched: &Touched,
        block: usize,
    ) -> Option<usize>
        requires { block < 128 }
        ensures bound { IfSome result (λ place. place < length self.now.waiters) }
        ensures first { WhereCounted (names_of_owners owners.now) (T.settings table.now) self.now.waiters (H.runs hosts.now) (λ settings waiters. is_short 65536 settings ≡ false → IsFirstUpto (is_ready_on touched.now (Q.by_host quotas.now) settings) waiters (block * 64) (block * 64 + 64) result) }
    {
        if self.hulls.may_meet(block, touched) {
            return self.first_of_block(table, owners, hosts, quotas, touched, block);
        }
        None
    }

    // The same by a walk over them.
    fn first_of_block<T: RangeTable, H: RunsOfHosts, Q: Quotas>(
        &self,
        table: &T,
        owners: &Owners,
        hosts: &H,
        quotas: &Q,
        touched: &Touched,
        block: usize,
    ) -> Option<usize>
        requires { block < 128 }
        ensures bound { IfSome result (λ place. place < length self.now.waiters) }
        ensures first { WhereCounted (names_of_owners owners.now) (T.settings table.now) self.now.waiters (H.runs hosts.now) (λ settings waiters. is_short 65536 settings ≡ false → IsFirstUpto (is_ready_on touched.now (Q.by_host quotas.now) settings) waiters (block * 64) (block * 64 + 64) result) }
    {
        let begin = block * TOGETHER;
        let end = self.waiters.len().min(begin + TOGETHER);
        for place in begin..end {
            if self.waiters[place].is_freed(table, owners, hosts, quotas, touched) {
                return Some(place);
            }
        }
        None
    }
}
