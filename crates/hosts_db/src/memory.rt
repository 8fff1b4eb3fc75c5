//! A store in memory.
ghost use Rattle.std.specs.Prelude.{◌≡◌, ◌↔◌, ◌⊎◌, ◌<◌, ◌≤◌, ◌+◌, length, vec_len, IfOk};
ghost use Rattle.definitions.specs.Bytes.{in_order};
ghost use Rattle.definitions.specs.Hosts.{row_cmp, watch_cmp};
ghost use Rattle.hosts_db.specs.Places.{put_all};

use crate::error::StoreError;
use crate::host_rows::HostRows;
use crate::refusals::Refusals;
use crate::rows::{HostRow, Watch};
use crate::search::{MOST_HOSTS, MOST_WATCHES};
use crate::store::HostStore;
use crate::writing::Writing;
use std::alloc::Global;

/// Hosts in memory, which a crash doesn't take. Nothing is refused but what is past a limit.
pub struct MemHosts {
    rows: HostRows,
    refusals: Refusals,
    alloc: Global,
}

// It is written out, so that no crate above proves again how each part of it is dropped.
impl Drop for MemHosts {
    fn drop(self) {
        let MemHosts {
            rows: _,
            refusals: _,
            alloc: _,
        } = self;
    }
}

// Puts all of them in their places, the last first, so that of two rows of one name the first stands.
#[tactic(auto, using(crate::proofs::Filling::put_all_last, crate::proofs::Filling::put_most, crate::proofs::Filling::not_past))]
fn put_hosts(rows: &mut HostRows, mut hosts: Vec<HostRow>)
    requires { length rows.old.rows + vec_len hosts ≤ 4096 }
    ensures { rows.new ≡ record rows.old { rows = put_all row_cmp hosts.items rows.old.rows } }
{
    while let Some(host) = hosts.pop() {
        rows.put_host(host);
    }
}

// Puts all of them in their places, the last first, so that of two watches of one key the first stands.
#[tactic(auto, using(crate::proofs::Filling::put_all_last, crate::proofs::Filling::put_most))]
fn put_watches(rows: &mut HostRows, mut watches: Vec<Watch>)
    requires { length rows.old.watches + vec_len watches ≤ 1024 }
    ensures { rows.new ≡ record rows.old { watches = put_all watch_cmp watches.items rows.old.watches } }
{
    while let Some(watch) = watches.pop() {
        rows.put_watch(watch);
    }
}

impl MemHosts {
    /// A store that holds these. Of two rows of one name, or two watches of one key, the first stands.
    ///
    /// `StoreRefused` where there are more than 4,096 rows or 1,024 watches, `Starved` where there is no memory.
    pub fn new(
        alloc: Global,
        own: u32,
        hosts: Vec<HostRow>,
        watches: Vec<Watch>,
    ) -> Result<MemHosts, StoreError>
        requires { own < 2147483648 }
        ensures rows { IfOk result (λ store. ⟦<MemHosts as HostStore>⟧.rows store ≡ record { own = own; rows = in_order row_cmp hosts.items; watches = in_order watch_cmp watches.items }) }
        ensures refusals { IfOk result (λ store. ⟦<MemHosts as HostStore>⟧.refusals store ≡ 0) }
        ensures refused { (result ≡ Err StoreError.StoreRefused) ↔ ((4096 < vec_len hosts) ⊎ (1024 < vec_len watches)) }
    {
        if hosts.len() > MOST_HOSTS || watches.len() > MOST_WATCHES {
            return Err(StoreError::StoreRefused);
        }
        let Ok(mut rows) = HostRows::new(alloc) else {
            return Err(StoreError::Starved);
        };
        rows.set_own(own);
        put_hosts(&mut rows, hosts);
        put_watches(&mut rows, watches);
        Ok(MemHosts {
            rows,
            refusals: Refusals::new(),
            alloc,
        })
    }
}

impl HostStore for MemHosts {
    ghost use Rattle.std.specs.Prelude.{◌≡◌, true};

    ghost rows = { λ m. m.rows };

    ghost refusals = { λ m. m.refusals };

    ghost may_leave = { λ m left. left ≡ m.rows };

    ghost may_refuse = { λ _ is_past. is_past ≡ true };

    fn start(&mut self) -> Result<u32, StoreError> {
        Ok(self.rows.start())
    }

    fn write(&mut self, asked: Writing<'_>) -> Result<(), StoreError> {
        if self.rows.is_past_limit(asked) {
            return Err(self.refusals.refuse());
        }
        let prepared = asked.prepare(self.alloc)?;
        self.rows.write(prepared);
        Ok(())
    }

    fn kept(&self) -> &HostRows {
        &self.rows
    }
}
