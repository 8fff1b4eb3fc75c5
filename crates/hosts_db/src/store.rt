//! What each store of hosts promises.
ghost use Rattle.std.specs.Prelude.{◌≡◌, ◌<◌, ◌≤◌, ℕ, Bool, true, false, length, IfOk};
ghost use Rattle.std.specs.Option.{is_some, option_copied};
ghost use Rattle.definitions.specs.Hosts.{Hosts, row_of, has_row, next_own, after_store, is_past_limit, Begin, Monitor, Seen, Acked, Watched, Unwatched, AreInOrder, Quota};
ghost use Rattle.hosts_db.specs.Calls.{Counts, Leaves, LeavesRows, Makes, IsNotStarved, IsPastLimit, OnRefused, OnStarved};
ghost use Rattle.hosts_db.specs.Writings.{view_of_writing, Adds, Fits, IsNew};

use crate::error::StoreError;
use crate::host_rows::HostRows;
use crate::rows::{HostRow, MyIdRef, RowNote, Watch};
use crate::writing::Writing;

/// What is kept over a restart (XNFS, NSM): the own state, a row for each host that is to be told of it, and the
/// watches. Each writing call makes its change whole, or answers an error and leaves the rows as they were.
///
/// A store has at most 4,096 rows and 1,024 watches. A call that would make more is `StoreRefused`.
pub trait HostStore {
    // What the readings show.
    ghost rows: { Self → Hosts };

    // How often it has refused.
    ghost refusals: { Self → ℕ };

    // What a crash at this moment may leave.
    ghost may_leave: { Self → Hosts → Type 0 };

    // Whether a call may be refused that is past a limit, or one that isn't.
    ghost may_refuse: { Self → Bool → Type 0 };

    /// Takes the next own state, and answers it: the least odd number above the last one, and 1 after 2^31 - 1.
    fn start(&mut self) -> Result<u32, StoreError>
        ensures own { IfOk result (λ own. own ≡ next_own (rows self.old).own) }
        ensures makes { Makes result (rows self.old) (rows self.new) (after_store (rows self.old) Begin) }
        ensures counts { Counts result (refusals self.old) (refusals self.new) }
        ensures refused { OnRefused result (may_refuse self.old false) }
        ensures not_starved { IsNotStarved result }
        ensures crash { Leaves result (may_leave self.old) (may_leave self.new) (after_store (rows self.old) Begin) };

    /// Makes this change whole. A row is asked for where there is none; a name that is stored has at most 1,024 bytes, and a
    /// quota is of at most 65,536 runs.
    ///
    /// `StoreRefused` past a limit, or where a database refuses; `Starved` where there is no memory for what is added. The rows
    /// are as before then. The writing calls below are this one, each with its change.
    fn write(&mut self, asked: Writing<'_>) -> Result<(), StoreError>
        requires fits { Fits (view_of_writing asked) }
        requires new { IsNew (rows self.old) (view_of_writing asked) }
        ensures makes { Makes result (rows self.old) (rows self.new) (after_store (rows self.old) (view_of_writing asked.entry)) }
        ensures counts { Counts result (refusals self.old) (refusals self.new) }
        ensures refused { OnRefused result (may_refuse self.old (is_past_limit 4096 1024 (rows self.old) (view_of_writing asked.entry))) }
        ensures limit { IsPastLimit result (is_past_limit 4096 1024 (rows self.old) (view_of_writing asked.entry)) }
        ensures starved { OnStarved result (Adds (view_of_writing asked.entry)) }
        ensures crash { Leaves result (may_leave self.old) (may_leave self.new) (after_store (rows self.old) (view_of_writing asked.entry)) };

    /// Hears where a host is: `address` is the text of an IP address. A store that keeps addresses keeps it beside the host's row: at
    /// once where there is one, else in the change that makes it. A store in memory keeps none, and does nothing.
    ///
    /// No row changes, and no refusal is counted. `StoreRefused` where a database refuses, `Starved` where there is no memory; the
    /// address is not kept then.
    fn locate(&mut self, name: &[u8], address: &[u8]) -> Result<(), StoreError>
        ensures rows { rows self.new ≡ rows self.old }
        ensures refusals { refusals self.new ≡ refusals self.old }
        ensures crash { LeavesRows (may_leave self.old) (may_leave self.new) (rows self.old) }
    {
        let _ = name;
        let _ = address;
        Ok(())
    }

    /// All that is kept as it is now, of which the readings below are parts.
    fn kept(&self) -> &HostRows
        ensures { result.now ≡ rows self.now };

    /// Adds the row of a host that has none, in the own state, with the quota 65,536. A name has at most 1,024 bytes.
    fn monitor(&mut self, name: &[u8], state: i32) -> Result<(), StoreError>
        requires fits { length name.now ≤ 1024 }
        requires new { has_row (rows self.old) name.now ≡ false }
        ensures makes { Makes result (rows self.old) (rows self.new) (after_store (rows self.old) (Monitor name.now state)) }
        ensures counts { Counts result (refusals self.old) (refusals self.new) }
        ensures refused { OnRefused result (may_refuse self.old (is_past_limit 4096 1024 (rows self.old) (Monitor name.now state))) }
        ensures limit { IsPastLimit result (is_past_limit 4096 1024 (rows self.old) (Monitor name.now state)) }
        ensures crash { Leaves result (may_leave self.old) (may_leave self.new) (after_store (rows self.old) (Monitor name.now state)) }
    {
        self.write(Writing::Monitor { name, state })
    }

    /// Notes the state that a host has told. Without a row of that name nothing changes.
    fn seen(&mut self, name: &[u8], state: i32) -> Result<(), StoreError>
        ensures makes { Makes result (rows self.old) (rows self.new) (after_store (rows self.old) (Seen name.now state)) }
        ensures counts { Counts result (refusals self.old) (refusals self.new) }
        ensures refused { OnRefused result (may_refuse self.old false) }
        ensures not_starved { IsNotStarved result }
        ensures crash { Leaves result (may_leave self.old) (may_leave self.new) (after_store (rows self.old) (Seen name.now state)) }
    {
        self.write(Writing::Note {
            name,
            note: RowNote::Seen(state),
        })
    }

    /// Notes the own state that a host has acknowledged. Without a row of that name nothing changes.
    fn acked(&mut self, name: &[u8], epoch: u32) -> Result<(), StoreError>
        ensures makes { Makes result (rows self.old) (rows self.new) (after_store (rows self.old) (Acked name.now epoch)) }
        ensures counts { Counts result (refusals self.old) (refusals self.new) }
        ensures refused { OnRefused result (may_refuse self.old false) }
        ensures not_starved { IsNotStarved result }
        ensures crash { Leaves result (may_leave self.old) (may_leave self.new) (after_store (rows self.old) (Acked name.now epoch)) }
    {
        self.write(Writing::Note {
            name,
            note: RowNote::Epoch(epoch),
        })
    }

    /// Sets how many runs, at most 65,536, a host's owners may have. Without a row of that name nothing changes.
    fn quota(&mut self, name: &[u8], runs: u32) -> Result<(), StoreError>
        requires { runs ≤ 65536 }
        ensures makes { Makes result (rows self.old) (rows self.new) (after_store (rows self.old) (Quota name.now runs)) }
        ensures counts { Counts result (refusals self.old) (refusals self.new) }
        ensures refused { OnRefused result (may_refuse self.old false) }
        ensures not_starved { IsNotStarved result }
        ensures crash { Leaves result (may_leave self.old) (may_leave self.new) (after_store (rows self.old) (Quota name.now runs)) }
    {
        self.write(Writing::Note {
            name,
            note: RowNote::Quota(runs),
        })
    }

    /// Adds a watch, or gives a watch of this host and watcher these bytes. A host without a row gets one, as
    /// `monitor` gives it, in which no state was seen. A name has at most 1,024 bytes.
    fn watch(
        &mut self,
        mon_name: &[u8],
        my_id: &MyIdRef<'_>,
        private_bytes: &[u8; 16],
    ) -> Result<(), StoreError>
        requires { length mon_name.now ≤ 1024 }
        ensures makes { Makes result (rows self.old) (rows self.new) (after_store (rows self.old) (Watched mon_name.now my_id.now private_bytes.now)) }
        ensures counts { Counts result (refusals self.old) (refusals self.new) }
        ensures refused { OnRefused result (may_refuse self.old (is_past_limit 4096 1024 (rows self.old) (Watched mon_name.now my_id.now private_bytes.now))) }
        ensures limit { IsPastLimit result (is_past_limit 4096 1024 (rows self.old) (Watched mon_name.now my_id.now private_bytes.now)) }
        ensures crash { Leaves result (may_leave self.old) (may_leave self.new) (after_store (rows self.old) (Watched mon_name.now my_id.now private_bytes.now)) }
    {
        self.write(Writing::Watch {
            mon_name,
            my_id,
            private_bytes,
        })
    }

    /// Drops the watches of a watcher: of one host, or of all.
    fn unwatch(&mut self, mon_name: Option<&[u8]>, my_id: &MyIdRef<'_>) -> Result<(), StoreError>
        ensures makes { Makes result (rows self.old) (rows self.new) (after_store (rows self.old) (Unwatched (option_copied mon_name.entry) my_id.now)) }
        ensures counts { Counts result (refusals self.old) (refusals self.new) }
        ensures refused { OnRefused result (may_refuse self.old false) }
        ensures not_starved { IsNotStarved result }
        ensures crash { Leaves result (may_leave self.old) (may_leave self.new) (after_store (rows self.old) (Unwatched (option_copied mon_name.entry) my_id.now)) }
    {
        self.write(Writing::Unwatch { mon_name, my_id })
    }

    fn own(&self) -> u32
        ensures value { result ≡ (rows self.now).own }
        ensures fits { result < 2147483648 }
    {
        self.kept().own()
    }

    /// The rows in order of name.
    fn hosts(&self) -> &[HostRow]
        ensures value { result.now ≡ (rows self.now).rows }
        ensures in_order { AreInOrder (rows self.now) }
        ensures most { length result.now ≤ 4096 }
    {
        self.kept().hosts()
    }

    /// The row of this name.
    fn host(&self, name: &[u8]) -> Option<&HostRow>
        ensures value { option_copied result ≡ row_of (rows self.now) name.now }
        ensures has { is_some result ≡ has_row (rows self.now) name.now }
    {
        self.kept().host(name)
    }

    /// The watches in order of mon_name, my_name, prog, vers and proc.
    fn watches(&self) -> &[Watch]
        ensures value { result.now ≡ (rows self.now).watches }
        ensures in_order { AreInOrder (rows self.now) }
        ensures most { length result.now ≤ 1024 }
    {
        self.kept().watches()
    }
}
