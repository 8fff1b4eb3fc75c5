//! A store over a database.
ghost use Rattle.std.specs.Prelude.{◌≡◌, false, true, is_some, IsTrue, Some, Err, IfOk, IfErr, IfSome, OnOk, OnErr};
ghost use Rattle.definitions.specs.Hosts.{Begin, after_store, has_row, is_past_limit, next_own};
ghost use Rattle.hosts_db.specs.Calls.{Counts, Leaves, LeavesRows, Makes, IsNotStarved, IsPastLimit, OnRefused, OnStarved};
ghost use Rattle.hosts_db.specs.Writings.{view_of_writing, Adds, Fits, IsNew};
ghost use Rattle.hosts_sql.specs.Placing.{FindsAddresses, HasAddress};
ghost use Rattle.hosts_sql.specs.Wrote.{MayLeave};
ghost use Rattle.sqlite.specs.State.{HasCleanDisk, KeepsCommit, Survives};
ghost use Rattle.sqlite.specs.Held.{state};
ghost use Rattle.hosts_sql.specs.Own.{has_host_numbers, AllFit};
ghost use Rattle.hosts_sql.specs.Wrote.{IsAsKept, hosts_of};
ghost use Rattle.hosts_sql.specs.declared.tables.TablesVersion.TheVariants.{Second};
ghost use Rattle.hosts_sql.specs.Holds.{Holds, Holds-prop};

use crate::addresses::{HostAddress, load_all};
use crate::calls::{write_change, write_start};
use crate::error::AdoptError;
use crate::making::MakeAddresses;
use crate::objects::version_of;
use crate::pending::PendingAddresses;
use crate::placing::{PutAddress, finds_addresses, lacks_addresses, write_address};
use crate::tables::{TablesVersion, is_none};
use definitions::own_state::next_own_state;
use hosts_db::{HostRows, HostStore, MOST_NAME_BYTES, Refusals, StoreError, Writing};
use sqlite::{Alter, Connection, Error};
use std::alloc::Global;
use std::net::IpAddr;

/// Hosts in a database, and the rows of its last commit in memory.
pub struct SqlHosts<S: Alter> {
    conn: Connection<S>,
    rows: HostRows,
    // Of its tables, where it has any.
    version: Option<TablesVersion>,
    is_started: bool,
    refusals: Refusals,
    alloc: Global,
    // Those that were read when it was adopted, and those of hosts that have no row yet.
    addresses: Vec<HostAddress>,
    pending: PendingAddresses,
    keeps_addresses: bool,
    ghost kept: { IsAsKept (state S.Store conn) rows },
    ghost holds: { Holds version (state S.Store conn) } by { Holds-prop version (state S.Store conn) },
}

// It is written out, so that no crate above proves again how each part of it is dropped.
impl<S: Alter + Drop> Drop for SqlHosts<S> {
    fn drop(self) {
        let SqlHosts {
            conn: _,
            rows: _,
            version: _,
            is_started: _,
            refusals: _,
            alloc: _,
            addresses: _,
            pending: _,
            keeps_addresses: _,
        } = self;
    }
}

// The name of the host whose row this change makes, if it has none.
fn new_host<'a>(asked: Writing<'a>) -> Option<&'a [u8]> {
    match asked {
        Writing::Monitor { name, .. } => Some(name),
        Writing::Watch { mon_name, .. } => Some(mon_name),
        _ => None,
    }
}

// The address that is to be put with the row that this change makes.
fn address_with<'a, S: Alter>(
    conn: &Connection<S>,
    pending: &'a PendingAddresses,
    asked: Writing<'a>,
) -> Option<PutAddress<'a>>
    ensures { FindsAddresses (is_some result) true (state S.Store conn.now) }
{
    let name = new_host(asked)?;
    let text = pending.text_of(name)?;
    if finds_addresses(conn) {
        Some(PutAddress { name, text })
    } else {
        None
    }
}

// The table of addresses, where it is to be made.
fn missing_addresses<S: Alter>(conn: &Connection<S>, keeps_addresses: bool) -> Option<MakeAddresses>
    ensures { FindsAddresses (is_some result) false (state S.Store conn.now) }
{
    if keeps_addresses && lacks_addresses(conn) {
        Some(MakeAddresses)
    } else {
        None
    }
}

// A name that a row may have, and the text of an IP address.
fn is_located(name: &[u8], address: &[u8]) -> bool {
    name.len() <= MOST_NAME_BYTES && IpAddr::parse_ascii(address).is_ok()
}

impl<S: Alter> SqlHosts<S> {
    /// Takes a database that holds no object, or the tables of schema 1 or 2 with what they may hold, in any order, with or without
    /// a table of addresses and tables of SQLite's own (sqlite_stat1), and writes nothing. At most 4,096 addresses may be there. A host of schema 1 shows the full quota; the first
    /// `start` upgrades the file. Any other database is refused, one with a number out of its range too: the error says
    /// why, and the connection comes back.
    pub fn adopt(
        alloc: Global,
        conn: Connection<S>,
    ) -> Result<SqlHosts<S>, (AdoptError, Connection<S>)>
        ensures rows { IfOk result (λ s. IsAsKept (state S.Store s.conn) (⟦<SqlHosts<S> as HostStore>⟧.rows s)) }
        ensures numbers { IfOk result (λ s. HasCleanDisk (state S.Store s.conn) → IfSome s.version (λ version. AllFit has_host_numbers (hosts_of version (state S.Store s.conn).committed))) }
        ensures refusals { IfOk result (λ s. ⟦<SqlHosts<S> as HostStore>⟧.refusals s ≡ 0) }
        ensures unstarted { IfOk result (λ s. s.is_started ≡ false) }
        ensures kept { IfOk result (λ s. HasCleanDisk (state S.Store s.conn) → KeepsCommit (state S.Store conn) (state S.Store s.conn)) }
        ensures crash { IfOk result (λ s. Survives (state S.Store conn) (state S.Store s.conn) (λ _. ⊥)) }
        ensures kept_back { IfErr result (λ e. HasCleanDisk (state S.Store e.1) → KeepsCommit (state S.Store conn) (state S.Store e.1)) }
        ensures unkept { IfOk result (λ s. s.keeps_addresses ≡ false) }
        ensures crash_back { IfErr result (λ e. Survives (state S.Store conn) (state S.Store e.1) (λ _. ⊥)) }
    {
        let Ok(mut rows) = HostRows::new(alloc) else {
            return Err((AdoptError::Starved, conn));
        };
        if !conn.is_autocommit() {
            return Err((AdoptError::InTransaction, conn));
        }
        if is_none(conn.schema()) {
            return Ok(SqlHosts {
                conn,
                rows,
                version: None,
                is_started: false,
                refusals: Refusals::new(),
                alloc,
                addresses: Vec::new(alloc),
                pending: PendingAddresses::new(alloc),
                keeps_addresses: false,
            });
        }
        let version = match version_of(alloc, conn.schema()) {
            Ok(version) => version,
            Err(error) => return Err((error, conn)),
        };
        let mut used = conn;
        let addresses = match load_all(alloc, &mut used, version, &mut rows) {
            Ok(addresses) => addresses,
            Err(error) => return Err((error, used)),
        };
        Ok(SqlHosts {
            conn: used,
            rows,
            version: Some(version),
            is_started: false,
            refusals: Refusals::new(),
            alloc,
            addresses,
            pending: PendingAddresses::new(alloc),
            keeps_addresses: false,
        })
    }

    /// Whether a `start` was Ok. Until then each call that writes is refused, and changes nothing.
    pub fn is_started(&self) -> bool
        ensures { result ≡ self.now.is_started }
    {
        self.is_started
    }

    /// From now on where hosts are is kept, as `locate` tells it. It is to be called before the first `start`, which makes the table of
    /// addresses, where the database has none, in the transaction that sets the own state.
    pub fn keep_addresses(&mut self)
        ensures rows { self.new.rows ≡ self.old.rows }
        ensures refusals { self.new.refusals ≡ self.old.refusals }
        ensures conn { self.new.conn ≡ self.old.conn }
        ensures version { self.new.version ≡ self.old.version }
        ensures started { self.new.is_started ≡ self.old.is_started }
    {
        self.keeps_addresses = true;
    }

    /// Where hosts were when the database was adopted, in the order in which they were written. What is written later isn't among them.
    pub fn addresses(&self) -> &[HostAddress]
        ensures { result.now ≡ self.now.addresses.items }
    {
        self.addresses.as_slice()
    }

    // A start made or found the tables of schema 2.
    fn is_ready(&self) -> bool
        ensures second { IsTrue result → self.now.version ≡ Some Second }
        ensures started { IsTrue result → IsTrue self.now.is_started }
    {
        self.is_started && matches!(self.version, Some(TablesVersion::Second))
    }

    /// Gives the connection back, as the last call left it.
    pub fn into_connection(self) -> Connection<S>
        ensures { result ≡ self.conn }
    {
        let SqlHosts {
            conn,
            rows: _,
            version: _,
            is_started: _,
            refusals: _,
            alloc: _,
            addresses: _,
            pending: _,
            keeps_addresses: _,
        } = self;
        conn
    }
}

impl<S: Alter + Drop> SqlHosts<S> {
    /// The same of a database that had to be opened first: what SQLite said, where that failed. What isn't taken is dropped.
    pub fn adopt_opened(
        alloc: Global,
        opened: Result<Connection<S>, Error>,
    ) -> Result<SqlHosts<S>, AdoptError>
        ensures refused { IfErr opened (λ e. result ≡ Err (AdoptError.Unopened e)) }
        ensures rows { IfOk result (λ s. IsAsKept (state S.Store s.conn) (⟦<SqlHosts<S> as HostStore>⟧.rows s)) }
        ensures numbers { IfOk result (λ s. HasCleanDisk (state S.Store s.conn) → IfSome s.version (λ version. AllFit has_host_numbers (hosts_of version (state S.Store s.conn).committed))) }
        ensures refusals { IfOk result (λ s. ⟦<SqlHosts<S> as HostStore>⟧.refusals s ≡ 0) }
        ensures unstarted { IfOk result (λ s. s.is_started ≡ false) }
        ensures kept { IfOk opened (λ conn. IfOk result (λ s. HasCleanDisk (state S.Store s.conn) → KeepsCommit (state S.Store conn) (state S.Store s.conn))) }
        ensures crash { IfOk opened (λ conn. IfOk result (λ s. Survives (state S.Store conn) (state S.Store s.conn) (λ _. ⊥))) }
    {
        let conn = match opened {
            Ok(conn) => conn,
            Err(error) => return Err(AdoptError::Unopened(error)),
        };
        match SqlHosts::adopt(alloc, conn) {
            Ok(store) => Ok(store),
            Err((error, _conn)) => Err(error),
        }
    }
}

impl<S: Alter> HostStore for SqlHosts<S> {
    ghost use Rattle.sqlite.specs.Held.{state};
    ghost use Rattle.hosts_sql.specs.Wrote.{MayLeave};

    ghost rows = { λ s. s.rows };

    ghost refusals = { λ s. s.refusals };

    ghost may_leave = { λ s. MayLeave (state S.Store s.conn) };

    ghost may_refuse = { λ _ _. Unit {0} };

    // What the trait says, and that an Ok begins the store.
    fn start(&mut self) -> Result<u32, StoreError>
        ensures own { IfOk result (λ own. own ≡ next_own self.old.rows.own) }
        ensures makes { Makes result self.old.rows self.new.rows (after_store self.old.rows Begin) }
        ensures counts { Counts result self.old.refusals self.new.refusals }
        ensures refused { OnRefused result (Unit {0}) }
        ensures not_starved { IsNotStarved result }
        ensures crash { Leaves result (MayLeave (state S.Store self.old.conn)) (MayLeave (state S.Store self.new.conn)) (after_store self.old.rows Begin) }
        ensures started { OnOk result (IsTrue self.new.is_started) }
        ensures unstarted { OnErr result (self.new.is_started ≡ self.old.is_started) }
    {
        let own = next_own_state(self.rows.own());
        let addresses = missing_addresses(&self.conn, self.keeps_addresses);
        if write_start(&mut self.conn, self.version, own, addresses).is_err() {
            return Err(self.refusals.refuse());
        }
        let own = self.rows.start();
        self.version = Some(TablesVersion::Second);
        self.is_started = true;
        Ok(own)
    }

    // What the trait says, and that a store which isn't begun refuses each change and does nothing. The calls by name are this one.
    fn write(&mut self, asked: Writing<'_>) -> Result<(), StoreError>
        requires fits { Fits (view_of_writing asked) }
        requires new { IsNew self.old.rows (view_of_writing asked) }
        ensures makes { Makes result self.old.rows self.new.rows (after_store self.old.rows (view_of_writing asked.entry)) }
        ensures counts { Counts result self.old.refusals self.new.refusals }
        ensures refused { OnRefused result (Unit {0}) }
        ensures limit { IsPastLimit result (is_past_limit 4096 1024 self.old.rows (view_of_writing asked.entry)) }
        ensures starved { OnStarved result (Adds (view_of_writing asked.entry)) }
        ensures crash { Leaves result (MayLeave (state S.Store self.old.conn)) (MayLeave (state S.Store self.new.conn)) (after_store self.old.rows (view_of_writing asked.entry)) }
        ensures begun { OnOk result (IsTrue self.old.is_started) }
        ensures unstarted { self.old.is_started ≡ false → result ≡ Err StoreError.StoreRefused }
        ensures untouched { self.old.is_started ≡ false → self.new.conn ≡ self.old.conn }
        ensures same { self.new.is_started ≡ self.old.is_started }
    {
        if !self.is_ready() || self.rows.is_past_limit(asked) {
            return Err(self.refusals.refuse());
        }
        let prepared = asked.prepare(self.alloc)?;
        let address = address_with(&self.conn, &self.pending, asked);
        if write_change(&mut self.conn, &self.rows, asked, address).is_err() {
            return Err(self.refusals.refuse());
        }
        self.rows.write(prepared);
        if let Some(name) = new_host(asked) {
            self.pending.forget(name);
        }
        Ok(())
    }

    // What the trait says, and that nothing is done where addresses aren't kept.
    fn locate(&mut self, name: &[u8], address: &[u8]) -> Result<(), StoreError>
        ensures rows { self.new.rows ≡ self.old.rows }
        ensures refusals { self.new.refusals ≡ self.old.refusals }
        ensures crash { LeavesRows (MayLeave (state S.Store self.old.conn)) (MayLeave (state S.Store self.new.conn)) self.old.rows }
        ensures put { IsTrue self.old.keeps_addresses → has_row self.old.rows name.now ≡ true → HasCleanDisk (state S.Store self.new.conn) → OnOk result (HasAddress name.now address.now (state S.Store self.new.conn).committed) }
        ensures unkept { self.old.keeps_addresses ≡ false → OnErr result ⊥ }
        ensures untouched { self.old.keeps_addresses ≡ false → self.new.conn ≡ self.old.conn }
        ensures unstarted { self.old.is_started ≡ false → self.new.conn ≡ self.old.conn }
        ensures same { self.new.is_started ≡ self.old.is_started }
    {
        if !self.keeps_addresses {
            return Ok(());
        }
        if !self.is_ready() || !is_located(name, address) || !finds_addresses(&self.conn) {
            return Err(StoreError::StoreRefused);
        }
        if !self.rows.has_host(name) {
            return self.pending.remember(self.alloc, name, address);
        }
        let put = PutAddress {
            name,
            text: address,
        };
        match write_address(&mut self.conn, put) {
            Ok(()) => Ok(()),
            Err(_) => Err(StoreError::StoreRefused),
        }
    }

    fn kept(&self) -> &HostRows {
        &self.rows
    }
}
