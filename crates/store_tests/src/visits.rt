//! A database that has a store made over it; one in two files is opened before, and closed again.
use hosts_db::{HostStore, StoreError};
use hosts_sql::{AdoptError, SqlHosts};
use sqlite::{Alter, Connection, FileStore, Files, Options};
use sqlite_disk::{Disk, Fuse, Memory};
use std::alloc::Global;

// Few pages in memory, and each commit is copied into the database file, so that a call writes both files.
const OPTIONS: Options = Options {
    cache_pages: 8,
    spill_pages: 8,
    checkpoint_frames: 1,
    seed: 1,
};

/// What is done with a store, or told where the database isn't taken.
pub(crate) trait Work {
    // What is done first with the store that was made.
    fn prepare<S: Alter>(&mut self, _store: &mut SqlHosts<S>) {}

    fn work<S: HostStore>(&mut self, store: &mut S);

    fn untaken(&mut self, _why: &AdoptError) {}
}

/// What came of a visit.
#[derive(Clone, Copy, PartialEq, Eq)]
pub(crate) enum Came {
    // The files failed, or the SQL before the store.
    Unopened,
    Unfilled,
    // The store has refused the database, or wanted memory.
    Refused,
    Starved,
    Worked,
}

fn number<S: Alter>(conn: &mut Connection<S>, sql: &str) -> Option<u32> {
    conn.query_row(sql, &[]).ok()?.get::<u32>(0).ok()
}

// Whether the SQL runs, or shows the number behind ` -> `. What is no number there is for what fails.
fn holds<S: Alter>(conn: &mut Connection<S>, line: &str) -> bool {
    match line.split_once(" -> ") {
        Some((sql, want)) => number(conn, sql) == want.parse().ok(),
        None => conn.execute_batch(line).is_ok(),
    }
}

fn all_hold<S: Alter>(conn: &mut Connection<S>, sql: &str) -> bool {
    for line in sql.lines() {
        if !holds(conn, line) {
            return false;
        }
    }
    true
}

/// Runs the lines of both texts of SQL, makes a store, and has it do the work. What the database is kept in comes back.
pub(crate) fn visit<S: Alter + Drop, W: Work>(
    alloc: Global,
    mut conn: Connection<S>,
    sql: [&str; 2],
    work: &mut W,
) -> (Came, S) {
    if !all_hold(&mut conn, sql[0]) || !all_hold(&mut conn, sql[1]) {
        return (Came::Unfilled, conn.into_store());
    }
    match SqlHosts::adopt(alloc, conn) {
        Ok(mut store) => {
            work.prepare(&mut store);
            work.work(&mut store);
            (Came::Worked, store.into_connection().into_store())
        }
        Err((why, conn)) => {
            work.untaken(&why);
            let came = match why.refusal() {
                StoreError::StoreRefused => Came::Refused,
                StoreError::Starved => Came::Starved,
            };
            (came, conn.into_store())
        }
    }
}

// The database in these files. Where it can't be opened, they come back.
fn opened<D: Disk + Drop>(
    alloc: Global,
    files: Files<D>,
) -> Result<Connection<FileStore<D>>, Files<D>> {
    if !files.may_be_used() {
        return Err(files);
    }
    match Connection::open_files(alloc, files, OPTIONS) {
        Ok(conn) => Ok(conn),
        Err((_, left)) => Err(left.into_files()),
    }
}

// The same over files, which are opened before and closed behind. It is generic, so that its proof sees no more of a disk than its trait.
fn visit_disks<D: Disk + Drop, W: Work>(
    alloc: Global,
    disks: Files<D>,
    sql: [&str; 2],
    work: &mut W,
) -> (Came, Files<D>) {
    match opened(alloc, disks) {
        Ok(conn) => {
            let (came, store) = visit(alloc, conn, sql, work);
            (came, store.close())
        }
        Err(disks) => (Came::Unopened, disks),
    }
}

/// Files that may stop. All trials have these, since the compiler builds a database of its own for each kind of files.
pub(crate) struct Trials {
    pub(crate) disks: Files<Fuse<Memory>>,
}

impl Trials {
    fn into_disks(self) -> Files<Fuse<Memory>> {
        let Trials { disks } = self;
        disks
    }
}

// It is written out, so that a function which has files in hand does not prove again how each part is dropped.
impl Drop for Trials {
    fn drop(self) {
        let Trials { disks: _ } = self;
    }
}

/// Visits the database in these files, which come back.
pub(crate) fn visit_files<W: Work>(
    alloc: Global,
    files: Trials,
    sql: [&str; 2],
    work: &mut W,
) -> (Came, Trials) {
    let (came, disks) = visit_disks(alloc, files.into_disks(), sql, work);
    (came, Trials { disks })
}

/// Fresh files that never stop.
pub(crate) fn fresh(alloc: Global) -> Trials {
    let log = Fuse::new(Memory::new(alloc), u64::MAX);
    let db = Fuse::new(Memory::new(alloc), u64::MAX);
    Trials {
        disks: Files { log, db },
    }
}
