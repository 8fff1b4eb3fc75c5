//! Rows that a daemon plays over a database which never stops: what is sent behind each line and whom it is for, what the store says
//! and holds then, and how often it is asked to write in all.
use crate::tables::SECOND;
use crate::visits::{Work, fresh, visit_files};
use daemon_core::Daemon;
use daemon_scripts::{DaemonTask, Server, first_wrong, parted, with_daemon};
use hosts_db::HostStore;
use range_table::RangeTable;
use std::alloc::Global;
use std::test::*;

/// Plays a script. What goes otherwise than it says.
#[derive(Clone, Copy)]
struct Play {
    alloc: Global,
    server: Server,
    wrong: Option<&'static str>,
}

impl DaemonTask for Play {
    fn act<T: RangeTable, S: HostStore>(&mut self, daemon: &mut Daemon<T, S>) {
        self.wrong = first_wrong(self.alloc, daemon, self.server);
    }
}

// How many lines ask the store to write.
fn asked(script: &str) -> usize {
    let mut count = 0usize;
    for line in script.lines() {
        if !parted(line).rows.is_empty() {
            count = count.saturating_add(1);
        }
    }
    count
}

fn wrong_of<S: HostStore>(alloc: Global, store: &mut S, server: Server) -> Option<&'static str> {
    let mut play = Play {
        alloc,
        server,
        wrong: Some("no server"),
    };
    let writes = with_daemon(alloc, store, &mut play);
    if play.wrong.is_none() && writes != asked(server.1) {
        return Some(server.1);
    }
    play.wrong
}

/// The servers of a row, one after the other, up to the first that goes wrong.
#[derive(Clone, Copy)]
struct Servers<'a> {
    alloc: Global,
    servers: &'a [Server],
    wrong: Option<&'static str>,
}

impl Work for Servers<'_> {
    fn work<S: HostStore>(&mut self, store: &mut S) {
        for server in self.servers {
            self.wrong = wrong_of(self.alloc, store, *server);
            if self.wrong.is_some() {
                return;
            }
        }
    }
}

const GRACE: &str = "\
restart -> 1;
connect pipe
30 lock a 0 10 = in-grace
31 reclaim a 0 10 = granted -> 1; a 1 3 65536;
32 test b 0 0 = in-grace
grace-over
33 reclaim a 0 10 = in-grace
";

const SHARE_CONFLICT: &str = "\
restart -> 1;
grace-over
connect pipe
46 share a 2 1 = shared
47 share b 0 2 = not-shared
";

/// Only who asks by a blocking LOCK gets a row, and he has one place. Who is freed waits no longer.
const ROWS_OF_WAITERS: &str = "\
restart -> 1;
grace-over
connect pipe
133 lock a 0 1 = granted -> 1; a 1 3 65536;
134 nm-block b 0 1 = blocked
135 block b 0 1 = blocked -> 1; a 1 3 65536; b 1 3 65536;
136 free-all b = done
137 test b 0 0 = held a 0 1
138 unlock a 0 1 = granted
quiet
";

/// The result is told, and once the server begins anew each host is told of that.
const MESSAGE_LOCK_AND_RESTART: &str = "\
restart -> 1;
grace-over
connect pipe
7 lock-msg a 0 10 = done -> 1; a 1 3 65536;
sends a 1 lock-res 7 0
quiet
8 lock b 20 1 = granted -> 1; a 1 3 65536; b 1 3 65536;
restart -> 3; a 1 3 65536; b 1 3 65536;
connect pipe
sends a 1 notice 3
sends b 2 notice 3
quiet
";

/// A state that was seen changes nothing; another drops the host, once.
const NOTIFY: &str = "\
restart -> 1;
grace-over
connect pipe
34 lock a 0 10 = granted -> 1; a 1 3 65536;
35 block b 0 10 = blocked -> 1; a 1 3 65536; b 1 3 65536;
200 notify a 3 = done
201 test c 0 0 = held a 0 10
quiet
202 notify a 5 = done -> 1; a 1 5 65536; b 1 3 65536;
sends b 1 grant b 1 0 10
203 notify a 5 = done
204 test c 0 0 = held b 0 10
quiet
";

/// Only a local peer may have a host watched and the server begin anew, which keeps the connections.
const MONITOR_AND_SIMULATED_CRASH: &str = "\
restart -> 1;
grace-over
connect pipe
disconnect
connect afar
130 mon a 1 = not-monitored 1
disconnect
connect pipe
131 mon a 1 = monitored 1 -> 1; a 1 0 65536; a server 200000 1 1 000102030405060708090a0b0c0d0e0f;
205 notify a 5 = done -> 1; a 1 5 65536; a server 200000 1 1 000102030405060708090a0b0c0d0e0f;
sends server 1 status a 1 5
206 unmon a 1 = state 1 -> 1; a 1 5 65536;
207 notify a 7 = done -> 1; a 1 7 65536;
quiet
disconnect
connect afar
210 crash = done
211 stat a = monitored 1
disconnect
connect pipe
208 crash = done -> 3; a 1 7 65536;
209 stat a = monitored 3
sends a 1 notice 3
quiet
132 lock a 0 1 = in-grace
";

/// Who acknowledges a notice has the own state that it told as its epoch.
const EPOCH_NOTED: &str = "\
restart -> 1;
grace-over
connect pipe
2 lock a 0 10 = granted -> 1; a 1 3 65536;
3 lock b 20 1 = granted -> 1; a 1 3 65536; b 1 3 65536;
restart -> 3; a 1 3 65536; b 1 3 65536;
connect pipe
sends a 1 notice 3
answer 1 done -> 3; a 3 3 65536; b 1 3 65536;
sends b 2 notice 3
quiet
";

/// An answer to no call, one of 3 bytes, and the silence of a call that isn't there: nothing, three times.
const STRAY_ANSWERS: &str = "\
restart -> 1;
grace-over
connect pipe
answer 9 done
answer-cut 9 done
silent 1 9
quiet
";

/// A row of `a`, and the watch of it.
const WATCHED: &str =
    "UPDATE own SET state = 1; INSERT INTO hosts2 VALUES (x'61', 1, 3, 65536); INSERT INTO watches VALUES (x'61', x'736572766572', 200000, 1, 1, x'07070707070707070707070707070707')";

const WATCHED_ROWS: &str = "1; a 1 3 65536; a server 200000 1 1 07070707070707070707070707070707;";

/// The same in the highest own state.
const HIGHEST: &str =
    "UPDATE own SET state = 2147483647; INSERT INTO hosts2 VALUES (x'61', 1, 3, 65536); INSERT INTO watches VALUES (x'61', x'736572766572', 200000, 1, 1, x'07070707070707070707070707070707')";

const HIGHEST_ROWS: &str =
    "2147483647; a 1 3 65536; a server 200000 1 1 07070707070707070707070707070707;";

const STATE_WRAPS: &str = "\
restart -> 1; a 1 3 65536; a server 200000 1 1 07070707070707070707070707070707;
grace-over
connect pipe
12 stat a = monitored 1
";

/// A database that was not started since refuses each row, and nothing changes but what asks for none.
const ROWS_REFUSED: &str = "\
grace-over
connect pipe
48 lock b 0 1 = no-locks -> refused
49 test c 0 0 = granted
50 notify a 5 = system-err -> refused
51 unmon a 1 = system-err -> refused
52 mon b 1 = not-monitored 1 -> refused
53 lock a 0 1 = granted
quiet
";

const QUOTA_REFUSED: &str = "\
grace-over
local |quota 61 5| refused -> refused
local |quota 62 5| absent
";

/// Where the row of a new host is refused, its LOCK changes nothing; an NM_LOCK asks for no row.
const HOST_REFUSED: &str = "\
grace-over
connect pipe
48 lock b 0 1 = no-locks -> refused
49 test a 0 0 = granted
50 nm-lock b 0 1 = granted
51 lock a 0 1 = denied
";

/// The first LOCK of a host stores its row, and no other call does.
const FIRST_HOST: &str = "\
restart -> 1;
grace-over
connect pipe
2 lock a 0 10 = granted -> 1; a 1 3 65536;
3 lock a 20 1 = granted
4 nm-lock b 30 1 = granted
5 lock b 0 1 = denied
";

/// After a restart the first host is still known, and the locks are gone.
const SECOND_HOST: &str = "\
restart -> 3; a 1 3 65536;
grace-over
connect pipe
6 test b 0 0 = granted
7 lock a 0 10 = granted
8 lock b 10 1 = granted -> 3; a 1 3 65536; b 3 3 65536;
";

/// Both, of one server that begins anew.
const BOTH_HOSTS: &str = "\
restart -> 1;
grace-over
connect pipe
2 lock a 0 10 = granted -> 1; a 1 3 65536;
3 lock a 20 1 = granted
4 nm-lock b 30 1 = granted
5 lock b 0 1 = denied
restart -> 3; a 1 3 65536;
grace-over
connect pipe
6 test b 0 0 = granted
7 lock a 0 10 = granted
8 lock b 10 1 = granted -> 3; a 1 3 65536; b 3 3 65536;
";

const FRESH: [&str; 2] = ["", ""];

/// Rows that one server plays over fresh files.
const SCRIPTS: &[&str] = &[
    GRACE,
    SHARE_CONFLICT,
    ROWS_OF_WAITERS,
    MESSAGE_LOCK_AND_RESTART,
    NOTIFY,
    MONITOR_AND_SIMULATED_CRASH,
    EPOCH_NOTED,
    STRAY_ANSWERS,
    HOST_REFUSED,
    BOTH_HOSTS,
];

const TWO_SERVERS: &[Server] = &[("0;", FIRST_HOST), ("1; a 1 3 65536;", SECOND_HOST)];

const AT_HIGHEST: &[Server] = &[(HIGHEST_ROWS, STATE_WRAPS)];

const UNSTARTED: &[Server] = &[(WATCHED_ROWS, ROWS_REFUSED), (WATCHED_ROWS, QUOTA_REFUSED)];

// What goes wrong is the error.
fn go_well(alloc: Global, sql: [&str; 2], servers: &[Server]) -> Result<(), &'static str> {
    let mut work = Servers {
        alloc,
        servers,
        wrong: Some("no store"),
    };
    visit_files(alloc, fresh(alloc), sql, &mut work);
    match work.wrong {
        Some(line) => Err(line),
        None => Ok(()),
    }
}

fn go_well_over_fresh_files(alloc: Global) -> Result<(), &'static str> {
    for script in SCRIPTS {
        go_well(alloc, FRESH, &[("0;", *script)])?;
    }
    Ok(())
}

#[test]
fn rows_over_a_database(rt: HostRuntime) -> Result<(), &'static str> {
    let alloc = rt.alloc();
    go_well_over_fresh_files(alloc)?;
    go_well(alloc, FRESH, TWO_SERVERS)?;
    go_well(alloc, [SECOND, HIGHEST], AT_HIGHEST)?;
    go_well(alloc, [SECOND, WATCHED], UNSTARTED)
}
