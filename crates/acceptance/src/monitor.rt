//! The status monitor: what hosts tell, who is called then, and how the server begins anew (XNFS, NSM).
use daemon_scripts::{Misplayed, Row, Way, play_rows, play_with_hosts};

// The largest own state is followed by the first.
#[test]
fn state_wraps(rt: HostRuntime) -> Result<(), Misplayed> {
    play_with_hosts(
        rt.alloc(),
        2_147_483_647,
        b"",
        &["begins", "12 stat a = monitored 1"],
    )
}

/// Of a server that no host is known to.
const ROWS: &[Row] = &[
    // A state that was seen changes nothing; another drops the host, once.
    (
        "notify",
        &[
            "begins",
            "34 lock a 0 10 = granted",
            "35 block b 0 10 = blocked",
            "200 notify a 3 = done",
            "201 test c 0 0 = held a 0 10",
            "quiet",
            "202 notify a 5 = done",
            "sends b 1 grant b 1 0 10",
            "203 notify a 5 = done",
            "204 test c 0 0 = held b 0 10",
            "quiet",
            "rows a 1 5 b 1 3",
        ],
    ),
    // How many owners have a number after a host, and then the server, has begun anew.
    (
        "known_by_restarts",
        &[
            "begins",
            "240 lock a 0 10 = granted",
            "241 block b 0 10 = blocked",
            "242 lock d 20 1 = granted",
            "known 3",
            "243 notify b 5 = done",
            "known 2",
            "244 notify a 5 = done",
            "known 1",
            "245 crash = done",
            "known 0",
        ],
    ),
    // Only a local peer may have a host watched and the server begin anew, which keeps the connections.
    (
        "monitor_and_simulated_crash",
        &[
            "begins",
            "disconnect",
            "connect afar",
            "130 mon a 1 = not-monitored 1",
            "rows",
            "disconnect",
            "connect pipe",
            "131 mon a 1 = monitored 1",
            "205 notify a 5 = done",
            "rows a 1 5",
            "sends server 1 status a 1 5",
            "206 unmon a 1 = state 1",
            "207 notify a 7 = done",
            "quiet",
            "disconnect",
            "connect afar",
            "210 crash = done",
            "211 stat a = monitored 1",
            "disconnect",
            "connect pipe",
            "208 crash = done",
            "209 stat a = monitored 3",
            "sends a 1 notice 3",
            "quiet",
            "132 lock a 0 1 = in-grace",
        ],
    ),
    // Who acknowledges a notice has the own state that it told as its epoch.
    (
        "epoch_noted",
        &[
            "begins",
            "2 lock a 0 10 = granted",
            "3 lock b 20 1 = granted",
            "restarts",
            "sends a 1 notice 3",
            "answer 1 done",
            "stored yes",
            "sends b 2 notice 3",
            "quiet",
            "rows a 3 3 b 1 3",
        ],
    ),
    (
        "stat_call",
        &["begins", "1 sm-null = done", "2 stat a = monitored 1"],
    ),
    // Each watcher of the host is told, in order of its procedure, with the bytes that it gave last.
    (
        "watchers_told",
        &[
            "begins",
            "1 mon a 2 = monitored 1",
            "2 mon b 2 = monitored 1",
            "3 mon a 1 = monitored 1",
            "4 mon-anew a 2 = monitored 1",
            "5 notify a 0 = done",
            "quiet",
            "6 notify a 5 = done",
            "rows a 1 5 b 1 0",
            "sends server 1 status a 1 5",
            "sends server 2 status-anew a 2 5",
            "7 notify a 5 = done",
            "quiet",
        ],
    ),
    (
        "watches_dropped",
        &[
            "begins",
            "1 mon a 1 = monitored 1",
            "2 mon a 2 = monitored 1",
            "3 mon b 1 = monitored 1",
            "disconnect",
            "connect afar",
            "4 unmon a 1 = state 1",
            "5 unmon-all 1 = state 1",
            "disconnect",
            "connect pipe",
            "6 unmon-all 1 = state 1",
            "7 notify b 5 = done",
            "quiet",
            "8 notify a 5 = done",
            "sends server 1 status a 2 5",
            "quiet",
        ],
    ),
    // Each TEST by message takes a place until its result is sent and answered. With one place too few the state that was seen
    // stays; the watcher fewer then makes it enough, and no call has one more.
    (
        "no_place_for_a_watcher",
        &[
            "begins",
            "1 mon a 1 = monitored 1",
            "2 mon a 2 = monitored 1",
            "times 8191 10 test-msg b 0 0 = done",
            "3 notify a 5 = system-err",
            "rows a 1 0",
            "4 unmon a 2 = state 1",
            "5 notify a 5 = done",
            "rows a 1 5",
            "6 test-msg b 0 0 = system-err",
            "7 crash = done",
            "sends a 1 notice 3",
            "quiet",
        ],
    ),
    // As many watches as a store has, and none more.
    (
        "watches_full",
        &[
            "begins",
            "watches 1023",
            "1 mon a 1 = monitored 1",
            "2 mon-anew a 1 = monitored 1",
            "3 mon a 2 = not-monitored 1",
            "4 mon b 1 = not-monitored 1",
            "rows a 1 0 w 1 0",
            "5 unmon a 1 = state 1",
            "6 mon b 1 = monitored 1",
        ],
    ),
];

#[test]
fn status_monitor(rt: HostRuntime) -> Result<(), (&'static str, Misplayed)> {
    play_rows(rt.alloc(), Way::Pieces, ROWS)
}
