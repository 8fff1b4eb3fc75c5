//! The rows of the lock manager, under their own names.
use daemon_scripts::{Misplayed, Row, Way, play, play_rows};

pub(crate) const SHARE_CONFLICT: &[&str] = &[
    "begins",
    "46 share a 2 1 = shared",
    "stored not-asked",
    "47 share b 0 2 = not-shared",
    "stored not-asked",
];

/// A store that has all its hosts refuses the row of one more: its LOCK changes nothing; an NM_LOCK asks for no row.
pub(crate) const REFUSED_HOST: &[&str] = &[
    "begins",
    "48 lock b 0 1 = no-locks",
    "stored refused",
    "known 0",
    "49 test a 0 0 = granted",
    "stored not-asked",
    "50 nm-lock b 0 1 = granted",
    "stored not-asked",
    "51 lock a 0 1 = denied",
    "stored not-asked",
];

/// A stream comes whole, and once more by five bytes.
const CUT_ROWS: &[Row] = &[
    ("null", &["begins", "1 null = done"]),
    (
        "test_after_lock",
        &[
            "begins",
            "2 lock a 0 10 = granted",
            "3 test b 0 0 = held a 0 10",
            "4 unlock a 3 3 = granted",
            "5 test b 0 0 = held a 0 3",
        ],
    ),
    (
        "ends_of_file",
        &[
            "begins",
            "6 lock a 9223372036854775807 1 = granted",
            "7 lock a 9223372036854775807 2 = fbig",
            "8 lock a 9223372036854775807 0 = granted",
            "9 test b 0 0 = held a 9223372036854775807 0",
            "10 lock-long a = stale-fh",
        ],
    ),
    (
        "free_all",
        &[
            "begins",
            "10 lock a 0 10 = granted",
            "11 share a 1 1 = shared",
            "12 free-all a = done",
            "13 test b 0 0 = granted",
            "14 share b 3 3 = shared",
            "known 0",
        ],
    ),
    (
        "absent_unlock",
        &[
            "begins",
            "15 unshare a = shared",
            "16 unlock a 0 0 = granted",
            "known 0",
        ],
    ),
    (
        "nm_lock",
        &[
            "begins",
            "17 nm-lock a 0 1 = granted",
            "18 nm-lock b 0 1 = denied",
            "rows",
            "19 lock a 0 1 = granted",
            "rows a 1 3",
        ],
    ),
    (
        "share_replaced",
        &[
            "begins",
            "19 share a 0 1 = shared",
            "20 share a 2 1 = shared",
            "21 share b 0 2 = not-shared",
        ],
    ),
];

#[test]
fn rows_cut(rt: HostRuntime) -> Result<(), (&'static str, Misplayed)> {
    play_rows(rt.alloc(), Way::Cut, CUT_ROWS)
}

/// It comes by 64 bytes.
const ROWS: &[Row] = &[
    (
        "grace",
        &[
            "restarts",
            "30 lock a 0 10 = in-grace",
            "31 reclaim a 0 10 = granted",
            "32 test b 0 0 = in-grace",
            "grace-over",
            "33 reclaim a 0 10 = in-grace",
        ],
    ),
    ("share_conflict", SHARE_CONFLICT),
];

#[test]
fn rows(rt: HostRuntime) -> Result<(), (&'static str, Misplayed)> {
    play_rows(rt.alloc(), Way::Pieces, ROWS)
}

/// The bytes 0 to 2 of the file 01020304 and each second byte behind them are 63 runs; 64 in each of 1,023 files more fill
/// the table but for one. Only what adds no run is done then.
const TABLE_FULL: &[&str] = &[
    "begins",
    "40 lock a 0 3 = granted",
    "locks 0x01020304 2 64",
    "fills 1023",
    "41 lock a 200000 1 = no-locks",
    "42 unlock a 1 1 = no-locks",
    "43 test b 1 1 = held a 0 3",
    "44 unlock a 4 1 = granted",
    "45 unlock a 1 1 = granted",
    "46 test b 0 2 = held a 0 1",
];

#[test]
fn table_full(rt: HostRuntime) -> Result<(), Misplayed> {
    play(rt.alloc(), TABLE_FULL)
}

/// The same where the locks of others leave room for one run more.
const TABLE_FULL_OF_OTHERS: &[&str] = &[
    "begins",
    "locks 2000 0 62",
    "fills 1023",
    "50 lock a 0 10 = granted",
    "51 lock a 20 1 = no-locks",
    "52 nm-lock b 20 1 = no-locks",
    "53 unlock a 3 3 = no-locks",
    "54 test b 0 0 = held a 0 10",
    "55 unlock a 0 3 = granted",
    "56 test b 0 0 = held a 3 7",
    "57 unlock b 0 0 = granted",
    "58 unlock a 0 0 = granted",
    "59 lock b 20 1 = granted",
];

#[test]
fn table_full_of_others(rt: HostRuntime) -> Result<(), Misplayed> {
    play(rt.alloc(), TABLE_FULL_OF_OTHERS)
}

/// Of a server that knows as many hosts as a store has.
const FULL_ROWS: &[Row] = &[
    ("refused_host", REFUSED_HOST),
    // Nor may a host without a row wait.
    (
        "refused_waiter",
        &[
            "grace-over",
            "connect pipe",
            "52 nm-lock a 0 1 = granted",
            "53 block b 0 1 = no-locks",
            "stored refused",
            "known 1",
            "54 unlock a 0 1 = granted",
            "known 0",
            "quiet",
        ],
    ),
];

#[test]
fn rows_of_a_full_store(rt: HostRuntime) -> Result<(), (&'static str, Misplayed)> {
    play_rows(rt.alloc(), Way::Full, FULL_ROWS)
}
