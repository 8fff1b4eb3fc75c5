//! Lines of local programs, beside the calls of clients: all share one table.
use daemon_scripts::{Misplayed, PIECE, Row, Way, play, play_by, play_rows, play_with_all_hosts};
use std::alloc::{AllocError, Global};
use std::fmt::Write;

/// A LOCK of ten bytes by an owner whose host's name and own bytes are as long as can be: 1,024.
const LONG_LOCK: &str =
    "in 80000864 35 0 2 186b5 4 2 0 0 0 0 4 35 0 1 400 61*1024 4 1020304 400 41*1024 7 0 0 0 a 0 3";

fn put_long_holder(line: &mut String) -> Result<(), AllocError> {
    line.push_str("local |getlk d1 01020304 r 0 1| held w 0 10 h")?;
    for _byte in 0..1_024 {
        line.push_str("61")?;
    }
    line.push_str("/7/")?;
    for _byte in 0..1_024 {
        line.push_str("41")?;
    }
    Ok(())
}

fn play_long_owner(alloc: Global) -> Result<(), Misplayed> {
    let mut line = String::new(alloc);
    let played = match put_long_holder(&mut line) {
        Ok(()) => {
            let granted = "out 80000024 35 1 0 0 0 0 4 35 0";
            let held = line.as_str();
            let lines = ["begins", LONG_LOCK, granted, held, "restart", "stored yes"];
            play_by(alloc, 128 * PIECE, &lines)
        }
        Err(AllocError) => Err(Misplayed::NoServer),
    };
    drop(line);
    played
}

// A line that fits no record.
#[test]
fn longest_line(rt: HostRuntime) -> Result<(), Misplayed> {
    play_long_owner(rt.alloc())
}

// `table` names each second of 200 bytes, which one owner holds.
fn put_locks(line: &mut String) -> Option<()> {
    line.push_str("local |table| ").ok()?;
    for byte in 0..100u32 {
        let at = byte.wrapping_mul(2);
        write!(line, "00000007 w {at} {at} h61/7/41;").ok()?;
    }
    line.push_str("end").ok()
}

// `hosts` names as many hosts as a store has.
fn put_hosts(line: &mut String) -> Option<()> {
    line.push_str("local |hosts| ").ok()?;
    for number in 0..4_096 {
        write!(line, "{number:08x} 1 0 65536;").ok()?;
    }
    line.push_str("end").ok()
}

fn play_locks(alloc: Global) -> Result<(), Misplayed> {
    let mut line = String::new(alloc);
    let played = match put_locks(&mut line) {
        Some(()) => play(alloc, &["begins", "locks 7 0 100", line.as_str()]),
        None => Err(Misplayed::NoServer),
    };
    drop(line);
    played
}

fn play_hosts(alloc: Global) -> Result<(), Misplayed> {
    let mut line = String::new(alloc);
    let played = match put_hosts(&mut line) {
        Some(()) => play_with_all_hosts(alloc, &["begins", line.as_str()]),
        None => Err(Misplayed::NoServer),
    };
    drop(line);
    played
}

// Answers of many lines.
#[test]
fn longest_lists(rt: HostRuntime) -> Result<(), Misplayed> {
    play_locks(rt.alloc())?;
    play_hosts(rt.alloc())
}

/// Lines alone, and beside calls.
const ROWS: &[Row] = &[
    (
        "local_lines",
        &[
            "begins",
            "local |setlk p1 aa w 5 0| ok",
            "local |setlk p1 aa r 7 1| ok",
            "local |setlk p1 aa u 6 1| ok",
            "local |getlk d1 AA r 0 0| held w 5 1 p1",
            "local |getlk d1 aa w 6 2| held r 7 1 p1",
            "local |getlk d1 aa r 8 1| held w 8 0 p1",
            "local |setlk p1 aa w 9223372036854775807 2| fbig",
            "local |setlk p01 aa w 0 1| bad",
            "local |setlk d1 aa r 5 1| again",
            "local |setlk d1 aa r 7 1| ok",
            "local |setlk d1 bb w 0 0| ok",
            "local |close d1 aa| ok",
            "local |getlk d1 aa w 5 1| held w 5 1 p1",
            "local |close p1 aa| ok",
            "local |getlk d1 aa w 0 0| free",
            "local |getlk p1 bb r 9 1| held w 0 0 d1",
            "local |setlkw p1 bb w 9 1| wait",
            "local |setlkw p1 bb w 9 1| wait",
            "local |setlkw d1 bb u 0 8| ok",
        ],
    ),
    (
        "local_lines_and_calls",
        &[
            "begins",
            "local |setlk p42 01020304 w 3 3| ok",
            "49 test b 4 1 = held-by-process 42 3 3",
            "local |getlk d7 01020304 w 0 0| held w 3 3 p42",
            "local |setlk d7 01020304 r 5 1| again",
            "local |close p42 01020304| ok",
            "local |setlk d7 01020304 w 0 0| ok",
            "50 test b 1 1 = held-by-description 7 0 0",
            "local |setlk p42 01020304 x 0 1| bad",
        ],
    ),
    // An answer that lists has a line for each lock or host, and `end` behind them.
    (
        "hosts_line",
        &[
            "begins",
            "local |table| end",
            "local |hosts| end",
            "150 lock a 0 10 = granted",
            "local |hosts| 61 1 3 65536;end",
            "local |table| 01020304 w 0 9 h61/7/41;end",
            "local |hosts | bad",
            "local |stop| ok",
        ],
    ),
    // In grace nothing is locked or asked about, but `close` acts.
    (
        "lines_in_grace",
        &[
            "restarts",
            "local |setlk p1 01020304 w 0 1| grace",
            "local |getlk p1 01020304 w 0 1| grace",
            "local |setlk p1 01020304 w 9223372036854775807 2| fbig",
            "local |close p1 01020304| ok",
            "grace-over",
            "local |getlk d1 01020304 w 0 0| free",
            "local |setlk d1 01020304 r 3 3| ok",
            "51 lock a 0 4 = denied",
            "52 lock a 6 4 = granted",
            "local |getlk d1 01020304 r 0 0| held w 6 4 h61/7/41",
        ],
    ),
    // Whatever is none of the protocol.
    (
        "bad_lines",
        &[
            "begins",
            "local || bad",
            "local |getlk p1 aa u 0 1| bad",
            "local |getlk p1 aa r 0 1 | bad",
            "local |setlk h61/7/41 aa w 0 1| bad",
            "local |setlkw p1 aa w 0 1 | bad",
            "local |getlk d1 aa w 0 0| free",
        ],
    ),
    // How many owners have a number after each line.
    (
        "known_by_lines",
        &[
            "begins",
            "local |getlk p1 aa w 5 1| free",
            "known 0",
            "local |setlk p1 aa w 5 1| ok",
            "known 1",
            "local |setlk p2 aa w 5 1| again",
            "known 1",
            "local |setlk d1 aa r 7 1| ok",
            "known 2",
            "local |setlk p1 aa u 5 1| ok",
            "known 1",
            "local |setlk p1 bb w 0 1| ok",
            "known 2",
            "local |setlk p1 aa w 0 1| ok",
            "known 2",
            "local |close p1 aa| ok",
            "known 2",
            "local |close p1 bb| ok",
            "known 1",
            "local |close p9 aa| ok",
            "known 1",
            "local |close d1 bb| ok",
            "known 1",
            "local |close d1 aa| ok",
            "known 0",
            "local |setlkw p1 aa w 0 1| ok",
            "known 1",
            "local |setlkw p2 aa w 0 1| wait",
            "known 2",
            "local |table| aa w 0 0 p1;end",
            "local |hosts| end",
            "local |quota 61 1| absent",
            "known 2",
            "local |close p2 aa| ok",
            "known 1",
            "local |close p1 aa| ok",
            "known 0",
        ],
    ),
];

#[test]
fn local_lines(rt: HostRuntime) -> Result<(), (&'static str, Misplayed)> {
    play_rows(rt.alloc(), Way::Pieces, ROWS)
}
