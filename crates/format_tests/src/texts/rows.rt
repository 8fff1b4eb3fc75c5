//! Printed texts of locks and hosts.
use super::lines::locks_of;
use super::printed::Printed;
use held_locks::Locks;
use hosts_db::{FULL_QUOTA, HostRow};
use range_table::FlatTable;
use std::alloc::Global;

/// Where the locks are printed: where there is room for all, or in turn where there is less.
#[derive(Clone, Copy, PartialEq)]
enum Room {
    Whole,
    Short,
}

// Whether the locks are printed as this text, out of a row for which there is memory.
fn are_printed(alloc: Global, room: Room, locks: &Locks<FlatTable>, want: &str) -> bool {
    let printed = Printed::Locks(locks);
    match room {
        Room::Whole => locks.listing().is_some() && printed.is(alloc, want),
        Room::Short => printed.is_cut(want),
    }
}

// The same of those that the lines set.
fn prints(alloc: Global, room: Room, lines: &str, want: &str) -> bool {
    match locks_of(alloc, lines) {
        Some(locks) => are_printed(alloc, room, &locks, want),
        None => false,
    }
}

const LOCKED_AND_PARTLY_UNLOCKED: &str = "1.2.3.4 w 0 9 97/7/65
1.2.3.4 u 3 5 97/7/65";

const BOTH_ENDS: &str = "01020304 w 0 2 h61/7/41
01020304 w 6 9 h61/7/41
";

#[test]
fn table_printed(rt: HostRuntime) {
    assert!(rt; prints(rt.alloc(), Room::Whole, "", ""));
    assert!(rt;
        prints(
            rt.alloc(),
            Room::Whole,
            LOCKED_AND_PARTLY_UNLOCKED,
            BOTH_ENDS
        )
    );
}

// Owners of each kind, set in another order than they are printed in.
const KINDS: &str = "250.1 r 4 9223372036854775807 d18446744073709551615
250.2 r 0 0 p42
250.1 r 5 6 d7
250.1 r 5 8 p0
250.1 r 5 5 /-2147483648/
250.1 r 5 5 97.98/10/255.0";

const KINDS_PRINTED: &str = "fa01 r 4 9223372036854775807 d18446744073709551615
fa01 r 5 5 h/-2147483648/
fa01 r 5 5 h6162/10/ff00
fa01 r 5 8 p0
fa01 r 5 6 d7
fa02 r 0 0 p42
";

#[test]
fn owners_of_each_kind(rt: HostRuntime) {
    assert!(rt; prints(rt.alloc(), Room::Whole, KINDS, KINDS_PRINTED));
    assert!(rt; Printed::End.is(rt.alloc(), "end\n"));
}

#[test]
fn a_writer_that_fails(rt: HostRuntime) {
    assert!(rt; prints(rt.alloc(), Room::Short, KINDS, KINDS_PRINTED));
}

fn hosts(alloc: Global) -> Option<[HostRow; 2]> {
    let named = Vec::from_slice(alloc, b"a").ok()?;
    Some([
        HostRow::new(Vec::new(alloc), 0, -2_147_483_648, 0),
        HostRow::new(named, 1, 3, FULL_QUOTA),
    ])
}

fn prints_hosts(alloc: Global, want: &str) -> bool {
    match hosts(alloc) {
        Some(rows) => {
            let printed = Printed::Hosts(&rows);
            printed.is(alloc, want) && printed.is_cut(want)
        }
        None => false,
    }
}

#[test]
fn hosts_line(rt: HostRuntime) {
    assert!(rt; Printed::Hosts(&[]).is(rt.alloc(), ""));
    assert!(rt; prints_hosts(rt.alloc(), " 0 -2147483648 0\n61 1 3 65536\n"));
}

// Three lines of 4,116 bytes each.
const LONG: &str = "1.2.3.4 r 0 0 255*1024/1/255*1024
1.2.3.4 r 0 0 255*1024/2/255*1024
1.2.3.4 r 0 0 255*1024/3/255*1024";

// Whether the text goes out in four writes, of no more than a block each, and in no more where one of them fails.
fn is_in_blocks(alloc: Global, printed: Printed<'_>) -> bool {
    let (all, is_whole) = printed.sizes(alloc, 10);
    let mut are_alike = is_whole && all.len() == 4 && all.iter().all(|size| *size <= 4096);
    for most in 0..5 {
        let (some, is_whole) = printed.sizes(alloc, most);
        let first = all.iter().take(most);
        are_alike = are_alike && some.iter().eq(first) && is_whole == (most == 4);
    }
    are_alike
}

fn goes_in_blocks(alloc: Global) -> bool {
    match locks_of(alloc, LONG) {
        Some(locks) => {
            let printed = Printed::Locks(&locks);
            printed.len(alloc) == 3 * 4_116 && is_in_blocks(alloc, printed)
        }
        None => false,
    }
}

#[test]
fn in_blocks(rt: HostRuntime) {
    assert!(rt; goes_in_blocks(rt.alloc()));
}
