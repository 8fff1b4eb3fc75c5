//! Streams, by the names of the worked rows that they are of.
use super::loops::{AMPLE, Ends, Loop, Stream, is_served};
use pipe_loops::StreamFault;
use std::alloc::{AllocError, Global};
use std::fmt::Write;
use std::test::*;

const EMPTY: Stream = Stream {
    name: "empty_input",
    which: Loop::Replies,
    pieces: &[8_192],
    comes: "",
    told: "",
    ended: Ok(()),
};

const HALF_A_MARK: Stream = Stream {
    name: "empty_input: half a mark",
    comes: "80*1 00*1",
    ..EMPTY
};

const NULL: Stream = Stream {
    name: "null",
    pieces: &[1, 8_192],
    comes: "80000028 1 0 2 186b5 4 0 0 0 0 0",
    told: "80000018 1 1 0 0 0 0",
    ..EMPTY
};

/// A NULL in fragments of 16, 0 and 24 bytes.
const FRAGMENTS: Stream = Stream {
    name: "pieces",
    comes: "10 1 0 2 186b5 0 80000018 4 0 0 0 0 0",
    ..NULL
};

/// A LOCK of the bytes 0 to 9 by `a`, and a TEST of the whole file by `b`.
const LOCK_AND_TEST: Stream = Stream {
    name: "test_after_lock",
    pieces: &[1, 7, 8_192],
    comes: "8000006c 2 0 2 186b5 4 2 0 0 0 0 4 2 0 1 1 61000000 4 1020304 1 41000000 7 0 0 0 a 0 3 80000060 3 0 2 186b5 4 1 0 0 0 0 4 3 1 1 62000000 4 1020304 1 42000000 8 0 0 0 0",
    told: "80000024 2 1 0 0 0 0 4 2 0 80000044 3 1 0 0 0 0 4 3 1 1 7 1 41000000 0 0 0 a",
    ..EMPTY
};

const TOO_LONG: Stream = Stream {
    name: "record_too_long",
    comes: "80002001 80000028 1 0 2 186b5 4 0 0 0 0 0",
    ended: Err(StreamFault::RecordTooLong),
    ..EMPTY
};

const NULL_AND_TOO_LONG: Stream = Stream {
    name: "record_too_long: behind a NULL",
    comes: "80000028 1 0 2 186b5 4 0 0 0 0 0 80002001",
    ended: Err(StreamFault::RecordTooLong),
    ..NULL
};

/// The longest record is answered: the bytes behind the arguments are not looked at.
const LONGEST: Stream = Stream {
    name: "record_too_long: the longest that is not",
    pieces: &[8_192],
    comes: "80002000 1 0 2 186b5 4 0 0 0 0 0 00*8152",
    ..NULL
};

const OTHER_RPC_VERSION: Stream = Stream {
    name: "refused_headers: RPC version",
    comes: "80000028 1 0 3 186b5 4 0 0 0 0 0",
    told: "80000018 1 1 1 0 2 2",
    ..EMPTY
};

const OTHER_VERSION: Stream = Stream {
    name: "refused_headers: version",
    comes: "80000028 1 0 2 186b5 2 0 0 0 0 0",
    told: "80000020 1 1 0 0 0 2 1 4",
    ..EMPTY
};

const OTHER_PROCEDURE: Stream = Stream {
    name: "refused_headers: procedure",
    comes: "80000028 1 0 2 186b5 4 10 0 0 0 0",
    told: "80000018 1 1 0 0 0 3",
    ..EMPTY
};

const OTHER_PROGRAM: Stream = Stream {
    name: "refused_headers: program",
    comes: "80000028 1 0 2 186a3 4 0 0 0 0 0",
    told: "80000018 1 1 0 0 0 1",
    ..EMPTY
};

const OTHER_CREDENTIAL: Stream = Stream {
    name: "refused_headers: credential",
    comes: "80000028 1 0 2 186b5 4 0 6 0 0 0",
    told: "80000014 1 1 1 1 1",
    ..EMPTY
};

const AUTH_SYS: Stream = Stream {
    name: "null_auth_sys",
    pieces: &[8_192],
    comes: "80000040 1 0 2 186b5 4 0 1 18 0 1 61000000 0 0 0 0 0",
    ..NULL
};

/// The last word of the credential counts its gids, of which there may be 16.
const SEVENTEEN_GIDS: Stream = Stream {
    name: "null_auth_sys: seventeen gids",
    comes: "80000040 1 0 2 186b5 4 0 1 18 0 1 61000000 0 0 11 0 0",
    told: "80000014 1 1 1 1 1",
    ..EMPTY
};

const ZEROS: Stream = Stream {
    name: "endless_zeros",
    pieces: &[1],
    comes: "00*2000",
    ended: Err(StreamFault::ReadFault),
    ..EMPTY
};

const TWO_NULLS: Stream = Stream {
    name: "failing_ends",
    comes: "80000028 1 0 2 186b5 4 0 0 0 0 0 80000028 1 0 2 186b5 4 0 0 0 0 0",
    told: "80000018 1 1 0 0 0 0 80000018 1 1 0 0 0 0",
    ..EMPTY
};

/// SM_NOTIFY of the own state 3 from `server` to `a` and `b` stands between the replies (XNFS, SM_NOTIFY).
const TO_HOSTS: Stream = Stream {
    name: "notices behind the first reply",
    which: Loop::RepliesToHosts,
    pieces: &[1, 8_192],
    told: "80000018 1 1 0 0 0 0 80000038 1 0 2 186b8 1 6 0 0 0 0 6 73657276 65720000 3 80000038 2 0 2 186b8 1 6 0 0 0 0 6 73657276 65720000 3 80000018 1 1 0 0 0 0",
    ..TWO_NULLS
};

const SILENT: Stream = Stream {
    name: "no notices without a reply",
    which: Loop::RepliesToHosts,
    ..EMPTY
};

/// A LOCK of the bytes 0 to 9, and an UNLOCK of the bytes 3 to 5.
const TABLE: Stream = Stream {
    name: "table_printed",
    which: Loop::Table,
    pieces: &[50],
    comes: "8000006c 2 0 2 186b5 4 2 0 0 0 0 4 2 0 1 1 61000000 4 1020304 1 41000000 7 0 0 0 a 0 3 8000005c 4 0 2 186b5 4 4 0 0 0 0 4 4 1 61000000 4 1020304 1 41000000 7 0 3 0 3",
    told: "01020304 w 0 2 h61/7/41\n01020304 w 6 9 h61/7/41\n",
    ended: Ok(()),
};

/// A fault after the locks: nothing is printed.
const TABLE_AND_TOO_LONG: Stream = Stream {
    name: "table_printed: record too long",
    comes: "8000006c 2 0 2 186b5 4 2 0 0 0 0 4 2 0 1 1 61000000 4 1020304 1 41000000 7 0 0 0 a 0 3 8000005c 4 0 2 186b5 4 4 0 0 0 0 4 4 1 61000000 4 1020304 1 41000000 7 0 3 0 3 80002001",
    told: "",
    ended: Err(StreamFault::RecordTooLong),
    ..TABLE
};

const EMPTY_TABLE: Stream = Stream {
    name: "table_printed: empty",
    comes: "",
    told: "",
    ..TABLE
};

const IN_GRACE: Stream = Stream {
    name: "grace_and_file: in grace",
    which: Loop::RepliesInGrace,
    comes: "8000006c 2 0 2 186b5 4 2 0 0 0 0 4 2 0 1 1 61000000 4 1020304 1 41000000 7 0 0 0 a 0 3",
    told: "80000024 2 1 0 0 0 0 4 2 4",
    ..EMPTY
};

/// The same behind the grace period, of a host that is stored beside another: the notices of the restart follow the reply.
const STORED: Stream = Stream {
    name: "grace_and_file: a stored host",
    which: Loop::RepliesToHosts,
    told: "80000024 2 1 0 0 0 0 4 2 0 80000038 1 0 2 186b8 1 6 0 0 0 0 6 73657276 65720000 3 80000038 2 0 2 186b8 1 6 0 0 0 0 6 73657276 65720000 3",
    ..IN_GRACE
};

const STREAMS: &[Stream] = &[
    EMPTY,
    HALF_A_MARK,
    NULL,
    FRAGMENTS,
    LOCK_AND_TEST,
    TOO_LONG,
    NULL_AND_TOO_LONG,
    LONGEST,
    OTHER_RPC_VERSION,
    OTHER_VERSION,
    OTHER_PROCEDURE,
    OTHER_PROGRAM,
    OTHER_CREDENTIAL,
    AUTH_SYS,
    SEVENTEEN_GIDS,
    ZEROS,
    TO_HOSTS,
    SILENT,
    TABLE,
    TABLE_AND_TOO_LONG,
    EMPTY_TABLE,
    IN_GRACE,
    STORED,
];

// The first of the stream's pieces by which something else is written, or the loop ends otherwise, where each read is
// interrupted so often first.
fn unserved(alloc: Global, stream: &Stream, interruptions: u32) -> Option<usize> {
    for most in stream.pieces {
        let ends = Ends {
            most: *most,
            interruptions,
            ..AMPLE
        };
        if !is_served(alloc, stream, ends) {
            return Some(*most);
        }
    }
    None
}

#[test]
fn streams_in_pieces(rt: HostRuntime) -> Result<(), (&'static str, usize)> {
    for stream in STREAMS {
        if let Some(most) = unserved(rt.alloc(), stream, 0) {
            return Err((stream.name, most));
        }
    }
    Ok(())
}

// The first of the streams that is served otherwise.
fn unserved_of(alloc: Global, streams: &[Stream], interruptions: u32) -> Option<&'static str> {
    for stream in streams {
        if unserved(alloc, stream, interruptions).is_some() {
            return Some(stream.name);
        }
    }
    None
}

// An interrupted read takes nothing from the stream, and is no fault of it.
#[test]
fn interrupted_reads(rt: HostRuntime) -> Result<(), (&'static str, u32)> {
    for interruptions in 1..4 {
        if let Some(name) = unserved_of(rt.alloc(), STREAMS, interruptions) {
            return Err((name, interruptions));
        }
    }
    Ok(())
}

/// Reads that are interrupted for ever end at the bound of reads, with nothing read.
const NEVER_READ: &[Stream] = &[
    Stream {
        name: "pipe",
        pieces: &[8_192],
        told: "",
        ended: Err(StreamFault::ReadFault),
        ..NULL
    },
    Stream {
        name: "table",
        told: "",
        ended: Err(StreamFault::ReadFault),
        ..TABLE
    },
];

#[test]
fn endless_interruptions(rt: HostRuntime) -> Result<(), &'static str> {
    match unserved_of(rt.alloc(), NEVER_READ, u32::MAX) {
        None => Ok(()),
        Some(name) => Err(name),
    }
}

// The number of its bytes is the error.
#[test]
fn stream_cut_short(rt: HostRuntime) -> Result<(), usize> {
    for bytes in 0..44 {
        let ends = Ends {
            bytes,
            told: 0,
            ..AMPLE
        };
        if !is_served(rt.alloc(), &NULL, ends) {
            return Err(bytes);
        }
    }
    Ok(())
}

// The bytes that are written behind so many reads.
fn written_behind(reads: usize, records: &[(usize, usize)]) -> usize {
    let mut written = 0;
    for (end, bytes) in records {
        if *end <= reads {
            written = *bytes;
        }
    }
    written
}

// The first number of reads, of so many bytes each, behind which they fail and something else is written, or the loop goes on.
fn unread(
    alloc: Global,
    stream: &Stream,
    most: usize,
    records: &[(usize, usize)],
) -> Option<usize> {
    let unread = Stream {
        ended: Err(StreamFault::ReadFault),
        ..*stream
    };
    let (last, _) = records.last().copied().unwrap_or((0, 0));
    for reads in 0..=last {
        let ends = Ends {
            most,
            reads,
            told: written_behind(reads, records),
            ..AMPLE
        };
        if !is_served(alloc, &unread, ends) {
            return Some(reads);
        }
    }
    None
}

/// Streams, the bytes of a read, and of each record which read ends it, and how many bytes are written then. The read that ends
/// the LOCK brings the first bytes of the TEST.
const READ: &[(Stream, usize, &[(usize, usize)])] = &[
    (TWO_NULLS, 11, &[(4, 28), (8, 56)]),
    (LOCK_AND_TEST, 5, &[(23, 40), (43, 112)]),
];

#[test]
fn failing_reads(rt: HostRuntime) -> Result<(), (&'static str, usize)> {
    for (stream, most, records) in READ {
        if let Some(reads) = unread(rt.alloc(), stream, *most, records) {
            return Err((stream.name, reads));
        }
    }
    Ok(())
}

// The first room, of these, with which not just the front is written that it has room for, or the loop goes on.
fn uncut(alloc: Global, stream: &Stream, first: usize, behind: usize) -> Option<usize> {
    let unwritten = Stream {
        ended: Err(StreamFault::WriteFault),
        ..*stream
    };
    for room in first..behind {
        let ends = Ends {
            room,
            told: room,
            ..AMPLE
        };
        if !is_served(alloc, &unwritten, ends) {
            return Some(room);
        }
    }
    None
}

/// Streams, and rooms from the first up to the one behind the last. Of the notices: within the first reply and behind it, within
/// each call, and within the second reply.
const WRITTEN: &[(Stream, usize, usize)] = &[
    (TWO_NULLS, 0, 56),
    (LOCK_AND_TEST, 0, 112),
    (TABLE, 0, 48),
    (TO_HOSTS, 0, 1),
    (TO_HOSTS, 27, 33),
    (TO_HOSTS, 87, 101),
    (TO_HOSTS, 147, 149),
    (TO_HOSTS, 175, 176),
];

#[test]
fn failing_writes(rt: HostRuntime) -> Result<(), (&'static str, usize)> {
    for (stream, first, behind) in WRITTEN {
        if let Some(room) = uncut(rt.alloc(), stream, *first, *behind) {
            return Err((stream.name, room));
        }
    }
    Ok(())
}

const FAULTS: &[StreamFault] = &[
    StreamFault::Starved,
    StreamFault::RecordTooLong,
    StreamFault::StoreRefused,
    StreamFault::ReadFault,
    StreamFault::WriteFault,
];

fn put_names(names: &mut String) -> Result<(), AllocError> {
    for fault in FAULTS {
        write!(names, "{fault}")?;
    }
    Ok(())
}

const NAMES: &str = "1 Starved10 RecordTooLong19 StoreRefused23 ReadFault24 WriteFault";

#[test]
fn names_of_faults(rt: HostRuntime) {
    let mut names = String::new(rt.alloc());
    let are_put = put_names(&mut names).is_ok();
    assert!(rt; are_put && names.as_str() == NAMES);
}
