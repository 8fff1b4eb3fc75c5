//! Two connections of one server: a record is named by its connection and by its place among those that wait there.
use daemon_core::{Addressee, Daemon, Event, Frame, Outputs, Peer};
use daemon_scripts::{memory, opened};
use hosts_db::HostStore;
use range_arena::ArenaTable;
use range_table::RangeTable;
use std::alloc::Global;
use std::test::*;
use test_kit::{Lent, put_plain};

/// What happens, and what is sent for it: to whom, and the words.
const STEPS: &[(Step, &str)] = &[
    (Step::Connects(1), ""),
    (Step::Connects(2), ""),
    (
        Step::Brings(
            1,
            "80000028 1 0 2 186b5 4 0 0 0 0 0 80000028 2 0 2 186b5 4 0 0 0 0 0",
        ),
        "",
    ),
    (Step::Brings(2, "80000028 3 0 2 186b5 4 0 0 0 0 0"), ""),
    // The second of the first connection, which leaves the first one there; and there is no second any more.
    (Step::Takes(1, 1), "1 80000018 2 1 0 0 0 0"),
    (Step::Takes(1, 1), ""),
    (Step::Takes(2, 1), ""),
    (Step::Takes(2, 0), "2 80000018 3 1 0 0 0 0"),
    (Step::Takes(1, 0), "1 80000018 1 1 0 0 0 0"),
    (Step::Takes(1, 0), ""),
    (Step::Takes(3, 0), ""),
    // What is answered goes by the order of the takes, not of the records: the lock of `b`, brought second, is the one that holds.
    (Step::GraceOver, ""),
    (Step::Brings(1, LOCKS), ""),
    (Step::Brings(2, UNLOCK_AND_LOCK), ""),
    (Step::Takes(1, 1), "1 80000024 5 1 0 0 0 0 4 5 0"),
    (Step::Takes(2, 1), "2 80000024 8 1 0 0 0 0 4 8 1"),
    // That was the third.
    (
        Step::Takes(1, 1),
        "1 80000044 6 1 0 0 0 0 4 6 1 1 8 1 42000000 0 0 0 a",
    ),
    (Step::Takes(2, 1), ""),
    (Step::Takes(2, 0), "2 80000024 7 1 0 0 0 0 4 7 0"),
    (Step::Takes(1, 0), "1 80000024 4 1 0 0 0 0 4 4 0"),
    (Step::Takes(1, 0), ""),
    (Step::Takes(2, 0), ""),
];

/// LOCKs of the bytes 0 to 9 by `a` and by `b`, and a TEST of the whole file by `d`.
const LOCKS: &str =
    "8000006c 4 0 2 186b5 4 2 0 0 0 0 4 4 0 1 1 61000000 4 1020304 1 41000000 7 0 0 0 a 0 3 8000006c 5 0 2 186b5 4 2 0 0 0 0 4 5 0 1 1 62000000 4 1020304 1 42000000 8 0 0 0 a 0 3 80000060 6 0 2 186b5 4 1 0 0 0 0 4 6 1 1 64000000 4 1020304 1 44000000 a 0 0 0 0";

/// An UNLOCK of those bytes by `b`, and a LOCK of them by `d`.
const UNLOCK_AND_LOCK: &str =
    "8000005c 7 0 2 186b5 4 4 0 0 0 0 4 7 1 62000000 4 1020304 1 42000000 8 0 0 0 a 8000006c 8 0 2 186b5 4 2 0 0 0 0 4 8 0 1 1 64000000 4 1020304 1 44000000 a 0 0 0 a 0 3";

#[derive(Clone, Copy)]
enum Step {
    GraceOver,
    Connects(u64),
    /// These words come on the connection.
    Brings(u64, &'static str),
    /// The record at this place of the connection is taken.
    Takes(u64, usize),
}

fn event_of(alloc: Global, step: Step) -> Option<Event> {
    match step {
        Step::GraceOver => Some(Event::GraceOver),
        Step::Connects(connection) => Some(Event::Connect {
            connection,
            peer: Peer::PIPE,
        }),
        Step::Brings(connection, words) => {
            let mut bytes = Vec::new(alloc);
            put_plain(&mut bytes, words).then_some(Event::Piece { connection, bytes })
        }
        Step::Takes(connection, index) => Some(Event::Take { connection, index }),
    }
}

// The connection as a word, and the bytes; nothing where nothing is sent.
fn put_sent(bytes: &mut Vec<u8>, outputs: &Outputs) -> Option<()> {
    let Some(sent) = &outputs.sent else {
        return Some(());
    };
    let Addressee::Client(connection) = sent.to() else {
        return None;
    };
    let number = u32::try_from(connection).ok()?;
    bytes
        .extend_from_slice(number.to_be_bytes().as_slice())
        .ok()?;
    sent.write(&mut Frame::new(), bytes).ok()
}

fn goes<T: RangeTable, S: HostStore>(
    daemon: &mut Daemon<T, S>,
    alloc: Global,
    step: Step,
    words: &str,
) -> Option<bool> {
    let outputs = daemon.step(event_of(alloc, step)?);
    let (mut sent, mut wanted) = (Vec::new(alloc), Vec::new(alloc));
    put_sent(&mut sent, &outputs)?;
    Some(put_plain(&mut wanted, words) && sent.as_slice() == wanted.as_slice())
}

// The place of the first step that goes otherwise.
fn wrong_step<T: RangeTable, S: HostStore>(
    daemon: &mut Daemon<T, S>,
    alloc: Global,
) -> Option<usize> {
    for (place, (step, words)) in STEPS.iter().enumerate() {
        if goes(daemon, alloc, *step, words) != Some(true) {
            return Some(place);
        }
    }
    None
}

fn played(alloc: Global) -> Option<Option<usize>> {
    let mut store = memory(alloc, 0, Vec::new(alloc))?;
    let mut writes = 0;
    let table = ArenaTable::new(alloc).ok()?;
    let mut daemon = opened(alloc, table, Lent::new(&mut store, &mut writes))?;
    let wrong = wrong_step(&mut daemon, alloc);
    drop(daemon);
    Some(wrong)
}

#[test]
fn records_of_two_connections(rt: HostRuntime) {
    assert!(rt; played(rt.alloc()) == Some(None));
}
