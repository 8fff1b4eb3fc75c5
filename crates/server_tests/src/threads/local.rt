//! The lines of a local program, and the sender's turns behind them.
use super::parts::Kept;
use super::rounds::{Crew, Turn, audited};
use super::sending::{NOTHING, Sent};
use super::stop_signals::StopSignals;
use callback_sender::Due;
use line_loop::{LinesEnding, serve_lines};
use std::alloc::{AllocError, Global};
use std::fmt::Write;
use std::sync::atomic::Ordering;
use std::sync::ledger::Ledger;
use std::sync::{Mutex, Wait};
use std::test::*;
use std::thread::Threads;
use std::time::Clock;
use test_kit::{AT_ONCE, Pace, Sink, Source};

/// Lines, how they come, and what comes of them.
#[derive(Clone, Copy)]
pub(crate) struct Talk<'a> {
    name: &'a str,
    lines: &'a [u8],
    pace: Pace,
    /// How often they are read at most.
    bound: u64,
    /// For how many bytes of the answers there is room.
    room: usize,
    answers: &'a str,
    ending: LinesEnding,
    /// How many calls are due.
    due: u64,
    sent: Sent<'a>,
}

impl Talk<'_> {
    /// Whether this comes of the lines, and nothing else is told. A server that is told to stop is stopping, and no other.
    pub(crate) fn goes<L: Ledger, R: Wait>(
        &self,
        rt: &R,
        alloc: Global,
        shared: &Mutex<Kept<L>>,
    ) -> bool {
        let stop_signals = StopSignals::new();
        let mut input = Source::new(self.lines, self.pace);
        let mut output = Sink {
            held: Vec::new(alloc),
            room: self.room,
        };
        let served = serve_lines(
            alloc,
            rt,
            shared,
            &stop_signals,
            7,
            &mut input,
            &mut output,
            self.bound,
        );
        let ending = served.ending;
        ending == self.ending
            && output.held.as_slice() == self.answers.as_bytes()
            && stop_signals.is_stopping.load(Ordering::SeqCst) == (ending == LinesEnding::Stopped)
            && stop_signals.due.load(Ordering::SeqCst) == self.due
            && self.sent.is_handed(rt, alloc, shared)
    }
}

/// No worker has a part in it.
const NOBODY: Crew = Crew {
    count: 0,
    is_audited: true,
};

fn is_so<R: Threads + Wait + Clock + Sync>(rt: &R, alloc: Global, talk: &Talk<'_>) -> bool {
    audited(rt, alloc, NOBODY, Turn::Talks(talk)) == Some(0)
}

const SILENT: Talk<'static> = Talk {
    name: "no line",
    lines: b"",
    pace: AT_ONCE,
    bound: u64::MAX,
    room: usize::MAX,
    answers: "",
    ending: LinesEnding::Over,
    due: 0,
    sent: NOTHING,
};

const EMPTY_LINE: Talk<'static> = Talk {
    name: "an empty line",
    lines: b"\n",
    answers: "bad\n",
    ..SILENT
};

const HALF_A_LINE: Talk<'static> = Talk {
    name: "half a line",
    lines: b"table",
    ..SILENT
};

const TWO_LISTS: Talk<'static> = Talk {
    name: "two lists",
    lines: b"table\nhosts\n",
    answers: "end\nend\n",
    ..SILENT
};

const LOCK_AND_TEST: Talk<'static> = Talk {
    name: "local_loop",
    lines: b"setlk p1 aa w 0 1\ngetlk d1 aa w 0 1\n",
    answers: "ok\nheld w 0 1 p1\n",
    ..SILENT
};

const LOCK_AND_TABLE: Talk<'static> = Talk {
    name: "a lock and the table",
    lines: b"setlk p1 aa w 0 1\ntable\n",
    answers: "ok\naa w 0 0 p1\nend\n",
    ..SILENT
};

const CLOSED: Talk<'static> = Talk {
    name: "a waiter, and the holder closes",
    lines: b"setlk p1 aa w 0 1\nsetlkw d1 aa r 0 1\nclose p1 aa\n",
    answers: "ok\nwait\nok\n",
    due: 1,
    sent: Sent {
        turns: &[(Due::Nothing, 1), (Due::Nothing, 0), (Due::Nothing, 0)],
        lines: "7: granted d1 aa r 0 1\n",
        call: "",
    },
    ..SILENT
};

const UNLOCKED: Talk<'static> = Talk {
    name: "a waiter, and the holder unlocks",
    lines: b"setlk p1 aa w 0 1\nsetlkw d1 aa w 0 1\nsetlk p1 aa u 0 1\n",
    answers: "ok\nwait\nok\n",
    due: 1,
    sent: Sent {
        turns: &[(Due::Nothing, 1), (Due::Nothing, 0), (Due::Nothing, 0)],
        lines: "7: granted d1 aa w 0 1\n",
        call: "",
    },
    ..SILENT
};

const STOP: Talk<'static> = Talk {
    name: "stop",
    lines: b"setlk p1 aa w 0 1\nstop\ngetlk d1 aa w 0 1\n",
    answers: "ok\nok\n",
    ending: LinesEnding::Stopped,
    ..SILENT
};

const STOP_AND_A_SPACE: Talk<'static> = Talk {
    name: "stop and a space",
    lines: b"stop \n",
    answers: "bad\n",
    ..SILENT
};

/// It is read again.
const INTERRUPTED: Talk<'static> = Talk {
    name: "interrupted reads",
    pace: Pace {
        most: 1,
        interruptions: 3,
        ..AT_ONCE
    },
    ..TWO_LISTS
};

const RESET: Talk<'static> = Talk {
    name: "a failed read",
    lines: b"table\n",
    pace: Pace {
        most: 1,
        reads: 0,
        ..AT_ONCE
    },
    ending: LinesEnding::ReadFault,
    ..SILENT
};

/// The first line is answered at its sixth byte.
const BOUNDED: Talk<'static> = Talk {
    name: "as many reads as there may be",
    pace: Pace { most: 1, ..AT_ONCE },
    bound: 11,
    answers: "end\n",
    ending: LinesEnding::ReadFault,
    ..TWO_LISTS
};

/// The front of its answers is written for which there is room.
const NO_ROOM: Talk<'static> = Talk {
    name: "no room for an answer",
    pace: Pace { most: 1, ..AT_ONCE },
    room: 0,
    answers: "",
    ending: LinesEnding::WriteFault,
    ..TWO_LISTS
};

const ROOM_FOR_A_FRONT: Talk<'static> = Talk {
    name: "room for the front of an answer",
    room: 3,
    answers: "end",
    ..NO_ROOM
};

const ROOM_FOR_ONE: Talk<'static> = Talk {
    name: "room for an answer and a front",
    room: 6,
    answers: "end\nen",
    ..NO_ROOM
};

const TALKS: &[Talk<'static>] = &[
    SILENT,
    EMPTY_LINE,
    HALF_A_LINE,
    TWO_LISTS,
    LOCK_AND_TEST,
    LOCK_AND_TABLE,
    CLOSED,
    UNLOCKED,
    STOP,
    STOP_AND_A_SPACE,
    INTERRUPTED,
    RESET,
    BOUNDED,
    NO_ROOM,
    ROOM_FOR_A_FRONT,
    ROOM_FOR_ONE,
];

#[test]
fn one_answer_a_line(rt: HostRuntime) -> Result<(), &'static str> {
    for talk in TALKS {
        if !is_so(&rt, rt.alloc(), talk) {
            return Err(talk.name);
        }
    }
    Ok(())
}

// Whether a line of so many bytes is bad, and the one behind it is answered.
fn is_bad<R: Threads + Wait + Clock + Sync>(rt: &R, alloc: Global, count: usize) -> bool {
    match vec![in alloc; b'x'; count] {
        Ok(mut lines) => {
            lines.extend_from_slice(b"\nsetlk p1 aa w 0 1\n").is_ok()
                && is_so(
                    rt,
                    alloc,
                    &Talk {
                        lines: lines.as_slice(),
                        answers: "bad\nok\n",
                        ..SILENT
                    },
                )
        }
        Err(_) => false,
    }
}

const LONG: &[usize] = &[511, 512, 513, 514, 9_000];

// Its length is the error.
#[test]
fn a_long_line_is_bad(rt: HostRuntime) -> Result<(), usize> {
    for count in LONG {
        if !is_bad(&rt, rt.alloc(), *count) {
            return Err(*count);
        }
    }
    Ok(())
}

/// What waiters ask, and what they are told.
#[derive(Drop)]
struct Waiters {
    lines: String,
    answers: String,
    granted: String,
}

impl Waiters {
    fn new(alloc: Global) -> Waiters {
        Waiters {
            lines: String::new(alloc),
            answers: String::new(alloc),
            granted: String::new(alloc),
        }
    }

    // One more.
    fn add(&mut self, number: u32) -> Result<(), AllocError> {
        write!(self.lines, "setlkw d{number} aa r 0 1\n")?;
        self.answers.push_str("wait\n")?;
        write!(self.granted, "7: granted d{number} aa r 0 1\n")
    }

    // So many, of which each is granted when the lock goes.
    fn fill(&mut self, count: u32) -> Result<(), AllocError> {
        self.lines.push_str("setlk p1 aa w 0 1\n")?;
        self.answers.push_str("ok\n")?;
        for number in 0..count {
            self.add(number)?;
        }
        self.lines.push_str("close p1 aa\n")?;
        self.answers.push_str("ok\n")
    }
}

// Whether each of so many waiters gets its line, in these turns.
fn are_granted<R: Threads + Wait + Clock + Sync>(
    rt: &R,
    alloc: Global,
    count: u32,
    turns: &[(Due, usize)],
) -> bool {
    let mut waiters = Waiters::new(alloc);
    waiters.fill(count).is_ok()
        && is_so(
            rt,
            alloc,
            &Talk {
                name: "waiters",
                lines: waiters.lines.as_bytes(),
                pace: AT_ONCE,
                bound: u64::MAX,
                room: usize::MAX,
                answers: waiters.answers.as_str(),
                ending: LinesEnding::Over,
                due: 1,
                sent: Sent {
                    turns,
                    lines: waiters.granted.as_str(),
                    call: "",
                },
            },
        )
}

const FEW: &[(Due, usize)] = &[(Due::Nothing, 2), (Due::Nothing, 0), (Due::Nothing, 0)];

const MANY: &[(Due, usize)] = &[(Due::More, 64), (Due::Nothing, 1), (Due::Nothing, 0)];

#[test]
fn most_calls_of_a_turn(rt: HostRuntime) {
    assert!(rt; are_granted(&rt, rt.alloc(), 2, FEW));
    assert!(rt; are_granted(&rt, rt.alloc(), 65, MANY));
}
