//! Replies are joined, and written to connections in memory.
ghost use Rattle.std.specs.Prelude.{◌≡◌, []};

use book::RecordReply;
use reply_outbox::{Outbox, ReplyBuffer, ReplySockets, SocketEffects};
use std::alloc::{AllocError, Global};
use std::test::*;

/// What was written to a connection.
#[derive(Drop)]
struct Written {
    connection: u64,
    bytes: Vec<u8>,
    jobs: u64,
}

/// Connections in memory, of which that of one number takes no bytes.
#[derive(Drop)]
struct MemorySockets {
    alloc: Global,
    broken: u64,
    written: Vec<Written>,
    due: u32,
    effects: SocketEffects,
}

impl MemorySockets {
    fn new(alloc: Global, broken: u64) -> MemorySockets
        ensures { result.effects ≡ [] }
    {
        MemorySockets {
            alloc,
            broken,
            written: Vec::new(alloc),
            due: 0,
            effects: SocketEffects::new(),
        }
    }

    // Whether there was memory for it.
    fn keep(&mut self, connection: u64, bytes: &[u8], jobs: u64) -> Result<(), AllocError>
        ensures { self.new.effects ≡ self.old.effects }
    {
        let mut copy = Vec::new(self.alloc);
        copy.extend_from_slice(bytes)?;
        self.written.push(Written {
            connection,
            bytes: copy,
            jobs,
        })?;
        Ok(())
    }

    // All that this connection took, and how many of its jobs are done.
    fn taken_by(&self, connection: u64) -> (Vec<u8>, u64) {
        let mut bytes = Vec::new(self.alloc);
        let mut jobs = 0u64;
        for written in &self.written {
            if written.connection == connection {
                let _ = bytes.extend_from_slice(written.bytes.as_slice());
                jobs = jobs.saturating_add(written.jobs);
            }
        }
        (bytes, jobs)
    }
}

impl ReplySockets for MemorySockets {
    ghost effects = { λ s. s.effects };

    fn write(&mut self, connection: u64, bytes: &[u8], jobs: u64) {
        if connection != self.broken && self.keep(connection, bytes, jobs).is_ok() {
            self.effects.add_write(connection, bytes);
        } else {
            self.effects.add_break(connection);
        }
    }

    fn shut(&mut self, connection: u64) {
        self.effects.add_shut(connection);
    }

    fn are_done(&mut self, connection: u64, jobs: u64) {
        let _ = self.keep(connection, &[], jobs);
    }

    fn call_is_due(&mut self) {
        self.due = self.due.saturating_add(1);
    }
}

/// So many replies, for these connections in turn, of which one takes no bytes: how often is written.
struct Row {
    name: &'static str,
    connections: &'static [u64],
    replies: u32,
    broken: u64,
    writes: usize,
}

impl Row {
    // The connection of the reply of this number.
    fn connection(&self, number: u32) -> u64 {
        let most = u32::try_from(self.connections.len()).unwrap_or(u32::MAX);
        let index = number.checked_rem(most).unwrap_or(0);
        self.connections.get(index as usize).copied().unwrap_or(0)
    }

    // What this connection is to take, and how many jobs it is to have done.
    fn wanted_by(&self, alloc: Global, connection: u64) -> (Vec<u8>, u64) {
        let mut bytes = Vec::new(alloc);
        let mut jobs = 0u64;
        for number in 0..self.replies {
            if self.connection(number) == connection && connection != self.broken {
                for word in [0x8000_0018, number, 1, 0, 0, 0, 5] {
                    let _ = bytes.extend_from_slice(word.to_be_bytes().as_slice());
                }
                jobs = jobs.saturating_add(1);
            }
        }
        (bytes, jobs)
    }

    // All replies, and a word that a call is due behind each.
    fn written(&self, alloc: Global) -> MemorySockets {
        let mut outbox = ReplyBuffer::new(alloc, MemorySockets::new(alloc, self.broken));
        for number in 0..self.replies {
            let connection = self.connection(number);
            outbox.turn_to(connection);
            outbox.hand(connection, &RecordReply::SystemErr { xid: number });
            outbox.done(connection, true);
        }
        outbox.into_sockets()
    }

    // Whether each connection took its replies.
    fn goes(&self, alloc: Global) -> bool {
        let sockets = self.written(alloc);
        let mut goes = sockets.written.len() == self.writes && sockets.due == self.replies;
        for connection in self.connections {
            goes &= sockets.taken_by(*connection) == self.wanted_by(alloc, *connection);
        }
        goes
    }
}

const ROWS: &[Row] = &[
    Row {
        name: "one reply",
        connections: &[7],
        replies: 1,
        broken: 0,
        writes: 1,
    },
    Row {
        name: "two connections in turn",
        connections: &[7, 8],
        replies: 10,
        broken: 0,
        writes: 10,
    },
    Row {
        name: "two for one, and one for another",
        connections: &[7, 7, 8],
        replies: 9,
        broken: 0,
        writes: 6,
    },
    Row {
        name: "more than are joined",
        connections: &[7],
        replies: 1_000,
        broken: 0,
        writes: 3,
    },
    Row {
        name: "a connection that takes no bytes",
        connections: &[7, 8],
        replies: 10,
        broken: 8,
        writes: 5,
    },
];

// The name of the first that goes otherwise is the error.
#[test]
fn replies_go_to_their_connections(rt: HostRuntime) -> Result<(), &'static str> {
    for row in ROWS {
        if !row.goes(rt.alloc()) {
            return Err(row.name);
        }
    }
    Ok(())
}
