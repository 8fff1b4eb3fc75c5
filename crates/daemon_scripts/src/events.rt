//! The lines of a script that are events, and what is to be sent for each.
use crate::page::{CONNECTION, LOCAL, Page, read_xid};
use daemon_core::{Event, Peer, SendBuffer};
use test_kit::{put_message, read_number};

impl<'a> Page<'a> {
    /// The bytes of the stream, in pieces.
    pub(crate) fn pieces(&self) -> Option<Vec<Event>> {
        let mut events = Vec::new(self.alloc);
        if self.put_pieces(&mut events).is_none() {
            return None;
        }
        Some(events)
    }

    fn put_pieces(&self, events: &mut Vec<Event>) -> Option<()> {
        for piece in self.come.chunks(self.most.max(1)) {
            let bytes = Vec::from_slice(self.alloc, piece).ok()?;
            events
                .push(Event::Piece {
                    connection: CONNECTION,
                    bytes,
                })
                .ok()?;
        }
        Some(())
    }

    /// So many records are taken.
    pub(crate) fn takes(&self, count: usize) -> Option<Vec<Event>> {
        let mut events = Vec::new(self.alloc);
        for _record in 0..count {
            if events
                .push(Event::Take {
                    connection: CONNECTION,
                    index: 0,
                })
                .is_err()
            {
                return None;
            }
        }
        Some(events)
    }

    /// What happens in a line. None where it can't be read.
    pub fn events(&mut self, verb: &str, rest: &'a str) -> Option<Vec<Event>> {
        let mut events = Vec::new(self.alloc);
        if self.put_events(&mut events, verb, rest).is_none() {
            return None;
        }
        Some(events)
    }

    // The server begins anew, with its grace period over or in it, and the pipe's connection begins; or one event.
    fn put_events(&mut self, events: &mut Vec<Event>, verb: &str, rest: &'a str) -> Option<()> {
        let (begins, is_over) = (verb == "begins" || verb == "restarts", verb == "begins");
        if begins {
            events.push(Event::Restart).ok()?;
        }
        if is_over {
            events.push(Event::GraceOver).ok()?;
        }
        let event = if begins {
            Event::Connect {
                connection: CONNECTION,
                peer: Peer::PIPE,
            }
        } else {
            self.event(verb, rest)?
        };
        events.push(event).ok()
    }

    fn event(&mut self, verb: &str, rest: &'a str) -> Option<Event> {
        match verb {
            "restart" => Some(Event::Restart),
            "grace-over" => Some(Event::GraceOver),
            "connect" => connect(rest),
            "disconnect" => Some(Event::Disconnect {
                connection: CONNECTION,
            }),
            "local" => self.local(rest),
            "sends" => self.sends(rest),
            "sends-line" => self.sends_line(rest),
            "quiet" => self.send(),
            "answer" => self.answer(rest, usize::MAX),
            "answer-cut" => self.answer(rest, 3),
            "silent" => silent(rest),
            _ => None,
        }
    }

    // `|line| answer`, each without its line feed; the lines of an answer are parted by semicolons.
    fn local(&mut self, rest: &'a str) -> Option<Event> {
        let (_, behind) = rest.split_once("|")?;
        let (line, answer) = behind.split_once("| ")?;
        self.put_line(answer)?;
        let bytes = Vec::from_slice(self.alloc, line.as_bytes()).ok()?;
        Some(Event::Local {
            connection: LOCAL,
            line: bytes,
        })
    }

    pub(crate) fn put_line(&mut self, line: &str) -> Option<()> {
        self.whom = "local";
        for byte in line.bytes() {
            self.told
                .push(if byte == b';' { b'\n' } else { byte })
                .ok()?;
        }
        self.told.push(b'\n').ok()
    }

    // To whom, the xid, and the call.
    fn sends(&mut self, rest: &'a str) -> Option<Event> {
        let (whom, behind) = rest.split_once(" ")?;
        let (xid, call) = behind.split_once(" ")?;
        self.whom = whom;
        put_message(&mut self.told, read_xid(xid)?, call)?;
        self.send()
    }

    fn sends_line(&mut self, line: &str) -> Option<Event> {
        self.put_line(line)?;
        self.send()
    }

    fn send(&self) -> Option<Event> {
        let send_buffer = Box::new(self.alloc, SendBuffer::new()).ok()?;
        Some(Event::Send { send_buffer })
    }

    // The xid and the answer, of which at most so many bytes come. It has no mark.
    fn answer(&mut self, rest: &str, most: usize) -> Option<Event> {
        let (xid, answer) = rest.split_once(" ")?;
        put_message(&mut self.come, read_xid(xid)?, answer)?;
        let record = self.come.get(4..)?;
        let front = record.get(..most).unwrap_or(record);
        let bytes = Vec::from_slice(self.alloc, front).ok()?;
        Some(Event::Answer { bytes })
    }
}

// Of the program at the pipe, or of a peer that isn't local.
fn connect(name: &str) -> Option<Event> {
    let is_local = name == "pipe";
    if !is_local && name != "afar" {
        return None;
    }
    let peer = Peer {
        is_local,
        ..Peer::PIPE
    };
    Some(Event::Connect {
        connection: CONNECTION,
        peer,
    })
}

// The own state, and the number of the call under it.
fn silent(rest: &str) -> Option<Event> {
    let (own, number) = rest.split_once(" ")?;
    let first = read_xid(own)? as u64 * 0x1_0000_0000;
    Some(Event::Silent {
        number: first.wrapping_add(read_number(number)?),
    })
}
