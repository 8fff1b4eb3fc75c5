//! One question, step by step.

ghost use Rattle.std.specs.Prelude.{◌≡◌};
ghost use Rattle.port_lookup.specs.declared.lookup.Action.TheVariants.{Nothing as nothing};
ghost use Rattle.port_lookup.specs.Lookups.{Needed, Refused, Came, Passed, Lost, Steps, idle, port_of, question_of};

use port_mapper::{Port, Response, read_port};
use std::marker::Model;
use std::time::Instant;

/// What the port mapper is asked over.
#[derive(Clone, Copy, Debug, PartialEq, Eq)]
pub enum Transport {
    Tcp,
    Udp,
}

/// What the port mapper was asked and has not answered.
#[derive(Clone, Copy, Debug, PartialEq, Eq)]
pub struct Question {
    pub xid: u32,
    pub over: Transport,
    /// When it is given up.
    pub until: Instant,
}

/// How far it is.
#[derive(Clone, Copy, Debug, PartialEq, Eq)]
pub enum State {
    /// Nothing was asked, or the connection to the port was lost since.
    Idle,
    /// The port mapper was asked.
    Asked(Question),
    /// It named this port.
    Named(Port),
    /// It named none: it was refused over TCP and over UDP, its answer has no port, or none came in time.
    Unnamed,
}

/// What the caller is to do.
#[derive(Clone, Copy, Debug, PartialEq, Eq)]
pub enum Action {
    Nothing,
    /// To connect to the port mapper, and to send it the question there.
    Connect,
    /// To drop that connection, and to send the port mapper the question in a datagram.
    SendDatagram,
    /// To drop what the question went over: it is over.
    Close,
}

/// The question to the port mapper of one host.
#[derive(Clone, Copy, Debug, Drop)]
pub struct PortLookup {
    state: State,
}

impl Model for PortLookup {
    ghost use Rattle.port_lookup.specs.declared.lookup.State.{State};

    ghost Value = { State };

    ghost view = { λ l. l.state };

    ghost inverse = { λ s. record { state = s } };
}

impl PortLookup {
    /// Nothing was asked.
    pub fn new() -> PortLookup
        ensures { result ≡ idle }
    {
        PortLookup { state: State::Idle }
    }

    pub fn state(&self) -> State
        ensures { result ≡ self.now }
    {
        self.state
    }

    /// The port that the port mapper named.
    pub fn port(&self) -> Option<u16>
        ensures { result ≡ port_of self.now }
    {
        match self.state {
            State::Named(port) => Some(port.number),
            _ => None,
        }
    }

    /// What was asked and is not answered.
    pub fn question(&self) -> Option<Question>
        ensures { result ≡ question_of self.now }
    {
        match self.state {
            State::Asked(question) => Some(question),
            _ => None,
        }
    }

    /// The port is needed. It is asked for under this xid where it was not, and given up at this time.
    pub fn need(&mut self, xid: u32, until: Instant) -> Action
        ensures { Steps self.old (Needed xid until) self.new result }
    {
        match self.state {
            State::Idle => {
                let over = Transport::Tcp;
                self.state = State::Asked(Question { xid, over, until });
                Action::Connect
            }
            State::Named(_) | State::Asked(_) | State::Unnamed => Action::Nothing,
        }
    }

    /// The port mapper refuses what it is asked over, or has ended it without an answer.
    pub fn refuse(&mut self) -> Action
        ensures { Steps self.old Refused self.new result }
    {
        let State::Asked(question) = self.state else {
            return Action::Nothing;
        };
        match question.over {
            Transport::Tcp => {
                let over = Transport::Udp;
                self.state = State::Asked(Question { over, ..question });
                Action::SendDatagram
            }
            Transport::Udp => {
                self.state = State::Unnamed;
                Action::Close
            }
        }
    }

    /// A record or a datagram came from the port mapper.
    pub fn hear(&mut self, bytes: &[u8]) -> Action
        ensures { Steps self.old (Came bytes.now) self.new result }
    {
        let State::Asked(question) = self.state else {
            return Action::Nothing;
        };
        match read_port(bytes, question.xid) {
            Response::Other => Action::Nothing,
            Response::NoResult => {
                self.state = State::Unnamed;
                Action::Close
            }
            Response::Result(port) => {
                self.state = State::Named(port);
                Action::Close
            }
        }
    }

    /// It is this late.
    pub fn pass(&mut self, now: Instant) -> Action
        ensures { Steps self.old (Passed now) self.new result }
    {
        let State::Asked(question) = self.state else {
            return Action::Nothing;
        };
        if now.checked_duration_since(question.until).is_none() {
            return Action::Nothing;
        }
        self.state = State::Unnamed;
        Action::Close
    }

    /// The connection to the port was refused or lost: the port is asked for again where it is needed.
    pub fn lose(&mut self)
        ensures { Steps self.old Lost self.new nothing }
    {
        match self.state {
            State::Asked(_) => {}
            _ => self.state = State::Idle,
        }
    }
}
