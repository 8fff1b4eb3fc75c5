//! What happens to a daemon, one event after another, and whether it sends just what it should for each.
use daemon_core::{Addressee, Daemon, Event, EventOutcome, Frame, Outputs, Peer, SendBuffer, Sent};
use hosts_db::HostStore;
use range_table::RangeTable;
use std::alloc::{AllocError, Global};

/// What goes otherwise than it should, and the number with which it does.
pub(super) type Wrong = (&'static str, u32);

/// Whether it goes as it should.
pub(super) fn goes(is_right: bool, what: &'static str, number: u32) -> Result<(), Wrong> {
    if is_right {
        Ok(())
    } else {
        Err((what, number))
    }
}

/// The connection that brings records.
const CONNECTION: u64 = 7;

/// The own state behind the first restart, times 2^32, to which the numbers of calls are added.
const FIRST_CALLS: u64 = 0x1_0000_0000;

/// What an event is to send: words.
#[derive(Clone, Copy)]
pub(super) enum Response<'w> {
    Nothing,
    /// To the client.
    Reply(&'w [u32]),
    /// To the host `b`.
    Call(&'w [u32]),
}

/// What is sent, what should be, and where a reply is put together: room that each event uses anew.
#[derive(Drop)]
pub(super) struct Slate {
    alloc: Global,
    sent: Vec<u8>,
    told: Vec<u8>,
    room: Frame,
}

fn put_words(bytes: &mut Vec<u8>, words: &[u32]) -> Result<(), AllocError> {
    for word in words {
        bytes.extend_from_slice(word.to_be_bytes().as_slice())?;
    }
    Ok(())
}

impl Slate {
    pub(super) fn new(alloc: Global) -> Slate {
        Slate {
            alloc,
            sent: Vec::new(alloc),
            told: Vec::new(alloc),
            room: Frame::new(),
        }
    }

    // Whether these words are sent.
    fn has(&mut self, sent: &Sent, words: &[u32]) -> bool {
        self.sent.clear();
        self.told.clear();
        sent.write(&mut self.room, &mut self.sent).is_ok()
            && put_words(&mut self.told, words).is_ok()
            && self.sent.as_slice() == self.told.as_slice()
    }

    // Whether just that is sent, to whom it should.
    fn is_told(&mut self, sent: &Option<Sent>, told: Response<'_>) -> bool {
        let Some(sent) = sent else {
            return matches!(told, Response::Nothing);
        };
        match (told, sent.to()) {
            (Response::Reply(words), Addressee::Client(number)) => {
                number == CONNECTION && self.has(sent, words)
            }
            (Response::Call(words), Addressee::Host(name)) => name == b"b".as_slice()
                && self.has(sent, words),
            _ => false,
        }
    }

    fn is_right(&mut self, outputs: &Outputs, told: Response<'_>) -> bool {
        outputs.outcome == EventOutcome::Applied
            && outputs.refusal.is_none()
            && self.is_told(&outputs.sent, told)
    }
}

/// Whether the event sends just that.
pub(super) fn sends<T: RangeTable, S: HostStore>(
    daemon: &mut Daemon<T, S>,
    slate: &mut Slate,
    event: Event,
    told: Response<'_>,
) -> bool {
    let outputs = daemon.step(event);
    let is_right = slate.is_right(&outputs, told);
    drop(outputs);
    is_right
}

/// The server begins anew, its grace period ends, and the connection begins.
pub(super) fn begins<T: RangeTable, S: HostStore>(
    daemon: &mut Daemon<T, S>,
    slate: &mut Slate,
) -> Result<(), Wrong> {
    let connect = Event::Connect {
        connection: CONNECTION,
        peer: Peer::PIPE,
    };
    let is_right = sends(daemon, slate, Event::Restart, Response::Nothing)
        && sends(daemon, slate, Event::GraceOver, Response::Nothing)
        && sends(daemon, slate, connect, Response::Nothing);
    goes(is_right, "the server begins", 0)
}

/// Whether a record of these words comes, and is answered by those.
pub(super) fn asks<T: RangeTable, S: HostStore>(
    daemon: &mut Daemon<T, S>,
    slate: &mut Slate,
    call: &[u32],
    reply: &[u32],
) -> bool {
    let mut bytes = Vec::new(slate.alloc);
    if put_words(&mut bytes, call).is_err() {
        return false;
    }
    let connection = CONNECTION;
    let piece = Event::Piece { connection, bytes };
    let take = Event::Take {
        connection,
        index: 0,
    };
    sends(daemon, slate, piece, Response::Nothing)
        && sends(daemon, slate, take, Response::Reply(reply))
}

/// Whether the first of the calls that are due is this one, or none is.
pub(super) fn calls<T: RangeTable, S: HostStore>(
    daemon: &mut Daemon<T, S>,
    slate: &mut Slate,
    told: Response<'_>,
) -> bool {
    match Box::new(slate.alloc, SendBuffer::new()) {
        Ok(send_buffer) => sends(daemon, slate, Event::Send { send_buffer }, told),
        Err(_) => false,
    }
}

/// Nobody answers the call of this number.
pub(super) fn is_silent<T: RangeTable, S: HostStore>(
    daemon: &mut Daemon<T, S>,
    slate: &mut Slate,
    number: u32,
) -> bool {
    let number = FIRST_CALLS | u64::from(number);
    sends(daemon, slate, Event::Silent { number }, Response::Nothing)
}
