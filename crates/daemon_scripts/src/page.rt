//! What comes to a server, what it is to send for that, and what it sends.
use crate::counting::{Counting, filled};
use daemon_core::{Addressee, EventOutcome, EventRefusal, Frame, Outputs, StoreAnswer};
use std::alloc::Global;
use std::mem;
use test_kit::{Terms, put_message, put_terms, put_words, read_number};

/// The connection that brings records.
pub(crate) const CONNECTION: u64 = 7;

/// That of a local program.
pub(crate) const LOCAL: u64 = 5;

/// What comes, and what is sent.
#[derive(Drop)]
pub struct Page<'a> {
    pub(crate) alloc: Global,
    /// The stream that comes, whether one does, and how many bytes of it come at once.
    pub come: Vec<u8>,
    pub(crate) is_streaming: bool,
    pub(crate) most: usize,
    /// What is to be sent, and to whom: to the `client`, the `local` program, or a host.
    pub(crate) told: Vec<u8>,
    pub(crate) whom: &'a str,
    /// What is to be sent instead where the store refuses, if that is another.
    told_instead: Vec<u8>,
    has_instead: bool,
    /// The refusal that the stream's last piece is to get.
    pub(crate) fault: Option<EventRefusal>,
    /// What is sent, whether all of it to whom it should, and the refusal of what came last.
    pub sent: Vec<u8>,
    pub(crate) is_theirs: bool,
    pub(crate) refusal: Option<EventRefusal>,
    /// What the store said, if what came asked it.
    pub(crate) store: StoreAnswer,
    /// Whether a growth was refused, and what was sent before the page was cleared.
    pub(crate) is_starved: bool,
    pub(crate) was_sent: Vec<u8>,
    /// Where a reply is put together.
    room: Frame,
}

impl<'a> Page<'a> {
    /// Of a stream of which so many bytes come at once.
    pub fn new(alloc: Global, most: usize) -> Page<'a> {
        Page {
            alloc,
            come: Vec::new(alloc),
            is_streaming: false,
            most,
            told: Vec::new(alloc),
            whom: "client",
            told_instead: Vec::new(alloc),
            has_instead: false,
            fault: None,
            sent: Vec::new(alloc),
            is_theirs: true,
            refusal: None,
            store: StoreAnswer::NotAsked,
            is_starved: false,
            was_sent: Vec::new(alloc),
            room: Frame::new(),
        }
    }

    /// Nothing was sent and nothing is to be, from now on.
    pub(crate) fn clear(&mut self) {
        self.come.clear();
        self.is_streaming = false;
        self.told.clear();
        self.fault = None;
        mem::swap(&mut self.sent, &mut self.was_sent);
        self.sent.clear();
        self.is_theirs = true;
    }

    /// Whether just that was sent that should be, and nothing was refused.
    pub(crate) fn is_right(&self) -> bool {
        self.is_sent() && self.refusal.is_none()
    }

    fn is_sent(&self) -> bool {
        let told = if self.has_instead && self.store == StoreAnswer::Refused {
            &self.told_instead
        } else {
            &self.told
        };
        self.is_theirs && self.sent.as_slice() == told.as_slice()
    }

    /// Takes in what is to be sent where the store refuses: a local program's answer, or the reply to the call under this xid.
    pub(crate) fn tell_refusal(&mut self, verb: &str, text: &str) -> Option<()> {
        if verb == "local" {
            self.put_line(text)?;
        } else {
            put_message(&mut self.told, read_xid(verb)?, text)?;
        }
        mem::swap(&mut self.told, &mut self.told_instead);
        self.has_instead = true;
        Some(())
    }

    /// Whether just that was sent that should be, and nothing was refused but, by the store, what nobody is answered.
    pub(crate) fn is_right_by_store(&self) -> bool {
        let is_heard = match self.refusal {
            None => true,
            Some(EventRefusal::StoreRefused) => {
                self.store == StoreAnswer::Refused && self.sent.is_empty()
            }
            Some(_) => false,
        };
        is_heard && self.is_sent()
    }

    fn is_for(&self, to: Addressee<'_>) -> bool {
        match to {
            Addressee::Client(number) => number == CONNECTION && self.whom == "client",
            Addressee::Local(number) => number == LOCAL && self.whom == "local",
            Addressee::Host(name) => name == self.whom.as_bytes(),
        }
    }

    /// Notes what came of an event. None where there is no memory.
    pub(crate) fn hear(&mut self, outputs: &Outputs) -> Option<()> {
        self.refusal = outputs.refusal;
        self.is_starved = self.is_starved || outputs.outcome != EventOutcome::Applied;
        if outputs.store != StoreAnswer::NotAsked {
            self.store = outputs.store;
        }
        let Some(sent) = &outputs.sent else {
            return Some(());
        };
        self.is_theirs = self.is_theirs && self.is_for(sent.to());
        sent.write(&mut self.room, &mut self.sent).ok()
    }

    /// Takes in a line of the stream. None where it is none of the stream; else whether it could be read.
    pub(crate) fn read(&mut self, verb: &str, rest: &str) -> Option<bool> {
        let read = match verb {
            "in" => put_words(&mut self.come, rest, &Terms::new(0, b'a')),
            "out" => put_words(&mut self.told, rest, &Terms::new(0, b'a')),
            "too-long" => {
                self.fault = Some(EventRefusal::RecordTooLong);
                Some(())
            }
            "times" => self.repeat(rest),
            "counts" => self.count(rest),
            "locks" => self.lock_bytes(&Terms::read(0, rest)),
            "watches" => self.watch(rest),
            _ => self.ask(read_xid(verb)?, rest),
        };
        self.is_streaming = true;
        Some(read.is_some())
    }

    /// A call, and its reply.
    fn ask(&mut self, xid: u32, text: &str) -> Option<()> {
        let (asked, told) = text.split_once(" = ")?;
        put_message(&mut self.come, xid, asked)?;
        put_message(&mut self.told, xid, told)
    }

    // The same call so often, under the xids from this one on.
    fn repeat(&mut self, text: &str) -> Option<()> {
        let (count, rest) = text.split_once(" ")?;
        let (first, asks) = rest.split_once(" ")?;
        let mut xid = read_xid(first)?;
        for _ in 0..read_xid(count)? {
            self.ask(xid, asks)?;
            xid = xid.wrapping_add(1);
        }
        Some(())
    }

    // A call for each of these numbers, which stands for each `%` in it and in its reply.
    fn count(&mut self, text: &str) -> Option<()> {
        let (counting, asks) = Counting::read(text)?;
        for number in counting.from..counting.to {
            let asks = filled(self.alloc, asks, number).ok()?;
            self.ask(counting.beside(number), asks.as_str())?;
        }
        Some(())
    }

    // So many watchers watch `w`, each with a procedure of its own.
    fn watch(&mut self, count: &str) -> Option<()> {
        for number in 0..read_xid(count)? {
            let mut terms = Terms::new(number, b'w');
            terms.set(0, number as u64);
            put_terms(&mut self.come, "mon", &terms)?;
            put_message(&mut self.told, number, "monitored 1")?;
        }
        Some(())
    }

    /// `a` locks each second byte of this file, from the one of this number to before the one of that. Each is granted.
    pub(crate) fn lock_bytes(&mut self, range: &Terms) -> Option<()> {
        let [fh, from, to, ..] = range.numbers;
        for number in from..to {
            let mut terms = Terms::new(u32::try_from(number.wrapping_add(1_000)).ok()?, b'a');
            terms.set(0, fh);
            terms.set(1, number.wrapping_mul(2));
            terms.set(2, 1);
            put_terms(&mut self.come, "lock-in", &terms)?;
            put_terms(&mut self.told, "granted", &terms)?;
        }
        self.is_streaming = true;
        Some(())
    }
}

/// An xid, or another number of 4 bytes.
pub fn read_xid(word: &str) -> Option<u32> {
    u32::try_from(read_number(word)?).ok()
}
