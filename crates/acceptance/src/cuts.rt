//! A LOCK whose bytes are cut (RFC 5531, section 11; RFC 1813, appendix II): its stream and its record, behind each of their bytes.
use daemon_core::Daemon;
use daemon_scripts::{DaemonTask, Page, happens, memory, streams, with_daemon};
use hosts_db::HostStore;
use range_table::RangeTable;
use std::alloc::Global;
use std::mem;
use std::test::*;
use test_kit::put_plain;

/// The record of an exclusive LOCK of the bytes 0 to 9, 108 bytes.
const LOCK: &str = "2 0 2 186b5 4 2 0 0 0 0 4 2 0 1 1 61000000 4 1020304 1 41000000 7 0 0 0 a 0 3";

const GRANTED: &str = "80000024 2 1 0 0 0 0 4 2 0";

const GARBAGE_ARGS: &str = "80000018 2 1 0 0 0 4";

fn is_sent<T: RangeTable, S: HostStore>(
    daemon: &mut Daemon<T, S>,
    page: &mut Page<'_>,
    stream: &[u8],
) -> Option<bool> {
    let begins = page.events("begins", "")?;
    happens(daemon, page, begins)?;
    page.come.extend_from_slice(stream).ok()?;
    streams(daemon, page)
}

// All that a server that begins anew sends for a stream that comes whole, and is refused nothing.
fn sent_for<T: RangeTable, S: HostStore>(
    daemon: &mut Daemon<T, S>,
    alloc: Global,
    stream: &[u8],
) -> Option<Vec<u8>> {
    let mut page = Page::new(alloc, 8_192);
    let is_sent = is_sent(daemon, &mut page, stream);
    let sent = mem::replace(&mut page.sent, Vec::new(alloc));
    drop(page);
    (is_sent == Some(true)).then_some(sent)
}

// Whether that is these words.
fn gets<T: RangeTable, S: HostStore>(
    daemon: &mut Daemon<T, S>,
    alloc: Global,
    stream: &[u8],
    words: &str,
) -> bool {
    let mut wanted = Vec::new(alloc);
    match sent_for(daemon, alloc, stream) {
        Some(sent) => put_plain(&mut wanted, words) && sent.as_slice() == wanted.as_slice(),
        None => false,
    }
}

// The stream of the first bytes of the LOCK's record, as a record of their own. None where there are not so many.
fn record_of(alloc: Global, len: usize) -> Option<Vec<u8>> {
    let mut record = Vec::new(alloc);
    let mut stream = Vec::new(alloc);
    let is_put = put_plain(&mut record, LOCK);
    let mark = 0x8000_0000 | u32::try_from(len).ok()?;
    stream
        .extend_from_slice(mark.to_be_bytes().as_slice())
        .ok()?;
    stream.extend_from_slice(record.get(..len)?).ok()?;
    is_put.then_some(stream)
}

// What such a record is answered: nothing where its header is cut, GARBAGE_ARGS where its arguments are.
fn answer_to(len: usize) -> &'static str {
    match len {
        0..40 => "",
        40..108 => GARBAGE_ARGS,
        _ => GRANTED,
    }
}

/// What is cut.
#[derive(Clone, Copy)]
enum Part {
    /// The record, whose mark counts the bytes that are left.
    Record,
    /// The stream, within its record.
    Stream,
}

// The stream of so many bytes, and what it is answered.
fn cut(alloc: Global, part: Part, len: usize) -> Option<(Vec<u8>, &'static str)> {
    if let Part::Record = part {
        let record = record_of(alloc, len)?;
        return Some((record, answer_to(len)));
    }
    let mut stream = record_of(alloc, 108)?;
    stream.truncate(len);
    Some((stream, ""))
}

/// Of what is cut, and the first of its lengths that is answered otherwise than it should.
#[derive(Drop)]
struct Cuts {
    alloc: Global,
    part: Part,
    most: usize,
    wrong: Option<usize>,
}

impl Cuts {
    fn is_answered<T: RangeTable, S: HostStore>(
        &self,
        daemon: &mut Daemon<T, S>,
        len: usize,
    ) -> bool {
        match cut(self.alloc, self.part, len) {
            Some((stream, words)) => gets(daemon, self.alloc, &stream, words),
            None => false,
        }
    }
}

impl DaemonTask for Cuts {
    fn act<T: RangeTable, S: HostStore>(&mut self, daemon: &mut Daemon<T, S>) {
        for len in 0..=self.most {
            if !self.is_answered(daemon, len) {
                self.wrong = Some(len);
                return;
            }
        }
        self.wrong = None;
    }
}

// By one server, which begins anew for each length up to this one. The first that goes otherwise is the error.
fn are_answered(alloc: Global, part: Part, most: usize) -> Result<(), usize> {
    let mut cuts = Cuts {
        alloc,
        part,
        most,
        wrong: Some(usize::MAX),
    };
    if let Some(mut store) = memory(alloc, 0, Vec::new(alloc)) {
        with_daemon(alloc, &mut store, &mut cuts);
    }
    match cuts.wrong {
        None => Ok(()),
        Some(len) => Err(len),
    }
}

#[test]
fn record_cut_short(rt: HostRuntime) -> Result<(), usize> {
    are_answered(rt.alloc(), Part::Record, 108)
}

#[test]
fn stream_cut_short(rt: HostRuntime) -> Result<(), usize> {
    are_answered(rt.alloc(), Part::Stream, 111)
}
