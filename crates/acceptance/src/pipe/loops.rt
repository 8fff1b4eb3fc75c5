//! A stream through the loops of `lockd`, and what they write for it.
ghost use Rattle.std.specs.Prelude.{◌≡◌, [], IfOk};

use callbacks::ShortBytes;
use hosts_db::{FULL_QUOTA, HostRow, MemHosts};
use pipe_loops::{Server, StreamFault, pipe_loop, table_loop};
use range_table::FlatTable;
use std::alloc::Global;
use test_kit::{Lent, Pace, Sink, Source, put_plain};

/// What serves the stream.
#[derive(Clone, Copy, PartialEq, Eq)]
pub(crate) enum Loop {
    /// Replies, of a server of no hosts.
    Replies,
    /// The same in the grace period, which goes on.
    RepliesInGrace,
    /// The same of a server in the own state 1 that knows `a` and `b`.
    RepliesToHosts,
    /// The table of locks at the stream's end.
    Table,
}

/// How the stream comes, and what can be written.
#[derive(Clone, Copy)]
pub(crate) struct Ends {
    /// The most bytes that one read gives, how often each read is interrupted first, and how many reads go well.
    pub(crate) most: usize,
    pub(crate) interruptions: u32,
    pub(crate) reads: usize,
    /// The bytes of the stream that come before its end, and those for which the writer has room.
    pub(crate) bytes: usize,
    pub(crate) room: usize,
    /// The bytes that are to be written, of all that is told.
    pub(crate) told: usize,
}

/// All at once, with room for all.
pub(crate) const AMPLE: Ends = Ends {
    most: 8_192,
    interruptions: 0,
    reads: 2_000,
    bytes: usize::MAX,
    room: 4_096,
    told: usize::MAX,
};

/// A stream, what is told for it, and how the loop ends.
#[derive(Clone, Copy)]
pub(crate) struct Stream {
    pub(crate) name: &'static str,
    pub(crate) which: Loop,
    /// The most bytes that one read gives: it is served by each of these.
    pub(crate) pieces: &'static [usize],
    pub(crate) comes: &'static str,
    /// Words, or the text of the table.
    pub(crate) told: &'static str,
    pub(crate) ended: Result<(), StreamFault>,
}

/// Of `lockd`, which gives up behind so many reads.
const MOST_READS: u64 = 1_000;

fn put_hosts(alloc: Global, hosts: &mut Vec<HostRow>) -> Option<()> {
    for letter in [b'b', b'a'] {
        let name = Vec::from_slice(alloc, [letter].as_slice()).ok()?;
        hosts.push(HostRow::new(name, 1, 3, FULL_QUOTA)).ok()?;
    }
    Some(())
}

fn store(alloc: Global, which: Loop) -> Result<MemHosts, StreamFault> {
    let knows = which == Loop::RepliesToHosts;
    let mut hosts = Vec::new(alloc);
    if knows && put_hosts(alloc, &mut hosts).is_none() {
        return Err(StreamFault::Starved);
    }
    match MemHosts::new(alloc, u32::from(knows), hosts, Vec::new(alloc)) {
        Ok(store) => Ok(store),
        Err(_) => Err(StreamFault::StoreRefused),
    }
}

// It is named `server`. Its store is lent, since the compiler builds a daemon of its own for each kind of store.
fn server<'a>(
    alloc: Global,
    which: Loop,
    store: Lent<'a, MemHosts>,
) -> Result<Server<FlatTable, Lent<'a, MemHosts>>, StreamFault>
    ensures { IfOk result (λ server. server.table ≡ []) }
{
    let Ok(own_name) = ShortBytes::copy_of(alloc, b"server") else {
        return Err(StreamFault::Starved);
    };
    let table = FlatTable::new(alloc)?;
    Ok(Server {
        table,
        store,
        own_name,
        is_grace: which == Loop::RepliesInGrace,
    })
}

fn serve(
    alloc: Global,
    which: Loop,
    source: &mut Source<'_>,
    sink: &mut Sink,
) -> Result<(), StreamFault> {
    let mut store = store(alloc, which)?;
    let mut writes = 0;
    let server = server(alloc, which, Lent::new(&mut store, &mut writes))?;
    if which == Loop::Table {
        table_loop(alloc, server, source, sink, MOST_READS)
    } else {
        pipe_loop(alloc, server, source, sink, MOST_READS)
    }
}

// What is written for the bytes, and how the loop ends.
fn written(
    alloc: Global,
    which: Loop,
    comes: &[u8],
    ends: Ends,
) -> (Vec<u8>, Result<(), StreamFault>) {
    let pace = Pace {
        most: ends.most,
        interruptions: ends.interruptions,
        reads: ends.reads,
    };
    let mut source = Source::new(front(comes, ends.bytes), pace);
    let mut sink = Sink {
        held: Vec::new(alloc),
        room: ends.room,
    };
    let ended = serve(alloc, which, &mut source, &mut sink);
    (sink.held, ended)
}

fn front(bytes: &[u8], most: usize) -> &[u8] {
    bytes.get(..most).unwrap_or(bytes)
}

fn put_told(bytes: &mut Vec<u8>, stream: &Stream) -> bool {
    if stream.which == Loop::Table {
        bytes.extend_from_slice(stream.told.as_bytes()).is_ok()
    } else {
        put_plain(bytes, stream.told)
    }
}

/// Whether just that is written for the stream, and the loop ends so.
pub(crate) fn is_served(alloc: Global, stream: &Stream, ends: Ends) -> bool {
    let mut comes = Vec::new(alloc);
    let mut told = Vec::new(alloc);
    let is_put = put_plain(&mut comes, stream.comes) && put_told(&mut told, stream);
    let (held, ended) = written(alloc, stream.which, &comes, ends);
    is_put && ended == stream.ended && held.as_slice() == front(&told, ends.told)
}
