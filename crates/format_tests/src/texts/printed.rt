//! What is printed, into which writer.
ghost use Rattle.std.specs.Prelude.{◌≤◌, length};

use held_locks::Locks;
use hosts_db::HostRow;
use range_table::FlatTable;
use std::alloc::Global;
use std::io::{self, Error, ErrorKind, Write};
use table_text::{print_end, print_hosts, print_table};

/// What can be printed.
#[derive(Clone, Copy)]
pub(crate) enum Printed<'a> {
    Locks(&'a Locks<FlatTable>),
    Hosts(&'a [HostRow]),
    End,
}

impl Printed<'_> {
    /// Whether all was written.
    fn print<W: Write>(self, writer: &mut W) -> bool {
        match self {
            Printed::Locks(locks) => print_table(locks, writer).is_ok(),
            Printed::Hosts(rows) => print_hosts(rows, writer).is_ok(),
            Printed::End => print_end(writer).is_ok(),
        }
    }

    /// Whether it is this text.
    pub(crate) fn is(self, alloc: Global, want: &str) -> bool {
        let mut text = Vec::new(alloc);
        self.print(&mut text) && text.as_slice() == want.as_bytes()
    }

    pub(crate) fn len(self, alloc: Global) -> usize {
        let mut text = Vec::new(alloc);
        if self.print(&mut text) { text.len() } else { 0 }
    }

    // Whether a writer of so much room gets as much of the text, and a fault is told where that isn't all.
    fn fills(self, want: &[u8], room: usize) -> bool
        requires { room ≤ length want.now }
    {
        let mut bytes = [0; 200];
        if room > 200 {
            return false;
        }
        let mut rest = &mut bytes[..room];
        let is_whole = self.print(&mut rest);
        is_whole == (room == want.len()) && &bytes[..room] == &want[..room]
    }

    /// Whether each writer with less room gets a front of the text, and a fault is told.
    pub(crate) fn is_cut(self, want: &str) -> bool {
        let want = want.as_bytes();
        for room in 0..want.len() + 1 {
            if !self.fills(want, room) {
                return false;
            }
        }
        true
    }

    /// The sizes of the writes, of which so many succeed, and whether all was printed.
    pub(crate) fn sizes(self, alloc: Global, most: usize) -> (Vec<usize>, bool) {
        let mut sink = Sink {
            sizes: Vec::new(alloc),
            most,
        };
        let is_whole = self.print(&mut sink);
        (sink.sizes, is_whole)
    }
}

/// Notes how many bytes each write brought, and fails after so many writes.
#[derive(Drop)]
struct Sink {
    sizes: Vec<usize>,
    most: usize,
}

impl Write for Sink {
    fn write(&mut self, buf: &[u8]) -> io::Result<usize> {
        if self.sizes.len() == self.most {
            return Err(Error::from(ErrorKind::Other));
        }
        match self.sizes.push(buf.len()) {
            Ok(()) => Ok(buf.len()),
            Err(_) => Err(Error::from(ErrorKind::OutOfMemory)),
        }
    }

    fn flush(&mut self) -> io::Result<()> {
        Ok(())
    }
}
