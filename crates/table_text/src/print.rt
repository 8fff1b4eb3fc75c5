//! The texts.

ghost use Rattle.std.specs.Prelude.{◌≡◌, ◌<◌, [], ◌∷◌, codes, IfSome, Some, slice_get};
ghost use Rattle.definitions.specs.Starts.{runs, used};
ghost use Rattle.held_locks.specs.Asked.{view_of_lock_holder};
ghost use Rattle.held_locks.specs.Listing.{IsListing};
ghost use Rattle.local_ops.specs.Texts.{line};
ghost use Rattle.table_text.specs.Texts.{runs_text, rows_text};
ghost use Rattle.byte_io.specs.Written.{Wrote};

use crate::lines::{put_host, put_run};
use byte_io::{WriteFault, write_whole};
use held_locks::{Listing, Locks, RunHolder};
use hosts_db::HostRow;
use range_table::RangeTable;
use std::io::Write;
use xdr_core::Frame;

/// Prints all locks, one line for each run `FH MODE FIRST LAST OWNER`, in order of file, first byte and owner. FH and the
/// bytes of an owner stand in lower-case hexadecimal; LAST is the run's last byte, 9223372036854775807 of one to the end of
/// its file (2^63 - 1, POSIX fcntl). Without locks nothing is printed.
///
/// The writer gets at most 4,096 bytes at a time. Where a write fails or takes nothing, the fault is `24 WriteFault`, and the
/// writer holds a front of the text.
///
/// It takes memory for a copy of the runs, and time by the length of the text and by their number times its logarithm. Where
/// that memory can't be had, each line costs a search, and the square of the number of runs that have its file and first byte.
pub fn print_table<R: RangeTable, W: Write>(
    locks: &Locks<R>,
    writer: &mut W,
) -> Result<(), WriteFault>
    ensures { Wrote (W.contents writer.old) (W.contents writer.new) result (runs_text (runs locks.now.settings)) }
{
    print_row(locks, &locks.listing(), writer)
}

// Prints all locks, out of their row where there is one.
fn print_row<R: RangeTable, W: Write>(
    locks: &Locks<R>,
    all: &Option<Listing>,
    writer: &mut W,
) -> Result<(), WriteFault>
    requires row { IfSome all.now (IsListing locks.now) }
    ensures { Wrote (W.contents writer.old) (W.contents writer.new) result (runs_text (runs locks.now.settings)) }
{
    let mut block = Frame::new();
    for i in 0..locks.used() {
        put_run(&mut block, writer, &holder(locks, all, i))?;
    }
    write_whole(writer, block.as_slice())
}

// The i-th of all locks, out of their row where there is one.
fn holder<'a, R: RangeTable>(locks: &'a Locks<R>, all: &Option<Listing>, i: u32) -> RunHolder<'a>
    requires row { IfSome all.now (IsListing locks.now) }
    requires within { i < used locks.now.settings }
    ensures { slice_get (runs locks.now.settings) i ≡ Some (view_of_lock_holder result) }
{
    match all {
        Some(all) => locks.listed(all, i),
        None => locks.holder(i),
    }
}

/// Prints the hosts, one line for each row `NAME EPOCH SEEN QUOTA`, in the order of the rows. NAME is in lower-case
/// hexadecimal; EPOCH is the own state that was current when the row was made or that the host last acknowledged, SEEN the
/// host's own state (XNFS, NSM), and QUOTA how many runs its owners may have. Without rows nothing is printed.
///
/// The writer gets at most 4,096 bytes at a time. Where a write fails or takes nothing, the fault is `24 WriteFault`, and the
/// writer holds a front of the text. It takes no memory, and time by the length of the text.
pub fn print_hosts<W: Write>(rows: &[HostRow], writer: &mut W) -> Result<(), WriteFault>
    ensures { Wrote (W.contents writer.old) (W.contents writer.new) result (rows_text rows.now) }
{
    let mut block = Frame::new();
    for row in rows {
        put_host(&mut block, writer, row)?;
    }
    write_whole(writer, block.as_slice())
}

/// Prints the line `end`, which stands behind the locks or the hosts where they answer a line of a local program. Where a
/// write fails or takes nothing, the fault is `24 WriteFault`, and the writer holds a front of the line.
pub fn print_end<W: Write>(writer: &mut W) -> Result<(), WriteFault>
    ensures { Wrote (W.contents writer.old) (W.contents writer.new) result (line (codes "end" ∷ [])) }
{
    write_whole(writer, b"end\n")
}
