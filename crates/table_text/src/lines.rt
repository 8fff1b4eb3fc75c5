//! The lines, and the parts that they are made of.

ghost use Rattle.std.specs.Prelude.{◌≡◌, [], ◌∷◌, ◌++◌, codes};
ghost use Rattle.std.specs.Fmt.{decimal, signed_decimal};
ghost use Rattle.owner_ids.specs.Views.{view_of_owner};
ghost use Rattle.range_table.specs.Modes.{view_of_mode};
ghost use Rattle.definitions.specs.Owners.{Remote};
ghost use Rattle.held_locks.specs.Asked.{view_of_lock_holder};
ghost use Rattle.local_ops.specs.Texts.{run_line, host_line, owner_text, mode_text, line, spaced_fields};
ghost use Rattle.table_text.specs.Blocks.{Passed};

use crate::block::{put_hex, put_parts};
use byte_io::WriteFault;
use held_locks::RunHolder;
use hosts_db::HostRow;
use itoa::Buffer;
use owner_ids::Owner;
use range_table::Mode;
use std::io::Write;
use xdr_core::Frame;

/// Adds a lock's line, `FH MODE FIRST LAST OWNER`.
pub(crate) fn put_run<W: Write>(
    block: &mut Frame,
    writer: &mut W,
    run: &RunHolder<'_>,
) -> Result<(), WriteFault>
    ensures { Passed (W.contents writer.old) (W.contents writer.new) result block.new (block.old ++ run_line (view_of_lock_holder run.now)) }
{
    put_hex(block, writer, run.file.as_bytes())?;
    put_range(block, writer, run.mode, run.first, run.last)?;
    put_owner(block, writer, run.owner)?;
    put_parts(block, writer, &[b"\n"])
}

/// Adds a host's line, `NAME EPOCH SEEN QUOTA`.
pub(crate) fn put_host<W: Write>(
    block: &mut Frame,
    writer: &mut W,
    row: &HostRow,
) -> Result<(), WriteFault>
    ensures { Passed (W.contents writer.old) (W.contents writer.new) result block.new (block.old ++ host_line row.now) }
{
    put_hex(block, writer, row.name())?;
    put_row(block, writer, row)
}

/// Adds what stands between the file handle and the owner, with the spaces around it.
fn put_range<W: Write>(
    block: &mut Frame,
    writer: &mut W,
    mode: Mode,
    first: u64,
    last: u64,
) -> Result<(), WriteFault>
    ensures { Passed (W.contents writer.old) (W.contents writer.new) result block.new
        (block.old ++ spaced_fields ([] ∷ mode_text (view_of_mode mode) ∷ decimal first ∷ decimal last ∷ [] ∷ [])) }
{
    let mut first_digits = Buffer::new();
    let mut last_digits = Buffer::new();
    let parts: [&[u8]; 7] = [
        b" ",
        mode_text_of(mode),
        b" ",
        first_digits.format(first).as_bytes(),
        b" ",
        last_digits.format(last).as_bytes(),
        b" ",
    ];
    put_parts(block, writer, &parts)
}

fn mode_text_of(mode: Mode) -> &'static [u8]
    ensures { result.now ≡ mode_text (view_of_mode mode) }
{
    match mode {
        Mode::Shared => b"r",
        Mode::Exclusive => b"w",
    }
}

/// Adds what follows a host's name, with the space before it.
fn put_row<W: Write>(block: &mut Frame, writer: &mut W, row: &HostRow) -> Result<(), WriteFault>
    ensures { Passed (W.contents writer.old) (W.contents writer.new) result block.new
        (block.old ++ line ([] ∷ decimal row.now.epoch ∷ signed_decimal row.now.seen ∷ decimal row.now.quota ∷ [])) }
{
    let mut epoch_digits = Buffer::new();
    let mut seen_digits = Buffer::new();
    let mut quota_digits = Buffer::new();
    let parts: [&[u8]; 7] = [
        b" ",
        epoch_digits.format(row.epoch()).as_bytes(),
        b" ",
        seen_digits.format(row.seen()).as_bytes(),
        b" ",
        quota_digits.format(row.quota()).as_bytes(),
        b"\n",
    ];
    put_parts(block, writer, &parts)
}

fn put_owner<W: Write>(block: &mut Frame, writer: &mut W, owner: &Owner) -> Result<(), WriteFault>
    ensures { Passed (W.contents writer.old) (W.contents writer.new) result block.new (block.old ++ owner_text (view_of_owner owner.now)) }
{
    match owner {
        Owner::Process(pid) => put_numbered(block, writer, b"p", u64::from(*pid)),
        Owner::Description(number) => put_numbered(block, writer, b"d", *number),
        Owner::Remote { name, svid, oh } => {
            put_remote(block, writer, name.as_slice(), *svid, oh.as_slice())
        }
    }
}

fn put_numbered<W: Write>(
    block: &mut Frame,
    writer: &mut W,
    letter: &[u8],
    number: u64,
) -> Result<(), WriteFault>
    ensures { Passed (W.contents writer.old) (W.contents writer.new) result block.new (block.old ++ (letter.now ++ decimal number)) }
{
    let mut digits = Buffer::new();
    put_parts(block, writer, &[letter, digits.format(number).as_bytes()])
}

fn put_remote<W: Write>(
    block: &mut Frame,
    writer: &mut W,
    name: &[u8],
    svid: i32,
    oh: &[u8],
) -> Result<(), WriteFault>
    ensures { Passed (W.contents writer.old) (W.contents writer.new) result block.new
        (block.old ++ owner_text (Remote (record { name = name.now; svid = svid; oh = oh.now }))) }
{
    put_parts(block, writer, &[b"h"])?;
    put_hex(block, writer, name)?;
    put_svid(block, writer, svid)?;
    put_hex(block, writer, oh)
}

fn put_svid<W: Write>(block: &mut Frame, writer: &mut W, svid: i32) -> Result<(), WriteFault>
    ensures { Passed (W.contents writer.old) (W.contents writer.new) result block.new (block.old ++ (codes "/" ++ (signed_decimal svid ++ codes "/"))) }
{
    let mut digits = Buffer::new();
    let parts: [&[u8]; 3] = [b"/", digits.format(svid).as_bytes(), b"/"];
    put_parts(block, writer, &parts)
}
