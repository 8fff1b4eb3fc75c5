//! What a line is answered.

ghost use Rattle.std.specs.Prelude.{[], ◌∷◌, ◌++◌, codes};
ghost use Rattle.std.specs.Fmt.{decimal, signed_decimal};
ghost use Rattle.owner_ids.specs.Views.{view_of_owner};
ghost use Rattle.range_table.specs.Modes.{view_of_mode};
ghost use Rattle.definitions.specs.Owners.{Remote};
ghost use Rattle.definitions.specs.Replies.{LineHeld};
ghost use Rattle.local_ops.specs.Texts.{reply_text, owner_text, mode_text, spaced_fields};
ghost use Rattle.local_ops.specs.Answers.{view_of_local_answer};
ghost use Rattle.byte_io.specs.Written.{Wrote};

use crate::listing::{HostsText, TableText};
use crate::output::{write_hex, write_parts};
use crate::text::mode_text_of;
use byte_io::{WriteFault, write_whole};
use itoa::Buffer;
use owner_ids::Owner;
use range_table::Mode;
use std::io::Write;

/// What a line is answered.
#[derive(Drop)]
pub enum LocalAnswer {
    /// `ok`: it was done.
    Done,
    /// `again`: another owner's lock conflicts.
    Again,
    /// `wait`: another owner's lock conflicts, and the line `granted` comes later.
    Wait,
    /// `deadlk`: to wait would close a cycle.
    Deadlock,
    /// `nolck`: no more locks can be held, or waited for.
    NoLocks,
    /// `fbig`: the range passes the last byte of a file, 2^63 - 1.
    TooFar,
    /// `grace`: the server was restarted, and clients reclaim their locks.
    Grace,
    /// `free`: nothing conflicts.
    Free,
    /// `absent`: the host has no row.
    Absent,
    /// `refused`: the store refused.
    Refused,
    /// `bad`: the line is none of the protocol.
    Bad,
    /// `starved`: there was no memory.
    Starved,
    /// `held MODE FIRST LEN OWNER`: the first lock that conflicts. The length 0 is to the last byte.
    Held {
        mode: Mode,
        first: u64,
        len: u64,
        owner: Owner,
    },
    /// All locks, a line each, and the line `end`.
    Table(TableText),
    /// All hosts, a line each, and the line `end`.
    Hosts(HostsText),
}

impl LocalAnswer {
    /// Writes the answer's line with its line feed, or its lines. Where a write fails, a front of them was written.
    pub fn write<W: Write>(&self, writer: &mut W) -> Result<(), WriteFault>
        ensures { Wrote (W.contents writer.old) (W.contents writer.new) result (reply_text (view_of_local_answer self.now)) }
    {
        match self {
            LocalAnswer::Held {
                mode,
                first,
                len,
                owner,
            } => write_held(writer, *mode, *first, *len, owner),
            LocalAnswer::Table(table) => write_whole(writer, table.as_slice()),
            LocalAnswer::Hosts(hosts) => write_whole(writer, hosts.as_slice()),
            LocalAnswer::Done => write_parts(writer, &[b"ok\n"]),
            LocalAnswer::Again => write_parts(writer, &[b"again\n"]),
            LocalAnswer::Wait => write_parts(writer, &[b"wait\n"]),
            LocalAnswer::Deadlock => write_parts(writer, &[b"deadlk\n"]),
            LocalAnswer::NoLocks => write_parts(writer, &[b"nolck\n"]),
            LocalAnswer::TooFar => write_parts(writer, &[b"fbig\n"]),
            LocalAnswer::Grace => write_parts(writer, &[b"grace\n"]),
            LocalAnswer::Free => write_parts(writer, &[b"free\n"]),
            LocalAnswer::Absent => write_parts(writer, &[b"absent\n"]),
            LocalAnswer::Refused => write_parts(writer, &[b"refused\n"]),
            LocalAnswer::Bad => write_parts(writer, &[b"bad\n"]),
            LocalAnswer::Starved => write_parts(writer, &[b"starved\n"]),
        }
    }
}

fn write_held<W: Write>(
    writer: &mut W,
    mode: Mode,
    first: u64,
    len: u64,
    owner: &Owner,
) -> Result<(), WriteFault>
    ensures { Wrote (W.contents writer.old) (W.contents writer.new) result
        (reply_text (LineHeld (view_of_mode mode) first len (view_of_owner owner.now))) }
{
    write_range(writer, mode, first, len)?;
    write_owner(writer, owner)?;
    write_parts(writer, &[b"\n"])
}

/// Writes what stands before the owner, up to the space.
fn write_range<W: Write>(writer: &mut W, mode: Mode, first: u64, len: u64) -> Result<(), WriteFault>
    ensures { Wrote (W.contents writer.old) (W.contents writer.new) result
        (spaced_fields (codes "held" ∷ mode_text (view_of_mode mode) ∷ decimal first ∷ decimal len ∷ [] ∷ [])) }
{
    let mut first_digits = Buffer::new();
    let mut len_digits = Buffer::new();
    let parts: [&[u8]; 7] = [
        b"held ",
        mode_text_of(mode),
        b" ",
        first_digits.format(first).as_bytes(),
        b" ",
        len_digits.format(len).as_bytes(),
        b" ",
    ];
    write_parts(writer, &parts)
}

fn write_owner<W: Write>(writer: &mut W, owner: &Owner) -> Result<(), WriteFault>
    ensures { Wrote (W.contents writer.old) (W.contents writer.new) result (owner_text (view_of_owner owner.now)) }
{
    match owner {
        Owner::Process(pid) => write_numbered(writer, b"p", u64::from(*pid)),
        Owner::Description(number) => write_numbered(writer, b"d", *number),
        Owner::Remote { name, svid, oh } => {
            write_remote(writer, name.as_slice(), *svid, oh.as_slice())
        }
    }
}

fn write_remote<W: Write>(
    writer: &mut W,
    name: &[u8],
    svid: i32,
    oh: &[u8],
) -> Result<(), WriteFault>
    ensures { Wrote (W.contents writer.old) (W.contents writer.new) result
        (owner_text (Remote (record { name = name.now; svid = svid; oh = oh.now }))) }
{
    write_parts(writer, &[b"h"])?;
    write_hex(writer, name)?;
    write_svid(writer, svid)?;
    write_hex(writer, oh)
}

fn write_numbered<W: Write>(writer: &mut W, letter: &[u8], number: u64) -> Result<(), WriteFault>
    ensures { Wrote (W.contents writer.old) (W.contents writer.new) result (letter.now ++ decimal number) }
{
    let mut digits = Buffer::new();
    write_parts(writer, &[letter, digits.format(number).as_bytes()])
}

fn write_svid<W: Write>(writer: &mut W, svid: i32) -> Result<(), WriteFault>
    ensures { Wrote (W.contents writer.old) (W.contents writer.new) result (47 ∷ (signed_decimal svid ++ 47 ∷ [])) }
{
    let mut digits = Buffer::new();
    let parts: [&[u8]; 3] = [b"/", digits.format(svid).as_bytes(), b"/"];
    write_parts(writer, &parts)
}
