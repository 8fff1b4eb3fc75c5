//! The line that tells a waiter that its lock was granted.

ghost use Rattle.std.specs.Prelude.{◌≡◌, ◌+◌, ◌≤◌, ◌++◌, ◌↔◌, length, IsOk, OnOk, OnErr};
ghost use Rattle.callbacks.specs.Meanings.{view_of_local_lock};
ghost use Rattle.range_table.specs.Modes.{view_of_mode};
ghost use Rattle.local_ops.specs.Texts.{granted_line};

use crate::text::{append_parts, local_text_of, mode_text_of, short_hex};
use callbacks::LocalLock;
use itoa::Buffer;
use range_table::Mode;
use xdr_core::{Frame, FrameFull};

/// Appends the line `granted OWNER FH MODE FIRST LEN` with its line feed: the file handle in lower-case hexadecimal, and
/// the length as it was asked for. It is written whole or not at all: `FrameFull` exactly where it doesn't fit, and the
/// frame is unchanged then. It fits behind 40 bytes, so it does in an empty frame.
pub fn put_granted(mode: Mode, lock: &LocalLock, f: &mut Frame) -> Result<(), FrameFull>
    ensures fits { length f.old ≤ 40 → IsOk result }
    ensures room { IsOk result ↔ (length f.old + length (granted_line (view_of_mode mode) (view_of_local_lock lock.now)) ≤ 4096) }
    ensures ok { OnOk result (f.new ≡ f.old ++ granted_line (view_of_mode mode) (view_of_local_lock lock.now)) }
    ensures err { OnErr result (f.new ≡ f.old) }
{
    let (kind, owner) = local_text_of(&lock.owner);
    let mut digits = [0; 128];
    let file = short_hex(lock.file.as_bytes(), &mut digits);
    let mut owner_digits = Buffer::new();
    let mut first_digits = Buffer::new();
    let mut len_digits = Buffer::new();
    let parts: [&[u8]; 12] = [
        b"granted ",
        kind,
        owner_digits.format(owner).as_bytes(),
        b" ",
        file,
        b" ",
        mode_text_of(mode),
        b" ",
        first_digits.format(lock.offset).as_bytes(),
        b" ",
        len_digits.format(lock.len).as_bytes(),
        b"\n",
    ];
    append_parts(&parts, f)
}
