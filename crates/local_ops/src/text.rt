//! The parts that lines are made of.

ghost use Rattle.std.specs.Prelude.{◌≡◌, ◌+◌, ◌≤◌, ◌++◌, ◌↔◌, length, IsOk, OnOk, OnErr, true};
ghost use Rattle.std.specs.List.{flat_map};
ghost use Rattle.std.specs.Fmt.{decimal};
ghost use Rattle.callbacks.specs.Locals.{is_local};
ghost use Rattle.owner_ids.specs.Views.{view_of_owner};
ghost use Rattle.range_table.specs.Modes.{view_of_mode};
ghost use Rattle.hex.specs.Hex.{encode_lower};
ghost use Rattle.local_ops.specs.Texts.{owner_text, mode_text};

use owner_ids::Owner;
use range_table::Mode;
use xdr_core::{Frame, FrameFull};

/// Appends the parts, one behind the other, or nothing where they don't fit.
pub(crate) fn append_parts(parts: &[&[u8]], f: &mut Frame) -> Result<(), FrameFull>
    ensures room { IsOk result ↔ (length f.old + length (flat_map (λ part. part.now) parts.now) ≤ 4096) }
    ensures ok { OnOk result (f.new ≡ f.old ++ flat_map (λ part. part.now) parts.now) }
    ensures err { OnErr result (f.new ≡ f.old) }
{
    let start = f.len();
    for part in parts {
        if f.append(part).is_err() {
            f.truncate(start);
            return Err(FrameFull);
        }
    }
    Ok(())
}

pub(crate) fn mode_text_of(mode: Mode) -> &'static [u8]
    ensures text { result.now ≡ mode_text (view_of_mode mode) }
    ensures one { length result.now ≡ 1 }
{
    match mode {
        Mode::Shared => b"r",
        Mode::Exclusive => b"w",
    }
}

/// The letter and the number of a process or an open file description.
pub(crate) fn local_text_of(owner: &Owner) -> (&'static [u8], u64)
    requires { is_local (view_of_owner owner.now) ≡ true }
    ensures text { owner_text (view_of_owner owner.now) ≡ result.0.now ++ decimal result.1 }
    ensures one { length result.0.now ≡ 1 }
{
    match owner {
        Owner::Process(pid) => (b"p", u64::from(*pid)),
        Owner::Description(number) => (b"d", *number),
        Owner::Remote { .. } => unreachable!(),
    }
}

/// At most 64 bytes in lower-case hexadecimal.
pub(crate) fn short_hex<'a>(bytes: &[u8], room: &'a mut [u8; 128]) -> &'a [u8]
    requires { length bytes.now ≤ 64 }
    ensures text { result.now ≡ encode_lower bytes.now }
    ensures short { length result.now ≤ 128 }
{
    let digits = &mut room[..2 * bytes.len()];
    let _ = hex::encode_to_slice(bytes, digits);
    digits
}
