//! HTML that is put together: markup of the program's own, and text of anybody's.
ghost use Rattle.std.specs.Prelude.{◌≡◌, ◌++◌, [], true, OnOk, decimal};
ghost use Rattle.std.specs.Fmt.{signed_decimal};
ghost use Rattle.std.specs.List.{list_all};
ghost use Rattle.hex.specs.Hex.{encode_lower};
ghost use Rattle.status_pages.specs.Escapes.{escape_of, escaped, is_plain};

use crate::starved::Starved;
use crate::text::{put_hex, put_number, put_signed};
use std::alloc::Global;
use std::marker::Model;
use std::slice;

/// A page of HTML, as far as it is put together. Contracts see its bytes.
#[derive(Drop)]
pub(crate) struct Html {
    out: Vec<u8>,
}

impl Model for Html {
    ghost use Rattle.std.specs.Prelude.{List, ℕ};

    ghost Value = { List ℕ };

    ghost view = { λ h. h.out.items };
}

// How a byte of text is written, so that it opens and closes no tag, attribute or character reference.
fn escape(byte: &u8) -> &[u8]
    ensures { result.now ≡ escape_of byte.now }
{
    match *byte {
        b'&' => b"&amp;",
        b'<' => b"&lt;",
        b'>' => b"&gt;",
        b'"' => b"&quot;",
        b'\'' => b"&#39;",
        0..=31 | 127 => b"?",
        _ => slice::from_ref(byte),
    }
}

/// No byte of escaped text opens or closes a tag or an attribute's value.
#[tactic(auto, using(crate::proofs::Escaping::plain_escaped))]
pub fn escaped_is_plain(text: &[u8])
    ensures { list_all is_plain (escaped text.now) ≡ true }
{
    let _ = text;
}

impl Html {
    pub(crate) fn new(alloc: Global) -> Html
        ensures { result ≡ [] }
    {
        Html {
            out: Vec::new(alloc),
        }
    }

    /// Its bytes.
    pub(crate) fn into_bytes(self) -> Vec<u8>
        ensures { result.items ≡ self }
    {
        self.out
    }

    /// Adds markup of the program's own, as it is.
    pub(crate) fn markup(&mut self, markup: &'static str) -> Result<(), Starved>
        ensures { OnOk result (self.new ≡ self.old ++ markup.now) }
    {
        self.out.extend_from_slice(markup.as_bytes())?;
        Ok(())
    }

    /// Adds text, escaped.
    pub(crate) fn text(&mut self, text: &[u8]) -> Result<(), Starved>
        ensures { OnOk result (self.new ≡ self.old ++ escaped text.now) }
    {
        for byte in text {
            self.out.extend_from_slice(escape(byte))?;
        }
        Ok(())
    }

    /// Adds a number in decimal.
    pub(crate) fn number(&mut self, number: u64) -> Result<(), Starved>
        ensures { OnOk result (self.new ≡ self.old ++ decimal number) }
    {
        put_number(&mut self.out, number)
    }
    /// Adds a number that may be negative, in decimal.
    pub(crate) fn signed(&mut self, number: i32) -> Result<(), Starved>
        ensures { OnOk result (self.new ≡ self.old ++ signed_decimal number) }
    {
        put_signed(&mut self.out, number)
    }

    /// Adds bytes in lower-case hexadecimal.
    pub(crate) fn hex(&mut self, bytes: &[u8]) -> Result<(), Starved>
        ensures { OnOk result (self.new ≡ self.old ++ encode_lower bytes.now) }
    {
        put_hex(&mut self.out, bytes)
    }
}
