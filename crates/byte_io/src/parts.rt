//! Bytes are cut at a byte.

ghost use Rattle.std.specs.Prelude.{◌≡◌, ◌∷◌, eqb};
ghost use Rattle.std.specs.List.{position};
ghost use Rattle.byte_io.specs.Parts.{parts_at, parts_left};

/// The place of the first of these bytes.
fn first_at(bytes: &[u8], wanted: u8) -> Option<usize>
    ensures { result ≡ position (λ b. eqb b wanted) bytes.now }
{
    bytes.iter().position(|byte| *byte == wanted)
}

/// What stands before the first of these bytes, and what behind it; None where there is none.
#[tactic(auto, using(crate::proofs::Cuts::cut_at, crate::proofs::Cuts::uncut))]
pub fn split_once(bytes: &[u8], at: u8) -> (&[u8], Option<&[u8]>)
    ensures { parts_at at bytes.now ≡ result.0.now ∷ parts_left at result.1 }
{
    match first_at(bytes, at) {
        Some(end) => (&bytes[..end], Some(&bytes[end + 1..])),
        None => (bytes, None),
    }
}
