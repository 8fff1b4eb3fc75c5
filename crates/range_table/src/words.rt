//! Bytes that are compared eight at a time.
ghost use Rattle.std.specs.Prelude.{◌≡◌, ◌+◌, ◌*◌, ◌≤◌, ◌<◌, drop, length, take};
ghost use Rattle.std.specs.Cmp.Lexicographic.{slice_cmp};
ghost use Rattle.std.specs.Ordering.{nat_cmp};
ghost use Rattle.std.specs.declared.cmp.Ordering.TheVariants.{Equal};
ghost use Rattle.range_table.specs.Spelt.{spelt};

use std::cmp::Ordering;

/// The order of the first bytes of two handles, so many words of eight each.
pub(crate) fn order_words(bytes: &[u8; 64], others: &[u8; 64], words: usize) -> Ordering
    requires { words ≤ 8 }
    ensures { result ≡ slice_cmp nat_cmp (take (8 * words) bytes.now) (take (8 * words) others.now) }
{
    for word in 0..words {
        let found = order_upto(bytes, others, word);
        if found.is_ne() {
            return found;
        }
    }
    Ordering::Equal
}

// The order of the bytes up to a word's end, where all in front of it are alike.
fn order_upto(bytes: &[u8; 64], others: &[u8; 64], word: usize) -> Ordering
    requires within { word < 8 }
    requires alike { slice_cmp nat_cmp (take (8 * word) bytes.now) (take (8 * word) others.now) ≡ Equal }
    ensures { result ≡ slice_cmp nat_cmp (take (8 * (word + 1)) bytes.now) (take (8 * (word + 1)) others.now) }
{
    word_at(bytes, 8 * word).cmp(&word_at(others, 8 * word))
}

// Eight bytes as a number, the first of them the highest: the numbers stand in the order of the bytes.
fn word_at(bytes: &[u8; 64], at: usize) -> u64
    requires { at + 8 ≤ 64 }
    ensures { result ≡ spelt 0 (take 8 (drop at bytes.now)) }
{
    u64::from_be_bytes([
        bytes[at],
        bytes[at + 1],
        bytes[at + 2],
        bytes[at + 3],
        bytes[at + 4],
        bytes[at + 5],
        bytes[at + 6],
        bytes[at + 7],
    ])
}
