//! Bytes from text: words in hexadecimal, and places that numbers fill.

/// What fills the places of a message.
#[derive(Clone, Copy)]
pub struct Terms {
    pub xid: u32,
    /// The one byte of a host's name. Its owner's handle is the capital, and its process's number counts from 7 on.
    pub who: u8,
    pub numbers: [u64; 12],
}

impl Terms {
    /// Of this owner, with noughts.
    pub fn new(xid: u32, who: u8) -> Terms {
        Terms {
            xid,
            who,
            numbers: [0; 12],
        }
    }

    /// The owner's letter and the numbers of a text, in order.
    pub fn read(xid: u32, text: &str) -> Terms {
        let mut terms = Terms::new(xid, b'a');
        let mut place = 0;
        for word in text.split_whitespace() {
            if let Some(number) = read_number(word) {
                terms.set(place, number);
                place = place.wrapping_add(1);
            } else if let Some(letter) = word.bytes().next() {
                terms.who = letter;
            }
        }
        terms
    }

    /// Puts a number at this place, counted from 0; none past the twelfth.
    pub fn set(&mut self, place: usize, number: u64) {
        if let Some(at) = self.numbers.get_mut(place) {
            *at = number;
        }
    }

    /// The number at this place, which is written in decimal.
    fn at(&self, place: &str) -> Option<u64> {
        let place: usize = place.parse().ok()?;
        self.numbers.get(place).copied()
    }
}

/// In decimal, or behind `0x` in hexadecimal.
pub fn read_number(word: &str) -> Option<u64> {
    match word.strip_prefix("0x") {
        Some(digits) => u64::from_str_radix(digits, 16).ok(),
        None => word.parse().ok(),
    }
}

fn put_word(bytes: &mut Vec<u8>, word: u32) -> Option<()> {
    bytes.extend_from_slice(word.to_be_bytes().as_slice()).ok()
}

fn put_long(bytes: &mut Vec<u8>, long: u64) -> Option<()> {
    bytes.extend_from_slice(long.to_be_bytes().as_slice()).ok()
}

// `61*3` is three bytes 61.
fn put_repeated(bytes: &mut Vec<u8>, byte: &str, count: &str) -> Option<()> {
    let byte = u8::from_str_radix(byte, 16).ok()?;
    let count: u32 = count.parse().ok()?;
    for _ in 0..count {
        bytes.push(byte).ok()?;
    }
    Some(())
}

fn put_hexadecimal(bytes: &mut Vec<u8>, word: &str) -> Option<()> {
    let word = u32::from_str_radix(word, 16).ok()?;
    put_word(bytes, word)
}

// The number at a place, as a word, or as a long behind a further `#`.
fn put_at(bytes: &mut Vec<u8>, place: &str, terms: &Terms) -> Option<()> {
    match place.strip_prefix("#") {
        Some(place) => put_long(bytes, terms.at(place)?),
        None => put_word(bytes, u32::try_from(terms.at(place)?).ok()?),
    }
}

fn put_number(bytes: &mut Vec<u8>, word: &str, terms: &Terms) -> Option<()> {
    if let Some(place) = word.strip_prefix("#") {
        return put_at(bytes, place, terms);
    }
    match word.split_once("*") {
        Some((byte, count)) => put_repeated(bytes, byte, count),
        None => put_hexadecimal(bytes, word),
    }
}

fn put_term(bytes: &mut Vec<u8>, word: &str, terms: &Terms) -> Option<()> {
    let letter = terms.who as u32;
    match word {
        "xid" => put_word(bytes, terms.xid),
        "name" => put_word(bytes, letter << 24),
        "handle" => put_word(bytes, (letter & 0xdf) << 24),
        "svid" => put_word(bytes, letter % 32 + 6),
        _ => put_number(bytes, word, terms),
    }
}

/// Appends the bytes of these words, which white space parts.
pub fn put_words(bytes: &mut Vec<u8>, words: &str, terms: &Terms) -> Option<()> {
    for word in words.split_whitespace() {
        put_term(bytes, word, terms)?;
    }
    Some(())
}

/// Appends the bytes of these words, none of which is a place: whether they are words, and there was memory for them.
pub fn put_plain(bytes: &mut Vec<u8>, words: &str) -> bool {
    put_words(bytes, words, &Terms::new(0, b'a')).is_some()
}
