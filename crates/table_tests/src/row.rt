//! Rows of text, one step each, and what stands in them.
ghost use Rattle.std.specs.Prelude.{◌≤◌, ◌<◌, ◌^◌};

use crate::wrong::{NO_MEMORY, Wrong, nowhere};
use range_table::Mode;
use std::alloc::Global;

const LAST_BYTE: u64 = 9_223_372_036_854_775_807;

/// Bytes of a file, from the first to the last.
#[derive(Clone, Copy)]
pub(crate) struct Span {
    pub(crate) first: u64,
    pub(crate) last: u64,
    pub(crate) ghost ordered: { first ≤ last },
    pub(crate) ghost inside: { last < 2 ^ 63 },
}

fn split(text: &str) -> (&str, &str) {
    text.split_once(" ").unwrap_or((text, ""))
}

/// A row, as `set a/7/A write 0 9` or `meets b/8/B 0 9 = a/7/A 3 5`.
#[derive(Clone, Copy)]
pub(crate) struct Row<'a> {
    /// The first word.
    pub(crate) verb: &'a str,
    /// The second word, and that behind `=`. Each is empty where there is none.
    pub(crate) who: &'a str,
    pub(crate) whom: &'a str,
    /// `read` or `write`, wherever it stands; else none.
    pub(crate) mode: Option<Mode>,
    /// The numbers, in order. Those that the row doesn't have are 0.
    pub(crate) numbers: [u64; 4],
}

impl<'a> Row<'a> {
    fn read(text: &'a str) -> Row<'a> {
        let (verb, rest) = split(text);
        let (_, told) = rest.split_once(" = ").unwrap_or((rest, ""));
        let mut row = Row {
            verb,
            who: split(rest).0,
            whom: split(told).0,
            mode: None,
            numbers: [0; 4],
        };
        row.put_words(rest);
        row
    }

    fn put_words(&mut self, text: &str) {
        let mut place = 0;
        for word in text.split_whitespace() {
            if let Ok(number) = word.parse() {
                self.put_number(place, number);
                place = place.wrapping_add(1);
            } else if word == "write" {
                self.mode = Some(Mode::Exclusive);
            } else if word == "read" {
                self.mode = Some(Mode::Shared);
            }
        }
    }

    fn put_number(&mut self, place: usize, number: u64) {
        if let Some(at) = self.numbers.get_mut(place) {
            *at = number;
        }
    }

    /// The bytes from the first number to the second.
    pub(crate) fn span(&self) -> Option<Span> {
        let [first, last, ..] = self.numbers;
        if first <= last && last <= LAST_BYTE {
            Some(Span { first, last })
        } else {
            None
        }
    }
}

/// A worked case: its name, and its rows.
pub(crate) type Worked = (&'static str, &'static [&'static str]);

/// A case that plays rows.
pub(crate) trait Case {
    /// The case before its first row. None where there is no memory.
    fn begin(alloc: Global) -> Option<Self>;

    /// Whether it goes as the row says. None where the row can't be read or there is no memory.
    fn goes(&mut self, row: &Row<'_>) -> Option<bool>;
}

/// The place of the first row that does not go as it says.
fn wrong_row<C: Case>(case: &mut C, rows: &[&str]) -> Option<usize> {
    for (place, row) in rows.iter().enumerate() {
        if case.goes(&Row::read(row)) != Some(true) {
            return Some(place);
        }
    }
    None
}

fn play<C: Case + Drop>(alloc: Global, (name, rows): Worked) -> Result<(), Wrong> {
    match C::begin(alloc) {
        Some(mut case) => nowhere(name, wrong_row(&mut case, rows)),
        None => Err(NO_MEMORY),
    }
}

/// Whether each case goes as its rows say.
pub(crate) fn play_each<C: Case + Drop>(alloc: Global, cases: &[Worked]) -> Result<(), Wrong> {
    for case in cases {
        play::<C>(alloc, *case)?;
    }
    Ok(())
}
