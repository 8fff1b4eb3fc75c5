//! Locks out of lines of text.
//!
//! A line has a file, a mode (`w`, `r`, or `u` for an unlock), the first and the last byte, and the owner: `1.2.3.4 w 0 9
//! 97/7/65` is a write lock of svid 7 at the host `a` with the owner handle `A`. `p42` is a process, `d7` a description.
use held_locks::{Locks, NewSetting};
use owner_ids::Owner;
use range_table::{ByteRange, FileId, FlatTable, Mode};
use std::alloc::Global;

const END: u64 = 9_223_372_036_854_775_807;

fn number(text: &str) -> u64 {
    text.parse::<u64>().unwrap_or(0)
}

fn append(bytes: &mut Vec<u8>, byte: u8, count: u64) {
    for _ in 0..count {
        let _ = bytes.push(byte);
    }
}

/// Bytes as numbers with dots between them, each maybe so many times: `250.1`, `255*1024`.
fn bytes_of(alloc: Global, text: &str) -> Vec<u8> {
    let mut bytes = Vec::new(alloc);
    for part in text.split('.') {
        let (byte, count) = part.split_once('*').unwrap_or((part, "1"));
        if let Ok(byte) = byte.parse::<u8>() {
            append(&mut bytes, byte, number(count));
        }
    }
    bytes
}

fn owner_of(alloc: Global, text: &str) -> Owner {
    if let Some(pid) = text.strip_prefix('p') {
        return Owner::Process(pid.parse::<u32>().unwrap_or(0));
    }
    if let Some(description) = text.strip_prefix('d') {
        return Owner::Description(number(description));
    }
    let (name, rest) = text.split_once('/').unwrap_or((text, ""));
    let (svid, oh) = rest.split_once('/').unwrap_or((rest, ""));
    Owner::Remote {
        name: bytes_of(alloc, name),
        svid: svid.parse::<i32>().unwrap_or(0),
        oh: bytes_of(alloc, oh),
    }
}

fn mode_of(text: &str) -> Option<Mode> {
    match text {
        "w" => Some(Mode::Exclusive),
        "r" => Some(Mode::Shared),
        _ => None,
    }
}

fn words_of<'s>(line: &'s str) -> [&'s str; 5] {
    let mut words = [""; 5];
    let mut count = 0;
    for word in line.split_whitespace() {
        if count < 5 {
            words[count] = word;
            count += 1;
        }
    }
    words
}

fn is_set(
    locks: &mut Locks<FlatTable>,
    (file, owner): (&[u8], &Owner),
    mode: Option<Mode>,
    first: &str,
    last: &str,
) -> bool {
    if file.is_empty() || file.len() > 64 || locks.admit(owner).is_err() {
        return false;
    }
    let last = number(last).min(END);
    let setting = NewSetting {
        file: FileId::new(file),
        owner,
        range: ByteRange {
            first: number(first).min(last),
            last,
        },
        mode,
    };
    locks.set(&setting).is_ok()
}

/// Sets what each line says. Whether all was set.
fn set_all(locks: &mut Locks<FlatTable>, alloc: Global, lines: &str) -> bool {
    let mut are_set = true;
    for line in lines.lines() {
        let [file, mode, first, last, owner] = words_of(line);
        let file = bytes_of(alloc, file);
        let owner = owner_of(alloc, owner);
        are_set = is_set(locks, (&file, &owner), mode_of(mode), first, last) && are_set;
    }
    are_set
}

/// The locks that the lines set, one after the other, if all are set.
pub(crate) fn locks_of(alloc: Global, lines: &str) -> Option<Locks<FlatTable>> {
    let mut locks = Locks::new(alloc, FlatTable::new(alloc).ok()?);
    if set_all(&mut locks, alloc, lines) {
        return Some(locks);
    }
    drop(locks);
    None
}
