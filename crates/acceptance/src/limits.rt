//! Calls at random, cut at random places, and over both tables.
ghost use Rattle.std.specs.Prelude.{◌≡◌, []};

use daemon_core::Daemon;
use daemon_scripts::{Page, happens, memory, opened, streams};
use hosts_db::HostStore;
use range_arena::ArenaTable;
use range_table::{FlatTable, RangeTable};
use std::alloc::Global;
use std::mem;
use std::test::*;
use test_kit::{Lent, Terms, put_terms};

const CALLS: u32 = 300;

fn next_random(random: &mut u32) -> u32 {
    *random = random.wrapping_mul(1_664_525).wrapping_add(1_013_904_223);
    *random >> 16
}

// A call of one of two owners on one file.
fn put_random(come: &mut Vec<u8>, xid: u32, random: &mut u32) -> Option<()> {
    let is_a = next_random(random) % 2 == 0;
    let mut terms = Terms::new(xid, if is_a { b'a' } else { b'b' });
    terms.set(0, next_random(random) as u64 % 32);
    terms.set(1, next_random(random) as u64 % 8);
    let name = match next_random(random) % 4 {
        0 => "unlock",
        1 => "test",
        2 => "nm-lock",
        _ => "lock",
    };
    put_terms(come, name, &terms)
}

fn put_calls(come: &mut Vec<u8>) -> Option<()> {
    let mut random = 7;
    for xid in 0..CALLS {
        put_random(come, xid, &mut random)?;
    }
    Some(())
}

fn is_sent<T: RangeTable, S: HostStore>(
    daemon: &mut Daemon<T, S>,
    page: &mut Page<'_>,
) -> Option<bool> {
    let begins = page.events("begins", "")?;
    happens(daemon, page, begins)?;
    put_calls(&mut page.come)?;
    streams(daemon, page)
}

/// All that a server over this table sends for the calls, which come by so many bytes.
fn sent_over<T: RangeTable + Drop>(alloc: Global, table: T, most: usize) -> Option<Vec<u8>>
    requires { T.settings table ≡ [] }
{
    let mut store = memory(alloc, 0, Vec::new(alloc))?;
    let mut writes = 0;
    let mut daemon = opened(alloc, table, Lent::new(&mut store, &mut writes))?;
    let mut page = Page::new(alloc, most);
    let is_sent = is_sent(&mut daemon, &mut page);
    drop(daemon);
    let sent = mem::replace(&mut page.sent, Vec::new(alloc));
    drop(page);
    (is_sent == Some(true)).then_some(sent)
}

fn sent_by(alloc: Global, most: usize) -> Option<Vec<u8>> {
    sent_over(alloc, ArenaTable::new(alloc).ok()?, most)
}

fn sent_by_flat(alloc: Global, most: usize) -> Option<Vec<u8>> {
    sent_over(alloc, FlatTable::new(alloc).ok()?, most)
}

fn is_sent_by(alloc: Global, most: usize, whole: &[u8]) -> bool {
    match sent_by(alloc, most) {
        Some(cut) => cut.as_slice() == whole,
        None => false,
    }
}

// Of pieces that make another stream the size is the error.
#[test]
fn random_calls_in_pieces(rt: HostRuntime) -> Result<(), usize> {
    let whole = sent_by(rt.alloc(), 1_000_000).unwrap_or(Vec::new(rt.alloc()));
    assert!(rt; whole.len() > 300 * 40);
    for most in [1, 3, 4, 113, 8_192] {
        if !is_sent_by(rt.alloc(), most, &whole) {
            return Err(most);
        }
    }
    Ok(())
}

fn are_both_alike(alloc: Global) -> bool {
    match sent_by_flat(alloc, 8_192) {
        Some(flat) => is_sent_by(alloc, 8_192, &flat),
        None => false,
    }
}

#[test]
fn both_tables(rt: HostRuntime) {
    assert!(rt; are_both_alike(rt.alloc()));
}
