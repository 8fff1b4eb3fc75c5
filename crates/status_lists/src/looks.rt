//! What one look at a book copies.
ghost use Rattle.std.specs.Prelude.{◌≡◌, IfOk, IfErr};
ghost use Rattle.entry_counts.specs.Counted.{AreCountsOf};
ghost use Rattle.workers.specs.Holds.{history_of};
ghost use Rattle.status_lists.specs.Views.{AreNumbersOf, AreWaitersOf, AreListedIf, shows_lists};

use crate::lists::{lists_of, waiters_of};
use crate::numbers::numbers_of;
use book::Book;
use event_counts::Counts;
use hosts_db::HostStore;
use range_table::RangeTable;
use status_pages::{Lists, Page, Starved, StateNumbers};
use std::alloc::Global;
use std::sync::ledger::Ledger;
use workers::Shared;

/// What one look at a book copies, for a page.
#[derive(Drop)]
pub struct Look {
    pub numbers: StateNumbers,
    /// All that is waited for; the locks and the hosts, where the page shows lists.
    pub lists: Lists,
}

// Whether a page shows lists.
fn shows_lists(page: Page) -> bool
    ensures { result ≡ shows_lists page }
{
    match page {
        Page::Index | Page::Locks | Page::Waiters | Page::Hosts => true,
        Page::Metrics | Page::Status => false,
    }
}

// Those who wait, alone.
fn waiters_alone<R: RangeTable, S: HostStore>(
    alloc: Global,
    book: &Book<R, S>,
) -> Result<Lists, Starved>
    ensures { IfOk result (λ lists. AreWaitersOf book.now.journal.end.world lists) }
{
    Ok(Lists {
        locks: Vec::new(alloc),
        waiters: waiters_of(alloc, book.world())?,
        hosts: Vec::new(alloc),
    })
}

// All lists, or those who wait alone.
fn lists_if<R: RangeTable, S: HostStore>(
    alloc: Global,
    book: &Book<R, S>,
    all: bool,
) -> Result<Lists, Starved>
    ensures { IfOk result (λ lists. AreListedIf all book.now.journal.end.world lists) }
{
    if all {
        lists_of(alloc, book)
    } else {
        waiters_alone(alloc, book)
    }
}

/// Copies what a page shows, all of one moment: the numbers of the state, the lists, and how many entries of each kind there were,
/// for which the caller has the room: that is large for a stack. It is called in one hold of the book's lock. `Starved`: there is no
/// memory for a copy of the lists, and `counts` is as it was.
pub fn look_at<R: RangeTable, S: HostStore, L: Ledger>(
    alloc: Global,
    shared: &Shared<R, S, L>,
    page: Page,
    counts: &mut Counts,
) -> Result<Look, Starved>
    ensures numbers { IfOk result (λ look. AreNumbersOf shared.now.book.journal look.numbers) }
    ensures counts { IfOk result (λ _. AreCountsOf (history_of shared.now).notes counts.new) }
    ensures stays { IfErr result (λ _. counts.new ≡ counts.old) }
    ensures lists { IfOk result (λ look. AreListedIf (shows_lists page) shared.now.book.journal.end.world look.lists) }
{
    let book = shared.book();
    let lists = lists_if(alloc, book, shows_lists(page))?;
    let numbers = numbers_of(book);
    *counts = shared.counts().copied();
    Ok(Look { numbers, lists })
}
