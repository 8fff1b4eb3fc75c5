//! The numbers.
ghost use Rattle.std.specs.Prelude.{◌≡◌, ◌≤◌, length};
ghost use Rattle.definitions.specs.Outgoing.{Outgoing};
ghost use Rattle.status_lists.specs.Views.{due_of, grace_number, AreNumbersOf};
ghost use Rattle.grace.specs.Meanings.{view_of_phase};

use book::Book;
use grace::Phase;
use hosts_db::HostStore;
use lock_state::OutCalls;
use range_table::RangeTable;
use status_pages::StateNumbers;

fn due(calls: &OutCalls) -> usize
    ensures due { result ≡ due_of calls.now }
    ensures most { result ≤ length calls.now }
{
    calls.as_slice().iter().filter(|call| call.is_due()).count()
}

fn grace_number(phase: Phase) -> u64
    ensures { result ≡ grace_number (view_of_phase phase) }
{
    match phase {
        Phase::Grace => 1,
        Phase::Normal => 0,
    }
}

/// The numbers of the state and of the journal that leads to it. It goes through the calls that are not done, and takes no memory.
pub fn numbers_of<R: RangeTable, S: HostStore>(book: &Book<R, S>) -> StateNumbers
    ensures { AreNumbersOf book.now.journal result }
{
    let world = book.world();
    let calls = world.calls();
    let calls_due = due(calls);
    let stored = world.store().kept();
    StateNumbers {
        runs: u64::from(world.locks().used()),
        waiters: world.waiting() as u64,
        calls_due: calls_due as u64,
        calls_unanswered: (calls.len() - calls_due) as u64,
        slots_free: world.free_slots() as u64,
        shares: world.shares().len() as u64,
        hosts: stored.hosts().len() as u64,
        watches: stored.watches().len() as u64,
        kept_replies: book.kept_replies() as u64,
        grace: grace_number(world.phase()),
        own_state: stored.own(),
        entries: book.entries(),
    }
}
