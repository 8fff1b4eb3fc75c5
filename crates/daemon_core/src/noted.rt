//! Events take the book, in segments of its journal.

ghost use Rattle.std.specs.Prelude.{◌≡◌, ◌<◌, List, true, is_some, IfOk, IfErr};
ghost use Rattle.definitions.specs.Hosts.{NotAsked};
ghost use Rattle.definitions.specs.Outgoing.{next_due};
ghost use Rattle.call_plans.specs.Planned.{refusal_count};
ghost use Rattle.book.specs.Notes.{view_of_event, Steps};
ghost use Rattle.book.specs.Journal.{room_of, TakesMemory};
ghost use Rattle.daemon_core.specs.DaemonState.{SendStep, daemon_state_of};
ghost use Rattle.daemon_core.specs.Link.{Link};
ghost use Rattle.daemon_core.specs.Outcomes.{view_of_event_outcome};
ghost use Rattle.daemon_core.specs.Outputs.{told_posted};
ghost use Rattle.daemon_core.specs.Rooms.{BeginsWhereFull, RoomAfter, room_of_journal};

use crate::event_outcome::EventOutcome;
use crate::posted::Posted;
use crate::send_buffer::SendBuffer;
use book::{Book, BookEvent, NoRoom, StepResult};
use hosts_db::HostStore;
use range_table::RangeTable;
use std::alloc::Global;

/// One event takes the book: what became of it, and what it came to. Where the segment is full and no fresh one can be had it
/// has no entry.
pub(crate) fn note<R: RangeTable, S: HostStore>(
    alloc: Global,
    book: &mut Book<R, S>,
    event: BookEvent,
) -> (EventOutcome, StepResult)
    ensures outcome { view_of_event_outcome result.0 ≡ result.1.completion }
    ensures step { Steps book.old.journal.end (view_of_event event) result.1 book.new.journal.end }
    ensures counts { book.new.refusals ≡ refusal_count result.1.store book.old.refusals }
    ensures fed { result.0 ≡ EventOutcome.Starved → TakesMemory (view_of_event event) }
    ensures room { RoomAfter result.0 true (room_of_journal book.old.journal) (room_of_journal book.new.journal) }

    // Without an entry no store is asked, and nothing changes.
    ensures unasked { result.0 ≡ EventOutcome.NoSegment → result.1.store ≡ NotAsked }
    ensures unchanged { result.0 ≡ EventOutcome.NoSegment → book.new.journal.end ≡ book.old.journal.end }
{
    let Ok(()) = make_room(alloc, book) else {
        return (EventOutcome::NoSegment, event.starved());
    };
    let step_result = book.apply(event);
    (
        EventOutcome::from(step_result.status.completion),
        step_result,
    )
}

/// The call that is due first is sent to this place, which is one entry, or none is due. Where the segment is full and no fresh
/// one can be had it is due as before.
pub(crate) fn send_next<R: RangeTable, S: HostStore>(
    alloc: Global,
    book: &mut Book<R, S>,
    send_buffer: &mut SendBuffer,
) -> Posted
    ensures { (links : List Link) → SendStep (daemon_state_of book.old links) (told_posted result send_buffer.new) (daemon_state_of book.new links) }
{
    if book.has_due() {
        send_due(alloc, book, send_buffer)
    } else {
        Posted::Nothing
    }
}

// The call that is due first. It has room for its record, 5 KiB that are cleared, which is not to be paid where none is due.
#[inline(never)]
fn send_due<R: RangeTable, S: HostStore>(
    alloc: Global,
    book: &mut Book<R, S>,
    send_buffer: &mut SendBuffer,
) -> Posted
    requires due { is_some (next_due book.old.journal.end.world.calls) ≡ true }
    ensures { (links : List Link) → SendStep (daemon_state_of book.old links) (told_posted result send_buffer.new) (daemon_state_of book.new links) }
{
    let Ok(()) = make_room(alloc, book) else {
        return Posted::NoSegment;
    };
    let Some((_, to, frame)) = book.next_call() else {
        return Posted::Nothing;
    };
    send_buffer.fill(to, frame);
    Posted::Sent
}

// Makes room for one entry more: in the segment that stands or, where that is full, in a fresh one. The full one is let go of.
fn make_room<R: RangeTable, S: HostStore>(
    alloc: Global,
    book: &mut Book<R, S>,
) -> Result<(), NoRoom>
    ensures room { IfOk result (λ _. 0 < room_of book.new.journal) }
    ensures full { IfErr result (λ _. room_of book.old.journal ≡ 0) }
    ensures stays { IfErr result (λ _. book.new ≡ book.old) }
    ensures begins { BeginsWhereFull book.old book.new }
    ensures end { book.new.journal.end ≡ book.old.journal.end }
    ensures refusals { book.new.refusals ≡ book.old.refusals }
{
    drop(book.make_room(alloc)?);
    Ok(())
}
