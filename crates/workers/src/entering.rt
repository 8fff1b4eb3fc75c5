//! How a call comes to its entry, and what is handed over for it.
ghost use Rattle.std.specs.Prelude.{◌≡◌, ◌⊎◌, List, IfOk, IfErr};
ghost use Rattle.book.specs.declared.receipt.Taken.{Taken};
ghost use Rattle.reply_outbox.specs.Posted.{Sent};
ghost use Rattle.workers.specs.Answers.{Papers, TakesCall, TurnsBack, view_of_taken};

use book::{Starved, Taken};
use bytes::Bytes;

/// Where calls come to their entries, each in one hold. What stays beside the book lies on a call handler, and an outbox takes the replies.
/// That a call could not be prepared, or found no room, only `prepare` and `enter` can tell.
pub(crate) trait Entering<D, O> {
    /// There was no memory for what has to be there before the call's hold.
    ghost IsUnprepared: { Taken → Type 0 };

    /// The call's hold found the segment full, and no other for its entry.
    ghost FoundFull: { Taken → Type 0 };

    /// The receipts that the call handler keeps, and whether it keeps any.
    ghost papers: { D → Papers };

    /// There is a place on it for one receipt more.
    ghost HasPlace: { D → Type 0 };

    /// All that the outbox was handed.
    ghost handed: { O → List Sent };

    /// Gets a place for the receipt, and a second handle on the record.
    fn prepare(&self, call_handler: &mut D, taken: &Taken) -> Result<Bytes, Starved>
        ensures same { IfOk result (λ same. same ≡ taken.now.«record») }
        ensures place { IfOk result (λ _. HasPlace call_handler.new) }
        ensures unprepared { IfErr result (λ _. IsUnprepared taken.now) }
        ensures papers { papers call_handler.new ≡ papers call_handler.old };

    /// Takes the call in one hold, and hands its reply over: whether a call of the server's own is due then. The call comes back
    /// where there was no room.
    fn enter(
        &self,
        call_handler: &mut D,
        outbox: &mut O,
        connection: u64,
        taken: Taken,
        same: Bytes,
    ) -> Result<bool, Taken>
        requires same { same ≡ taken.«record» }
        requires place { HasPlace call_handler.old }
        ensures taken { IfOk result (λ _. TakesCall taken connection (papers call_handler.old) (papers call_handler.new) (handed outbox.old) (handed outbox.new)) }
        ensures full { IfErr result (λ back. (back ≡ taken) × FoundFull taken) }
        ensures none { IfErr result (λ _. (papers call_handler.new ≡ papers call_handler.old) × (handed outbox.new ≡ handed outbox.old)) };

    /// Hands over what a call gets that has no entry.
    fn turn_back(&self, outbox: &mut O, connection: u64, taken: Taken)
        requires { IsUnprepared taken ⊎ FoundFull taken }
        ensures { TurnsBack taken connection (handed outbox.old) (handed outbox.new) };
}

/// Answers a call, in one hold: whether a call of the server's own is due then. It is turned back, with no entry, only where it
/// could not be prepared, or found no room.
pub(crate) fn answer_call<D, O, B: Entering<D, O>>(
    book: &B,
    call_handler: &mut D,
    outbox: &mut O,
    connection: u64,
    taken: Taken,
) -> bool
    ensures { TakesCall taken connection (B.papers call_handler.old) (B.papers call_handler.new) (B.handed outbox.old) (B.handed outbox.new)
        ⊎ ((B.IsUnprepared taken ⊎ B.FoundFull taken) × (B.papers call_handler.new ≡ B.papers call_handler.old) × TurnsBack taken connection (B.handed outbox.old) (B.handed outbox.new)) }
{
    let Ok(same) = book.prepare(call_handler, &taken) else {
        book.turn_back(outbox, connection, taken);
        return false;
    };
    match book.enter(call_handler, outbox, connection, taken, same) {
        Ok(is_due) => is_due,
        Err(taken) => {
            book.turn_back(outbox, connection, taken);
            false
        }
    }
}
