//! What is true of every step, and of every history that they make.
ghost use Rattle.book.specs.Histories.{LegalBegins, LegalGrows, SegmentsAreLegal};
ghost use Rattle.book.specs.Journal.{RoomLaw};
ghost use Rattle.book.specs.Laws.{HistoriesAreSound, HistoriesGrantReclaimsOnly, HistoriesTellOfNoGrant};
ghost use Rattle.book.specs.Notes.{OneStep};
ghost use Rattle.book.specs.Receipts.{NewestLaw};
ghost use Rattle.book.specs.Refusals.{MessageRefusalIsAnswered, RefusalIsAnswered};
ghost use Rattle.book.specs.Repeats.{KeptIsGivenAgain};

use call_codec::{one_answer_reading, one_reading};
use local_ops::one_line;

/// An event, what became of it and the store's answer fix what it gives and the state after it.
pub fn one_step()
    ensures { OneStep }
{
    one_reading();
    one_answer_reading();
    one_line();
}

/// What entered last is the newest entry.
pub fn newest_entered()
    ensures { NewestLaw }
{}

/// There is room while a segment has fewer than 1,024 entries and one of the 2^64 - 1 numbers is left, so that the last of them
/// is given, too.
pub fn room_to_the_last_number()
    ensures { RoomLaw }
{}

/// An empty journal is a legal history, and each step makes a legal one of one.
pub fn history_goes_on()
    ensures begins { LegalBegins }
    ensures grows { LegalGrows }
{}

/// Segments that join, and are legal each, are one legal history.
pub fn segments_are_one_history()
    ensures { SegmentsAreLegal }
{}

/// Wherever a history from an opening has led no byte has an exclusive mode of one owner and any mode of another, and nobody who
/// waits could be granted.
pub fn histories_are_sound()
    ensures { HistoriesAreSound }
{}

/// Wherever one has led that is in grace, only a reclaim is granted.
pub fn histories_grant_reclaims_only()
    ensures { HistoriesGrantReclaimsOnly }
{}

/// Wherever one has led that is in grace, nobody waits, and no call of the server's own tells of a grant.
pub fn histories_tell_of_no_grant()
    ensures { HistoriesTellOfNoGrant }
{}

/// A call that is refused for its file handle, its range or the phase is answered by that status, as its version shows it.
pub fn early_refusal_is_given()
    ensures { RefusalIsAnswered }
{}

/// A message form that is refused so, while a place is free for the call that tells of it, has that call due.
pub fn early_message_refusal_is_given()
    ensures { MessageRefusalIsAnswered }
{}

/// A call whose reply is kept gets it again, and is not done again.
pub fn kept_reply_is_given()
    ensures { KeptIsGivenAgain }
{}
