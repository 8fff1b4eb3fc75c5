//! Worked rows, each as the contract of a function that does nothing.
ghost use Rattle.std.specs.Prelude.{◌≡◌};
ghost use Rattle.definition_laws.specs.RowsOfAnswers.{EpochRefusedEnds, EpochRefusedRows, GrantCookie, four_runs, grant_ended_gives, grant_garbled, grant_taken, grant_taken_gives, grant_turned, message_turned, message_turned_gives, result_first, result_first_gives, status_first, status_first_gives, unlock_refused, unlock_refused_gives, unmonitored_events, unmonitored_gives};
ghost use Rattle.definition_laws.specs.ShortForms.{row, row_within};

/// Status 4 counts as a silence, and status 0 ends the call.
pub fn row_grant_taken()
    ensures { row grant_taken ≡ grant_taken_gives }
{}

/// A reply that isn't SUCCESS ends it, and the lock stays.
pub fn row_grant_turned()
    ensures { row grant_turned ≡ grant_ended_gives }
{}

/// And so does a result that can't be read.
pub fn row_grant_garbled()
    ensures { row grant_garbled ≡ grant_ended_gives }
{}

/// SUCCESS to GRANTED_MSG changes nothing, and another reply ends it.
pub fn row_message_turned()
    ensures { row message_turned ≡ message_turned_gives }
{}

/// GRANTED has the number's 8 bytes as its cookie.
pub fn row_grant_cookie()
    ensures { GrantCookie }
{}

/// An unlock that a refused grant asks for may be refused: the lock stays.
pub fn row_unlock_refused()
    ensures { row_within four_runs unlock_refused ≡ unlock_refused_gives }
{}

/// A store that refuses the epoch: the row stays.
pub fn row_epoch_refused()
    ensures { EpochRefusedRows }
{}

/// And the notice ends.
pub fn row_epoch_refused_ends()
    ensures { EpochRefusedEnds }
{}

/// The result of a message form is numbered before the grants that it brings.
pub fn row_result_first()
    ensures { row result_first ≡ result_first_gives }
{}

/// And so are the status calls of a notice.
pub fn row_status_first()
    ensures { row status_first ≡ status_first_gives }
{}

/// SM_UNMON_ALL, and peers that aren't local.
pub fn row_unmonitored()
    ensures { row unmonitored_events ≡ unmonitored_gives }
{}
