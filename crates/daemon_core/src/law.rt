//! What is true of every run.

ghost use Rattle.daemon_core.specs.DaemonState.{HasOneRun};
ghost use Rattle.daemon_core.specs.Laws.{GraceGrantsReclaimsOnly, GraceTellsOfNoGrant, RunsAreHistories, RunsAreSound, StarvesWhereFull};
ghost use Rattle.daemon_core.specs.Response.{KeptIsGivenAgain, MessageRefusalIsAnswered, RefusalIsAnswered};

use book::{
    early_message_refusal_is_given, early_refusal_is_given, histories_are_sound,
    histories_grant_reclaims_only, histories_tell_of_no_grant, history_goes_on,
    kept_reply_is_given, one_step,
};
use record_mark::one_reading;

/// Events, want of memory and the store's answers fix all outputs and the end: no piece's cut matters, and no record has
/// two answers.
pub fn one_run()
    ensures { HasOneRun }
{
    one_reading();
    one_step();
}

/// A run leads where a legal history leads, which is what a journal notes. So what `book` says of histories stands over runs.
pub fn runs_are_histories()
    ensures { RunsAreHistories }
{
    history_goes_on();
}

/// After any run no byte has an exclusive mode of one owner and any mode of another.
pub fn runs_are_sound()
    ensures { RunsAreSound }
{
    runs_are_histories();
    histories_are_sound();
}

/// Wherever a run has led that is in grace, only a reclaim is granted.
pub fn grace_grants_reclaims_only()
    ensures { GraceGrantsReclaimsOnly }
{
    runs_are_histories();
    histories_grant_reclaims_only();
}

/// Wherever a run has led that is in grace, nobody waits, and no call of the server's own tells of a grant.
pub fn grace_tells_of_no_grant()
    ensures { GraceTellsOfNoGrant }
{
    runs_are_histories();
    histories_tell_of_no_grant();
}

/// A call that is refused for its file handle, its range or the phase is answered by that status, as its version shows it,
/// so that in grace each that the phase turns away is answered DENIED_GRACE_PERIOD, in every version.
pub fn early_refusal_is_told()
    ensures { RefusalIsAnswered }
{
    early_refusal_is_given();
}

/// A message form that is refused so, while a place is free for the call that tells of it, has that call due: to the caller's
/// host, by the status as its version shows it.
pub fn early_message_refusal_is_told()
    ensures { MessageRefusalIsAnswered }
{
    early_message_refusal_is_given();
}

/// A call whose reply is kept gets it again, and is not done again.
pub fn kept_reply_is_given_again()
    ensures { KeptIsGivenAgain }
{
    kept_reply_is_given();
}

/// A sending, an answer, a silence and the end of grace never starve but for a segment of the journal, and for that only where
/// the one that stands is full.
pub fn starves_where_full()
    ensures { StarvesWhereFull }
{}
