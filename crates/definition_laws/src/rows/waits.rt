//! Worked rows, each as the contract of a function that does nothing.
ghost use Rattle.std.specs.Prelude.{◌≡◌};
ghost use Rattle.definition_laws.specs.RowsOfWaits.{equal_waiters, equal_waiters_give, silent_while_due, silent_while_due_gives, StrayAnswersChangeNothing, cancel, cancel_gives, deadlock, deadlock_gives, deadlock_of_description, deadlock_of_description_gives, description_between, description_between_gives, grant_refused, grant_refused_gives, granted_by_message, granted_by_message_gives, longer_cycle, longer_cycle_gives, message_lock, message_lock_gives, script_h, script_h_gives, setlkw_granted, setlkw_granted_gives, settle_twice, settle_twice_gives, stray_answers, stray_answers_gives, test_message, test_message_gives};
ghost use Rattle.definition_laws.specs.ShortForms.{row};

/// A's grant turned its 0 to 9 into shared and freed B, which stood first.
pub fn row_settle_twice()
    ensures { row settle_twice ≡ settle_twice_gives }
{}

/// A cycle of two.
pub fn row_deadlock()
    ensures { row deadlock ≡ deadlock_gives }
{}

/// A description closes no cycle.
pub fn row_deadlock_of_description()
    ensures { row deadlock_of_description ≡ deadlock_of_description_gives }
{}

/// A cycle of three.
pub fn row_longer_cycle()
    ensures { row longer_cycle ≡ longer_cycle_gives }
{}

/// A refused grant unlocks and frees the next; a silent one is sent three times.
pub fn row_grant_refused()
    ensures { row grant_refused ≡ grant_refused_gives }
{}

/// An equal waiter has one place, and CANCEL takes it away.
pub fn row_cancel()
    ensures { row cancel ≡ cancel_gives }
{}

/// TEST_MSG and its TEST_RES.
pub fn row_test_message()
    ensures { row test_message ≡ test_message_gives }
{}

/// A line that waited is told on its connection.
pub fn row_setlkw_granted()
    ensures { row setlkw_granted ≡ setlkw_granted_gives }
{}

/// What belongs to no call gives nothing.
pub fn row_stray_answers()
    ensures { row stray_answers ≡ stray_answers_gives }
{}

/// And changes nothing.
pub fn row_stray_answers_change_nothing()
    ensures { StrayAnswersChangeNothing }
{}

/// LOCK_MSG and its LOCK_RES.
pub fn row_message_lock()
    ensures { row message_lock ≡ message_lock_gives }
{}

/// GRANTED_MSG and GRANTED_RES, by the number as cookie.
pub fn row_granted_by_message()
    ensures { row granted_by_message ≡ granted_by_message_gives }
{}

/// The script of the refused growths, with ample memory.
pub fn row_script_h()
    ensures { row script_h ≡ script_h_gives }
{}

/// A description that waits is no step of a cycle.
pub fn row_description_between()
    ensures { row description_between ≡ description_between_gives }
{}

/// A silence of a call that is due changes nothing.
pub fn row_silent_while_due()
    ensures { row silent_while_due ≡ silent_while_due_gives }
{}

/// A range that is written in another way makes no second waiter.
pub fn row_equal_waiters()
    ensures { row equal_waiters ≡ equal_waiters_give }
{}
