//! Worked rows, each as the contract of a function that does nothing.
ghost use Rattle.std.specs.Prelude.{◌≡◌};
ghost use Rattle.definition_laws.specs.RowsOfLocks.{RefusedChangeNothing, RefusedHost, RefusedHostChangesNothing, RefusedWaiterChangesNothing, first_holder, first_holder_gives, past_the_end, past_the_end_gives, absent_unlock, absent_unlock_gives, ends_of_file, ends_of_file_gives, free_all, free_all_gives, local_lines, local_lines_and_calls, local_lines_and_calls_gives, local_lines_gives, nm_lock, nm_lock_gives, owners_of_a_host, owners_of_a_host_gives, null, null_gives, refused_headers, refused_headers_gives, share_conflict, share_conflict_gives, share_replaced, share_replaced_gives, test_after_lock, test_after_lock_gives};
ghost use Rattle.definition_laws.specs.ShortForms.{row};

/// NULL: an empty result.
pub fn row_null()
    ensures { row null ≡ null_gives }
{}

/// What isn't given to its procedure is refused, and changes nothing.
pub fn row_refused_headers()
    ensures { row refused_headers ≡ refused_headers_gives }
{}

/// TEST shows the first conflict; an unlock of a middle splits.
pub fn row_test_after_lock()
    ensures { row test_after_lock ≡ test_after_lock_gives }
{}

/// The last byte of a file, and handles that are too long.
pub fn row_ends_of_file()
    ensures { row ends_of_file ≡ ends_of_file_gives }
{}

/// What one denies the other may not do.
pub fn row_share_conflict()
    ensures { row share_conflict ≡ share_conflict_gives }
{}

/// A store that refuses the new host: no lock.
pub fn row_refused_host()
    ensures { RefusedHost }
{}

/// Processes and descriptions, as calls and lines show them.
pub fn row_local_lines_and_calls()
    ensures { row local_lines_and_calls ≡ local_lines_and_calls_gives }
{}

/// `getlk`, `setlk` and `close`.
pub fn row_local_lines()
    ensures { row local_lines ≡ local_lines_gives }
{}

/// FREE_ALL drops locks and shares.
pub fn row_free_all()
    ensures { row free_all ≡ free_all_gives }
{}

/// What isn't there is unlocked, too.
pub fn row_absent_unlock()
    ensures { row absent_unlock ≡ absent_unlock_gives }
{}

/// A second share of an owner replaces its first.
pub fn row_share_replaced()
    ensures { row share_replaced ≡ share_replaced_gives }
{}

/// NM_LOCK, without a row.
pub fn row_nm_lock()
    ensures { row nm_lock ≡ nm_lock_gives }
{}

/// Two owners of one host are two.
pub fn row_owners_of_a_host()
    ensures { row owners_of_a_host ≡ owners_of_a_host_gives }
{}

/// What is refused or ignored changes nothing.
pub fn row_refused_change_nothing()
    ensures { RefusedChangeNothing }
{}

/// Offsets and sums past the last byte, and an empty handle.
pub fn row_past_the_end()
    ensures { row past_the_end ≡ past_the_end_gives }
{}

/// The holder of least start, then the least owner.
pub fn row_first_holder()
    ensures { row first_holder ≡ first_holder_gives }
{}

/// A refused row leaves the world as it was.
pub fn row_refused_host_changes_nothing()
    ensures { RefusedHostChangesNothing }
{}

/// And so it is for a lock that would wait.
pub fn row_refused_waiter_changes_nothing()
    ensures { RefusedWaiterChangesNothing }
{}
