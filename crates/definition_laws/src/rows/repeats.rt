//! Worked rows, each as the contract of a function that does nothing.
ghost use Rattle.std.specs.Prelude.{◌≡◌};
ghost use Rattle.definition_laws.specs.RowsOfRepeats.{moved_to_front, moved_to_front_gives, four_kept, kept_limit, kept_limit_gives, kept_reply, kept_reply_gives, message_lock_repeated, message_lock_repeated_gives, past_kept_limit, past_kept_limit_gives, same_xid_other_bytes, same_xid_other_bytes_gives};
ghost use Rattle.definition_laws.specs.ShortForms.{row, row_within};

/// A repeat is answered and not applied; another peer's call is no repeat.
pub fn row_kept_reply()
    ensures { row kept_reply ≡ kept_reply_gives }
{}

/// A repeat that is just kept, with room for four.
pub fn row_kept_limit()
    ensures { row_within four_kept kept_limit ≡ kept_limit_gives }
{}

/// One that is no longer kept.
pub fn row_past_kept_limit()
    ensures { row_within four_kept past_kept_limit ≡ past_kept_limit_gives }
{}

/// A repeated LOCK_MSG makes its LOCK_RES due again.
pub fn row_message_lock_repeated()
    ensures { row message_lock_repeated ≡ message_lock_repeated_gives }
{}

/// Other bytes under the same xid are another call.
pub fn row_same_xid_other_bytes()
    ensures { row same_xid_other_bytes ≡ same_xid_other_bytes_gives }
{}

/// A repeat is a use, and its pair outlives older ones.
pub fn row_moved_to_front()
    ensures { row_within four_kept moved_to_front ≡ moved_to_front_gives }
{}
