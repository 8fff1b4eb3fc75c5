//! Worked rows, each as the contract of a function that does nothing.
ghost use Rattle.std.specs.Prelude.{◌≡◌};
ghost use Rattle.definition_laws.specs.RowsAtLimits.{AllDropped, repeat_without_slot, repeat_without_slot_gives, runs_before_row, runs_before_row_gives, set_again, set_again_gives, one_slot, waits_in_order, waits_in_order_give, stale_without_slot, stale_without_slot_gives, two_slots, message_without_slot, message_without_slot_gives, TableFullAgain, eight_runs, four_slots, hosts_full, hosts_full_gives, shares_full, shares_full_gives, silent_hosts, silent_hosts_gives, slots_full, slots_full_gives, table_full, table_full_gives, three_rows, two_shares, watches_full, watches_full_gives};
ghost use Rattle.definition_laws.specs.ShortForms.{row_within};

/// A table with one run free, of eight.
pub fn row_table_full()
    ensures { row_within eight_runs table_full ≡ table_full_gives }
{}

/// It is as full again in the end.
pub fn row_table_full_again()
    ensures { TableFullAgain }
{}

/// Four slots: waiters and calls share them.
pub fn row_slots_full()
    ensures { row_within four_slots slots_full ≡ slots_full_gives }
{}

/// Each call is sent three times with the same bytes, and then forgotten.
pub fn row_silent_hosts()
    ensures { row_within four_slots silent_hosts ≡ silent_hosts_gives }
{}

/// Two shares: the conflict is tested before the limit.
pub fn row_shares_full()
    ensures { row_within two_shares shares_full ≡ shares_full_gives }
{}

/// Three rows: a further host gets no lock that needs a row.
pub fn row_hosts_full()
    ensures { row_within three_rows hosts_full ≡ hosts_full_gives }
{}

/// Two watches: an equal one replaces its bytes.
pub fn row_watches_full()
    ensures { row_within three_rows watches_full ≡ watches_full_gives }
{}

/// A message form with no slot for its _RES changes nothing.
pub fn row_message_without_slot()
    ensures { row_within four_slots message_without_slot ≡ message_without_slot_gives }
{}

/// A drop of the host empties the table.
pub fn row_all_dropped()
    ensures { AllDropped }
{}

/// And the same runs can be set again.
pub fn row_set_again()
    ensures { row_within eight_runs set_again ≡ set_again_gives }
{}

/// It is so even where the handle is stale.
pub fn row_stale_without_slot()
    ensures { row_within four_slots stale_without_slot ≡ stale_without_slot_gives }
{}

/// A repeat needs a slot where its reply came with a call.
pub fn row_repeat_without_slot()
    ensures { row_within two_slots repeat_without_slot ≡ repeat_without_slot_gives }
{}

/// A lock that would wait: an equal waiter, a cycle, a slot, and only then the row.
pub fn row_waits_in_order()
    ensures { row_within one_slot waits_in_order ≡ waits_in_order_give }
{}

/// A lock that is free: runs come before the row.
pub fn row_runs_before_row()
    ensures { row_within eight_runs runs_before_row ≡ runs_before_row_gives }
{}
