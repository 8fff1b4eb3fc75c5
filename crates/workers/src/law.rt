//! What is true of each state that a hold of the book's lock sees, and of what a hold does: the laws of `book` over histories and
//! steps, which the daemon's runs keep, too.
ghost use Rattle.definitions.specs.Moves.{IsSound};
ghost use Rattle.definitions.specs.World.{the_limits};
ghost use Rattle.book.specs.Laws.{GrantReclaimsOnly, TellsOfNoGrant};
ghost use Rattle.workers.specs.Laws.{HoldIsStep, HoldsGiveKeptReplies, state_of};

use crate::shared::Shared;
use book::{
    histories_are_sound, histories_grant_reclaims_only, histories_tell_of_no_grant,
    kept_reply_is_given,
};
use hosts_db::HostStore;
use range_table::RangeTable;
use std::sync::ledger::Ledger;

/// A hold that made an entry made one step.
pub fn hold_is_step()
    ensures { HoldIsStep }
{}

/// No byte has an exclusive mode of one owner and any mode of another, and nobody who waits could be granted.
pub fn holds_are_sound<R: RangeTable, S: HostStore, L: Ledger>(shared: &Shared<R, S, L>)
    ensures { IsSound the_limits (state_of shared.now).world }
{
    shared.history();
    histories_are_sound();
}

/// In grace only a reclaim is granted.
pub fn holds_grant_reclaims_only<R: RangeTable, S: HostStore, L: Ledger>(shared: &Shared<R, S, L>)
    ensures { GrantReclaimsOnly (state_of shared.now) }
{
    shared.history();
    histories_grant_reclaims_only();
}

/// In grace nobody waits, and no call of the server's own tells of a grant.
pub fn holds_tell_of_no_grant<R: RangeTable, S: HostStore, L: Ledger>(shared: &Shared<R, S, L>)
    ensures { TellsOfNoGrant (state_of shared.now) }
{
    shared.history();
    histories_tell_of_no_grant();
}

/// A call whose reply is kept gets it again, and is not done again.
pub fn holds_give_kept_replies()
    ensures { HoldsGiveKeptReplies }
{
    hold_is_step();
    kept_reply_is_given();
}
