//! Copies of what a call says.
ghost use Rattle.std.specs.Prelude.{◌≡◌, IfOk};
ghost use Rattle.definitions.specs.Ranges.{owner_of as owner_said, mode_of as mode_said, last_of, request_of};
ghost use Rattle.nlm4_types.specs.Lock.{view_of_lock};
ghost use Rattle.owner_ids.specs.Views.{view_of_owner};
ghost use Rattle.range_table.specs.Modes.{view_of_mode};
ghost use Rattle.lock_state.specs.Whole.{IsShown};
ghost use Rattle.call_plans.specs.Planned.{view_of_wanted};

use crate::checks::CallRange;
use call_plans::WantedLock;
use callbacks::ShortBytes;
use nlm4_types::{Lock, Netobj, WIDE};
use owner_ids::{Owner, Starved};
use range_table::Mode;
use std::alloc::Global;

/// The owner that a call names.
pub(crate) fn owner_of(alloc: Global, alock: &Lock<'_, WIDE>) -> Result<Owner, Starved>
    ensures owner { IfOk result (λ owner. view_of_owner owner ≡ owner_said (view_of_lock alock.now)) }
    ensures shown { IfOk result (λ owner. IsShown (view_of_owner owner)) }
{
    Ok(Owner::Remote {
        name: Vec::from_slice(alloc, alock.caller_name.bytes)?,
        svid: alock.svid,
        oh: Vec::from_slice(alloc, alock.oh.bytes)?,
    })
}

pub(crate) fn mode_of(exclusive: bool) -> Mode
    ensures { view_of_mode result ≡ mode_said exclusive }
{
    if exclusive {
        Mode::Exclusive
    } else {
        Mode::Shared
    }
}

/// The lock that a call asks for, whose bytes are these.
#[tactic(auto, using(crate::proofs::Rules::same_request))]
pub(crate) fn wanted_of(
    alloc: Global,
    place: &CallRange,
    exclusive: bool,
    alock: &Lock<'_, WIDE>,
) -> Result<WantedLock, Starved>
    requires file { place.now.file ≡ alock.now.fh.bytes.now }
    requires first { place.now.range.first ≡ alock.now.l_offset }
    requires last { place.now.range.last ≡ last_of alock.now.l_offset alock.now.l_len }
    ensures { IfOk result (λ wanted. view_of_wanted wanted ≡ request_of exclusive (view_of_lock alock.now)) }
{
    Ok(WantedLock {
        file: place.file,
        owner: owner_of(alloc, alock)?,
        range: place.range,
        mode: mode_of(exclusive),
    })
}

/// A copy of a cookie.
pub(crate) fn cookie_of(alloc: Global, cookie: &Netobj<'_>) -> Result<ShortBytes, Starved>
    ensures { IfOk result (λ copy. copy ≡ cookie.now.bytes.now) }
{
    Ok(ShortBytes::copy_of(alloc, cookie.bytes)?)
}
