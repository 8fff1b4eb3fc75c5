//! Which boots hosts reported. A host reports its boot by LOCKs and by notices (SM_NOTIFY). Both carry a number: within one kind
//! it is the same for all of one boot and another for the next, and the numbers of the two kinds can't be compared with each
//! other. So each kind reports a reboot by a new number. The first report of a boot finds a reboot: what the host held before is
//! to go. The first one of the other kind finds that boot reported, and nothing is to go.
#![tactic(auto)]

mod host;
mod hosts;
mod law;
mod reports;

pub use hosts::{BootStates, MOST_HOSTS};
pub use law::{boot_is_found_once, first_lock_is_level, repeats_find_nothing};
pub use reports::{Finding, Kind, Report};
