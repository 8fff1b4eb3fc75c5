//! How many runs a host's owners would have after a setting.
ghost use Rattle.std.specs.Prelude.{◌≡◌, true};
ghost use Rattle.definitions.specs.Owners.{is_of_host};
ghost use Rattle.definitions.specs.Quotas.{is_past};
ghost use Rattle.definitions.specs.Starts.{used_of};
ghost use Rattle.owner_ids.specs.Views.{view_of_owner};
ghost use Rattle.held_locks.specs.Asked.{view_of_new_setting};

use crate::asked::NewSetting;
use crate::host_runs::RunsOfHosts;
use crate::locks::Locks;
use crate::owners::Allowance;
use range_table::RangeTable;

impl<R: RangeTable> Locks<R> {
    /// Whether after the setting the owners of its owner's host would have more runs than so many, and more than before it.
    /// Also of an owner who isn't known: he holds nothing. Changes nothing.
    pub fn is_past(&self, setting: &NewSetting<'_>, host: &[u8], quota: u32) -> bool
        requires own { is_of_host host.now (view_of_owner setting.now.owner.now) ≡ true }
        ensures { result ≡ is_past self.now.settings (view_of_new_setting setting.now) host.now quota }
    {
        let allowance = Allowance {
            used: self.used_of(host),
            quota,
        };
        if !allowance.is_near() {
            return false;
        }
        allowance.is_past(self.used(), self.used_after(setting))
    }
}

impl<R: RangeTable> RunsOfHosts for Locks<R> {
    ghost runs = { λ locks name. used_of name locks.settings };

    fn runs_of(&self, host: &[u8]) -> u32 {
        self.used_of(host)
    }
}
