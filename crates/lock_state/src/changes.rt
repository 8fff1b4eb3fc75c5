//! The small changes that calls are made of.
ghost use Rattle.std.specs.Prelude.{◌≡◌, ◌≢◌, ◌↔◌, ◌⊎◌, true, false, None, OnOk, OnErr, IsErr, IsTrue};
ghost use Rattle.definitions.specs.Owners.{Owner as SaidOwner, is_of_host};
ghost use Rattle.definitions.specs.Phases.{Normal};
ghost use Rattle.definitions.specs.Starts.{refuses};
ghost use Rattle.definitions.specs.Shares.{is_denied, has_no_room, with_share, without_share};
ghost use Rattle.definitions.specs.LockRules.{with_lock, without_grants_of};
ghost use Rattle.definitions.specs.Settings.{setting_of};
ghost use Rattle.definitions.specs.World.{with_calls, with_setting, without_host_of};
ghost use Rattle.owner_ids.specs.Views.{view_of_owner};
ghost use Rattle.held_locks.specs.Asked.{view_of_new_setting, view_of_request};
ghost use Rattle.lock_state.specs.Seen.{AdmitsNobody, IsIdle, Knows, KeepsKnown};
ghost use Rattle.lock_state.specs.Whole.{IsShown};

use crate::quotas::Stored;
use crate::unsettled::{Unsettled, set_on};
use crate::world::World;
use dos_shares::{Share, ShareError};
use grace::Phase;
use held_locks::{NewSetting, Request};
use hosts_db::HostStore;
use owner_ids::{Owner, Starved};
use range_table::{NoRuns, RangeTable};

impl<R: RangeTable, S: HostStore> World<R, S> {
    /// Makes an owner known, so that a lock of it can be set. The world stays. Starved: nobody has become known.
    pub fn admit(&mut self, owner: &Owner) -> Result<(), Starved>
        ensures world { self.new.world ≡ self.old.world }
        ensures refusals { self.new.refusals ≡ self.old.refusals }
        ensures known { OnOk result (Knows self.new (view_of_owner owner.now)) }
        ensures others { KeepsKnown self.old self.new }
        ensures err { OnErr result (AdmitsNobody self.old self.new) }
    {
        self.locks.admit(owner)
    }

    /// Forgets an owner that holds nothing and waits for nothing. The world stays, and the others stay known.
    pub fn forget_idle(&mut self, owner: &Owner)
        ensures world { self.new.world ≡ self.old.world }
        ensures refusals { self.new.refusals ≡ self.old.refusals }
        ensures others { (x : SaidOwner) → x ≢ view_of_owner owner.now → Knows self.old x → Knows self.new x }
        ensures forgotten { IsIdle self.old.world (view_of_owner owner.now) → Knows self.new (view_of_owner owner.now) → ⊥ }
    {
        let (_, owners) = self.locks.parts();
        match owners.number(owner) {
            Some(number) if !self.slots.has_owner(number) => self.locks.forget_idle(owner),
            _ => {}
        }
    }

    /// From now on an owner holds this mode from the first to the last byte, or nothing. Whoever locks is known. Refused
    /// where fewer than 2 of 65,536 runs are free, but for an unlock that raises the number of runs no further. Then
    /// nothing has changed.
    pub fn set(&mut self, setting: &NewSetting<'_>) -> Result<(), NoRuns>
        requires known { (setting.now.mode ≡ None) ⊎ Knows self.old (view_of_owner setting.now.owner.now) }
        requires shown { IsShown (view_of_owner setting.now.owner.now) }
        ensures refused { IsErr result ↔ IsTrue (refuses 65536 self.old.world.settings (view_of_new_setting setting.now)) }
        ensures ok { OnOk result (self.new ≡ record self.old { world = with_setting self.old.world (view_of_new_setting setting.now) }) }
        ensures err { OnErr result (self.new ≡ self.old) }
    {
        let quotas = Stored { store: &self.store };
        set_on(&mut self.locks, &mut self.unsettled, &quotas, setting)
    }

    /// Sets a lock whose owner is answered GRANTED (XNFS, NLM_LOCK; POSIX, fcntl). Whoever locks is known. Under the rules by which
    /// polls end grants, whatever was to tell of this lock ends. Refused where fewer than 2 of 65,536 runs are free. Then nothing
    /// has changed.
    pub fn lock(&mut self, wanted: &Request<'_>) -> Result<(), NoRuns>
        requires known { Knows self.old (view_of_owner wanted.now.owner.now) }
        requires shown { IsShown (view_of_owner wanted.now.owner.now) }
        ensures refused { IsErr result ↔ IsTrue (refuses 65536 self.old.world.settings (setting_of (view_of_request wanted.now))) }
        ensures ok { OnOk result (self.new ≡ record self.old { world = with_lock self.old.world (view_of_request wanted.now) }) }
        ensures err { OnErr result (self.new ≡ self.old) }
    {
        let setting = NewSetting {
            file: wanted.file,
            owner: wanted.owner,
            range: wanted.range,
            mode: Some(wanted.mode),
        };
        let set = self.set(&setting);
        if set.is_ok() && self.rules.polls_end_grants {
            self.end_grants(wanted);
        }
        set
    }

    // Whatever is to tell of this lock ends, due or sent. Its places are free.
    fn end_grants(&mut self, wanted: &Request<'_>)
        ensures { self.new ≡ record self.old { world = with_calls self.old.world (without_grants_of (view_of_request wanted.now) self.old.world.calls) } }
    {
        let before = self.calls.len();
        self.calls.end_grants(wanted);
        self.slots.give(before - self.calls.len());
    }

    /// Takes a share (XNFS, NLM_SHARE). The owner's earlier share of the file goes. Refused, nothing has changed.
    pub fn share(&mut self, share: Share) -> Result<(), ShareError>
        ensures ok { OnOk result (self.new ≡ record self.old { world = record self.old.world { shares = with_share share self.old.world.shares } }) }
        ensures err { OnErr result (self.new ≡ self.old) }
        ensures denied { (result ≡ Err ShareError.ShareDenied) ↔ (is_denied self.old.world.shares share ≡ true) }
        ensures no_room { (result ≡ Err ShareError.NoShares) ↔ ((is_denied self.old.world.shares share ≡ false) × (has_no_room 16384 self.old.world.shares share ≡ true)) }
    {
        self.shares.share(share)
    }

    /// Takes out the share of that file and owner, whatever it denies and does (XNFS, NLM_UNSHARE).
    pub fn unshare(&mut self, share: &Share)
        ensures { self.new ≡ record self.old { world = record self.old.world { shares = without_share share.now self.old.world.shares } } }
    {
        self.shares
            .unshare(share.file(), share.caller_name(), share.oh());
    }

    /// Takes out the locks, waiters and shares of a host, and its unanswered grants (XNFS, NLM_FREE_ALL and SM_NOTIFY).
    pub fn drop_host(&mut self, name: &[u8])
        ensures world { self.new.world ≡ without_host_of self.old.world name.now }
        ensures refusals { self.new.refusals ≡ self.old.refusals }
        ensures others { (x : SaidOwner) → is_of_host name.now x ≡ false → Knows self.old x → Knows self.new x }
        ensures forgotten { (x : SaidOwner) → is_of_host name.now x ≡ true → Knows self.new x → ⊥ }
    {
        let (_, owners) = self.locks.parts();
        self.slots.drop_host(owners, name);
        self.locks.drop_host(name);
        self.shares.drop_host(name);
        self.unsettled = Unsettled::Anywhere;
        let before = self.calls.len();
        self.calls.drop_host(name);
        self.slots.give(before - self.calls.len());
    }

    /// The grace period is over.
    pub fn grace_over(&mut self)
        ensures { self.new ≡ record self.old { world = record self.old.world { phase = Normal } } }
    {
        self.phase = Phase::Normal;
    }
}
