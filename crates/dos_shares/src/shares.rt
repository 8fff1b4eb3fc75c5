//! The shares that are held.
ghost use Rattle.std.specs.Prelude.{◌≡◌, ◌↔◌, ◌≤◌, [], length, true, false, IfOk, OnOk, OnErr, IsTrue};
ghost use Rattle.definitions.specs.Shares.{Access as FileAccess, is_denied, has_place, has_no_room, with_share, without_share, without_host_shares};

use crate::share::Share;
use owner_ids::Starved;
use std::alloc::Global;
use std::marker::Model;
use thiserror::Error;

/// How many shares are held at most.
pub const MOST_SHARES: usize = 16_384;

/// Why a share is refused.
#[derive(Clone, Copy, Debug, PartialEq, Eq, Error)]
pub enum ShareError {
    /// Another owner's share of the file does what this one denies, or denies what this one does.
    #[error("14 ShareDenied")]
    ShareDenied,
    /// `MOST_SHARES` are held, and none of them is this owner's on the file.
    #[error("15 NoShares")]
    NoShares,
}

/// The shares that are held: one for each file and owner, the newest last. Contracts see the list of them.
///
/// Room for all of them is reserved at the start, so no later call takes memory.
#[derive(Drop)]
pub struct Shares {
    held: Vec<Share>,
}

impl Model for Shares {
    ghost use Rattle.std.specs.Prelude.{List, ◌≤◌, length, vec_capacity};
    ghost use Rattle.definitions.specs.Shares.{Share as FileShare};

    ghost Value = { List FileShare };

    ghost view = { λ s. s.held.items };

    ghost invariant = { λ s. (length s.held.items ≤ 16384) × (16384 ≤ vec_capacity s.held) };
}

impl Shares {
    /// A table with room for `MOST_SHARES`, or `Starved` where there is no memory for it.
    pub fn new(alloc: Global) -> Result<Shares, Starved>
        ensures { IfOk result (λ shares. shares ≡ []) }
    {
        let held = Vec::with_capacity(alloc, MOST_SHARES).map_err(|_| Starved)?;
        Ok(Shares { held })
    }

    pub fn len(&self) -> usize
        ensures len { result ≡ length self.now }
        ensures most { length self.now ≤ MOST_SHARES }
    {
        self.held.len()
    }

    pub fn is_empty(&self) -> bool
        ensures { IsTrue result ↔ (self.now ≡ []) }
    {
        self.held.is_empty()
    }

    /// The shares, the newest last.
    pub fn as_slice(&self) -> &[Share]
        ensures { result.now ≡ self.now }
    {
        self.held.as_slice()
    }

    /// Whether a share can be taken. `ShareDenied` comes before `NoShares`.
    pub fn check(&self, share: &Share) -> Result<(), ShareError>
        ensures ok { OnOk result ((is_denied self.now share.now ≡ false) × (has_no_room MOST_SHARES self.now share.now ≡ false)) }
        ensures denied { (result ≡ Err ShareError.ShareDenied) ↔ (is_denied self.now share.now ≡ true) }
        ensures no_room { (result ≡ Err ShareError.NoShares) ↔ ((is_denied self.now share.now ≡ false) × (has_no_room MOST_SHARES self.now share.now ≡ true)) }
    {
        if self.is_denied(share) {
            return Err(ShareError::ShareDenied);
        }
        if self.is_full_for(share) {
            return Err(ShareError::NoShares);
        }
        Ok(())
    }

    /// Takes a share (XNFS, NLM_SHARE). The owner's earlier share of the file goes.
    ///
    /// `ShareDenied` comes before `NoShares`. After either the table is as it was, and the share is dropped.
    pub fn share(&mut self, share: Share) -> Result<(), ShareError>
        ensures ok { OnOk result (self.new ≡ with_share share self.old) }
        ensures err { OnErr result (self.new ≡ self.old) }
        ensures denied { (result ≡ Err ShareError.ShareDenied) ↔ (is_denied self.old share ≡ true) }
        ensures no_room { (result ≡ Err ShareError.NoShares) ↔ ((is_denied self.old share ≡ false) × (has_no_room MOST_SHARES self.old share ≡ true)) }
    {
        if self.is_denied(&share) {
            return Err(ShareError::ShareDenied);
        }
        if self.is_full_for(&share) {
            return Err(ShareError::NoShares);
        }
        self.unshare(share.file(), share.caller_name(), share.oh());
        self.held.push_reserved(share);
        Ok(())
    }

    /// Takes out the owner's share of the file, where there is one (XNFS, NLM_UNSHARE).
    pub fn unshare(&mut self, file: &[u8], caller_name: &[u8], oh: &[u8])
        ensures { (deny access : FileAccess) → self.new ≡ without_share (record { file = file.now; name = caller_name.now; oh = oh.now; deny = deny; access = access }) self.old }
    {
        self.held.retain(|held| !held.is_at(file, caller_name, oh));
    }

    /// Takes out every share of a host (XNFS, NLM_FREE_ALL and SM_NOTIFY).
    pub fn drop_host(&mut self, name: &[u8])
        ensures { self.new ≡ without_host_shares name.now self.old }
    {
        self.held.retain(|held| held.caller_name() != name);
    }

    /// Takes out every share, as at a restart.
    pub fn clear(&mut self)
        ensures { self.new ≡ [] }
    {
        self.held.clear();
    }

    // Whether another owner's share clashes with this one.
    fn is_denied(&self, share: &Share) -> bool
        ensures { result ≡ is_denied self.now share.now }
    {
        self.held.iter().any(|held| share.clashes(held))
    }

    // Whether there is no room, and no share whose place this one would take. A table with room isn't searched.
    fn is_full_for(&self, share: &Share) -> bool
        ensures test { result ≡ has_no_room MOST_SHARES self.now share.now }
        ensures most { length self.now ≤ MOST_SHARES }
    {
        self.len() >= MOST_SHARES && !self.has_place(share)
    }

    // Whether the owner has a share of the file.
    fn has_place(&self, share: &Share) -> bool
        ensures { result ≡ has_place self.now share.now }
    {
        self.held.iter().any(|held| share.is_same_place(held))
    }
}
