//! One share of a file.
ghost use Rattle.std.specs.Prelude.{◌≡◌, ◌&&◌};
ghost use Rattle.definitions.specs.Bytes.{same_bytes};
ghost use Rattle.definitions.specs.Shares.{is_same_place, shares_clash};

use crate::access::AccessBits;
use std::marker::Model;

/// What one owner does with a file, and what it denies the others. An owner is a host and an owner handle
/// (XNFS, nlm4_share).
#[derive(Drop)]
pub struct Share {
    file: Vec<u8>,
    caller_name: Vec<u8>,
    oh: Vec<u8>,
    deny: AccessBits,
    access: AccessBits,
}

impl Model for Share {
    ghost use Rattle.definitions.specs.Shares.{Share as FileShare};

    ghost Value = { FileShare };

    ghost view = { λ s. record { file = s.file.items; name = s.caller_name.items; oh = s.oh.items; deny = s.deny; access = s.access } };
}

impl Share {
    /// A share of `file` by the owner `oh` of the host `caller_name`, from copies that the caller made.
    pub fn new(
        file: Vec<u8>,
        caller_name: Vec<u8>,
        oh: Vec<u8>,
        deny: AccessBits,
        access: AccessBits,
    ) -> Share
        ensures { result ≡ record { file = file.items; name = caller_name.items; oh = oh.items; deny = deny; access = access } }
    {
        Share {
            file,
            caller_name,
            oh,
            deny,
            access,
        }
    }

    pub fn file(&self) -> &[u8]
        ensures { result.now ≡ self.now.file }
    {
        self.file.as_slice()
    }

    /// The host that the owner is on.
    pub fn caller_name(&self) -> &[u8]
        ensures { result.now ≡ self.now.name }
    {
        self.caller_name.as_slice()
    }

    /// The owner handle.
    pub fn oh(&self) -> &[u8]
        ensures { result.now ≡ self.now.oh }
    {
        self.oh.as_slice()
    }

    /// What the others may not do.
    pub fn deny(&self) -> AccessBits
        ensures { result ≡ self.now.deny }
    {
        self.deny
    }

    /// What the owner does.
    pub fn access(&self) -> AccessBits
        ensures { result ≡ self.now.access }
    {
        self.access
    }

    // Whether this is the owner's share of the file.
    pub(crate) fn is_at(&self, file: &[u8], caller_name: &[u8], oh: &[u8]) -> bool
        ensures { result ≡ (same_bytes file.now self.now.file && same_bytes caller_name.now self.now.name && same_bytes oh.now self.now.oh) }
    {
        file == self.file() && caller_name == self.caller_name() && oh == self.oh()
    }

    // Whether both are of one owner on one file.
    pub(crate) fn is_same_place(&self, other: &Share) -> bool
        ensures { result ≡ is_same_place self.now other.now }
    {
        other.is_at(self.file(), self.caller_name(), self.oh())
    }

    // Whether another owner's share of the file does what this one denies, or denies what this one does.
    pub(crate) fn clashes(&self, other: &Share) -> bool
        ensures { result ≡ shares_clash self.now other.now }
    {
        self.file() == other.file()
            && !self.is_same_place(other)
            && (self.access.meets(other.deny()) || self.deny.meets(other.access()))
    }
}
