//! Values lent as the protocol's own (RFC 1813, appendix II), to be written.
ghost use Rattle.std.specs.Prelude.{◌≡◌};
ghost use Rattle.nlm4_types.specs.Lock.{view_of_lock};
ghost use Rattle.nlm4_types.specs.Results.{view_of_res, view_of_holder, view_of_testres};
ghost use Rattle.callbacks.specs.Meanings.{view_of_told_lock, view_of_told_res, view_of_told_holder, view_of_told_test_res};

use crate::lock::OwnedLock;
use crate::results::{OwnedHolder, OwnedRes, OwnedTestRes};
use crate::short::ShortBytes;
use nlm4_types::WIDE;
use xdr_core::Opaque;

impl ShortBytes {
    pub fn lent(&self) -> Opaque<'_, 1024>
        ensures { result.bytes.now ≡ self.now }
    {
        Opaque {
            bytes: self.as_slice(),
        }
    }
}

impl OwnedLock {
    pub fn lent(&self) -> nlm4_types::Lock<'_, WIDE>
        ensures { view_of_lock result ≡ view_of_told_lock self.now }
    {
        nlm4_types::Lock {
            caller_name: Opaque {
                bytes: self.caller.name(),
            },
            fh: self.fh.lent(),
            oh: Opaque {
                bytes: self.caller.oh(),
            },
            svid: self.caller.svid(),
            l_offset: self.l_offset,
            l_len: self.l_len,
        }
    }
}

impl OwnedRes {
    pub fn lent(&self) -> nlm4_types::Res<'_>
        ensures { view_of_res result ≡ view_of_told_res self.now }
    {
        nlm4_types::Res {
            cookie: self.cookie.lent(),
            stat: self.stat,
        }
    }
}

impl OwnedHolder {
    pub fn lent(&self) -> nlm4_types::Holder<'_, WIDE>
        ensures { view_of_holder result ≡ view_of_told_holder self.now }
    {
        nlm4_types::Holder {
            exclusive: self.exclusive,
            svid: self.svid,
            oh: self.oh.lent(),
            l_offset: self.l_offset,
            l_len: self.l_len,
        }
    }
}

impl OwnedTestRes {
    pub fn lent(&self) -> nlm4_types::TestRes<'_, WIDE>
        ensures { view_of_testres result ≡ view_of_told_test_res self.now }
    {
        let holder = match &self.holder {
            Some(holder) => Some(holder.lent()),
            None => None,
        };
        nlm4_types::TestRes {
            cookie: self.cookie.lent(),
            stat: self.stat,
            holder,
        }
    }
}
