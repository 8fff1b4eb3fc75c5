//! Copies of what is sent, for a reply that is kept with the calls that went with it.
ghost use Rattle.std.specs.Prelude.{◌≡◌, IfOk};
ghost use Rattle.callbacks.specs.Meanings.{view_of_told_lock, view_of_local_lock, view_of_told_res, view_of_told_holder, view_of_told_test_res, view_of_told_my_id, view_of_message, view_of_destination};

use crate::callback::{Callback, Destination};
use crate::caller::Caller;
use crate::lock::{LocalLock, OwnedLock};
use crate::message::{Message, OwnedMyId};
use crate::results::{OwnedHolder, OwnedRes, OwnedTestRes};
use crate::short::ShortBytes;
use std::alloc::{AllocError, Global};

impl Callback {
    /// The same callback again, in memory of its own.
    pub fn copy(&self, alloc: Global) -> Result<Callback, AllocError>
        ensures { IfOk result (λ copy. copy ≡ self.now) }
    {
        let to = self.to().copy(alloc)?;
        let message = self.message().copy(alloc)?;
        Ok(Callback::new(to, message))
    }
}

impl Destination {
    fn copy(&self, alloc: Global) -> Result<Destination, AllocError>
        ensures { IfOk result (λ copy. view_of_destination copy ≡ view_of_destination self.now) }
    {
        Ok(match self {
            Destination::Host(name) => Destination::Host(name.copy(alloc)?),
            Destination::Connection(number) => Destination::Connection(*number),
        })
    }
}

impl Message {
    fn copy(&self, alloc: Global) -> Result<Message, AllocError>
        ensures { IfOk result (λ copy. view_of_message copy ≡ view_of_message self.now) }
    {
        Ok(match self {
            Message::Granted {
                version,
                exclusive,
                lock,
            } => Message::Granted {
                version: *version,
                exclusive: *exclusive,
                lock: lock.copy(alloc)?,
            },
            Message::GrantedMsg {
                version,
                exclusive,
                lock,
            } => Message::GrantedMsg {
                version: *version,
                exclusive: *exclusive,
                lock: lock.copy(alloc)?,
            },
            Message::GrantedLine { mode, lock } => Message::GrantedLine {
                mode: *mode,
                lock: lock.copy()?,
            },
            Message::TestResult { version, res } => Message::TestResult {
                version: *version,
                res: res.copy(alloc)?,
            },
            Message::LockResult { version, res } => Message::LockResult {
                version: *version,
                res: res.copy(alloc)?,
            },
            Message::CancelResult { version, res } => Message::CancelResult {
                version: *version,
                res: res.copy(alloc)?,
            },
            Message::UnlockResult { version, res } => Message::UnlockResult {
                version: *version,
                res: res.copy(alloc)?,
            },
            Message::Status {
                my_id,
                mon_name,
                state,
                private_bytes,
            } => Message::Status {
                my_id: my_id.copy(alloc)?,
                mon_name: mon_name.copy(alloc)?,
                state: *state,
                private_bytes: *private_bytes,
            },
            Message::Notify { name, state } => Message::Notify {
                name: name.copy(alloc)?,
                state: *state,
            },
        })
    }
}

impl OwnedLock {
    fn copy(&self, alloc: Global) -> Result<OwnedLock, AllocError>
        ensures { IfOk result (λ copy. view_of_told_lock copy ≡ view_of_told_lock self.now) }
    {
        Ok(OwnedLock {
            caller: self.caller.copy(alloc)?,
            fh: self.fh.copy(alloc)?,
            l_offset: self.l_offset,
            l_len: self.l_len,
        })
    }
}

impl Caller {
    fn copy(&self, alloc: Global) -> Result<Caller, AllocError>
        ensures { IfOk result (λ copy. copy ≡ self.now) }
    {
        Caller::copy_of(alloc, self.name(), self.svid(), self.oh())
    }
}

impl LocalLock {
    fn copy(&self) -> Result<LocalLock, AllocError>
        ensures { IfOk result (λ copy. view_of_local_lock copy ≡ view_of_local_lock self.now) }
    {
        Ok(LocalLock {
            owner: self.owner.clone()?,
            file: self.file,
            offset: self.offset,
            len: self.len,
        })
    }
}

impl OwnedMyId {
    fn copy(&self, alloc: Global) -> Result<OwnedMyId, AllocError>
        ensures { IfOk result (λ copy. view_of_told_my_id copy ≡ view_of_told_my_id self.now) }
    {
        Ok(OwnedMyId {
            my_name: self.my_name.copy(alloc)?,
            prog: self.prog,
            vers: self.vers,
            proc: self.proc,
        })
    }
}

impl OwnedRes {
    fn copy(&self, alloc: Global) -> Result<OwnedRes, AllocError>
        ensures { IfOk result (λ copy. view_of_told_res copy ≡ view_of_told_res self.now) }
    {
        Ok(OwnedRes {
            cookie: self.cookie.copy(alloc)?,
            stat: self.stat,
        })
    }
}

impl OwnedTestRes {
    fn copy(&self, alloc: Global) -> Result<OwnedTestRes, AllocError>
        ensures { IfOk result (λ copy. view_of_told_test_res copy ≡ view_of_told_test_res self.now) }
    {
        let cookie = self.cookie.copy(alloc)?;
        let holder = match &self.holder {
            Some(holder) => Some(holder.copy(alloc)?),
            None => None,
        };
        Ok(OwnedTestRes {
            cookie,
            stat: self.stat,
            holder,
        })
    }
}

impl OwnedHolder {
    fn copy(&self, alloc: Global) -> Result<OwnedHolder, AllocError>
        ensures { IfOk result (λ copy. view_of_told_holder copy ≡ view_of_told_holder self.now) }
    {
        Ok(OwnedHolder {
            exclusive: self.exclusive,
            svid: self.svid,
            oh: self.oh.copy(alloc)?,
            l_offset: self.l_offset,
            l_len: self.l_len,
        })
    }
}

impl ShortBytes {
    fn copy(&self, alloc: Global) -> Result<ShortBytes, AllocError>
        ensures { IfOk result (λ copy. copy ≡ self.now) }
    {
        ShortBytes::copy_of(alloc, self.as_slice())
    }
}
