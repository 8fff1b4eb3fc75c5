//! One message of each kind, and what they are made of.
ghost use Rattle.std.specs.Prelude.{◌≤◌, length};

use callbacks::{
    Caller, LocalLock, Message, OwnedHolder, OwnedLock, OwnedMyId, OwnedRes, OwnedTestRes,
    ShortBytes,
};
use nlm4_types::{Stat, Version};
use owner_ids::Owner;
use range_table::{FileId, Mode};
use std::alloc::Global;
use std::process::Abort;

/// Memory, and the end of the test where there is none.
#[derive(Drop)]
pub(crate) struct Memory<'a, R: Abort> {
    rt: &'a R,
    alloc: Global,
}

impl<'a, R: Abort> Memory<'a, R> {
    pub(crate) fn new(rt: &'a R, alloc: Global) -> Memory<'a, R> {
        Memory { rt, alloc }
    }

    pub(crate) fn short(&self, bytes: &[u8]) -> ShortBytes
        requires { length bytes.now ≤ 1024 }
    {
        ShortBytes::copy_of(self.alloc, bytes).expect(self.rt, "memory")
    }

    /// A lock of svid 8 at the host `b` on the bytes 0 to 9.
    pub(crate) fn lock(&self) -> OwnedLock {
        let caller = Caller::copy_of(self.alloc, b"b", 8, b"B");
        let fh = ShortBytes::copy_of(self.alloc, &[1, 2, 3, 4]);
        OwnedLock {
            caller: caller.expect(self.rt, "memory"),
            fh: fh.expect(self.rt, "memory"),
            l_offset: 0,
            l_len: 10,
        }
    }

    /// An exclusive lock of svid 7.
    pub(crate) fn holder(&self, l_offset: u64, l_len: u64) -> OwnedHolder {
        OwnedHolder {
            exclusive: true,
            svid: 7,
            oh: self.short(b"A"),
            l_offset,
            l_len,
        }
    }

    pub(crate) fn res(&self, cookie: u32, stat: Stat) -> OwnedRes {
        OwnedRes {
            cookie: self.short(&cookie.to_be_bytes()),
            stat,
        }
    }

    /// What a test answers under the cookie 3.
    pub(crate) fn test_res(&self, holder: Option<OwnedHolder>) -> OwnedTestRes {
        let stat = if holder.is_some() {
            Stat::Denied
        } else {
            Stat::Granted
        };
        OwnedTestRes {
            cookie: self.short(&[0, 0, 0, 3]),
            stat,
            holder,
        }
    }

    pub(crate) fn granted(&self) -> Message {
        Message::Granted {
            version: Version::V4,
            exclusive: true,
            lock: self.lock(),
        }
    }

    pub(crate) fn granted_msg(&self) -> Message {
        Message::GrantedMsg {
            version: Version::V4,
            exclusive: true,
            lock: self.lock(),
        }
    }

    pub(crate) fn lock_result(&self) -> Message {
        Message::LockResult {
            version: Version::V4,
            res: self.res(7, Stat::Granted),
        }
    }

    pub(crate) fn test_result(&self) -> Message {
        Message::TestResult {
            version: Version::V4,
            res: self.test_res(Some(self.holder(0, 10))),
        }
    }

    pub(crate) fn notice(&self) -> Message {
        Message::Notify {
            name: self.short(b"server"),
            state: 3,
        }
    }

    pub(crate) fn status_of_a(&self) -> Message {
        let my_id = OwnedMyId {
            my_name: self.short(b"server"),
            prog: 200_000,
            vers: 1,
            proc: -1,
        };
        Message::Status {
            my_id,
            mon_name: self.short(b"a"),
            state: 5,
            private_bytes: [0, 1, 2, 3, 4, 5, 6, 7, 8, 9, 10, 11, 12, 13, 14, 15],
        }
    }
}

/// The line `granted` of a process.
pub(crate) fn granted_line() -> Message {
    let lock = LocalLock {
        owner: Owner::Process(42),
        file: FileId::new(&[10]),
        offset: 0,
        len: 1,
    };
    let mode = Mode::Exclusive;
    Message::GrantedLine { mode, lock }
}
