//! Rows of the lists that are shown: copies of what the server's state has.

/// Who holds or wants a lock.
#[derive(Debug, Drop, PartialEq, Eq)]
pub enum OwnerRow {
    /// An owner of a host, by what its client says of it (XNFS, `nlm4_lock`): the host's name, a number there, and the owner
    /// handle.
    Host {
        name: Vec<u8>,
        svid: i32,
        oh: Vec<u8>,
    },
    /// A process of the server's machine, by its number.
    Process(u32),
    /// An open file description of the server's machine, by its number.
    Description(u64),
}

/// Bytes of a file that an owner holds or wants in one mode.
#[derive(Debug, Drop, PartialEq, Eq)]
pub struct LockRow {
    /// The file's handle, 1 to 64 bytes.
    pub file: Vec<u8>,
    pub owner: OwnerRow,
    /// The first byte.
    pub first: u64,
    /// The last byte, 2^63 - 1 to the end of the file.
    pub last: u64,
    /// Whether it excludes all other locks, as one for writing does.
    pub is_exclusive: bool,
}

/// A lock that is waited for.
#[derive(Debug, Drop)]
pub struct Waiting {
    pub lock: LockRow,
    /// When it was first seen to be waited for, in seconds of the clock of whoever looks.
    pub since: u64,
}

/// A host with a row in the store.
#[derive(Debug, Drop)]
pub struct HostRow {
    pub name: Vec<u8>,
    /// The own state of the server that was current when the row was made, or that the host last acknowledged.
    pub epoch: u32,
    /// The host's own state, as it last told it.
    pub seen: i32,
    /// How many runs of bytes its owners may have.
    pub quota: u32,
    /// How many they have.
    pub runs: u32,
}

/// The lists of one moment.
#[derive(Debug, Drop)]
pub struct Lists {
    /// All locks, in order of file, first byte and owner.
    pub locks: Vec<LockRow>,
    /// All that are waited for, in the order of waiting.
    pub waiters: Vec<LockRow>,
    /// All stored hosts, in order of name.
    pub hosts: Vec<HostRow>,
}
