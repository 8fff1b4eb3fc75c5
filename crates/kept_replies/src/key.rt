//! What a kept reply is found by.
use bytes::Bytes;
use std::hash::{Hash, Hasher};
use std::marker::Model;

/// An address without its port, and whether it is this machine. Two peers are one where both are equal.
#[derive(Clone, Copy, Debug, PartialEq, Eq)]
pub struct Peer {
    /// An IPv6 address, or an IPv4 address in its mapped form (RFC 4291, section 2.5.5.2).
    pub address: [u8; 16],
    pub is_local: bool,
}

impl Peer {
    /// The program that writes to the daemon's standard input.
    pub const PIPE: Peer = Peer {
        address: *b"pipe\0\0\0\0\0\0\0\0\0\0\0\0",
        is_local: true,
    };
}

/// The whole record of the call, which shares the bytes that were received, and who asked.
#[derive(PartialEq, Eq, Drop)]
pub struct Key {
    pub record: Bytes,
    pub peer: Peer,
}

/// How many bytes at the start of a record are hashed: its xid (RFC 5531, section 9).
const FIRST: usize = 4;

/// How many bytes at the end of a record are hashed: what a call asks for, in most of them.
const LAST: usize = 32;

/// Calls of one peer differ in their xid, or in what they ask for. So a part of the record is hashed and all of it is compared.
impl Hash for Key {
    ghost use Rattle.std.specs.Prelude.{◌-◌, [], ◌∷◌, length, take, drop, min};
    ghost use Rattle.std.proofs.Common.{rules};

    ghost hash_input = { λ k. take (min 4 (length k.record)) k.record ∷ drop (length k.record - 32) k.record ∷ k.peer.address ∷ [] };

    ghost respects_eq = { Prim.search rules };

    fn hash<H: Hasher>(&self, state: &mut H) {
        let record = self.record.as_slice();
        let (first, _) = record.split_at(FIRST.min(record.len()));
        let (_, last) = record.split_at(record.len().saturating_sub(LAST));
        state.write(first);
        state.write(last);
        state.write(&self.peer.address);
    }
}
