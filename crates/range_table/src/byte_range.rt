//! Bytes of a file.
ghost use Rattle.std.specs.Prelude.{◌≤◌, ◌<◌, ◌^◌};

/// Bytes of a file, from the first to the last: at least one, and of the bytes from 0 to 2^63 - 1 (POSIX, fcntl).
#[derive(Clone, Copy)]
pub struct ByteRange {
    pub first: u64,
    pub last: u64,
    pub ghost ordered: { first ≤ last },
    pub ghost inside: { last < 2 ^ 63 },
}
