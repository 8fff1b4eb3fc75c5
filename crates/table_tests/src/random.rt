//! Numbers for random scripts.

/// The next number of the sequence, without its low bits.
pub(crate) fn next_bits(seed: &mut u64) -> u64 {
    *seed = seed
        .wrapping_mul(6_364_136_223_846_793_005)
        .wrapping_add(1_442_695_040_888_963_407);
    *seed >> 33
}

/// The next number of a shorter sequence. Its low bits are hardly random.
pub(crate) fn next_word(random: &mut u32) -> u32 {
    *random = random.wrapping_mul(1_664_525).wrapping_add(1_013_904_223);
    *random
}
