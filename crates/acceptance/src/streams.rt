//! Streams in their words, and what is sent for them (RFC 5531; RFC 1813, appendix II), each whole and byte by byte.
use daemon_scripts::{Misplayed, Streams, play_streams};

/// The streams of each row are played one by one.
const ROWS: &[Streams] = &[
    // An exclusive lock of the bytes 0 to 9, by the process 7 of host `a`; and whether the process 8 of host `b` could lock the
    // whole file.
    (
        "lock_and_test",
        &[&[
            "begins",
            "in 8000006c 2 0 2 186b5 4 2 0 0 0 0 4 2 0 1 1 61000000 4 1020304 1 41000000 7 0 0 0 a 0 3",
            "in 80000060 3 0 2 186b5 4 1 0 0 0 0 4 3 1 1 62000000 4 1020304 1 42000000 8 0 0 0 0",
            "out 80000024 2 1 0 0 0 0 4 2 0",
            "out 80000044 3 1 0 0 0 0 4 3 1 1 7 1 41000000 0 0 0 a",
        ]],
    ),
    // A NULL in one fragment, and in three, one of which is empty.
    (
        "pieces",
        &[
            &[
                "begins",
                "in 80000028 1 0 2 186b5 4 0 0 0 0 0",
                "out 80000018 1 1 0 0 0 0",
            ],
            &[
                "begins",
                "in 10 1 0 2 186b5 0 80000018 4 0 0 0 0 0",
                "out 80000018 1 1 0 0 0 0",
            ],
        ],
    ),
    (
        "empty_input",
        &[&["begins", "in"], &["begins", "in 80*1 00*1"]],
    ),
    // A mark of one byte too many ends the stream, whatever stands behind it; what stood before it is answered.
    (
        "record_too_long",
        &[
            &["begins", "in 80002001", "too-long"],
            &[
                "begins",
                "in 80002001 80000028 1 0 2 186b5 4 0 0 0 0 0",
                "too-long",
            ],
            &[
                "begins",
                "in 80000028 1 0 2 186b5 4 0 0 0 0 0 80002001",
                "out 80000018 1 1 0 0 0 0",
                "too-long",
            ],
        ],
    ),
    // Another RPC version, program, version, procedure and credential.
    (
        "refused_headers",
        &[
            &[
                "begins",
                "in 80000028 1 0 3 186b5 4 0 0 0 0 0",
                "out 80000018 1 1 1 0 2 2",
            ],
            &[
                "begins",
                "in 80000028 1 0 2 186a3 4 0 0 0 0 0",
                "out 80000018 1 1 0 0 0 1",
            ],
            &[
                "begins",
                "in 80000028 1 0 2 186b5 4 10 0 0 0 0",
                "out 80000018 1 1 0 0 0 3",
            ],
            &[
                "begins",
                "in 80000028 1 0 2 186b5 4 0 6 0 0 0",
                "out 80000014 1 1 1 1 1",
            ],
        ],
    ),
    // The NULL call in a version that isn't served.
    (
        "version_2",
        &[&[
            "begins",
            "in 80000028 1 0 2 186b5 2 0 0 0 0 0",
            "out 80000020 1 1 0 0 0 2 1 4",
        ]],
    ),
    // Arguments whose `block` is 2, and those with a word behind them.
    (
        "garbage_args",
        &[
            &[
                "begins",
                "in 8000006c 2 0 2 186b5 4 2 0 0 0 0 4 2 2 1 1 61000000 4 1020304 1 41000000 7 0 0 0 a 0 3",
                "out 80000018 2 1 0 0 0 4",
            ],
            &[
                "begins",
                "in 80000070 2 0 2 186b5 4 2 0 0 0 0 4 2 0 1 1 61000000 4 1020304 1 41000000 7 0 0 0 a 0 3 0",
                "out 80000024 2 1 0 0 0 0 4 2 0",
            ],
        ],
    ),
    // Arguments without their last word.
    (
        "record_cut_short",
        &[&[
            "begins",
            "in 80000068 2 0 2 186b5 4 2 0 0 0 0 4 2 0 1 1 61000000 4 1020304 1 41000000 7 0 0 0 a 0",
            "out 80000018 2 1 0 0 0 4",
        ]],
    ),
    // A NULL with AUTH_SYS: stamp 0, machine `a`, uid 0, gid 0, no other groups. Seventeen groups are one too many.
    (
        "null_auth_sys",
        &[
            &[
                "begins",
                "in 80000040 1 0 2 186b5 4 0 1 18 0 1 61000000 0 0 0 0 0",
                "out 80000018 1 1 0 0 0 0",
            ],
            &[
                "begins",
                "in 80000040 1 0 2 186b5 4 0 1 18 0 1 61000000 0 0 11 0 0",
                "out 80000014 1 1 1 1 1",
            ],
        ],
    ),
    // SM_STAT of `a`.
    (
        "stat_call",
        &[&[
            "begins",
            "in 80000030 c 0 2 186b8 1 1 0 0 0 0 1 61000000",
            "out 80000020 c 1 0 0 0 0 0 1",
        ]],
    ),
    // LOCKs by a caller whose name has 2^32 - 1 bytes, 1,025 and 1,024.
    (
        "name_too_long",
        &[
            &[
                "begins",
                "in 8000006c 2 0 2 186b5 4 2 0 0 0 0 4 2 0 1 ffffffff 61*4 4 1020304 1 41000000 7 0 0 0 a 0 3",
                "out 80000018 2 1 0 0 0 4",
            ],
            &[
                "begins",
                "in 8000046c 2 0 2 186b5 4 2 0 0 0 0 4 2 0 1 401 61*1028 4 1020304 1 41000000 7 0 0 0 a 0 3",
                "out 80000018 2 1 0 0 0 4",
            ],
            &[
                "begins",
                "in 80000468 2 0 2 186b5 4 2 0 0 0 0 4 2 0 1 400 61*1024 4 1020304 1 41000000 7 0 0 0 a 0 3",
                "out 80000024 2 1 0 0 0 0 4 2 0",
            ],
        ],
    ),
    // A NULL whose credential is of no kind and has 400 bytes, and one that has 401, which is no call.
    (
        "credential_too_long",
        &[
            &[
                "begins",
                "in 800001b8 2 0 2 186b5 4 0 0 190 00*400 0 0",
                "out 80000018 2 1 0 0 0 0",
            ],
            &["begins", "in 800001bc 2 0 2 186b5 4 0 0 191 00*404 0 0"],
        ],
    ),
    // The longest record is answered: the bytes behind the arguments are not looked at.
    (
        "trailing_bytes",
        &[&[
            "begins",
            "in 80002000 2 0 2 186b5 4 0 0 0 0 0 00*8152",
            "out 80000018 2 1 0 0 0 0",
        ]],
    ),
];

#[test]
fn streams(rt: HostRuntime) -> Result<(), (&'static str, Misplayed)> {
    play_streams(rt.alloc(), ROWS)
}
