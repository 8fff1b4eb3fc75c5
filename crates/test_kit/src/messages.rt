//! The messages of the scripts by name, in their words (RFC 4506, RFC 5531; RFC 1813, appendix II; XNFS, NLM and NSM), written
//! by hand and not by the daemon's own codec. The first word is the mark of the record's one fragment.
//!
//! A word is hexadecimal, of 4 bytes; `05*68` is 68 bytes 05. `xid`, `name`, `handle` and `svid` are of who calls and of its owner,
//! `#0` is the first number of the script's line as a word, `##0` the same in 8 bytes. The file is 01020304.
use crate::words::{Terms, put_words};

/// Of the lock manager, version 4. Behind offset and length of a lock stand whether it is a reclaim, and the state 3. The host of a
/// name that ends in `-by` is the four bytes of a number.
const LOCK_CALLS: &[&str] = &[
    "null: 80000028 xid 0 2 186b5 4 0 0 0 0 0",
    "test: 80000060 xid 0 2 186b5 4 1 0 0 0 0 4 xid 1 1 name 4 1020304 1 handle svid ##0 ##1",
    "lock: 8000006c xid 0 2 186b5 4 2 0 0 0 0 4 xid 0 1 1 name 4 1020304 1 handle svid ##0 ##1 0 3",
    "reclaim: 8000006c xid 0 2 186b5 4 2 0 0 0 0 4 xid 0 1 1 name 4 1020304 1 handle svid ##0 ##1 1 3",
    "reclaim-shared: 8000006c xid 0 2 186b5 4 2 0 0 0 0 4 xid 0 0 1 name 4 1020304 1 handle svid ##0 ##1 1 3",
    "block: 8000006c xid 0 2 186b5 4 2 0 0 0 0 4 xid 1 1 1 name 4 1020304 1 handle svid ##0 ##1 0 3",
    "block-shared: 8000006c xid 0 2 186b5 4 2 0 0 0 0 4 xid 1 0 1 name 4 1020304 1 handle svid ##0 ##1 0 3",
    "lock-in: 8000006c xid 0 2 186b5 4 2 0 0 0 0 4 xid 0 1 1 name 4 #0 1 handle svid ##1 ##2 0 3",
    "lock-long: 800000ac xid 0 2 186b5 4 2 0 0 0 0 4 xid 0 1 1 name 41 05*68 1 handle svid 0 0 0 1 0 3",
    "cancel: 80000064 xid 0 2 186b5 4 3 0 0 0 0 4 xid 1 1 1 name 4 1020304 1 handle svid ##0 ##1",
    "unlock: 8000005c xid 0 2 186b5 4 4 0 0 0 0 4 xid 1 name 4 1020304 1 handle svid ##0 ##1",
    "cancel-msg: 80000064 xid 0 2 186b5 4 8 0 0 0 0 4 xid 1 1 1 name 4 1020304 1 handle svid ##0 ##1",
    "unlock-msg: 8000005c xid 0 2 186b5 4 9 0 0 0 0 4 xid 1 name 4 1020304 1 handle svid ##0 ##1",
    "test-msg: 80000060 xid 0 2 186b5 4 6 0 0 0 0 4 xid 1 1 name 4 1020304 1 handle svid ##0 ##1",
    "lock-msg: 8000006c xid 0 2 186b5 4 7 0 0 0 0 4 xid 0 1 1 name 4 1020304 1 handle svid ##0 ##1 0 3",
    "block-msg: 8000006c xid 0 2 186b5 4 7 0 0 0 0 4 xid 1 1 1 name 4 1020304 1 handle svid ##0 ##1 0 3",
    "granted-res: 80000038 xid 0 2 186b5 4 f 0 0 0 0 8 #0 #1 #2",
    "share: 80000054 xid 0 2 186b5 4 14 0 0 0 0 4 xid 1 name 4 1020304 1 handle #0 #1 0",
    "unshare: 80000054 xid 0 2 186b5 4 15 0 0 0 0 4 xid 1 name 4 1020304 1 handle 0 1 0",
    "nm-lock: 8000006c xid 0 2 186b5 4 16 0 0 0 0 4 xid 0 1 1 name 4 1020304 1 handle svid ##0 ##1 0 3",
    "nm-block: 8000006c xid 0 2 186b5 4 16 0 0 0 0 4 xid 1 1 1 name 4 1020304 1 handle svid ##0 ##1 0 3",
    "lock-by: 8000006c xid 0 2 186b5 4 2 0 0 0 0 4 xid 0 0 4 #0 4 1020304 1 handle svid ##1 ##2 0 3",
    "nm-lock-by: 8000006c xid 0 2 186b5 4 16 0 0 0 0 4 xid 0 0 4 #0 4 1020304 1 handle svid ##1 ##2 0 3",
    "free-all: 80000034 xid 0 2 186b5 4 17 0 0 0 0 1 name 5",
];

/// Of versions 1 and 3, where offsets and lengths have 4 bytes.
const NARROW_CALLS: &[&str] = &[
    "v3-test: 80000058 xid 0 2 186b5 3 1 0 0 0 0 4 xid 1 1 name 4 1020304 1 handle svid #0 #1",
    "v3-test-long: 80000098 xid 0 2 186b5 3 1 0 0 0 0 4 xid 1 1 name 41 05*68 1 handle svid 0 1",
    "v3-lock: 80000064 xid 0 2 186b5 3 2 0 0 0 0 4 xid 0 1 1 name 4 1020304 1 handle svid #0 #1 0 3",
    "v3-block: 80000064 xid 0 2 186b5 3 2 0 0 0 0 4 xid 1 1 1 name 4 1020304 1 handle svid #0 #1 0 3",
    "v3-lock-long: 800000a4 xid 0 2 186b5 3 2 0 0 0 0 4 xid 0 1 1 name 41 05*68 1 handle svid 0 1 0 3",
    "v3-lock-cut: 80000060 xid 0 2 186b5 3 2 0 0 0 0 4 xid 0 1 1 name 4 1020304 1 handle svid #0 #1 0",
    "v3-block-msg: 80000064 xid 0 2 186b5 3 7 0 0 0 0 4 xid 1 1 1 name 4 1020304 1 handle svid #0 #1 0 3",
    "v3-share: 80000054 xid 0 2 186b5 3 14 0 0 0 0 4 xid 1 name 4 1020304 1 handle 0 1 0",
    "v1-block: 80000064 xid 0 2 186b5 1 2 0 0 0 0 4 xid 1 1 1 name 4 1020304 1 handle svid #0 #1 0 3",
    "v1-share: 80000054 xid 0 2 186b5 1 14 0 0 0 0 4 xid 1 name 4 1020304 1 handle 0 1 0",
];

/// Of the status monitor. A watcher is a procedure of version 1 of the program 200,000 on the host `server`.
const STATUS_CALLS: &[&str] = &[
    "sm-null: 80000028 xid 0 2 186b8 1 0 0 0 0 0",
    "stat: 80000030 xid 0 2 186b8 1 1 0 0 0 0 1 name",
    "mon: 80000058 xid 0 2 186b8 1 2 0 0 0 0 1 name 6 73657276 65720000 30d40 1 #0 10203 4050607 8090a0b c0d0e0f",
    "mon-anew: 80000058 xid 0 2 186b8 1 2 0 0 0 0 1 name 6 73657276 65720000 30d40 1 #0 09*16",
    "unmon: 80000048 xid 0 2 186b8 1 3 0 0 0 0 1 name 6 73657276 65720000 30d40 1 #0",
    "unmon-all: 80000040 xid 0 2 186b8 1 4 0 0 0 0 6 73657276 65720000 30d40 1 #0",
    "crash: 80000028 xid 0 2 186b8 1 5 0 0 0 0",
    "notify: 80000034 xid 0 2 186b8 1 6 0 0 0 0 1 name #0",
    "notify-by: 80000034 xid 0 2 186b8 1 6 0 0 0 0 4 #0 #1",
    "notify-guest: 80000038 xid 0 2 186b8 1 6 0 0 0 0 5 67756573 74000000 #0",
];

/// Of a stock Linux client: AUTH_SYS of its root, and its file handle. The holder on the server's own host has AUTH_NONE. The
/// numbers: cookie, block, exclusive, the owner's handle (length and two words), svid, offset, length, reclaim, state.
const CLIENT_CALLS: &[&str] = &[
    "guest-test: 800000c0 xid 0 2 186b5 4 1 1 1c 0 5 67756573 74000000 0 0 0 0 0 4 #0 #2 5 67756573 74000000 40 4300004d 3ac94e5e ae65d296 8909006c 6f636b66 696c6530 0 0 0 0 0 0 0 0 0 0 #3 #4 #5 #6 ##7 ##8",
    "guest-lock: 800000cc xid 0 2 186b5 4 2 1 1c 0 5 67756573 74000000 0 0 0 0 0 4 #0 #1 #2 5 67756573 74000000 40 4300004d 3ac94e5e ae65d296 8909006c 6f636b66 696c6530 0 0 0 0 0 0 0 0 0 0 #3 #4 #5 #6 ##7 ##8 #9 #10",
    "guest-unlock: 800000bc xid 0 2 186b5 4 4 1 1c 0 5 67756573 74000000 0 0 0 0 0 4 #0 5 67756573 74000000 40 4300004d 3ac94e5e ae65d296 8909006c 6f636b66 696c6530 0 0 0 0 0 0 0 0 0 0 #3 #4 #5 #6 ##7 ##8",
    "host-lock: 800000b0 xid 0 2 186b5 4 2 0 0 0 0 4 #0 #1 #2 8 686f7374 686f6c64 40 4300004d 3ac94e5e ae65d296 8909006c 6f636b66 696c6530 0 0 0 0 0 0 0 0 0 0 #3 #4 #5 #6 ##7 ##8 #9 #10",
    "host-unlock: 800000a0 xid 0 2 186b5 4 4 0 0 0 0 4 #0 8 686f7374 686f6c64 40 4300004d 3ac94e5e ae65d296 8909006c 6f636b66 696c6530 0 0 0 0 0 0 0 0 0 0 #3 #4 #5 #6 ##7 ##8",
];

/// What calls are replied.
const REPLIES: &[&str] = &[
    "done: 80000018 xid 1 0 0 0 0",
    "granted: 80000024 xid 1 0 0 0 0 4 xid 0",
    "denied: 80000024 xid 1 0 0 0 0 4 xid 1",
    "no-locks: 80000024 xid 1 0 0 0 0 4 xid 2",
    "blocked: 80000024 xid 1 0 0 0 0 4 xid 3",
    "in-grace: 80000024 xid 1 0 0 0 0 4 xid 4",
    "deadlock: 80000024 xid 1 0 0 0 0 4 xid 5",
    "stale-fh: 80000024 xid 1 0 0 0 0 4 xid 7",
    "fbig: 80000024 xid 1 0 0 0 0 4 xid 8",
    "held: 80000044 xid 1 0 0 0 0 4 xid 1 1 svid 1 handle ##0 ##1",
    "held-narrow: 8000003c xid 1 0 0 0 0 4 xid 1 1 svid 1 handle #0 #1",
    "held-by-description: 80000048 xid 1 0 0 0 0 4 xid 1 1 ffffffff 8 0 #0 ##1 ##2",
    "held-by-process: 80000040 xid 1 0 0 0 0 4 xid 1 1 #0 0 ##1 ##2",
    "held-by-nobody: 80000038 xid 1 0 0 0 0 4 xid 1 0 0 0 0 0",
    "shared: 80000028 xid 1 0 0 0 0 4 xid 0 0",
    "not-shared: 80000028 xid 1 0 0 0 0 4 xid 1 0",
    "monitored: 80000020 xid 1 0 0 0 0 0 #0",
    "not-monitored: 80000020 xid 1 0 0 0 0 1 #0",
    "state: 8000001c xid 1 0 0 0 0 #0",
    "refused: 80000018 xid 1 0 0 0 #0",
    "garbage-args: 80000018 xid 1 0 0 0 4",
    "system-err: 80000018 xid 1 0 0 0 5",
    "to-client: 80000024 xid 1 0 0 0 0 4 #0 #1",
    "held-on-server: 80000048 xid 1 0 0 0 0 4 #0 1 1 4d 8 0 4d 0 64 0 1",
];

/// What the server itself calls, and what it is answered.
const OWN_CALLS: &[&str] = &[
    "grant: 80000064 xid 0 2 186b5 4 5 0 0 0 0 8 1 xid #0 1 name 4 1020304 1 handle svid ##1 ##2",
    "grant-v1: 8000005c xid 0 2 186b5 1 5 0 0 0 0 8 1 xid #0 1 name 4 1020304 1 handle svid #1 #2",
    "grant-to-guest: 800000a8 xid 0 2 186b5 4 5 0 0 0 0 8 1 1 1 5 67756573 74000000 40 4300004d 3ac94e5e ae65d296 8909006c 6f636b66 696c6530 0 0 0 0 0 0 0 0 0 0 8 31304067 75657374 a 0 64 0 1",
    "grant-msg: 80000064 xid 0 2 186b5 4 a 0 0 0 0 8 1 xid #0 1 name 4 1020304 1 handle svid ##1 ##2",
    "test-res: 80000054 xid 0 2 186b5 4 b 0 0 0 0 4 #0 1 1 svid 1 handle ##1 ##2",
    "lock-res: 80000034 xid 0 2 186b5 4 c 0 0 0 0 4 #0 #1",
    "lock-res-v3: 80000034 xid 0 2 186b5 3 c 0 0 0 0 4 #0 #1",
    "notice: 80000038 xid 0 2 186b8 1 6 0 0 0 0 6 73657276 65720000 #0",
    "status: 80000044 xid 0 2 30d40 1 #0 0 0 0 0 1 name #1 10203 4050607 8090a0b c0d0e0f",
    "status-anew: 80000044 xid 0 2 30d40 1 #0 0 0 0 0 1 name #1 09*16",
    "said: 80000020 xid 1 0 0 0 0 0 #0",
];

/// No message at all.
const NOTHING: &str = "nothing";

fn words_in(table: &[&'static str], name: &str) -> Option<&'static str> {
    for line in table {
        if let Some((known, words)) = line.split_once(": ")
            && known == name
        {
            return Some(words);
        }
    }
    None
}

const TABLES: &[&[&str]] = &[
    LOCK_CALLS,
    REPLIES,
    NARROW_CALLS,
    STATUS_CALLS,
    CLIENT_CALLS,
    OWN_CALLS,
];

fn words_of(name: &str) -> Option<&'static str> {
    for table in TABLES {
        if let Some(words) = words_in(table, name) {
            return Some(words);
        }
    }
    None
}

/// Appends the message of this name. None where no message has it.
pub fn put_terms(bytes: &mut Vec<u8>, name: &str, terms: &Terms) -> Option<()> {
    if name == NOTHING {
        return Some(());
    }
    put_words(bytes, words_of(name)?, terms)
}

/// Appends the message of a text: its name, and what fills its places.
pub fn put_message(bytes: &mut Vec<u8>, xid: u32, text: &str) -> Option<()> {
    let (name, terms) = text.split_once(" ").unwrap_or((text, ""));
    put_terms(bytes, name, &Terms::read(xid, terms))
}
