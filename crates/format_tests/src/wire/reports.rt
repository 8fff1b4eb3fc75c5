//! What calls tell of the hosts that sent them (RFC 1813, appendix II; XNFS, the status monitor).
use crate::words::words;
use caller_reports::{CallerReport, null_call, report_in};
use std::alloc::AllocError;

// LOCK in version 4, of host "ab" in state 11.
const LOCK: &str = "7 0 2 186b5 4 2 0 0 0 0 4 1 1 1 2 61620000 4 01020304 1 41000000 7 0 0 0 a 0 b";

// NM_LOCK in version 3, and LOCK_MSG in version 1.
const NM_LOCK: &str = "7 0 2 186b5 3 16 0 0 0 0 4 1 1 1 2 61620000 4 01020304 1 41000000 7 0 a 0 b";

const LOCK_MSG: &str = "7 0 2 186b5 1 7 0 0 0 0 4 1 1 1 2 61620000 4 01020304 1 41000000 7 0 a 0 b";

// UNLOCK of the same, and a TEST.
const UNLOCK: &str = "7 0 2 186b5 4 4 0 0 0 0 4 1 2 61620000 4 01020304 1 41000000 7 0 0 0 a";

const TEST: &str = "7 0 2 186b5 4 1 0 0 0 0 4 1 1 2 61620000 4 01020304 1 41000000 7 0 0 0 a";

// SM_NOTIFY of host "ab" with state 13, and SM_NULL with the same behind it.
const NOTICE: &str = "7 0 2 186b8 1 6 0 0 0 0 2 61620000 d";

const NULL: &str = "7 0 2 186b8 1 0 0 0 0 0 2 61620000 d";

fn asks(text: &str) -> bool {
    let record = words(text);
    report_in(record.as_slice())
        == CallerReport::Lock {
            host: b"ab",
            state: 11,
        }
}

fn says_nothing(text: &str) -> bool {
    let record = words(text);
    report_in(record.as_slice()) == CallerReport::Nothing
}

#[test]
fn reports_of_calls(rt: HostRuntime) {
    assert!(rt; asks(LOCK) && asks(NM_LOCK) && asks(LOCK_MSG));
    assert!(rt;
        says_nothing(UNLOCK) && says_nothing(TEST) && says_nothing(NULL) && says_nothing("")
    );
    let record = words(NOTICE);
    let told = CallerReport::Notice {
        host: b"ab",
        state: 13,
    };
    assert!(rt; report_in(record.as_slice()) == told);
}

#[test]
fn null_in_place_of_notice(rt: HostRuntime) -> Result<(), AllocError> {
    let notice = words(NOTICE);
    let null = null_call(rt.alloc(), notice.as_slice())?;
    assert!(rt; null.as_slice() == words(NULL).as_slice());
    let short = null_call(rt.alloc(), b"short")?;
    assert!(rt; short.as_slice() == b"short".as_slice());
    Ok(())
}
