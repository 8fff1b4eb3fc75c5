//! The status monitor's calls, results and messages (XNFS).
use crate::words::{is_round, is_words, words};
use nsm_types::{
    CallError, Mon, MonId, MonitorRes, MyId, NsmCall, NsmMessage, NsmResult, SmStat, SmStatRes,
    StatChge, Status, is_known, one_call,
};
use xdr_core::{Cursor, Fixed, Frame, Opaque, one_front, written_is_read};

// SM_STAT of `a`, and its reply in state 1; SM_NOTIFY from `server` in state 3.
const STAT_CALL: &str = "1 61000000";

const STAT_REPLY: &str = "0 1";

const NOTIFY_CALL: &str = "6 73657276 65720000 3";

const MY_ID: &str = "1 62000000 186b5 4 10";

const UNMON: &str = "1 61000000 1 62000000 186b5 4 10";

const MON: &str = "1 61000000 1 62000000 186b5 4 10 01020304 5 6 7";

const STATUS: &str = "1 61000000 3 01020304 5 6 7";

/// The private bytes of these.
const PRIVATE: [u8; 16] = [1, 2, 3, 4, 0, 0, 0, 5, 0, 0, 0, 6, 0, 0, 0, 7];

// Whether the words spell a value of this type, which is written as they are.
fn are_spelled(kind: &str, text: &str) -> bool {
    let f = words(text);
    let bytes = f.as_slice();
    match kind {
        "sm_stat_res" => is_round::<SmStatRes>(bytes),
        "sm_stat" => is_round::<SmStat>(bytes),
        "stat_chge" => is_round::<StatChge>(bytes),
        "my_id" => is_round::<MyId>(bytes),
        "mon_id" => is_round::<MonId>(bytes),
        "mon" => is_round::<Mon>(bytes),
        "status" => is_round::<Status>(bytes),
        _ => false,
    }
}

const VALUES: &[(&str, &str)] = &[
    ("sm_stat_res", STAT_REPLY),
    ("sm_stat", "ffffffff"),
    ("stat_chge", NOTIFY_CALL),
    ("my_id", MY_ID),
    ("mon_id", UNMON),
    ("mon", MON),
    ("status", STATUS),
];

#[test]
fn values_are_read_and_written() -> Result<(), &'static str> {
    one_call();
    one_front::<Mon>();
    written_is_read::<SmStatRes>();
    for (kind, text) in VALUES {
        if !are_spelled(kind, text) {
            return Err(*kind);
        }
    }
    Ok(())
}

fn refusal(procedure: u32, bytes: &[u8]) -> Option<CallError> {
    let mut c = Cursor::new(bytes);
    let answer = NsmCall::read(procedure, &mut c);
    if c.len() == bytes.len() {
        answer.err()
    } else {
        None
    }
}

// Whether the words are the arguments of a call, whole, and no front of them is.
fn is_whole(procedure: u32, text: &str) -> bool {
    let f = words(text);
    let bytes = f.as_slice();
    for n in 0..bytes.len() {
        if refusal(procedure, &bytes[..n]) != Some(CallError::GarbageArgs) {
            return false;
        }
    }
    let mut c = Cursor::new(bytes);
    NsmCall::read(procedure, &mut c).is_ok() && c.len() == 0
}

fn is_watch(text: &str) -> bool {
    let f = words(text);
    let mut c = Cursor::new(f.as_slice());
    match NsmCall::read(2, &mut c) {
        Ok(NsmCall::Mon(mon)) => {
            mon.mon_name.bytes == b"a".as_slice()
                && mon.my_id.my_name.bytes == b"b".as_slice()
                && (mon.my_id.prog, mon.my_id.vers, mon.my_id.proc) == (100021, 4, 16)
                && mon.private_bytes.bytes == PRIVATE.as_slice()
        }
        _ => false,
    }
}

const CALLS: &[(u32, &str)] = &[
    (0, ""),
    (1, STAT_CALL),
    (2, MON),
    (3, UNMON),
    (4, MY_ID),
    (5, ""),
    (6, NOTIFY_CALL),
];

// The number of a procedure is the error.
#[test]
fn calls_are_read() -> Result<(), u32> {
    for (procedure, text) in CALLS {
        if !is_whole(*procedure, text) {
            return Err(*procedure);
        }
    }
    Ok(())
}

#[test]
fn a_call_and_none(rt: HostRuntime) {
    assert!(rt; is_known(6) && !is_known(7));
    assert!(rt; refusal(7, &[]) == Some(CallError::NoSuchProc));
    assert!(rt; is_watch(MON));
}

fn is_sent(message: NsmMessage<'_>, text: &str) -> bool {
    let mut f = Frame::new();
    message.put(&mut f).is_ok() && is_words(&f, text)
}

fn is_answered(answer: NsmResult, text: &str) -> bool {
    let mut f = Frame::new();
    answer.put(&mut f).is_ok() && is_words(&f, text)
}

const fn stat(res: MonitorRes) -> NsmResult {
    NsmResult::StatRes(SmStatRes { res, state: 1 })
}

#[test]
fn what_is_sent(rt: HostRuntime) {
    let notice = StatChge {
        mon_name: Opaque { bytes: b"server" },
        state: 3,
    };
    assert!(rt; is_sent(NsmMessage::Notify(notice), NOTIFY_CALL));
    let status = Status {
        mon_name: Opaque { bytes: b"a" },
        state: 3,
        private_bytes: Fixed { bytes: &PRIVATE },
    };
    assert!(rt; is_sent(NsmMessage::Status(status), STATUS));
}

#[test]
fn what_is_answered() -> Result<(), &'static str> {
    for (answer, text) in [
        (NsmResult::Nothing, ""),
        (stat(MonitorRes::Succ), STAT_REPLY),
        (stat(MonitorRes::Fail), "1 1"),
        (NsmResult::Stat(SmStat { state: 7 }), "7"),
    ] {
        if !is_answered(answer, text) {
            return Err(text);
        }
    }
    Ok(())
}
