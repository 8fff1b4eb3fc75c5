//! What versions show of holders and statuses, and what is sent and answered.
use super::{GRANTED_CALL, TEST_REPLY};
use crate::words::is_words;
use nlm4_types::{
    GrantedArgs, Holder, Lock, NARROW, NlmMessage, Res, ShareRes, Stat, TOP, TestRes, Version,
    WIDE, shown_holder_is_spelled,
};
use xdr_core::{Frame, Opaque};

const COOKIE: Opaque<1024> = Opaque {
    bytes: &[0, 0, 0, 3],
};

const fn holder<'r>(l_offset: u64, l_len: u64) -> Holder<'r, WIDE> {
    Holder::<WIDE> {
        exclusive: true,
        svid: 7,
        oh: Opaque { bytes: b"A" },
        l_offset,
        l_len,
    }
}

const WHOLE: u64 = 0xffff_ffff;

/// What one sees of a range: its offset and its length.
type Shown = (u64, u64);

// First byte, last byte; what version 4 shows; what version 3 shows.
const CLAMPED: &[(u64, u64, Shown, Shown)] = &[
    (1 << 32, 1 << 32, (1 << 32, 1), (WHOLE, 0)),
    (0, WHOLE, (0, 1 << 32), (0, 0)),
    (0, WHOLE - 1, (0, WHOLE), (0, WHOLE)),
    (10, 19, (10, 10), (10, 10)),
    (3, TOP, (3, 0), (3, 0)),
    (TOP, TOP, (TOP, 0), (WHOLE, 0)),
];

fn shows(version: Version, first: u64, last: u64, shown: Shown) -> bool {
    first <= last
        && last <= TOP
        && (version.offset_shown(first), version.len_shown(first, last)) == shown
}

// The ends of a range are the error.
#[test]
fn holders_are_clamped() -> Result<(), (u64, u64)> {
    shown_holder_is_spelled();
    for (first, last, wide, narrow) in CLAMPED {
        let is_wide = shows(Version::V4, *first, *last, *wide);
        if !(is_wide && shows(Version::V3, *first, *last, *narrow)) {
            return Err((*first, *last));
        }
    }
    Ok(())
}

const MAPPED: &[(Stat, Stat)] = &[
    (Stat::Granted, Stat::Granted),
    (Stat::Denied, Stat::Denied),
    (Stat::DeniedNolocks, Stat::DeniedNolocks),
    (Stat::Blocked, Stat::Blocked),
    (Stat::DeniedGracePeriod, Stat::DeniedGracePeriod),
    (Stat::Deadlck, Stat::Denied),
    (Stat::StaleFh, Stat::Denied),
];

fn is_mapped(stat: Stat, old: Stat) -> bool {
    stat.shown_in(Version::V1) == old
        && stat.shown_in(Version::V3) == stat.narrowed()
        && stat.shown_in(Version::V4) == stat
}

#[test]
fn statuses_are_mapped() -> Result<(), Stat> {
    for (stat, old) in MAPPED {
        if !is_mapped(*stat, *old) {
            return Err(*stat);
        }
    }
    Ok(())
}

#[test]
fn versions_have_numbers(rt: HostRuntime) -> Result<(), u32> {
    assert!(rt; Version::from_number(2).is_none());
    for number in [1, 3, 4] {
        if Version::from_number(number).map(Version::number) != Some(number) {
            return Err(number);
        }
    }
    Ok(())
}

fn held() -> TestRes<'static, WIDE> {
    TestRes::<WIDE> {
        cookie: COOKIE,
        stat: Stat::Denied,
        holder: Some(holder(0, 10)),
    }
}

const NARROW_GRANT: &str = "8 1 1 1 1 62000000 4 01020304 1 42000000 8 0 a";

const NARROW_TEST: &str = "4 3 1 1 7 1 41000000 0 a";

fn is_sent(message: &NlmMessage<'_>, version: Version, procedure: u32, text: &str) -> bool {
    let mut f = Frame::new();
    message.put_in(version, &mut f).is_ok()
        && is_words(&f, text)
        && message.procedure() == procedure
}

const GRANTED_LOCK: Lock<'static, WIDE> = Lock::<WIDE> {
    caller_name: Opaque { bytes: b"b" },
    fh: Opaque {
        bytes: &[1, 2, 3, 4],
    },
    oh: Opaque { bytes: b"B" },
    svid: 8,
    l_offset: 0,
    l_len: 10,
};

#[test]
fn grants_are_sent(rt: HostRuntime) {
    let grant = GrantedArgs {
        number: 0x1_0000_0001,
        exclusive: true,
        alock: GRANTED_LOCK,
    };
    assert!(rt; is_sent(&NlmMessage::Granted(grant), Version::V4, 5, GRANTED_CALL));
    assert!(rt;
        is_sent(
            &NlmMessage::GrantedMsg(grant),
            Version::V1,
            10,
            NARROW_GRANT
        )
    );
    assert!(rt; GRANTED_LOCK.with_offsets::<NARROW>().l_len == 10);
}

#[test]
fn results_are_sent(rt: HostRuntime) {
    let res = Res {
        cookie: COOKIE,
        stat: Stat::Deadlck,
    };
    assert!(rt; is_sent(&NlmMessage::TestRes(held()), Version::V4, 11, TEST_REPLY));
    assert!(rt; is_sent(&NlmMessage::TestRes(held()), Version::V3, 11, NARROW_TEST));
    assert!(rt; is_sent(&NlmMessage::LockRes(res), Version::V4, 12, "4 3 5"));
    assert!(rt; is_sent(&NlmMessage::CancelRes(res), Version::V1, 13, "4 3 5"));
    assert!(rt; is_sent(&NlmMessage::UnlockRes(res), Version::V4, 14, "4 3 5"));
}

fn stale_is_answered(text: &str) -> bool {
    let res = Res {
        cookie: COOKIE,
        stat: Stat::StaleFh,
    };
    let mut f = Frame::new();
    res.put_result(&mut f).is_ok() && is_words(&f, text)
}

fn stale_share_is_answered(text: &str) -> bool {
    let share = ShareRes {
        cookie: COOKIE,
        stat: Stat::StaleFh,
        sequence: 0,
    };
    let mut f = Frame::new();
    share.put_result(&mut f).is_ok() && is_words(&f, text)
}

#[test]
fn what_is_answered(rt: HostRuntime) {
    assert!(rt; stale_is_answered("4 3 7"));
    assert!(rt; stale_share_is_answered("4 3 7 0"));
}
