//! Which procedures, outcomes and events are counted, and how they are named.
use super::{NamedHappening, NamedOutcome, NamedStatus, Procedure, Program};
use event_counts::{CallOutcome, Happening, StoreReply};

/// The lock manager's procedures (RFC 1813, appendix II; XNFS).
const NLM: &[Procedure<'static>] = &[
    Procedure {
        number: 0,
        label: "NULL",
    },
    Procedure {
        number: 1,
        label: "TEST",
    },
    Procedure {
        number: 2,
        label: "LOCK",
    },
    Procedure {
        number: 3,
        label: "CANCEL",
    },
    Procedure {
        number: 4,
        label: "UNLOCK",
    },
    Procedure {
        number: 5,
        label: "GRANTED",
    },
    Procedure {
        number: 6,
        label: "TEST_MSG",
    },
    Procedure {
        number: 7,
        label: "LOCK_MSG",
    },
    Procedure {
        number: 8,
        label: "CANCEL_MSG",
    },
    Procedure {
        number: 9,
        label: "UNLOCK_MSG",
    },
    Procedure {
        number: 10,
        label: "GRANTED_MSG",
    },
    Procedure {
        number: 11,
        label: "TEST_RES",
    },
    Procedure {
        number: 12,
        label: "LOCK_RES",
    },
    Procedure {
        number: 13,
        label: "CANCEL_RES",
    },
    Procedure {
        number: 14,
        label: "UNLOCK_RES",
    },
    Procedure {
        number: 15,
        label: "GRANTED_RES",
    },
    Procedure {
        number: 16,
        label: "16",
    },
    Procedure {
        number: 17,
        label: "17",
    },
    Procedure {
        number: 18,
        label: "18",
    },
    Procedure {
        number: 19,
        label: "19",
    },
    Procedure {
        number: 20,
        label: "SHARE",
    },
    Procedure {
        number: 21,
        label: "UNSHARE",
    },
    Procedure {
        number: 22,
        label: "NM_LOCK",
    },
    Procedure {
        number: 23,
        label: "FREE_ALL",
    },
];

/// The status monitor's (XNFS).
const NSM: &[Procedure<'static>] = &[
    Procedure {
        number: 0,
        label: "SM_NULL",
    },
    Procedure {
        number: 1,
        label: "SM_STAT",
    },
    Procedure {
        number: 2,
        label: "SM_MON",
    },
    Procedure {
        number: 3,
        label: "SM_UNMON",
    },
    Procedure {
        number: 4,
        label: "SM_UNMON_ALL",
    },
    Procedure {
        number: 5,
        label: "SM_SIMU_CRASH",
    },
    Procedure {
        number: 6,
        label: "SM_NOTIFY",
    },
];

const OTHER: &[Procedure<'static>] = &[Procedure {
    number: 0,
    label: "other",
}];

/// The programs that are served. Program 0 has no procedure: the last row is of all that the others don't name.
pub(crate) const PROGRAMS: &[Program<'static>] = &[
    Program {
        number: 100_021,
        version: 1,
        labels: "program=\"nlm\",version=\"1\"",
        procedures: NLM,
    },
    Program {
        number: 100_021,
        version: 3,
        labels: "program=\"nlm\",version=\"3\"",
        procedures: NLM,
    },
    Program {
        number: 100_021,
        version: 4,
        labels: "program=\"nlm\",version=\"4\"",
        procedures: NLM,
    },
    Program {
        number: 100_024,
        version: 1,
        labels: "program=\"nsm\",version=\"1\"",
        procedures: NSM,
    },
    Program {
        number: 0,
        version: 0,
        labels: "program=\"other\",version=\"other\"",
        procedures: OTHER,
    },
];

/// What calls get.
pub(crate) const OUTCOMES: &[NamedOutcome<'static>] = &[
    NamedOutcome {
        outcome: CallOutcome::NoReply,
        label: "no_reply",
    },
    NamedOutcome {
        outcome: CallOutcome::Success,
        label: "success",
    },
    NamedOutcome {
        outcome: CallOutcome::Granted,
        label: "granted",
    },
    NamedOutcome {
        outcome: CallOutcome::Denied,
        label: "denied",
    },
    NamedOutcome {
        outcome: CallOutcome::DeniedNolocks,
        label: "denied_nolocks",
    },
    NamedOutcome {
        outcome: CallOutcome::Blocked,
        label: "blocked",
    },
    NamedOutcome {
        outcome: CallOutcome::DeniedGracePeriod,
        label: "denied_grace_period",
    },
    NamedOutcome {
        outcome: CallOutcome::Deadlck,
        label: "deadlck",
    },
    NamedOutcome {
        outcome: CallOutcome::Rofs,
        label: "rofs",
    },
    NamedOutcome {
        outcome: CallOutcome::StaleFh,
        label: "stale_fh",
    },
    NamedOutcome {
        outcome: CallOutcome::Fbig,
        label: "fbig",
    },
    NamedOutcome {
        outcome: CallOutcome::Failed,
        label: "failed",
    },
    NamedOutcome {
        outcome: CallOutcome::StatFail,
        label: "stat_fail",
    },
    NamedOutcome {
        outcome: CallOutcome::RpcMismatch,
        label: "rpc_mismatch",
    },
    NamedOutcome {
        outcome: CallOutcome::BadCredential,
        label: "bad_credential",
    },
    NamedOutcome {
        outcome: CallOutcome::ProgUnavail,
        label: "prog_unavail",
    },
    NamedOutcome {
        outcome: CallOutcome::ProgMismatch,
        label: "prog_mismatch",
    },
    NamedOutcome {
        outcome: CallOutcome::ProcUnavail,
        label: "proc_unavail",
    },
    NamedOutcome {
        outcome: CallOutcome::GarbageArgs,
        label: "garbage_args",
    },
    NamedOutcome {
        outcome: CallOutcome::SystemErr,
        label: "system_err",
    },
];

/// What happens.
pub(crate) const HAPPENINGS: &[NamedHappening<'static>] = &[
    NamedHappening {
        what: Happening::Call,
        label: "call",
        key: "events_calls",
    },
    NamedHappening {
        what: Happening::Sent,
        label: "callback_sent",
        key: "events_callbacks_sent",
    },
    NamedHappening {
        what: Happening::Answer,
        label: "callback_answer",
        key: "events_callback_answers",
    },
    NamedHappening {
        what: Happening::Silence,
        label: "callback_silence",
        key: "events_callback_silences",
    },
    NamedHappening {
        what: Happening::Line,
        label: "line",
        key: "events_lines",
    },
    NamedHappening {
        what: Happening::GraceOver,
        label: "grace_over",
        key: "events_grace_over",
    },
    NamedHappening {
        what: Happening::Restart,
        label: "restart",
        key: "events_restarts",
    },
];

/// How events end.
pub(crate) const STATUSES: &[NamedStatus<'static>] = &[
    NamedStatus {
        starved: false,
        answered: StoreReply::NotAsked,
        labels: "memory=\"enough\",store=\"not_asked\"",
    },
    NamedStatus {
        starved: false,
        answered: StoreReply::Agreed,
        labels: "memory=\"enough\",store=\"agreed\"",
    },
    NamedStatus {
        starved: false,
        answered: StoreReply::Refused,
        labels: "memory=\"enough\",store=\"refused\"",
    },
    NamedStatus {
        starved: true,
        answered: StoreReply::NotAsked,
        labels: "memory=\"wanting\",store=\"not_asked\"",
    },
    NamedStatus {
        starved: true,
        answered: StoreReply::Agreed,
        labels: "memory=\"wanting\",store=\"agreed\"",
    },
    NamedStatus {
        starved: true,
        answered: StoreReply::Refused,
        labels: "memory=\"wanting\",store=\"refused\"",
    },
];
