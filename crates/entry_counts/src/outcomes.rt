//! What calls get, as it is counted.
ghost use Rattle.std.specs.Prelude.{◌≡◌};
ghost use Rattle.nlm4_types.specs.Stat.{view_of_stat};
ghost use Rattle.nsm_types.specs.Results.{view_of_monitor_res};
ghost use Rattle.call_codec.specs.CallValues.{view_of_refusal};
ghost use Rattle.call_codec.specs.OutcomeValues.{view_of_outcome, view_of_result};
ghost use Rattle.book.specs.Given.{view_of_reply, view_of_record_reply};
ghost use Rattle.entry_counts.specs.Counted.{got_by_stat, got_by_monitor, got_by_result, got_by_refusal, got_by_outcome, got_of};

use book::{RecordReply, Reply};
use call_codec::{CallResult, Outcome, Refusal};
use event_counts::CallOutcome;
use nlm4_types::Stat;
use nsm_types::MonitorRes;

fn got_by_stat(stat: Stat) -> CallOutcome
    ensures { result ≡ got_by_stat (view_of_stat stat) }
{
    match stat {
        Stat::Granted => CallOutcome::Granted,
        Stat::Denied => CallOutcome::Denied,
        Stat::DeniedNolocks => CallOutcome::DeniedNolocks,
        Stat::Blocked => CallOutcome::Blocked,
        Stat::DeniedGracePeriod => CallOutcome::DeniedGracePeriod,
        Stat::Deadlck => CallOutcome::Deadlck,
        Stat::Rofs => CallOutcome::Rofs,
        Stat::StaleFh => CallOutcome::StaleFh,
        Stat::Fbig => CallOutcome::Fbig,
        Stat::Failed => CallOutcome::Failed,
    }
}

fn got_by_monitor(res: MonitorRes) -> CallOutcome
    ensures { result ≡ got_by_monitor (view_of_monitor_res res) }
{
    match res {
        MonitorRes::Succ => CallOutcome::Success,
        MonitorRes::Fail => CallOutcome::StatFail,
    }
}

fn got_by_result(told: &CallResult) -> CallOutcome
    ensures { result ≡ got_by_result (view_of_result told.now) }
{
    match told {
        CallResult::Nothing | CallResult::State(_) => CallOutcome::Success,
        CallResult::Res(res) => got_by_stat(res.stat),
        CallResult::TestRes(_, res) => got_by_stat(res.stat),
        CallResult::ShareRes(res) => got_by_stat(res.stat),
        CallResult::Monitor(res) => got_by_monitor(res.res),
    }
}

fn got_by_refusal(refusal: Refusal) -> CallOutcome
    ensures { result ≡ got_by_refusal (view_of_refusal refusal) }
{
    match refusal {
        Refusal::RpcMismatch => CallOutcome::RpcMismatch,
        Refusal::BadCredential => CallOutcome::BadCredential,
        Refusal::ProgUnavail => CallOutcome::ProgUnavail,
        Refusal::ProgMismatch { low: _, high: _ } => CallOutcome::ProgMismatch,
        Refusal::ProcUnavail => CallOutcome::ProcUnavail,
        Refusal::GarbageArgs => CallOutcome::GarbageArgs,
    }
}

fn got_by_outcome(outcome: &Outcome) -> CallOutcome
    ensures { result ≡ got_by_outcome (view_of_outcome outcome.now) }
{
    match outcome {
        Outcome::Success(told) => got_by_result(told),
        Outcome::Refuses(refusal) => got_by_refusal(*refusal),
        Outcome::SystemErr => CallOutcome::SystemErr,
    }
}

fn got_by_record_reply(reply: &RecordReply) -> CallOutcome
    ensures { result ≡ got_of (view_of_record_reply reply.now) }
{
    match reply {
        RecordReply::Answers { xid: _, outcome } => got_by_outcome(outcome),
        RecordReply::Refuses { xid: _, refusal } => got_by_refusal(*refusal),
        RecordReply::SystemErr { xid: _ } => CallOutcome::SystemErr,
    }
}

/// What a call got by this reply.
pub(crate) fn got_of(reply: &Reply) -> CallOutcome
    ensures { result ≡ got_of (view_of_reply reply.now) }
{
    match reply {
        Reply::Record(reply) => got_by_record_reply(reply),
        Reply::Line(_) | Reply::Nobody(_) => CallOutcome::NoReply,
    }
}
