//! Who asks for a lock, and who tells of a reboot.
ghost use Rattle.std.specs.Prelude.{◌≡◌};
ghost use Rattle.definitions.specs.Replies.{Reading as SaidReading};
ghost use Rattle.call_codec.specs.CallValues.{view_of_reading};
ghost use Rattle.call_codec.specs.Readings.{IsReading};
ghost use Rattle.nlm4_types.specs.Call.{view_of_call as view_of_nlm_call};
ghost use Rattle.caller_reports.specs.Reports.{report_of, nlm_report_of, view_of_report};

use call_codec::{Call, Reading};
use nlm4_types::NlmCall;
use nsm_types::NsmCall;

/// What a record says of the host that sent it. It borrows from the record.
#[derive(Clone, Copy, Debug, PartialEq, Eq)]
pub enum CallerReport<'r> {
    /// A LOCK, LOCK_MSG or NM_LOCK, by which a host asks for a lock: the host's name, and the state of its boot, of which 0 says
    /// nothing (XNFS, nlm_lockargs).
    Lock { host: &'r [u8], state: i32 },
    /// An SM_NOTIFY, by which a host tells of its reboot (XNFS, SM_NOTIFY).
    Notice { host: &'r [u8], state: i32 },
    /// None of these, or no call.
    Nothing,
}

/// What a record says of the host that sent it. It takes no memory.
pub fn report_in(bytes: &[u8]) -> CallerReport<'_>
    ensures { (reading : SaidReading) × IsReading bytes.now reading × (view_of_report result ≡ report_of reading) }
{
    let reading = Reading::read(bytes);
    report_of(reading)
}

fn report_of<'r>(reading: Reading<'r>) -> CallerReport<'r>
    ensures { view_of_report result ≡ report_of (view_of_reading reading.entry) }
{
    match reading {
        Reading::Asks {
            xid: _,
            call: Call::Nlm(_, call),
        } => lock_report(call),
        Reading::Asks {
            xid: _,
            call: Call::Nsm(NsmCall::Notify(notice)),
        } => CallerReport::Notice {
            host: notice.mon_name.bytes,
            state: notice.state,
        },
        _ => CallerReport::Nothing,
    }
}

fn lock_report<'r>(call: NlmCall<'r>) -> CallerReport<'r>
    ensures { view_of_report result ≡ nlm_report_of (view_of_nlm_call call.entry) }
{
    match call {
        NlmCall::Lock(asked) | NlmCall::LockMsg(asked) | NlmCall::NmLock(asked) => {
            CallerReport::Lock {
                host: asked.alock.caller_name.bytes,
                state: asked.state,
            }
        }
        _ => CallerReport::Nothing,
    }
}
