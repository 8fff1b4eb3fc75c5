//! What calls get.
ghost use Rattle.std.specs.Prelude.{◌≡◌, ◌<◌};
ghost use Rattle.event_counts.specs.Places.{call_place, outcome_number};

/// What a call got (RFC 5531, section 9; RFC 1813, appendix II, nlm4_stats; XNFS).
#[derive(Clone, Copy, Debug, PartialEq, Eq)]
pub enum CallOutcome {
    /// No reply: the record was no call.
    NoReply,
    /// SUCCESS, with a result that has no status, or STAT_SUCC.
    Success,
    /// SUCCESS with this status of the lock manager, as the next nine.
    Granted,
    Denied,
    DeniedNolocks,
    Blocked,
    DeniedGracePeriod,
    Deadlck,
    Rofs,
    StaleFh,
    Fbig,
    Failed,
    /// SUCCESS with STAT_FAIL of the status monitor.
    StatFail,
    /// The call was not accepted, or not done, for this reason, as the next six.
    RpcMismatch,
    BadCredential,
    ProgUnavail,
    ProgMismatch,
    ProcUnavail,
    GarbageArgs,
    SystemErr,
}

impl CallOutcome {
    fn number(self) -> usize
        ensures is { result ≡ outcome_number self }
        ensures below { result < 20 }
    {
        self as usize
    }
}

/// The place of the counter of calls whose procedure has this place, and that got this.
pub(crate) fn call_place(procedure: usize, outcome: CallOutcome) -> usize
    requires { procedure < 80 }
    ensures is { result ≡ call_place procedure outcome }
    ensures below { result < 1600 }
{
    20 * procedure + outcome.number()
}
