//! What is known of one host.
ghost use Rattle.std.specs.Prelude.{◌≡◌, ◌∷◌, []};
ghost use Rattle.boot_states.specs.Reports.{last_of, is_after, found_by, ahead_after, ahead_with, finding_of_state};

use crate::reports::{Finding, Kind, Report};
use ghost_list::History;
use std::marker::Model;

/// The last number of each kind, and whose reports are ahead: the kind that reported a boot that the other has not reported yet,
/// if there is one. Contracts see all reports of the host, the newest first.
#[derive(Drop)]
pub(crate) struct HostBoots {
    lock: Option<i32>,
    notice: Option<i32>,
    ahead: Option<Kind>,
    all: History<Report>,
}

impl Model for HostBoots {
    ghost use Rattle.std.specs.Prelude.{◌≡◌, List};
    ghost use Rattle.boot_states.specs.declared.reports.Kind.TheVariants.{Lock, Notice};
    ghost use Rattle.boot_states.specs.declared.reports.Report.{Report};
    ghost use Rattle.boot_states.specs.Reports.{last_of, who_is_ahead};

    ghost Value = { List Report };

    ghost view = { λ h. h.all.items };

    ghost invariant = { λ h. (h.lock ≡ last_of Lock h.all.items) × (h.notice ≡ last_of Notice h.all.items) × (h.ahead ≡ who_is_ahead h.all.items) };
}

// With this report before all others.
fn with_first(all: &History<Report>, report: &Report) -> History<Report>
    ensures { result.items ≡ report.now ∷ all.now.items }
{
    all.after(report)
}

// Whether a report with this number is of another boot than the last one of its kind. Of a host's first LOCK that is not known;
// its first notice is always of a new boot.
fn is_next(kind: Kind, last: Option<i32>, state: i32) -> bool
    ensures { result ≡ is_after kind last state }
{
    match last {
        Some(last) => last != state,
        None => kind == Kind::Notice,
    }
}

// What a report of the next boot says, and whose reports are ahead then.
fn of_next_boot(kind: Kind, ahead: Option<Kind>) -> (Finding, Option<Kind>)
    ensures found { result.0 ≡ found_by kind ahead }
    ensures ahead { result.1 ≡ ahead_after kind ahead }
{
    match ahead {
        Some(other) if other != kind => (Finding::Reported, None),
        _ => (Finding::Reboot, Some(kind)),
    }
}

// Whose reports are ahead behind a report that is not of the next boot. A host's first LOCK is of the boot that its last notice
// reported, or of a later one, so that notices are ahead no more.
fn of_same_boot(kind: Kind, last: Option<i32>, ahead: Option<Kind>) -> Option<Kind>
    ensures { result ≡ ahead_with kind last ahead }
{
    match (kind, last) {
        (Kind::Lock, None) => None,
        _ => ahead,
    }
}

impl HostBoots {
    /// Of a host that has reported nothing yet.
    pub(crate) fn new() -> HostBoots
        ensures { result ≡ [] }
    {
        HostBoots {
            lock: None,
            notice: None,
            ahead: None,
            all: History::new(),
        }
    }

    // The number of the last report of this kind.
    fn last(&self, kind: Kind) -> Option<i32>
        ensures { result ≡ last_of kind self.now }
    {
        match kind {
            Kind::Lock => self.lock,
            Kind::Notice => self.notice,
        }
    }

    /// What this report, which has a number, says after the earlier ones. It is the newest now.
    pub(crate) fn hear(&mut self, report: Report) -> Finding
        ensures found { result ≡ finding_of_state self.old report }
        ensures heard { self.new ≡ report ∷ self.old }
    {
        let Report { kind, state } = report;
        let last = self.last(kind);
        let (finding, ahead) = if is_next(kind, last, state) {
            of_next_boot(kind, self.ahead)
        } else {
            (Finding::SameBoot, of_same_boot(kind, last, self.ahead))
        };
        let (lock, notice) = match kind {
            Kind::Lock => (Some(state), self.notice),
            Kind::Notice => (self.lock, Some(state)),
        };
        *self = HostBoots {
            lock,
            notice,
            ahead,
            all: with_first(&self.all, &report),
        };
        finding
    }
}
