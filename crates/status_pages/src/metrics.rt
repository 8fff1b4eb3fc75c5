//! Numbers, in the text format 0.0.4 of Prometheus.
ghost use Rattle.std.specs.Prelude.{◌≡◌, ◌++◌, IfOk, OnOk, map};
ghost use Rattle.std.specs.List.{flat_map};
ghost use Rattle.status_pages.specs.Counters.{counters_text};
ghost use Rattle.status_pages.specs.Metrics.{number_of, head_text, value_text, sample_text, metric_text, metrics_text, build_text, kind_text, view_of_sample, view_of_metric, all_metrics};

mod table;

use crate::counters::put_counters;
use crate::starved::Starved;
use crate::text::{put_number, put_parts, put_seconds};
use event_counts::Counts;
use std::alloc::Global;
pub(crate) use table::METRICS;

/// What the server's state shows at one moment.
#[derive(Clone, Copy, Debug, PartialEq, Eq)]
pub struct StateNumbers {
    /// Runs of bytes that owners hold.
    pub runs: u64,
    /// Locks that are waited for.
    pub waiters: u64,
    /// Calls of the server's own that are to be sent.
    pub calls_due: u64,
    /// Those that were sent and are not answered.
    pub calls_unanswered: u64,
    /// Places left, of those that waiters and the server's own calls share.
    pub slots_free: u64,
    pub shares: u64,
    /// Hosts with a row in the store.
    pub hosts: u64,
    pub watches: u64,
    /// Replies that are kept for repeated calls.
    pub kept_replies: u64,
    /// 1 in the grace period, else 0.
    pub grace: u64,
    /// The server's own state (XNFS, NSM).
    pub own_state: u32,
    /// Entries of the journal since the start.
    pub entries: u64,
}

/// What is shown in numbers.
#[derive(Clone, Copy, Debug, PartialEq, Eq)]
pub struct Numbers {
    pub state: StateNumbers,
    /// How long the grace period goes on, in seconds, rounded up; 0 where it is over.
    pub grace_left: u64,
    /// Connections for calls by record that are open.
    pub call_connections: u64,
    /// Connections of local programs that are open.
    pub local_connections: u64,
    /// Connections to the status port that are open.
    pub status_connections: u64,
    /// Bytes read from connections for calls since the start.
    pub received_bytes: u64,
    /// Bytes of replies written to connections for calls since the start.
    pub sent_bytes: u64,
    /// When the server started, in seconds since 1970.
    pub started: u64,
    /// How many critical sections of calls were timed.
    pub sections: u64,
    /// How long threads were in them, in nanoseconds.
    pub inside_nanos: u64,
    /// How long threads waited for them, in nanoseconds.
    pub waited_nanos: u64,
}

/// A number that is shown.
#[derive(Clone, Copy)]
pub(crate) enum Number {
    Runs,
    Waiters,
    CallsDue,
    CallsUnanswered,
    SlotsFree,
    Shares,
    Hosts,
    Watches,
    KeptReplies,
    Grace,
    GraceLeft,
    OwnState,
    Entries,
    CallConnections,
    LocalConnections,
    StatusConnections,
    ReceivedBytes,
    SentBytes,
    Started,
    Sections,
    /// In nanoseconds. A metric shows seconds.
    InsideNanos,
    /// In nanoseconds. A metric shows seconds.
    WaitedNanos,
    /// A limit, which never changes.
    Limit(u64),
}

/// What the numbers of a metric are.
#[derive(Clone, Copy)]
pub(crate) enum Kind {
    /// A number that only rises while a server runs.
    Counter,
    /// A number that may fall.
    Gauge,
    /// A sum of what was observed, and how often that was.
    Summary,
}

/// One number of a metric.
#[derive(Clone, Copy)]
pub(crate) struct Sample<'a> {
    /// What stands behind the name: its labels with their braces, the suffix of a summary, or nothing.
    pub(crate) labels: &'a str,
    /// Its key in `/status.json`.
    pub(crate) key: &'a str,
    pub(crate) number: Number,
}

/// A metric: its name, what it says, and its samples.
#[derive(Clone, Copy)]
pub(crate) struct Metric<'a> {
    pub(crate) name: &'a str,
    pub(crate) help: &'a str,
    pub(crate) kind: Kind,
    pub(crate) samples: &'a [Sample<'a>],
}

impl Numbers {
    /// A number of these.
    pub(crate) fn get(&self, number: Number) -> u64
        ensures { result ≡ number_of self.now number }
    {
        match number {
            Number::Runs => self.state.runs,
            Number::Waiters => self.state.waiters,
            Number::CallsDue => self.state.calls_due,
            Number::CallsUnanswered => self.state.calls_unanswered,
            Number::SlotsFree => self.state.slots_free,
            Number::Shares => self.state.shares,
            Number::Hosts => self.state.hosts,
            Number::Watches => self.state.watches,
            Number::KeptReplies => self.state.kept_replies,
            Number::Grace => self.state.grace,
            Number::GraceLeft => self.grace_left,
            Number::OwnState => u64::from(self.state.own_state),
            Number::Entries => self.state.entries,
            Number::CallConnections => self.call_connections,
            Number::LocalConnections => self.local_connections,
            Number::StatusConnections => self.status_connections,
            Number::ReceivedBytes => self.received_bytes,
            Number::SentBytes => self.sent_bytes,
            Number::Started => self.started,
            Number::Sections => self.sections,
            Number::InsideNanos => self.inside_nanos,
            Number::WaitedNanos => self.waited_nanos,
            Number::Limit(most) => most,
        }
    }
}

fn kind_text(kind: Kind) -> &'static [u8]
    ensures { result.now ≡ kind_text kind }
{
    match kind {
        Kind::Counter => b"counter",
        Kind::Gauge => b"gauge",
        Kind::Summary => b"summary",
    }
}

/// The lines HELP and TYPE of a metric.
pub(crate) fn put_head(out: &mut Vec<u8>, name: &str, help: &str, kind: Kind) -> Result<(), Starved>
    ensures { OnOk result (out.new.items ≡ out.old.items ++ head_text name.now help.now kind) }
{
    put_parts(out, &[b"# HELP ", name.as_bytes(), b" "])?;
    put_parts(out, &[help.as_bytes(), b"\n# TYPE "])?;
    put_parts(out, &[name.as_bytes(), b" "])?;
    put_parts(out, &[kind_text(kind), b"\n"])
}

// A number as a metric shows it: what is kept in nanoseconds is shown in seconds.
fn put_value(out: &mut Vec<u8>, numbers: &Numbers, number: Number) -> Result<(), Starved>
    ensures { OnOk result (out.new.items ≡ out.old.items ++ value_text numbers.now number) }
{
    match number {
        Number::InsideNanos | Number::WaitedNanos => put_seconds(out, numbers.get(number)),
        _ => put_number(out, numbers.get(number)),
    }
}

fn put_sample(
    out: &mut Vec<u8>,
    numbers: &Numbers,
    name: &str,
    sample: &Sample<'_>,
) -> Result<(), Starved>
    ensures { OnOk result (out.new.items ≡ out.old.items ++ sample_text numbers.now name.now (view_of_sample sample.now)) }
{
    put_parts(out, &[name.as_bytes(), sample.labels.as_bytes(), b" "])?;
    put_value(out, numbers, sample.number)?;
    put_parts(out, &[b"\n"])
}

fn put_metric(out: &mut Vec<u8>, numbers: &Numbers, metric: &Metric<'_>) -> Result<(), Starved>
    ensures { OnOk result (out.new.items ≡ out.old.items ++ metric_text numbers.now (view_of_metric metric.now)) }
{
    put_head(out, metric.name, metric.help, metric.kind)?;
    for sample in metric.samples {
        put_sample(out, numbers, metric.name, sample)?;
    }
    Ok(())
}

fn put_build(out: &mut Vec<u8>, version: &str) -> Result<(), Starved>
    ensures { OnOk result (out.new.items ≡ out.old.items ++ build_text version.now) }
{
    let parts: [&[u8]; 3] = [
        b"# HELP lockd_build_info The version of the program.\n# TYPE lockd_build_info gauge\nlockd_build_info{version=\"",
        version.as_bytes(),
        b"\"} 1\n",
    ];
    put_parts(out, &parts)
}

fn put_metrics(out: &mut Vec<u8>, numbers: &Numbers, metrics: &[Metric<'_>]) -> Result<(), Starved>
    ensures { OnOk result (out.new.items ≡ out.old.items ++ metrics_text numbers.now (map view_of_metric metrics.now)) }
{
    for metric in metrics {
        put_metric(out, numbers, metric)?;
    }
    Ok(())
}

/// The page `/metrics`: each metric with its help, its type and its samples, the counters that have counted, and the version of the
/// program, which has no quote, backslash or line feed.
pub fn metrics_page(
    alloc: Global,
    numbers: &Numbers,
    counts: &Counts,
    version: &str,
) -> Result<Vec<u8>, Starved>
    ensures { IfOk result (λ page. page.items ≡ metrics_text numbers.now all_metrics ++ (counters_text counts.now ++ build_text version.now)) }
{
    let mut out = Vec::new(alloc);
    put_metrics(&mut out, numbers, METRICS)?;
    put_counters(&mut out, counts)?;
    put_build(&mut out, version)?;
    Ok(out)
}
