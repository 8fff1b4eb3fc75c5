//! Which metrics there are.
use super::{Kind, Metric, Number, Sample};

/// All metrics.
pub(crate) const METRICS: &[Metric<'static>] = &[
    Metric {
        name: "lockd_runs",
        help: "Runs of bytes that owners hold.",
        kind: Kind::Gauge,
        samples: &[Sample {
            labels: "",
            key: "runs",
            number: Number::Runs,
        }],
    },
    Metric {
        name: "lockd_runs_limit",
        help: "The most runs that there may be.",
        kind: Kind::Gauge,
        samples: &[Sample {
            labels: "",
            key: "runs_limit",
            number: Number::Limit(65_536),
        }],
    },
    Metric {
        name: "lockd_waiters",
        help: "Locks that are waited for.",
        kind: Kind::Gauge,
        samples: &[Sample {
            labels: "",
            key: "waiters",
            number: Number::Waiters,
        }],
    },
    Metric {
        name: "lockd_callbacks",
        help: "Calls of the server's own that are not done, by state.",
        kind: Kind::Gauge,
        samples: &[
            Sample {
                labels: "{state=\"due\"}",
                key: "callbacks_due",
                number: Number::CallsDue,
            },
            Sample {
                labels: "{state=\"unanswered\"}",
                key: "callbacks_unanswered",
                number: Number::CallsUnanswered,
            },
        ],
    },
    Metric {
        name: "lockd_slots_free",
        help: "Places left for waiters and callbacks.",
        kind: Kind::Gauge,
        samples: &[Sample {
            labels: "",
            key: "slots_free",
            number: Number::SlotsFree,
        }],
    },
    Metric {
        name: "lockd_slots_limit",
        help: "The most waiters and callbacks together.",
        kind: Kind::Gauge,
        samples: &[Sample {
            labels: "",
            key: "slots_limit",
            number: Number::Limit(8_192),
        }],
    },
    Metric {
        name: "lockd_shares",
        help: "DOS shares.",
        kind: Kind::Gauge,
        samples: &[Sample {
            labels: "",
            key: "shares",
            number: Number::Shares,
        }],
    },
    Metric {
        name: "lockd_shares_limit",
        help: "The most shares that there may be.",
        kind: Kind::Gauge,
        samples: &[Sample {
            labels: "",
            key: "shares_limit",
            number: Number::Limit(16_384),
        }],
    },
    Metric {
        name: "lockd_hosts",
        help: "Hosts with a row in the database.",
        kind: Kind::Gauge,
        samples: &[Sample {
            labels: "",
            key: "hosts",
            number: Number::Hosts,
        }],
    },
    Metric {
        name: "lockd_hosts_limit",
        help: "The most hosts that may have a row.",
        kind: Kind::Gauge,
        samples: &[Sample {
            labels: "",
            key: "hosts_limit",
            number: Number::Limit(4_096),
        }],
    },
    Metric {
        name: "lockd_watches",
        help: "Watches in the database.",
        kind: Kind::Gauge,
        samples: &[Sample {
            labels: "",
            key: "watches",
            number: Number::Watches,
        }],
    },
    Metric {
        name: "lockd_watches_limit",
        help: "The most watches that there may be.",
        kind: Kind::Gauge,
        samples: &[Sample {
            labels: "",
            key: "watches_limit",
            number: Number::Limit(1_024),
        }],
    },
    Metric {
        name: "lockd_kept_replies",
        help: "Replies that are kept for repeated calls.",
        kind: Kind::Gauge,
        samples: &[Sample {
            labels: "",
            key: "kept_replies",
            number: Number::KeptReplies,
        }],
    },
    Metric {
        name: "lockd_grace",
        help: "Whether the server is in its grace period.",
        kind: Kind::Gauge,
        samples: &[Sample {
            labels: "",
            key: "grace",
            number: Number::Grace,
        }],
    },
    Metric {
        name: "lockd_grace_left_seconds",
        help: "How long the grace period goes on.",
        kind: Kind::Gauge,
        samples: &[Sample {
            labels: "",
            key: "grace_left_seconds",
            number: Number::GraceLeft,
        }],
    },
    Metric {
        name: "lockd_own_state",
        help: "The own state of the status monitor.",
        kind: Kind::Gauge,
        samples: &[Sample {
            labels: "",
            key: "own_state",
            number: Number::OwnState,
        }],
    },
    Metric {
        name: "lockd_journal_entries_total",
        help: "Entries of the journal.",
        kind: Kind::Counter,
        samples: &[Sample {
            labels: "",
            key: "journal_entries",
            number: Number::Entries,
        }],
    },
    Metric {
        name: "lockd_connections",
        help: "Open connections, by kind.",
        kind: Kind::Gauge,
        samples: &[
            Sample {
                labels: "{kind=\"calls\"}",
                key: "connections_calls",
                number: Number::CallConnections,
            },
            Sample {
                labels: "{kind=\"local\"}",
                key: "connections_local",
                number: Number::LocalConnections,
            },
            Sample {
                labels: "{kind=\"status\"}",
                key: "connections_status",
                number: Number::StatusConnections,
            },
        ],
    },
    Metric {
        name: "lockd_received_bytes_total",
        help: "Bytes read from connections for calls.",
        kind: Kind::Counter,
        samples: &[Sample {
            labels: "",
            key: "received_bytes",
            number: Number::ReceivedBytes,
        }],
    },
    Metric {
        name: "lockd_sent_bytes_total",
        help: "Bytes of replies written to them.",
        kind: Kind::Counter,
        samples: &[Sample {
            labels: "",
            key: "sent_bytes",
            number: Number::SentBytes,
        }],
    },
    Metric {
        name: "lockd_start_time_seconds",
        help: "When the server started, in seconds since 1970.",
        kind: Kind::Gauge,
        samples: &[Sample {
            labels: "",
            key: "start_time_seconds",
            number: Number::Started,
        }],
    },
    Metric {
        name: "lockd_book_held_seconds",
        help: "How long calls were in the critical section of the book: a sample of them.",
        kind: Kind::Summary,
        samples: &[
            Sample {
                labels: "_sum",
                key: "book_held_nanoseconds",
                number: Number::InsideNanos,
            },
            Sample {
                labels: "_count",
                key: "book_critical_sections",
                number: Number::Sections,
            },
        ],
    },
    Metric {
        name: "lockd_book_wait_seconds",
        help: "How long the calls of that sample waited for it.",
        kind: Kind::Summary,
        samples: &[
            Sample {
                labels: "_sum",
                key: "book_wait_nanoseconds",
                number: Number::WaitedNanos,
            },
            Sample {
                labels: "_count",
                key: "book_waits",
                number: Number::Sections,
            },
        ],
    },
];
