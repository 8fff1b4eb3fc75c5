//! `lockd pipe` and `lockd table`, with hosts in memory.
use crate::runs::Run;
use server::Runtime;

/// A LOCK of the bytes 0 to 9 by a process of host `a` (RFC 1813, appendix II), behind its mark.
const LOCK: &str =
    "8000006c 2 0 2 186b5 4 2 0 0 0 0 4 2 0 1 1 61000000 4 1020304 1 41000000 7 0 0 0 a 0 3";

/// Each by its name.
const RUNS: &[(&str, Run<'static>)] = &[
    ("pipe", PIPE),
    (
        "pipe in grace",
        Run {
            asked: "pipe --grace",
            words: "80000024 2 1 0 0 0 0 4 2 4",
            ..PIPE
        },
    ),
    (
        "pipe: record too long",
        Run {
            comes: "80002001",
            words: "",
            status: 1,
            ..PIPE
        },
    ),
    ("table", TABLE),
    (
        "table in grace",
        Run {
            asked: "table --grace",
            text: "",
            ..TABLE
        },
    ),
    (
        "table: record too long",
        Run {
            comes: "80002001",
            text: "",
            status: 1,
            ..TABLE
        },
    ),
    (
        "pipe over a database in no folder",
        Run {
            asked: "pipe --db /dev/null/hosts.db",
            words: "",
            status: 1,
            ..PIPE
        },
    ),
    (
        "table over a database in no folder",
        Run {
            asked: "table --db /dev/null/hosts.db",
            text: "",
            status: 1,
            ..TABLE
        },
    ),
];

/// It is granted.
pub(crate) const PIPE: Run<'static> = Run {
    asked: "pipe",
    comes: LOCK,
    words: "80000024 2 1 0 0 0 0 4 2 0",
    text: "",
    status: 0,
};

const TABLE: Run<'static> = Run {
    asked: "table",
    comes: LOCK,
    words: "",
    text: "01020304 w 0 9 h61/7/41\n",
    status: 0,
};

/// The name of the first that goes otherwise.
pub(crate) fn unserved<R: Runtime>(host: &HostRuntime, rt: &R) -> Result<(), &'static str> {
    for (name, run) in RUNS {
        if !run.goes(host, rt) {
            return Err(*name);
        }
    }
    Ok(())
}
