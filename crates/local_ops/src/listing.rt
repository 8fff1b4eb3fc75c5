//! Answers that list all locks or all hosts. Their text is made while nothing changes, and written later.

ghost use Rattle.std.specs.Prelude.{◌≡◌, List};
ghost use Rattle.definitions.specs.Hosts.{HostRow};
ghost use Rattle.definitions.specs.Replies.{LineTable, LineHosts};
ghost use Rattle.definitions.specs.Starts.{Run};
ghost use Rattle.owner_ids.specs.Views.{view_of_owner};
ghost use Rattle.range_table.specs.Modes.{view_of_mode};
ghost use Rattle.local_ops.specs.Texts.{reply_text};

use ghost_list::History;
use owner_ids::Owner;
use range_table::{FileId, Mode};
use std::marker::Model;

/// A lock as contracts see it. None is ever made.
#[derive(Drop)]
pub struct ListedRun {
    file: FileId,
    owner: Owner,
    first: u64,
    last: u64,
    mode: Mode,
}

impl Model for ListedRun {
    ghost Value = { Run };

    ghost view = { λ r. record { file = r.file; owner = view_of_owner r.owner; first = r.first; last = r.last; mode = view_of_mode r.mode } };
}

/// A host as contracts see it. None is ever made.
#[derive(Drop)]
pub struct ListedHost {
    name: Vec<u8>,
    epoch: u32,
    seen: i32,
    quota: u32,
}

impl Model for ListedHost {
    ghost Value = { HostRow };

    ghost view = { λ h. record { name = h.name.items; epoch = h.epoch; seen = h.seen; quota = h.quota } };
}

/// The text of all locks, with the line `end` behind it. Contracts see the locks.
#[derive(Drop)]
pub struct TableText {
    text: Vec<u8>,
    runs: History<ListedRun>,
}

impl Model for TableText {
    ghost Value = { List Run };

    ghost view = { λ t. t.runs.items };

    ghost invariant = { λ t. t.text.items ≡ reply_text (LineTable t.runs.items) };
}

impl TableText {
    /// The text of these locks.
    pub fn of(text: Vec<u8>, runs: History<ListedRun>) -> TableText
        requires { text.items ≡ reply_text (LineTable runs.items) }
        ensures { result ≡ runs.items }
    {
        TableText { text, runs }
    }

    pub fn as_slice(&self) -> &[u8]
        ensures { result.now ≡ reply_text (LineTable self.now) }
    {
        self.text.as_slice()
    }
}

/// The text of all hosts, with the line `end` behind it. Contracts see the hosts.
#[derive(Drop)]
pub struct HostsText {
    text: Vec<u8>,
    rows: History<ListedHost>,
}

impl Model for HostsText {
    ghost Value = { List HostRow };

    ghost view = { λ t. t.rows.items };

    ghost invariant = { λ t. t.text.items ≡ reply_text (LineHosts t.rows.items) };
}

impl HostsText {
    /// The text of these hosts.
    pub fn of(text: Vec<u8>, rows: History<ListedHost>) -> HostsText
        requires { text.items ≡ reply_text (LineHosts rows.items) }
        ensures { result ≡ rows.items }
    {
        HostsText { text, rows }
    }

    pub fn as_slice(&self) -> &[u8]
        ensures { result.now ≡ reply_text (LineHosts self.now) }
    {
        self.text.as_slice()
    }
}
