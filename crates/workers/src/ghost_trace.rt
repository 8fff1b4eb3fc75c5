//! What holds of the book's lock gave.
ghost use Rattle.std.specs.Prelude.{◌≡◌, List, [], ◌++◌};
ghost use Rattle.std.specs.Option.{option_to_list};
ghost use Rattle.book.specs.Notes.{Note};
ghost use Rattle.book.specs.Receipts.{newest_note};

use book::{Book, Entry};
use ghost_list::History;
use hosts_db::HostStore;
use range_table::RangeTable;
use std::marker::Model;

// An entry, which contracts see as what it notes.
#[derive(Drop)]
struct ViewedEntry {
    entry: Entry,
}

impl Model for ViewedEntry {
    ghost use Rattle.book.specs.Notes.{Note, view_of_entry};

    ghost Value = { Note };

    ghost view = { λ n. view_of_entry n.entry };
}

/// What holds of the book's lock gave to whoever took them. Contracts see the entries, the oldest first; it takes no memory. It
/// begins empty, and a hold alone adds to it.
#[derive(Drop)]
pub struct GhostTrace {
    all: History<ViewedEntry>,
}

impl Model for GhostTrace {
    ghost use Rattle.std.specs.Prelude.{List};
    ghost use Rattle.book.specs.Notes.{Note};

    ghost Value = { List Note };

    ghost view = { λ t. t.all.items };
}

impl GhostTrace {
    /// With no entry.
    pub fn new() -> GhostTrace
        ensures { result ≡ [] }
    {
        GhostTrace {
            all: History::new(),
        }
    }

    // The entries that the caller's proof names, out of these and of the book.
    fn after<R: RangeTable, S: HostStore>(&mut self, book: &Book<R, S>)
        ghost entries: { List Note }
        ensures { self.new ≡ entries }
    {
        let _ = book;
        self.all = self.all.after(&());
    }

    /// The journal's newest entry more, if it has one.
    pub(crate) fn add<R: RangeTable, S: HostStore>(&mut self, book: &Book<R, S>)
        ensures { self.new ≡ self.old ++ option_to_list (newest_note book.now.journal.notes) }
    {
        self.after(book);
    }
}
