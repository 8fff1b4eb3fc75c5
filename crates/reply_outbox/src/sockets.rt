//! Where replies are written.
ghost use Rattle.std.specs.Prelude.{◌≡◌, List, [], ◌∷◌, ◌++◌};
ghost use Rattle.reply_outbox.specs.Effects.{Effect, Writes, Breaks, Shuts};
ghost use Rattle.reply_outbox.specs.Writes.{IsWritten};

use ghost_list::History;
use std::marker::Model;

/// Connections that replies are written to, each by its number. Contracts see what was done to them, the oldest first.
pub trait ReplySockets {
    ghost effects: { Self → List Effect };

    /// Writes the bytes whole to the connection of this number, and tells that so many more of its jobs are done. Where the
    /// connection takes no bytes, or is no longer open, it is lost.
    fn write(&mut self, connection: u64, bytes: &[u8], jobs: u64)
        ensures { IsWritten connection bytes.now (effects self.old) (effects self.new) };

    /// Shuts the connection of this number, which loses it.
    fn shut(&mut self, connection: u64)
        ensures { effects self.new ≡ effects self.old ++ Shuts connection ∷ [] };

    /// So many more jobs of this connection are done, and nothing is written for them.
    fn are_done(&mut self, connection: u64, jobs: u64)
        ensures { effects self.new ≡ effects self.old };

    /// A call of the server's own is due.
    fn call_is_due(&mut self)
        ensures { effects self.new ≡ effects self.old };
}

#[derive(Drop)]
enum Done {
    Writes,
    Breaks,
    Shuts,
}

// What was done to a connection. Contracts alone have such values.
#[derive(Drop)]
struct DoneTo {
    done: Done,
    connection: u64,
    bytes: Vec<u8>,
}

impl Model for DoneTo {
    ghost use Rattle.reply_outbox.specs.Effects.{Effect};
    ghost use Rattle.reply_outbox.specs.DoneTo.{effect_of};

    ghost Value = { Effect };

    ghost view = { λ d. effect_of d.connection d.bytes.items d.done };
}

/// What was done to connections, as contracts see it, the oldest first. It takes no memory. Whoever writes to connections keeps
/// it.
#[derive(Drop)]
pub struct SocketEffects {
    all: History<DoneTo>,
}

impl Model for SocketEffects {
    ghost use Rattle.std.specs.Prelude.{List};
    ghost use Rattle.reply_outbox.specs.Effects.{Effect};

    ghost Value = { List Effect };

    ghost view = { λ a. a.all.items };
}

impl SocketEffects {
    /// Nothing was done.
    pub fn new() -> SocketEffects
        ensures { result ≡ [] }
    {
        SocketEffects {
            all: History::new(),
        }
    }

    /// The connection of this number took these bytes whole.
    pub fn add_write(&mut self, connection: u64, bytes: &[u8])
        ensures { self.new ≡ self.old ++ Writes connection bytes.now ∷ [] }
    {
        self.all = self.all.after(&(connection, bytes));
    }

    /// A write to the connection of this number broke.
    pub fn add_break(&mut self, connection: u64)
        ensures { self.new ≡ self.old ++ Breaks connection ∷ [] }
    {
        self.all = self.all.after(&connection);
    }

    /// The connection of this number was shut.
    pub fn add_shut(&mut self, connection: u64)
        ensures { self.new ≡ self.old ++ Shuts connection ∷ [] }
    {
        self.all = self.all.after(&connection);
    }
}
