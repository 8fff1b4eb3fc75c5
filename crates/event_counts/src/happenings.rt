//! What happens to a server.
ghost use Rattle.std.specs.Prelude.{◌≡◌, ◌<◌};
ghost use Rattle.event_counts.specs.Places.{event_place, happening_number, store_number};

/// What happened, of which an entry is.
#[derive(Clone, Copy, Debug, PartialEq, Eq)]
pub enum Happening {
    /// A record was taken.
    Call,
    /// A call of the server's own was sent.
    Sent,
    /// An answer to one came.
    Answer,
    /// Nothing answered one.
    Silence,
    /// A local program's line.
    Line,
    /// The grace period ended.
    GraceOver,
    /// The server began anew.
    Restart,
}

/// What the store of hosts answered.
#[derive(Clone, Copy, Debug, PartialEq, Eq)]
pub enum StoreReply {
    NotAsked,
    Agreed,
    Refused,
}

impl Happening {
    fn number(self) -> usize
        ensures is { result ≡ happening_number self }
        ensures below { result < 7 }
    {
        self as usize
    }
}

impl StoreReply {
    fn number(self) -> usize
        ensures is { result ≡ store_number self }
        ensures below { result < 3 }
    {
        self as usize
    }
}

/// The place of the counter of what happened so: whether it met want of memory, and what the store answered.
pub fn event_place(what: Happening, starved: bool, answered: StoreReply) -> usize
    ensures is { result ≡ event_place what starved answered }
    ensures below { result < 42 }
{
    let row = if starved { 3 } else { 0 };
    6 * what.number() + (row + answered.number())
}
