//! To whom the server's own calls are handed.
ghost use Rattle.std.specs.Prelude.{◌≡◌, List, [], ◌∷◌, ◌++◌};
ghost use Rattle.callback_sender.specs.Calls.{Call};

use book::Dest;
use xdr_core::Frame;

/// Takes the server's own calls to whom they are for. Contracts see all that it was handed. Whether a call reaches anybody is not
/// said.
pub trait CallSink {
    ghost handed: { Self → List Call };

    /// A call: its number, whom it is for, and its record, or the line of a local program.
    fn hand(&mut self, number: u64, to: Dest, bytes: Frame)
        ensures { handed self.new ≡ handed self.old ++ record { number = number; to = to; bytes = bytes } ∷ [] };
}

/// A call that was handed over.
#[derive(Drop)]
pub struct SentCall {
    pub number: u64,
    pub to: Dest,
    pub bytes: Frame,
}
