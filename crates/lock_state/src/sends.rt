//! What the server itself calls, and when.
ghost use Rattle.std.specs.Prelude.{◌≡◌};
ghost use Rattle.definitions.specs.Outgoing.{next_due, after_sending, after_silence};
ghost use Rattle.definitions.specs.World.{with_calls, slots_free, the_limits};
ghost use Rattle.out_calls.specs.Found.{found};

use crate::world::World;
use hosts_db::HostStore;
use out_calls::{OutCall, OutCalls};
use range_table::RangeTable;

impl<R: RangeTable, S: HostStore> World<R, S> {
    /// How many places are free, of the 8,192 that waiters and the server's own calls share.
    pub fn free_slots(&self) -> usize
        ensures { result ≡ slots_free the_limits self.now.world }
    {
        self.slots.free()
    }

    /// The server's own calls that are not done, the one that became due last at the end.
    pub fn calls(&self) -> &OutCalls
        ensures { result.now ≡ self.now.world.calls }
    {
        &self.calls
    }

    /// The call that is to be sent next.
    pub fn next_call(&self) -> Option<&OutCall>
        ensures { found result ≡ next_due self.now.world.calls }
    {
        self.calls.next_due()
    }

    /// The call that is to be sent next was sent. A local line ends then, and its place is free.
    pub fn sent(&mut self)
        ensures { self.new ≡ record self.old { world = with_calls self.old.world (after_sending self.old.world.calls) } }
    {
        let before = self.calls.len();
        self.calls.sent();
        self.slots.give(before - self.calls.len());
    }

    /// Nothing answered the call of this number. It is due again, or forgotten, and then its place is free.
    pub fn silent(&mut self, number: u64)
        ensures { self.new ≡ record self.old { world = with_calls self.old.world (after_silence number self.old.world.calls) } }
    {
        let before = self.calls.len();
        self.calls.silent(number);
        self.slots.give(before - self.calls.len());
    }
}
