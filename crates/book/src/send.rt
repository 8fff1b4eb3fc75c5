//! The server's own calls are sent.
ghost use Rattle.std.specs.Prelude.{◌≡◌, None, IfSome, IfNone};
ghost use Rattle.definitions.specs.Hosts.{NotAsked};
ghost use Rattle.definitions.specs.Outgoing.{next_due};
ghost use Rattle.definitions.specs.Step.{Applied, Send, Sends};
ghost use Rattle.call_codec.specs.Dests.{view_of_dest};
ghost use Rattle.call_codec.specs.Records.{call_record};
ghost use Rattle.book.specs.Given.{comes_to};
ghost use Rattle.book.specs.Notes.{IsStep};

use crate::snapshot::Snapshot;
use crate::state::BookState;
use call_codec::{Dest, put_record};
use callbacks::Callback;
use hosts_db::HostStore;
use range_table::RangeTable;
use xdr_core::Frame;

/// A call that is sent: its number, whom it is for, its record, and its callback, which contracts see.
#[derive(Drop)]
pub(crate) struct Sending {
    pub(crate) number: u64,
    pub(crate) to: Dest,
    pub(crate) frame: Frame,
    pub(crate) callback: Snapshot<Callback>,
    pub(crate) ghost goes: { view_of_dest to ≡ callback.value.to },
    pub(crate) ghost says: { frame ≡ call_record number callback.value.message },
}

impl<R: RangeTable, S: HostStore> BookState<R, S> {
    /// The call that is due first is sent, if one is due.
    pub(crate) fn send(&mut self) -> Option<Sending>
        ensures step { IfSome result (λ s. IsStep self.old.state Send (comes_to Applied NotAsked (Sends s.number s.callback.value)) self.new.state) }
        ensures none { IfNone result ((next_due self.old.state.world.calls ≡ None) × (self.new ≡ self.old)) }
        ensures refusals { self.new.refusals ≡ self.old.refusals }
    {
        let call = self.world.next_call()?;
        let number = call.number();
        let callback = call.callback();
        let to = Dest::of(callback.to());
        let mut frame = Frame::new();
        // An empty frame has room for each record.
        let _ = put_record(number, callback.message(), &mut frame);
        let callback = Snapshot::of(callback);
        self.world.sent();
        Some(Sending {
            number,
            to,
            frame,
            callback,
        })
    }
}
