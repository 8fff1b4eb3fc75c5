//! A call that comes again.
ghost use Rattle.std.specs.Prelude.{◌≡◌, ℕ, None, IfOk, IfSome, IfNone, OnErr};
ghost use Rattle.definitions.specs.Hosts.{NotAsked};
ghost use Rattle.definitions.specs.Replies.{Call as Asked, Asks};
ghost use Rattle.definitions.specs.Step.{Take};
ghost use Rattle.kept_replies.specs.Pairs.{view_of_peer, at_key};
ghost use Rattle.book.specs.Notes.{IsStep};

use crate::state::BookState;
use crate::step_result::Answered;
use hosts_db::HostStore;
use kept_replies::Key;
use owner_ids::Starved;
use range_table::RangeTable;

impl<R: RangeTable, S: HostStore> BookState<R, S> {
    /// The reply that is kept under the key, which is now the newest use, and the calls that went with it, due again;
    /// whatever the call asks, nothing else changes. Where too few places are free for those calls, nothing changes, and
    /// the reply is SYSTEM_ERR. Starved: nothing has changed.
    pub(crate) fn repeat(&mut self, key: &Key) -> Result<Option<Answered>, Starved>
        ensures found { IfOk result (λ found. IfSome found (λ said. (xid : ℕ) (call : Asked) → IsStep self.old.state (Take (view_of_peer key.now.peer) key.now.record (Asks xid call)) said.step_result self.new.state)) }
        ensures counts { self.new.refusals ≡ self.old.refusals }
        ensures unasked { IfOk result (λ found. IfSome found (λ said. said.step_result.store ≡ NotAsked)) }
        ensures none { IfOk result (λ found. IfNone found ((at_key key.now self.old.state.kept ≡ None) × (self.new ≡ self.old))) }
        ensures err { OnErr result (self.new ≡ self.old) }
    {
        let Some(kept) = self.kept.look(key) else {
            return Ok(None);
        };
        if kept.callbacks.len() > self.world.free_slots() {
            return Ok(Some(Answered::too_few_places(kept.xid)));
        }
        let (said, callbacks) = kept.again(self.world.alloc())?;
        let _ = self.kept.find(key);
        self.world.tell(callbacks);
        Ok(Some(said))
    }
}
