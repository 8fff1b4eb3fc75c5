//! A record is answered.
ghost use Rattle.std.specs.Prelude.{◌≡◌};
ghost use Rattle.definitions.specs.Replies.{Asks};
ghost use Rattle.definitions.specs.Step.{Take};
ghost use Rattle.kept_replies.specs.Pairs.{view_of_peer};
ghost use Rattle.call_codec.specs.CallValues.{view_of_call};
ghost use Rattle.call_plans.specs.Planned.{refusal_count};
ghost use Rattle.book.specs.Notes.{IsStep, Steps, Takes};

use crate::state::BookState;
use crate::step_result::Answered;
use bytes::Bytes;
use call_codec::Reading;
use hosts_db::HostStore;
use kept_replies::{Answering, Key, Peer, answer_once};
use lock_service::{Call, StoreAnswer};
use owner_ids::Starved;
use range_table::RangeTable;

impl<R: RangeTable, S: HostStore> BookState<R, S> {
    /// A record of a peer: it is ignored, turned away, or given to its procedure, unless its reply is kept.
    pub(crate) fn take(&mut self, peer: Peer, bytes: &Bytes) -> Answered
        ensures step { Steps self.old.state (Takes (view_of_peer peer) bytes.now) result.step_result self.new.state }
        ensures counts { self.new.refusals ≡ refusal_count result.step_result.store self.old.refusals }
    {
        match Reading::read(bytes) {
            Reading::Ignored => Answered::nothing(StoreAnswer::NotAsked),
            Reading::Turned { xid, refusal } => Answered::refuses(xid, refusal),
            Reading::Asks { xid, call } => self.called(peer, bytes, xid, &call),
        }
    }

    fn called(&mut self, peer: Peer, bytes: &Bytes, xid: u32, call: &Call<'_>) -> Answered
        ensures step { IsStep self.old.state (Take (view_of_peer peer) bytes.now (Asks xid (view_of_call call.now))) result.step_result self.new.state }
        ensures counts { self.new.refusals ≡ refusal_count result.step_result.store self.old.refusals }
    {
        let Ok(record) = bytes.clone() else {
            return Answered::starved(StoreAnswer::NotAsked, xid);
        };
        let key = Key { peer, record };
        answer_once(self, key, &Asking { xid, call })
    }
}

// What a call asks, and under which xid.
#[derive(Clone, Copy)]
struct Asking<'a, 'c> {
    xid: u32,
    call: &'a Call<'c>,
}

impl<'a, 'c, R: RangeTable, S: HostStore> Answering<Asking<'a, 'c>, Answered> for BookState<R, S> {
    ghost use Rattle.std.specs.Prelude.{◌≡◌, None};
    ghost use Rattle.definitions.specs.Replies.{Asks};
    ghost use Rattle.definitions.specs.Step.{Take};
    ghost use Rattle.kept_replies.specs.Pairs.{view_of_peer, at_key};
    ghost use Rattle.call_codec.specs.CallValues.{view_of_call};
    ghost use Rattle.book.specs.Response.{IsAnswered};

    ghost Answers = { λ old key asked told new. IsAnswered (Take (view_of_peer key.peer) key.«record» (Asks asked.xid (view_of_call asked.call.now))) old told new };

    ghost IsNew = { λ s key. at_key key s.state.kept ≡ None };

    fn answer_again(
        &mut self,
        key: &Key,
        _asked: &Asking<'a, 'c>,
    ) -> Result<Option<Answered>, Starved> {
        self.repeat(key)
    }

    fn answer_anew(&mut self, key: Key, asked: &Asking<'a, 'c>) -> Answered {
        self.fresh(key, asked.xid, asked.call)
    }

    fn answer_starved(&self, asked: &Asking<'a, 'c>) -> Answered {
        Answered::starved(StoreAnswer::NotAsked, asked.xid)
    }
}
