//! An event for whose entry there is no memory.
ghost use Rattle.std.specs.Prelude.{◌≡◌};
ghost use Rattle.definitions.specs.Hosts.{NotAsked};
ghost use Rattle.definitions.specs.Step.{State, Starved};
ghost use Rattle.call_codec.specs.CallValues.{view_of_reading};
ghost use Rattle.book.specs.Given.{comes_to, view_of_reply, starved_reading};
ghost use Rattle.kept_replies.specs.Pairs.{view_of_peer};
ghost use Rattle.book.specs.Notes.{view_of_event, Steps, Takes};

use crate::event::BookEvent;
use crate::receipt::Taken;
use crate::reply::{RecordReply, Reply, Unanswered};
use crate::step_result::{EventStatus, StepResult};
use bytes::Bytes;
use call_codec::{AnswerReading, Reading};
use kept_replies::Peer;
use local_ops::{LocalAnswer, LocalCall};
use lock_service::StoreAnswer;

impl BookEvent {
    /// What the event comes to where there was no memory for it before it began: a call gets SYSTEM_ERR, and nothing changes.
    pub fn starved(&self) -> StepResult
        ensures starves { result.completion ≡ Starved }
        ensures unasked { result.store ≡ NotAsked }
        ensures stays { (s : State) → Steps s (view_of_event self.now) result s }
    {
        StepResult {
            status: EventStatus::starved(StoreAnswer::NotAsked),
            reply: self.starved_reply(),
        }
    }

    fn starved_reply(&self) -> Reply
        ensures { (s : State) → Steps s (view_of_event self.now) (comes_to Starved NotAsked (view_of_reply result)) s }
    {
        match self {
            BookEvent::Take { peer, record } => starved_take(*peer, record),
            BookEvent::Answer { bytes } => {
                // Whatever its reading is, it changes nothing.
                let _reading = AnswerReading::read(bytes);
                Reply::Nobody(Unanswered::Starved)
            }
            BookEvent::Local { line, .. } => {
                let _reading = LocalCall::read(line);
                Reply::Line(LocalAnswer::Starved)
            }
            BookEvent::Silent { .. } | BookEvent::GraceOver | BookEvent::Restart => {
                Reply::Nobody(Unanswered::Starved)
            }
        }
    }
}

impl Taken {
    /// What the call gets where there was no memory for it before it began: SYSTEM_ERR, and nothing where the record is ignored.
    pub fn starved(self) -> Reply
        ensures { (s : State) → Steps s (Takes (view_of_peer self.peer) self.«record») (comes_to Starved NotAsked (view_of_reply result)) s }
    {
        starved_take(self.peer, &self.record)
    }
}

// A record of this peer.
fn starved_take(peer: Peer, asked: &Bytes) -> Reply
    ensures { (s : State) → Steps s (Takes (view_of_peer peer) asked.now) (comes_to Starved NotAsked (view_of_reply result)) s }
{
    starved_by(&Reading::read(asked))
}

fn starved_by(reading: &Reading<'_>) -> Reply
    ensures { view_of_reply result ≡ starved_reading (view_of_reading reading.now) }
{
    match reading {
        Reading::Ignored => Reply::Nobody(Unanswered::Starved),
        Reading::Turned { xid, .. } | Reading::Asks { xid, .. } => {
            Reply::Record(RecordReply::SystemErr { xid: *xid })
        }
    }
}
