//! Answers to the calls that the server sends.

ghost use Rattle.std.specs.Prelude.{IfSome, IfNone};
ghost use Rattle.rpc_msg.specs.Verdict.{NoFront};
ghost use Rattle.rpc_msg.specs.Answered.{accepted_rest, IsAcceptedOutcome, IsAnswer, IsNoAnswer};

use crate::auth::OpaqueAuth;
use crate::{MSG_ACCEPTED, MSG_DENIED, REPLY};
use xdr_core::{Below, Cursor, read};

/// What became of a call.
#[derive(Drop)]
pub enum AnswerOutcome<'r> {
    /// It was accepted and done. The cursor stands at the result, which is not read yet.
    Success(Cursor<'r>),
    /// It was accepted and not done, or denied.
    Failure,
}

/// A reply to a call that the server sent, up to its accept_stat or reject_stat.
#[derive(Drop)]
pub struct Answer<'r> {
    pub xid: u32,
    pub outcome: AnswerOutcome<'r>,
}

/// What follows the verifier: whether the call was done.
#[tactic(auto, unfolding(crate::specs::Answered::accepted_rest))]
fn accepted<'r>(c: &mut Cursor<'r>) -> Option<AnswerOutcome<'r>>
    ensures some { IfSome result (λ outcome. IsAcceptedOutcome c.old outcome) }
    ensures none { IfNone result (NoFront accepted_rest c.old) }
{
    match read::<(OpaqueAuth, Below<6>)>(c) {
        Ok((_verf, stat)) => {
            if stat.number == 0 {
                Some(AnswerOutcome::Success(c.fork()))
            } else {
                Some(AnswerOutcome::Failure)
            }
        }
        Err(_) => None,
    }
}

impl<'r> Answer<'r> {
    /// Reads an answer, where the bytes begin with one. The verifier is not looked into.
    #[tactic(auto, unfolding(crate::specs::Reply::reply_start))]
    pub fn read(bytes: &'r [u8]) -> Option<Answer<'r>>
        ensures some { IfSome result (λ a. IsAnswer bytes.now a) }
        ensures none { IfNone result (IsNoAnswer bytes.now) }
    {
        let mut c = Cursor::new(bytes);
        let Ok((xid, (mtype, stat))) = read::<(u32, (u32, u32))>(&mut c) else {
            return None;
        };
        if mtype != REPLY {
            return None;
        }
        match stat {
            MSG_ACCEPTED => {
                let outcome = accepted(&mut c)?;
                Some(Answer { xid, outcome })
            }
            MSG_DENIED => match read::<Below<2>>(&mut c) {
                Ok(_) => Some(Answer {
                    xid,
                    outcome: AnswerOutcome::Failure,
                }),
                Err(_) => None,
            },
            _ => None,
        }
    }
}
