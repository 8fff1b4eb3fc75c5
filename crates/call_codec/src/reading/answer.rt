//! The reading of an answer to a call of the server's own.
ghost use Rattle.std.specs.Option.{option_map};
ghost use Rattle.nlm4_types.specs.Stat.{view_of_stat};
ghost use Rattle.call_codec.specs.Answers.{IsAnswerReading, IsResultStat, view_of_answer};

use nlm4_types::{Res, Stat};
use rpc_msg::{Answer, AnswerOutcome};
use xdr_core::{Cursor, read};

/// What an answer to one of the server's own calls says (RFC 5531, section 9).
#[derive(Clone, Copy, PartialEq, Eq)]
pub enum AnswerReading {
    /// No front of it is a reply up to its accept_stat or reject_stat.
    Unreadable,
    /// The call was accepted and done. The status is that of the nlm4_res that its result begins with (RFC 1813,
    /// appendix II), or none where it begins with none.
    AcceptedSuccess { xid: u32, stat: Option<Stat> },
    /// The call was accepted and not done, or denied.
    OtherAnswer { xid: u32 },
}

impl AnswerReading {
    /// Reads an answer. It takes no memory.
    pub fn read(bytes: &[u8]) -> AnswerReading
        ensures { IsAnswerReading bytes.now (view_of_answer result) }
    {
        let Some(answer) = Answer::read(bytes) else {
            return AnswerReading::Unreadable;
        };
        let xid = answer.xid;
        match answer.outcome {
            AnswerOutcome::Success(mut body) => AnswerReading::AcceptedSuccess {
                xid,
                stat: stat_of(&mut body),
            },
            AnswerOutcome::Failure => AnswerReading::OtherAnswer { xid },
        }
    }
}

// The status that a result begins with, where it begins with a cookie and a status.
fn stat_of(body: &mut Cursor<'_>) -> Option<Stat>
    ensures { IsResultStat body.old (option_map view_of_stat result) }
{
    match read::<Res<'_>>(body) {
        Ok(res) => Some(res.stat),
        Err(_) => None,
    }
}
