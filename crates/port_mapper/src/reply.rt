//! What is read of the replies (RFC 1833, section 3.2).

ghost use Rattle.std.specs.Prelude.{IfSome, IfNone};
ghost use Rattle.rpc_msg.specs.Answered.{IsAnswerOf};
ghost use Rattle.port_mapper.specs.Replies.{IsReplyTo, Reads, ReadsFlag, ReadsPort};

use crate::port::Port;
use rpc_msg::{Answer, AnswerOutcome, one_answer};
use xdr_core::{Cursor, Wire, one_front, read};

/// What some bytes say to a call.
#[derive(Clone, Copy, Debug, PartialEq, Eq, Drop)]
pub enum Response<T> {
    /// They are no reply to it: they have another xid, or aren't a reply up to its accept_stat or reject_stat.
    Other,
    /// They are a reply to it without a result: the call was denied or not done, or what stands behind SUCCESS is no whole result.
    NoResult,
    /// It was done, with this result.
    Result(T),
}

// What became of the call of this xid. None where the bytes are no reply to it.
fn outcome_of(bytes: &[u8], xid: u32) -> Option<AnswerOutcome<'_>>
    ensures some { IfSome result (λ outcome. IsAnswerOf bytes.now xid outcome) }
    ensures none { IfNone result (IsReplyTo xid bytes.now → ⊥) }
{
    one_answer();
    match Answer::read(bytes) {
        Some(answer) => {
            if answer.xid == xid {
                Some(answer.outcome)
            } else {
                None
            }
        }
        None => None,
    }
}

// The value that all bytes spell.
fn read_whole<'r, T: Wire<'r> + Drop>(bytes: Cursor<'r>) -> Option<T>
    ensures some { IfSome result (λ v. T.codec.Spells bytes.entry (T.view v)) }
    ensures none { IfNone result ((v : T.Value) → T.codec.Spells bytes.entry v → ⊥) }
{
    one_front::<T>();
    let mut cursor = bytes;
    match read::<T>(&mut cursor) {
        Ok(value) => { if cursor.len() == 0 { Some(value) } else { None } }
        Err(_) => None,
    }
}

fn read_reply<'r, T: Wire<'r> + Drop>(bytes: &'r [u8], xid: u32) -> Response<T>
    ensures { Reads T.codec T.view xid bytes.now result }
{
    one_answer();
    match outcome_of(bytes, xid) {
        None => Response::Other,
        Some(AnswerOutcome::Failure) => Response::NoResult,
        Some(AnswerOutcome::Success(result)) => match read_whole::<T>(result) {
            Some(value) => Response::Result(value),
            None => Response::NoResult,
        },
    }
}

/// Reads a reply to the SET or UNSET of this xid: whether it was done.
pub fn read_flag(bytes: &[u8], xid: u32) -> Response<bool>
    ensures { ReadsFlag xid bytes.now result }
{
    read_reply::<bool>(bytes, xid)
}

/// Reads a reply to the GETPORT of this xid. A port of 0, or above 65,535, is no result.
pub fn read_port(bytes: &[u8], xid: u32) -> Response<Port>
    ensures { ReadsPort xid bytes.now result }
{
    read_reply::<Port>(bytes, xid)
}
