//! What a line asks.

ghost use Rattle.local_ops.specs.Reading.{Gives, GivesRest};
ghost use Rattle.local_ops.specs.Words.{line_by, read_line};
ghost use Rattle.local_ops.specs.Calls.{view_of_local_call, view_of_line_read};
ghost use Rattle.local_ops.specs.Grammar.{Reads};

use crate::fields::{BadLine, Fields, Word};
use crate::quota::Quota;
use callbacks::LocalLock;
use owner_ids::Owner;
use range_table::{FileId, Mode};

/// The most bytes of a line, without its line feed.
const MOST_LINE_BYTES: usize = 512;

/// What a line asks.
#[derive(Drop)]
pub enum LocalCall {
    /// `getlk OWNER FH MODE FIRST LEN`: whether a lock would conflict (fcntl, F_GETLK).
    GetLock { mode: Mode, lock: LocalLock },
    /// `setlk OWNER FH MODE FIRST LEN`: to lock, or to unlock where there is no mode (F_SETLK).
    SetLock { mode: Option<Mode>, lock: LocalLock },
    /// `setlkw OWNER FH MODE FIRST LEN`: the same, and to wait where it conflicts (F_SETLKW).
    SetLockWait { mode: Option<Mode>, lock: LocalLock },
    /// `close OWNER FH`: to drop all locks and waits of the owner on the file.
    Close { owner: Owner, file: FileId },
    /// `table`: all locks.
    Table,
    /// `hosts`: all hosts with a row.
    Hosts,
    /// `quota NAME N`: how many runs the owners of a host may have.
    Quota(Quota),
    /// `stop`: the server ends.
    Stop,
}

impl LocalCall {
    /// Reads a line, without its line feed. `BadLine` where it is none of the protocol, or longer than 512 bytes. It takes
    /// no memory.
    pub fn read(line: &[u8]) -> Result<LocalCall, BadLine>
        ensures { Reads line.now (view_of_line_read result) }
    {
        read_fields(line)
    }
}

#[tactic(auto, unfolding(crate::specs::Words::read_line, crate::specs::Words::line_in))]
fn read_fields(line: &[u8]) -> Result<LocalCall, BadLine>
    ensures { Gives view_of_local_call result (read_line line.now) }
{
    if line.len() > MOST_LINE_BYTES {
        return Err(BadLine);
    }
    let mut fields = Fields::of(line);
    let word = fields.word()?;
    let call = read_call(word, &mut fields)?;
    fields.end()?;
    Ok(call)
}

/// Reads what follows the first word.
fn read_call(word: Word, fields: &mut Fields<'_>) -> Result<LocalCall, BadLine>
    ensures { GivesRest view_of_local_call result fields.new (line_by word fields.old) }
{
    match word {
        Word::GetLock => {
            let (mode, lock) = fields.lock()?;
            match mode {
                Some(mode) => Ok(LocalCall::GetLock { mode, lock }),
                None => Err(BadLine),
            }
        }
        Word::SetLock => {
            let (mode, lock) = fields.lock()?;
            Ok(LocalCall::SetLock { mode, lock })
        }
        Word::SetLockWait => {
            let (mode, lock) = fields.lock()?;
            Ok(LocalCall::SetLockWait { mode, lock })
        }
        Word::Close => {
            let (owner, file) = fields.owned()?;
            Ok(LocalCall::Close { owner, file })
        }
        Word::Table => Ok(LocalCall::Table),
        Word::Hosts => Ok(LocalCall::Hosts),
        Word::Quota => {
            let (name, runs) = fields.quota()?;
            Ok(LocalCall::Quota(Quota { name, runs }))
        }
        Word::Stop => Ok(LocalCall::Stop),
    }
}
