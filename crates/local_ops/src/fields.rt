//! The fields of a line, one after the other.

ghost use Rattle.std.specs.Prelude.{◌≡◌, ◌≤◌, ◌↔◌, [], ◌∷◌, length, true, IfOk, IsOk, MatchResult};
ghost use Rattle.std.specs.Option.{option_and_then};
ghost use Rattle.callbacks.specs.Locals.{is_local};
ghost use Rattle.owner_ids.specs.Views.{view_of_owner};
ghost use Rattle.range_table.specs.Modes.{view_of_held_mode};
ghost use Rattle.local_ops.specs.Reading.{Gives, GivesRest, fields_of, first_field, number_in, owner_in, hex_in, change_in, process_of, runs_of, runs_in, owned_in, quota_in, lock_in};
ghost use Rattle.callbacks.specs.Meanings.{view_of_local_lock};
ghost use Rattle.local_ops.specs.Words.{word_in};

use crate::host_name::HostName;
use byte_io::split_once;
use callbacks::LocalLock;
use itoa::Buffer;
use owner_ids::Owner;
use range_table::{FileId, Mode};
use std::marker::Model;
use std::str;
use thiserror::Error;

/// The line is none of the protocol.
#[derive(Clone, Copy, Debug, PartialEq, Eq, Error)]
#[error("20 BadLine")]
pub struct BadLine;

/// What a line's first word asks.
#[derive(Clone, Copy)]
pub(crate) enum Word {
    GetLock,
    SetLock,
    SetLockWait,
    Close,
    Table,
    Hosts,
    Quota,
    Stop,
}

/// A number with no leading zeros.
pub(crate) fn read_number(field: &[u8]) -> Result<u64, BadLine>
    ensures { Gives (λ number. number) result (number_in field.now) }
{
    let Ok(text) = str::from_utf8(field) else {
        return Err(BadLine);
    };
    let Ok(number) = text.parse::<u64>() else {
        return Err(BadLine);
    };
    // It has one text, the one that it is printed in.
    if Buffer::new().format(number).as_bytes() == field {
        Ok(number)
    } else {
        Err(BadLine)
    }
}

/// `p` and a pid, or `d` and a number.
#[tactic(auto, unfolding(crate::specs::Reading::owner_in))]
fn read_owner(field: &[u8]) -> Result<Owner, BadLine>
    ensures gives { Gives view_of_owner result (owner_in field.now) }
    ensures local { IfOk result (λ owner. is_local (view_of_owner owner) ≡ true) }
{
    let Some((kind, digits)) = field.split_first() else {
        return Err(BadLine);
    };
    match *kind {
        b'p' => read_process(digits),
        b'd' => Ok(Owner::Description(read_number(digits)?)),
        _ => Err(BadLine),
    }
}

/// A pid is below 2^31.
fn read_process(digits: &[u8]) -> Result<Owner, BadLine>
    ensures gives { Gives view_of_owner result (option_and_then process_of (number_in digits.now)) }
    ensures local { IfOk result (λ owner. is_local (view_of_owner owner) ≡ true) }
{
    match u32::try_from(read_number(digits)?) {
        Ok(pid) if pid < 1 << 31 => Ok(Owner::Process(pid)),
        _ => Err(BadLine),
    }
}

/// 2 to 128 hexadecimal digits.
#[tactic(auto, unfolding(crate::specs::Reading::hex_in))]
fn read_file(field: &[u8]) -> Result<FileId, BadLine>
    ensures gives { Gives (λ file. file) result (hex_in 128 field.now) }
    ensures short { IfOk result (λ file. length file ≤ 64) }
{
    let count = field.len() / 2;
    if count < 1 || count > 64 {
        return Err(BadLine);
    }
    let mut bytes = [0; 64];
    let file = &mut bytes[..count];
    match hex::decode_to_slice(field, file) {
        Ok(()) => Ok(FileId::new(file)),
        Err(_) => Err(BadLine),
    }
}

/// 2 to 480 hexadecimal digits.
#[tactic(auto, unfolding(crate::specs::Reading::hex_in))]
fn read_name(field: &[u8]) -> Result<HostName<240>, BadLine>
    ensures { Gives (λ name. name) result (hex_in 480 field.now) }
{
    let count = field.len() / 2;
    if count < 1 || count > 240 {
        return Err(BadLine);
    }
    let mut bytes = [0; 240];
    let name = &mut bytes[..count];
    match hex::decode_to_slice(field, name) {
        Ok(()) => Ok(HostName::new(name)),
        Err(_) => Err(BadLine),
    }
}

/// A number of runs, at most 65,536.
fn read_runs(field: &[u8]) -> Result<u32, BadLine>
    ensures gives { Gives (λ runs. runs) result (option_and_then runs_of (number_in field.now)) }
    ensures most { IfOk result (λ runs. runs ≤ 65536) }
{
    match u32::try_from(read_number(field)?) {
        Ok(runs) if runs <= 65_536 => Ok(runs),
        _ => Err(BadLine),
    }
}

/// A mode, or `u`, an unlock.
#[tactic(auto, unfolding(crate::specs::Reading::change_in))]
fn read_change(field: &[u8]) -> Result<Option<Mode>, BadLine>
    ensures { Gives view_of_held_mode result (change_in field.now) }
{
    match field {
        b"r" => Ok(Some(Mode::Shared)),
        b"w" => Ok(Some(Mode::Exclusive)),
        b"u" => Ok(None),
        _ => Err(BadLine),
    }
}

/// A line's first word.
#[tactic(auto, unfolding(crate::specs::Words::word_in))]
fn read_word(field: &[u8]) -> Result<Word, BadLine>
    ensures { Gives (λ word. word) result (word_in field.now) }
{
    if field == b"getlk".as_slice() {
        Ok(Word::GetLock)
    } else if field == b"setlk".as_slice() {
        Ok(Word::SetLock)
    } else if field == b"setlkw".as_slice() {
        Ok(Word::SetLockWait)
    } else if field == b"close".as_slice() {
        Ok(Word::Close)
    } else if field == b"table".as_slice() {
        Ok(Word::Table)
    } else if field == b"hosts".as_slice() {
        Ok(Word::Hosts)
    } else if field == b"quota".as_slice() {
        Ok(Word::Quota)
    } else if field == b"stop".as_slice() {
        Ok(Word::Stop)
    } else {
        Err(BadLine)
    }
}

/// The fields of a line that are not read yet. Where one is refused, nothing is known of those that are left.
#[derive(Drop)]
pub(crate) struct Fields<'a> {
    // None behind the last field.
    rest: Option<&'a [u8]>,
}

impl<'a> Model for Fields<'a> {
    ghost use Rattle.std.specs.Prelude.{List, ℕ};
    ghost use Rattle.byte_io.specs.Parts.{parts_left};

    ghost Value = { List (List ℕ) };

    ghost view = { λ f. parts_left 32 f.rest };
}

impl<'a> Fields<'a> {
    pub(crate) fn of(line: &'a [u8]) -> Fields<'a>
        ensures { result ≡ fields_of line.now }
    {
        Fields { rest: Some(line) }
    }

    fn next(&mut self) -> Result<&'a [u8], BadLine>
        ensures { MatchResult result (λ field. self.old ≡ field.now ∷ self.new) (λ _. self.old ≡ []) }
    {
        match self.rest {
            Some(line) => {
                let (field, rest) = split_once(line, b' ');
                self.rest = rest;
                Ok(field)
            }
            None => Err(BadLine),
        }
    }

    /// No field is left.
    pub(crate) fn end(&self) -> Result<(), BadLine>
        ensures { IsOk result ↔ (self.now ≡ []) }
    {
        match self.rest {
            Some(_) => Err(BadLine),
            None => Ok(()),
        }
    }

    pub(crate) fn word(&mut self) -> Result<Word, BadLine>
        ensures { GivesRest (λ word. word) result self.new (first_field word_in self.old) }
    {
        read_word(self.next()?)
    }

    fn number(&mut self) -> Result<u64, BadLine>
        ensures { GivesRest (λ number. number) result self.new (first_field number_in self.old) }
    {
        read_number(self.next()?)
    }

    fn mode_or_none(&mut self) -> Result<Option<Mode>, BadLine>
        ensures { GivesRest view_of_held_mode result self.new (first_field change_in self.old) }
    {
        read_change(self.next()?)
    }

    fn owner(&mut self) -> Result<Owner, BadLine>
        ensures gives { GivesRest view_of_owner result self.new (first_field owner_in self.old) }
        ensures local { IfOk result (λ owner. is_local (view_of_owner owner) ≡ true) }
    {
        read_owner(self.next()?)
    }

    fn file(&mut self) -> Result<FileId, BadLine>
        ensures gives { GivesRest (λ file. file) result self.new (first_field (hex_in 128) self.old) }
        ensures short { IfOk result (λ file. length file ≤ 64) }
    {
        read_file(self.next()?)
    }

    /// OWNER FH.
    #[tactic(auto, unfolding(crate::specs::Reading::owned_in))]
    pub(crate) fn owned(&mut self) -> Result<(Owner, FileId), BadLine>
        ensures gives { GivesRest (λ owned. (view_of_owner owned.0, owned.1)) result self.new (owned_in self.old) }
        ensures local { IfOk result (λ owned. is_local (view_of_owner owned.0) ≡ true) }
        ensures short { IfOk result (λ owned. length owned.1 ≤ 64) }
    {
        let owner = self.owner()?;
        Ok((owner, self.file()?))
    }

    fn name(&mut self) -> Result<HostName<240>, BadLine>
        ensures { GivesRest (λ name. name) result self.new (first_field (hex_in 480) self.old) }
    {
        read_name(self.next()?)
    }

    fn runs(&mut self) -> Result<u32, BadLine>
        ensures gives { GivesRest (λ runs. runs) result self.new (first_field runs_in self.old) }
        ensures most { IfOk result (λ runs. runs ≤ 65536) }
    {
        read_runs(self.next()?)
    }

    /// NAME N.
    #[tactic(auto, unfolding(crate::specs::Reading::quota_in))]
    pub(crate) fn quota(&mut self) -> Result<(HostName<240>, u32), BadLine>
        ensures gives { GivesRest (λ quota. (quota.0, quota.1)) result self.new (quota_in self.old) }
        ensures most { IfOk result (λ quota. quota.1 ≤ 65536) }
    {
        let name = self.name()?;
        Ok((name, self.runs()?))
    }

    /// OWNER FH MODE FIRST LEN.
    #[tactic(auto, unfolding(crate::specs::Reading::lock_in))]
    pub(crate) fn lock(&mut self) -> Result<(Option<Mode>, LocalLock), BadLine>
        ensures { GivesRest (λ read. (view_of_held_mode read.0, view_of_local_lock read.1)) result self.new (lock_in self.old) }
    {
        let (owner, file) = self.owned()?;
        let mode = self.mode_or_none()?;
        let offset = self.number()?;
        let len = self.number()?;
        let lock = LocalLock {
            owner,
            file,
            offset,
            len,
        };
        Ok((mode, lock))
    }
}
