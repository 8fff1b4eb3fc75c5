//! What the sender is told at the start.
ghost use Rattle.std.specs.Prelude.{◌≡◌};
ghost use Rattle.callback_sender.specs.Waits.{word_at, ends_with_reply};

use crate::peer::Asks;
use nlm4_types::PROGRAM as NLM_PROGRAM;
use nsm_types::PROGRAM as NSM_PROGRAM;
use port_mapper::{Mapping, TCP};
use port_registering::Registration;
use std::time::Duration;

/// The ports that peers listen on, and how long the sender waits.
#[derive(Clone, Copy)]
pub struct CallSettings {
    /// The port of calls to the lock manager, where no port mapper names one.
    pub nlm_port: u16,
    /// The port of calls to the status monitor, where no port mapper names one.
    pub nsm_port: u16,
    /// The port of all other calls.
    pub watch_port: u16,
    /// The port at which peers' port mappers are asked for the ports of their lock managers and status monitors. None: they aren't
    /// asked.
    pub port_mapper: Option<u16>,
    /// What is registered at the port mapper of the server's own machine. None: nothing is.
    pub registration: Option<Registration>,
    /// How long the grace period goes on, from the start and from each restart.
    pub grace: Duration,
    /// How long a call waits for its answer.
    pub silence: Duration,
}

// The word at this place of a record.
fn word(bytes: &[u8], at: usize) -> Option<u32>
    ensures { result ≡ word_at at bytes.now }
{
    let (_, behind) = bytes.split_at_checked(at)?;
    let word = behind.first_chunk::<4>()?;
    Some(u32::from_be_bytes(*word))
}

/// The procedure of a GRANTED_MSG, whose answer is a call of its own.
const GRANTED_MSG: u32 = 10;

/// Whether the call of this record is over once it has its reply: a GRANTED_MSG waits for a GRANTED_RES.
pub(crate) fn ends_with_reply(bytes: &[u8]) -> bool
    ensures { result ≡ ends_with_reply bytes.now }
{
    word(bytes, 12) != Some(NLM_PROGRAM) || word(bytes, 20) != Some(GRANTED_MSG)
}

impl CallSettings {
    /// The port that takes the call of this record.
    pub(crate) fn port_of(&self, record: &[u8]) -> u16 {
        match word(record, 12) {
            Some(NLM_PROGRAM) => self.nlm_port,
            Some(NSM_PROGRAM) => self.nsm_port,
            _ => self.watch_port,
        }
    }

    /// What the port mapper of a peer is asked for the call of this record: nothing where port mappers aren't asked, or the call is
    /// neither to the lock manager nor to the status monitor.
    pub(crate) fn asks_of(&self, record: &[u8]) -> Option<Asks> {
        let port = self.port_mapper?;
        let prog = word(record, 12)?;
        let vers = word(record, 16)?;
        if prog != NLM_PROGRAM && prog != NSM_PROGRAM {
            return None;
        }
        let mapping = Mapping {
            prog,
            vers,
            prot: TCP,
            port: 0,
        };
        Some(Asks { mapping, port })
    }
}
