//! The newest address of each host.
ghost use Rattle.std.specs.Prelude.{◌≡◌, [], Some, IfOk, OnOk, OnErr, vec_len};
ghost use Rattle.learned_addresses.specs.Hearing.{learned_at, after_hearing, heard_of, stored, is_due_at, kept};

use lru::LruCache;
use owner_ids::Starved;
use std::alloc::Global;
use std::marker::Model;
use std::num::NonZeroUsize;

/// How many hosts are known at most. A store has at most 4,096 rows, so as many more may have none.
pub const MOST_LEARNED: usize = 8_192;

/// How long a store isn't asked again to keep another address of one host, in milliseconds.
pub const PAUSE_MILLIS: u64 = 10_000;

/// What is known of a host.
#[derive(Clone, Copy, Debug, PartialEq, Eq)]
pub struct Learned {
    /// An IPv6 address, or an IPv4 address in its mapped form (RFC 4291, section 2.5.5.2).
    pub address: [u8; 16],
    /// Whether a store was told of this address, and took it.
    pub is_kept: bool,
    /// When a store took an address of this host last, in milliseconds from any beginning. None: it took none since the server began.
    pub kept_at: Option<u64>,
}

/// Whether a store is to be told of what was heard.
#[derive(Clone, Copy, Debug, PartialEq, Eq)]
pub enum Heard {
    /// The store has the address, or took another one of this host less than `PAUSE_MILLIS` ago.
    Known,
    /// The store is to keep it before the host's call is answered.
    IsToBeKept,
}

/// The newest address of each host that named itself in a lock call, of `MOST_LEARNED` hosts. Past these the one goes that asked for
/// no lock longest. Contracts see the hosts, the one first that asked for a lock last.
#[derive(Drop)]
pub struct LearnedAddresses {
    alloc: Global,
    cache: LruCache<Vec<u8>, Learned>,
}

impl Model for LearnedAddresses {
    ghost use Rattle.std.specs.Prelude.{◌≡◌};
    ghost use Rattle.learned_addresses.specs.Hearing.{Hosts};

    ghost Value = { Hosts };

    ghost view = { λ l. l.cache.entries };

    ghost invariant = { λ l. l.cache.cap ≡ 8192 };
}

// What is known of a host that is heard of at this address, where this was known of it.
fn after_hearing(before: Option<Learned>, address: [u8; 16]) -> Learned
    ensures { result ≡ after_hearing before address }
{
    let kept_at = match before {
        Some(learned) => {
            if learned.address == address {
                return learned;
            }
            learned.kept_at
        }
        None => None,
    };
    Learned {
        address,
        is_kept: false,
        kept_at,
    }
}

// Whether a store may be asked at this time again.
fn is_due_at(now: u64, kept_at: Option<u64>) -> bool
    ensures { result ≡ is_due_at now kept_at }
{
    match kept_at {
        Some(kept_at) => kept_at
            .checked_add(PAUSE_MILLIS)
            .is_some_and(|next| next <= now),
        None => true,
    }
}

fn heard_of(now: u64, learned: Learned) -> Heard
    ensures { result ≡ heard_of now learned }
{
    if learned.is_kept || !is_due_at(now, learned.kept_at) {
        Heard::Known
    } else {
        Heard::IsToBeKept
    }
}

// What is known of a host then, of which a store took this address.
fn kept_at(learned: Learned, address: [u8; 16], now: u64) -> Learned
    ensures { Some result ≡ kept (Some learned) address now }
{
    let is_kept = learned.is_kept || learned.address == address;
    let address = learned.address;
    Learned {
        address,
        is_kept,
        kept_at: Some(now),
    }
}

impl LearnedAddresses {
    /// No host is known. Starved: there is no memory for it.
    pub fn new(alloc: Global) -> Result<LearnedAddresses, Starved>
        ensures { IfOk result (λ learned. learned ≡ []) }
    {
        let Some(most) = NonZeroUsize::new(MOST_LEARNED) else {
            unreachable!()
        };
        Ok(LearnedAddresses {
            alloc,
            cache: LruCache::new(alloc, most)?,
        })
    }

    /// What is known of a host.
    pub fn look(&self, name: &[u8]) -> Option<Learned>
        ensures { result ≡ learned_at name.now self.now }
    {
        self.cache.peek(name).copied()
    }

    // This is known of a host, which asked for a lock last.
    fn put(&mut self, name: &[u8], learned: Learned) -> Result<(), Starved>
        ensures ok { OnOk result (learned_at name.now self.new ≡ Some learned) }
        ensures err { OnErr result (self.new ≡ self.old) }
    {
        let name = Vec::from_slice(self.alloc, name)?;
        match self.cache.put(name, learned) {
            Ok(_) => Ok(()),
            Err(_) => Err(Starved),
        }
    }

    // A host asked for a lock last, and is where it was.
    fn note_use(&mut self, name: &[u8])
        ensures { learned_at name.now self.new ≡ learned_at name.now self.old }
    {
        let _is_known = self.cache.promote(name);
    }

    /// A store has this address of a host. Starved: nothing has changed.
    pub fn restore(&mut self, name: &[u8], address: [u8; 16]) -> Result<(), Starved>
        ensures ok { OnOk result (learned_at name.now self.new ≡ Some (stored address)) }
        ensures err { OnErr result (self.new ≡ self.old) }
    {
        self.put(
            name,
            Learned {
                address,
                is_kept: true,
                kept_at: None,
            },
        )
    }

    /// A host named itself in a lock call that came from this address, at this time in milliseconds: whether a store is to be told.
    /// Starved: nothing has changed.
    pub fn hear(&mut self, name: &[u8], address: [u8; 16], now: u64) -> Result<Heard, Starved>
        ensures learned { OnOk result (learned_at name.now self.new ≡ Some (after_hearing (learned_at name.now self.old) address)) }
        ensures heard { IfOk result (λ heard. heard ≡ heard_of now (after_hearing (learned_at name.now self.old) address)) }
        ensures err { OnErr result (self.new ≡ self.old) }
    {
        let before = self.look(name);
        let learned = after_hearing(before, address);
        if before == Some(learned) {
            self.note_use(name);
        } else {
            self.put(name, learned)?;
        }
        Ok(heard_of(now, learned))
    }

    /// A store took this address of a host at this time. Where the host isn't known, or is at another address by now, nothing
    /// changes but the time. Starved: nothing has changed.
    pub fn keep(&mut self, name: &[u8], address: [u8; 16], now: u64) -> Result<(), Starved>
        ensures kept { OnOk result (learned_at name.now self.new ≡ kept (learned_at name.now self.old) address now) }
        ensures err { OnErr result (self.new ≡ self.old) }
    {
        match self.look(name) {
            Some(learned) => self.put(name, kept_at(learned, address, now)),
            None => Ok(()),
        }
    }
}
