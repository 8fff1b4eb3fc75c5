//! Kept replies, the newest use first.
ghost use Rattle.std.specs.Prelude.{◌≡◌, ◌≤◌, ◌↔◌, IsTrue, ℕ, List, [], length, IfOk, OnOk, OnErr};
ghost use Rattle.definitions.specs.Replies.{Outcome};
ghost use Rattle.definitions.specs.Outgoing.{Callback};
ghost use Rattle.kept_replies.specs.Pairs.{pair, shown, found, at_key, kept_first};
ghost use Rattle.std.specs.Borrow.{sem};

use crate::key::Key;
use lru::LruCache;
use owner_ids::Starved;
use std::alloc::Global;
use std::marker::Model;
use std::num::NonZeroUsize;

/// How many replies are kept at most.
pub const MOST_KEPT: usize = 1_024;

/// What is kept of a call: the number that its reply carries, the reply, and the calls that went with it.
pub trait Kept: Drop {
    ghost xid: { Self → ℕ };

    ghost outcome: { Self → Outcome };

    ghost callbacks: { Self → List Callback };
}

/// The kept replies, at most `MOST_KEPT`. Contracts see the pairs of key and reply, the newest use first.
#[derive(Drop)]
pub struct KeptReplies<V: Kept> {
    cache: LruCache<Key, V>,
}

impl<V: Kept> Model for KeptReplies<V> {
    ghost use Rattle.std.specs.Prelude.{◌≡◌, List};
    ghost use Rattle.definitions.specs.Step.{KeptPair};
    ghost use Rattle.kept_replies.specs.Pairs.{pairs};

    ghost Value = { List KeptPair };

    ghost view = { λ r. pairs V.xid V.outcome V.callbacks r.cache.entries };

    ghost invariant = { λ r. r.cache.cap ≡ 1024 };
}

impl<V: Kept> KeptReplies<V> {
    ghost use Rattle.kept_replies.specs.Lent.{ends_as};

    /// No reply is kept. Starved: there is no memory for the table.
    pub fn new(alloc: Global) -> Result<KeptReplies<V>, Starved>
        ensures { IfOk result (λ kept. kept ≡ []) }
    {
        let Some(most) = NonZeroUsize::new(MOST_KEPT) else {
            unreachable!()
        };
        Ok(KeptReplies {
            cache: LruCache::new(alloc, most)?,
        })
    }

    pub fn len(&self) -> usize
        ensures len { result ≡ length self.now }
        ensures most { result ≤ MOST_KEPT }
    {
        self.cache.len()
    }

    pub fn is_empty(&self) -> bool
        ensures { IsTrue result ↔ (self.now ≡ []) }
    {
        self.cache.is_empty()
    }

    /// What is kept under the key. The order of uses stays.
    pub fn look(&self, key: &Key) -> Option<&V>
        ensures { shown V.xid V.outcome V.callbacks key.now result ≡ at_key key.now self.now }
    {
        self.cache.peek(key)
    }

    /// What is kept under the key, which is now the newest use.
    pub fn find(&mut self, key: &Key) -> Option<&V>
        ensures* moved { sem 𝓛 (ends_as V.row V.Kept self.entry (found (at_key key.now self.old) self.old)) }
        ensures value { shown V.xid V.outcome V.callbacks key.now result ≡ at_key key.now self.old }
    {
        if !self.cache.promote(key) {
            return None;
        }
        self.look(key)
    }

    /// Keeps a call's reply as the newest, in place of what was kept under its key. Where nothing was, and `MOST_KEPT` are
    /// kept, the one whose use is longest ago goes. Starved: nothing has changed.
    pub fn keep(&mut self, key: Key, kept: V) -> Result<(), Starved>
        ensures ok { OnOk result (self.new ≡ kept_first (at_key key self.old) (pair V.xid V.outcome V.callbacks key kept) self.old) }
        ensures err { OnErr result (self.new ≡ self.old) }
    {
        match self.cache.put(key, kept) {
            Ok(_) => Ok(()),
            Err(_) => Err(Starved),
        }
    }

    /// No reply is kept from now on.
    pub fn clear(&mut self)
        ensures { self.new ≡ [] }
    {
        self.cache.clear();
    }
}
