//! A call that comes again is answered again, and done once.
ghost use Rattle.std.specs.Prelude.{◌≡◌, IfOk, IfSome, IfNone, OnErr};

use crate::key::Key;
use owner_ids::Starved;

/// Answers calls that ask a `Q`, of which some may come again. A `T` is told of each.
pub trait Answering<Q, T> {
    ghost use Rattle.kept_replies.specs.declared.key.Key.{Key};

    /// What is asked under the key is told of so.
    ghost Answers: { Self → Key → Q → T → Self → Type 0 };

    /// No reply is kept under the key.
    ghost IsNew: { Self → Key → Type 0 };

    /// Answers with the reply that is kept, if one is.
    fn answer_again(&mut self, key: &Key, asked: &Q) -> Result<Option<T>, Starved>
        ensures found { IfOk result (λ found. IfSome found (λ told. Answers self.old key.now asked.now told self.new)) }
        ensures none { IfOk result (λ found. IfNone found (IsNew self.new key.now × (self.new ≡ self.old))) }
        ensures err { OnErr result (self.new ≡ self.old) };

    /// Does the call.
    fn answer_anew(&mut self, key: Key, asked: &Q) -> T
        requires { IsNew self.old key }
        ensures { Answers self.old key asked.now result self.new };

    /// There was no memory to look.
    fn answer_starved(&self, asked: &Q) -> T
        ensures { (key : Key) → Answers self.now key asked.now result self.now };
}

/// Answers a call: with the reply that is kept under its key, or else by doing it.
pub fn answer_once<Q, T: Drop, A: Answering<Q, T>>(answering: &mut A, key: Key, asked: &Q) -> T
    ensures { A.Answers answering.old key asked.now result answering.new }
{
    match answering.answer_again(&key, asked) {
        Ok(Some(told)) => told,
        Ok(None) => answering.answer_anew(key, asked),
        Err(Starved) => answering.answer_starved(asked),
    }
}
