//! Statements that are run in one transaction.
#![tactic(auto)]

ghost use Rattle.std.specs.Prelude.{◌≡◌, IsTrue, OnOk, OnErr};
ghost use Rattle.sqlite.specs.Values.{bound};
ghost use Rattle.sqlite.specs.Effect.{Database};
ghost use Rattle.sqlite.specs.State.{HasCleanDisk, KeepsCommit, Survives};
ghost use Rattle.sqlite.specs.Held.{state};
ghost use Rattle.sql_transactions.specs.Work.{Committed, MayWork, Ran, RanTwo, WorksInside};

use sqlite::types::ValueRef;
use sqlite::{Alter, Connection, Error, ErrorCode, Transaction};

/// What one transaction does. Where it fails, the last commit stays.
pub trait TransactionBody {
    ghost works: { Self → Database → Database → Type 0 };

    fn run<S: Alter>(&self, tx: &mut Transaction<'_, S>) -> Result<(), Error>
        ensures same_reference { tx.new.conn.ghost_name ≡ tx.old.conn.ghost_name }
        ensures ok { WorksInside result (works self.now) (state S.Store tx.old.conn.now) (state S.Store tx.new.conn.now) }
        ensures err { HasCleanDisk (state S.Store tx.new.conn.now) → IsTrue (state S.Store tx.old.conn.now).in_transaction → OnErr result (KeepsCommit (state S.Store tx.old.conn.now) (state S.Store tx.new.conn.now)) }
        ensures survives { Survives (state S.Store tx.old.conn.now) (state S.Store tx.new.conn.now) (λ _. ⊥) };
}

/// One statement, and its parameters.
#[derive(Clone, Copy)]
pub struct One<'a>(pub &'a str, pub &'a [ValueRef<'a>]);

impl TransactionBody for One<'_> {
    ghost works = { λ one. Ran one.0.now (bound one.1.now) };

    fn run<S: Alter>(&self, tx: &mut Transaction<'_, S>) -> Result<(), Error> {
        match tx.execute(self.0, self.1) {
            Ok(_) => Ok(()),
            Err(error) => Err(error),
        }
    }
}

/// One work behind the other.
#[derive(Clone, Copy)]
pub struct Then<A, B>(pub A, pub B);

impl<A: TransactionBody, B: TransactionBody> TransactionBody for Then<A, B> {
    ghost works = { λ then from to. (mid : Database) × A.works then.0 from mid × B.works then.1 mid to };

    fn run<S: Alter>(&self, tx: &mut Transaction<'_, S>) -> Result<(), Error> {
        self.0.run(tx)?;
        self.1.run(tx)
    }
}

/// Does this work in a transaction of its own.
pub fn transact<S: Alter, W: TransactionBody>(
    conn: &mut Connection<S>,
    work: &W,
) -> Result<(), Error>
    ensures ok { HasCleanDisk (state S.Store conn.new) → OnOk result (Committed (W.works work.now) (state S.Store conn.old) (state S.Store conn.new)) }
    ensures err { HasCleanDisk (state S.Store conn.new) → OnErr result (KeepsCommit (state S.Store conn.old) (state S.Store conn.new)) }
    ensures crash { Survives (state S.Store conn.old) (state S.Store conn.new) (MayWork (W.works work.now) (state S.Store conn.old)) }
{
    if !conn.is_autocommit() {
        return Err(Error::SqliteFailure(ErrorCode::TransactionState));
    }
    let mut tx = conn.transaction();
    work.run(&mut tx)?;
    tx.commit()
}

/// Runs a statement, in a transaction of its own.
pub fn run_one<S: Alter>(
    conn: &mut Connection<S>,
    sql: &str,
    params: &[ValueRef<'_>],
) -> Result<(), Error>
    ensures ok { HasCleanDisk (state S.Store conn.new) → OnOk result (Committed (Ran sql.now (bound params.now)) (state S.Store conn.old) (state S.Store conn.new)) }
    ensures err { HasCleanDisk (state S.Store conn.new) → OnErr result (KeepsCommit (state S.Store conn.old) (state S.Store conn.new)) }
    ensures crash { Survives (state S.Store conn.old) (state S.Store conn.new) (MayWork (Ran sql.now (bound params.now)) (state S.Store conn.old)) }
{
    transact(conn, &One(sql, params))
}

/// Runs two statements in one transaction.
pub fn run_two<S: Alter>(
    conn: &mut Connection<S>,
    first: &str,
    given: &[ValueRef<'_>],
    second: &str,
    more: &[ValueRef<'_>],
) -> Result<(), Error>
    ensures ok { HasCleanDisk (state S.Store conn.new) → OnOk result (Committed (RanTwo first.now (bound given.now) second.now (bound more.now)) (state S.Store conn.old) (state S.Store conn.new)) }
    ensures err { HasCleanDisk (state S.Store conn.new) → OnErr result (KeepsCommit (state S.Store conn.old) (state S.Store conn.new)) }
    ensures crash { Survives (state S.Store conn.old) (state S.Store conn.new) (MayWork (RanTwo first.now (bound given.now) second.now (bound more.now)) (state S.Store conn.old)) }
{
    transact(conn, &Then(One(first, given), One(second, more)))
}
