//! A statement that makes a table, as the work of a transaction.
ghost use Rattle.hosts_sql.specs.Making.{MakesTable};
ghost use Rattle.hosts_sql.specs.Tables.{addresses_text};

use sql_transactions::TransactionBody;
use sqlite::{Alter, Error, Transaction};

/// The table of the hosts, with their quotas.
pub(crate) const HOSTS: &str =
    "CREATE TABLE hosts2 (name BLOB NOT NULL PRIMARY KEY, epoch INTEGER NOT NULL, seen INTEGER NOT NULL, quota INTEGER NOT NULL) STRICT";

/// The table of the addresses.
const ADDRESSES: &str =
    "CREATE TABLE addresses (name BLOB NOT NULL PRIMARY KEY, address TEXT NOT NULL) STRICT";

/// Makes the table that this text defines.
#[derive(Clone, Copy)]
pub(crate) struct Make<'a>(pub(crate) &'a str);

impl TransactionBody for Make<'_> {
    ghost works = { λ make. MakesTable make.0.now };

    fn run<S: Alter>(&self, tx: &mut Transaction<'_, S>) -> Result<(), Error> {
        match tx.execute(self.0, &[]) {
            Ok(_) => Ok(()),
            Err(error) => Err(error),
        }
    }
}

/// Makes the table of the addresses.
#[derive(Clone, Copy)]
pub(crate) struct MakeAddresses;

impl TransactionBody for MakeAddresses {
    ghost works = { λ _. MakesTable addresses_text };

    fn run<S: Alter>(&self, tx: &mut Transaction<'_, S>) -> Result<(), Error> {
        Make(ADDRESSES).run(tx)
    }
}
