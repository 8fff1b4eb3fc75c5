//! Files of either schema, in SQL, a line for each step.

/// The tables of schema 2 with the own state 5, as sqlite3's command line makes them.
pub(crate) const SECOND: &str = "\
CREATE TABLE own (id INTEGER PRIMARY KEY CHECK (id = 1), version INTEGER NOT NULL, state INTEGER NOT NULL) STRICT
CREATE TABLE hosts2 (name BLOB NOT NULL PRIMARY KEY, epoch INTEGER NOT NULL, seen INTEGER NOT NULL, quota INTEGER NOT NULL) STRICT
CREATE TABLE watches (mon BLOB NOT NULL, my BLOB NOT NULL, prog INTEGER NOT NULL, vers INTEGER NOT NULL, proc INTEGER NOT NULL, priv BLOB NOT NULL, PRIMARY KEY (mon, my, prog, vers, proc)) STRICT
INSERT INTO own VALUES (1, 2, 5)
";

/// The tables of schema 1, as sqlite3's command line makes them.
pub(crate) const FIRST: &str = "\
CREATE TABLE own (id INTEGER PRIMARY KEY CHECK (id = 1), version INTEGER NOT NULL, state INTEGER NOT NULL) STRICT
CREATE TABLE hosts (name BLOB NOT NULL PRIMARY KEY, epoch INTEGER NOT NULL, seen INTEGER NOT NULL) STRICT
CREATE TABLE watches (mon BLOB NOT NULL, my BLOB NOT NULL, prog INTEGER NOT NULL, vers INTEGER NOT NULL, proc INTEGER NOT NULL, priv BLOB NOT NULL, PRIMARY KEY (mon, my, prog, vers, proc)) STRICT
";
