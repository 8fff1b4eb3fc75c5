//! Why a database isn't taken.
ghost use Rattle.std.specs.Prelude.{◌≡◌};
ghost use Rattle.hosts_sql.specs.Refused.{refusal_of};

use hosts_db::StoreError;
use sqlite::Error as SqlError;
use thiserror::Error;

/// Why a database of hosts isn't taken. Its text is for people: it has no number, and no line break but one that a name has.
#[derive(Debug, Drop, Error)]
pub enum AdoptError {
    /// There was no memory.
    #[error("out of memory")]
    Starved,
    /// The database can't be opened, as SQLite said.
    #[error("it can't be opened: {0}")]
    Unopened(SqlError),
    /// The connection has a transaction open.
    #[error("a transaction is open")]
    InTransaction,
    /// There is no table of this name.
    #[error("table {0} is missing")]
    MissingTable(&'static str),
    /// The table has more columns or fewer.
    #[error("table {table} has {found} columns, and {wanted} are wanted")]
    ColumnCount {
        table: &'static str,
        found: usize,
        wanted: usize,
    },
    /// The column of this name is missing in its place, or is of another type, or may be NULL, or has a DEFAULT or a collation.
    #[error("table {table} differs from what it should be in column {column}")]
    DifferentColumn {
        table: &'static str,
        column: &'static str,
    },
    /// The columns are right, and a key, a CHECK or an option of the table is not.
    #[error("table {0} differs from what it should be in its keys or options")]
    DifferentTable(&'static str),
    /// A table, an index or a view that is none of the hosts' and none of SQLite's own.
    #[error("there is a further object: {0}")]
    FurtherObject(String),
    /// The same, where there was no memory for its name.
    #[error("there is a further object")]
    UnnamedObject,
    /// The table can't be read, as SQLite said.
    #[error("table {table} can't be read: {error}")]
    Unread {
        table: &'static str,
        error: SqlError,
    },
    /// The table of the own state has another number of rows than one.
    #[error("table own has {0} rows, and one is wanted")]
    OwnRows(usize),
    /// The own state tells another version than the tables have.
    #[error("table own is of version {version}, and the tables are of version {wanted}")]
    UnknownVersion {
        version: u32,
        wanted: u32,
    },
    /// A value of this row is out of its range.
    #[error("in table {table} column {column} is out of range in the row with rowid {rowid}")]
    OutOfRange {
        table: &'static str,
        column: &'static str,
        rowid: i64,
    },
    /// A row is not of the types that its table asks for, or two have one rowid.
    #[error("table {0} has a row that it may not have")]
    UnsoundRows(&'static str),
    /// Two rows have one key.
    #[error("table {table} has the key of the row with rowid {rowid} twice")]
    Repeated {
        table: &'static str,
        rowid: i64,
    },
    /// There are more rows than a store may have.
    #[error("table {table} has more than {most} rows")]
    TooMany {
        table: &'static str,
        most: usize,
    },
}

impl AdoptError {
    /// What a store answers for it: `Starved` where there was no memory, and else `StoreRefused`.
    pub fn refusal(&self) -> StoreError
        ensures { result ≡ refusal_of self.now }
    {
        match self {
            AdoptError::Starved => StoreError::Starved,
            _ => StoreError::StoreRefused,
        }
    }
}
