//! What is true of the rows of every file that is taken.
ghost use Rattle.hosts_sql.specs.Laws.{NumbersFit};

/// A host of a file that was taken has an epoch below 2^31, a state of 32 bits and a quota of at most all runs.
pub fn numbers_fit()
    ensures { NumbersFit }
{}
