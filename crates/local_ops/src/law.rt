//! A line has one reading.
ghost use Rattle.local_ops.specs.Grammar.{OneLine};

/// Whatever reads a line reads the same.
pub fn one_line()
    ensures { OneLine }
{}
